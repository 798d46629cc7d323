//! Invalidation: which tables an entry touches. The cache drops the answers whose queries need one of them.

ghost use Rattle.std.specs.Prelude.{List, ℕ, ◌≡◌, ◌↔◌, ◌≤◌, ◌<◌, ◌||◌, false, length, option_copied, take, IfOk, OnOk, Some};
ghost use Rattle.std.specs.Option.{option_map_or};
ghost use Rattle.std.specs.Str.{bytes_eq};
ghost use Rattle.cj_cluster.specs.History.Histories.{log};
ghost use Rattle.cj_cluster.specs.History.Transactions.{has_written};
ghost use Rattle.cj_cluster.specs.History.Freshness as freshness;
ghost use Rattle.cj_cluster.specs.History.Freshness.{NoneTouches, touches_behind};
ghost use Rattle.cj_book.specs.Touching.{has_table, is_written_in};

use crate::book::Book;
use cj_model::{Act, Entry, Name, NoMemory, Select, TableSet};
use cj_usage::{lone, written};
use std::alloc::Global;

/// Returns the table that the entry writes in transaction `tx`. None if the entry writes none in it.
fn written_by(entry: &Entry, tx: u64) -> Option<&Name>
    ensures { (table : List ℕ) → option_map_or (λ name. bytes_eq name table) (option_copied result) false ≡ is_written_in tx table (Some entry.now) }
{
    match &entry.act {
        Act::Write(_) if entry.tx == tx => written(&entry.act),
        _ => None,
    }
}

/// Adds the table that the entry writes in transaction `tx` to the set. Nothing is added if there is none.
fn add_written(tables: &mut TableSet, entry: Option<&Entry>, tx: u64) -> Result<(), NoMemory>
    ensures { OnOk result ((table : List ℕ) → has_table tables.new table ≡ (is_written_in tx table (option_copied entry.entry) || has_table tables.old table)) }
{
    let Some(entry) = entry else {
        return Ok(());
    };
    let Some(table) = written_by(entry, tx) else {
        return Ok(());
    };
    tables.insert(table)?;
    Ok(())
}

/// The tables that a transaction writes in the entries up to `end`. They stand behind its BEGIN, whose number it has.
fn written_in(book: &Book, alloc: Global, end: u64, tx: u64) -> Result<TableSet, NoMemory>
    requires { end ≤ length (log book.now.state.history) }
    ensures { IfOk result (λ set. (table : List ℕ) → has_table set table ≡ has_written table tx (take end (log book.now.state.history))) }
{
    book.legal();
    let mut tables = TableSet::new(alloc);
    for n in tx..end {
        add_written(&mut tables, book.entry_of(n as usize), tx)?;
    }
    Ok(tables)
}

/// The tables that an act of a transaction, 0 for none, touches behind the entries up to `end`.
pub fn touched_behind(
    book: &Book,
    alloc: Global,
    end: u64,
    tx: u64,
    act: &Act,
) -> Result<TableSet, NoMemory>
    requires { end ≤ length (log book.now.state.history) }
    ensures { IfOk result (λ set. (table : List ℕ) → has_table set table ≡ touches_behind (take end (log book.now.state.history)) tx act.now table) }
{
    match act {
        Act::Write(_) if tx != 0 => Ok(TableSet::new(alloc)),
        Act::Commit => written_in(book, alloc, end, tx),
        _ => match written(act) {
            Some(table) => lone(alloc, table),
            None => Ok(TableSet::new(alloc)),
        },
    }
}

/// The tables that entry `n + 1` of the log touches.
pub fn touched_by(book: &Book, alloc: Global, n: u64) -> Result<TableSet, NoMemory>
    requires { n < length (log book.now.state.history) }
    ensures { IfOk result (λ set. (table : List ℕ) → has_table set table ≡ freshness.touches (log book.now.state.history) n table) }
{
    match book.entry_of(n as usize) {
        Some(entry) => touched_behind(book, alloc, n, entry.tx, &entry.act),
        None => Ok(TableSet::new(alloc)),
    }
}

/// Whether entry `n + 1` of the log touches a table that the query needs.
fn touches_query(book: &Book, alloc: Global, n: u64, select: &Select) -> Result<bool, NoMemory>
    requires { n < length (log book.now.state.history) }
    ensures { IfOk result (λ touches. touches ≡ freshness.touches_query (log book.now.state.history) n select.now) }
{
    match book.entry_of(n as usize) {
        Some(entry) => {
            let set = touched_behind(book, alloc, n, entry.tx, &entry.act)?;
            Ok(
                select
                    .tables
                    .as_slice()
                    .iter()
                    .any(|table| set.contains(table)),
            )
        }
        None => Ok(false),
    }
}

/// Whether an entry behind a position of the log touches a table that the query needs.
pub fn is_touched_behind(
    book: &Book,
    alloc: Global,
    at: u64,
    select: &Select,
) -> Result<bool, NoMemory>
    requires { at ≤ length (log book.now.state.history) }
    ensures { IfOk result (λ touched. (touched ≡ false) ↔ NoneTouches (log book.now.state.history) at (length (log book.now.state.history)) select.now) }
{
    for n in at..book.length() {
        if touches_query(book, alloc, n, select)? {
            return Ok(true);
        }
    }
    Ok(false)
}
