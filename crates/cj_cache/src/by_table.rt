//! Statements by the tables that they need, so that a change finds those of its tables without a walk over all.

ghost use Rattle.std.specs.Prelude.{◌≡◌, true, false, ⊤, All, OnOk};
ghost use Rattle.cj_model.specs.Proving.SameStatements.{same_statement};
ghost use Rattle.cj_cache.specs.Proving.ByTable.{StillLists, lists};

use cj_model::{Duplicate, Name, NoMemory, Select};
use indexmap::IndexSet;
use std::alloc::Global;
use std::collections::HashMap;

/// The statements listed under each table. No list stays empty.
pub type ByTable = HashMap<Name, IndexSet<Select>>;

fn list_under(
    by_table: &mut ByTable,
    alloc: Global,
    table: &Name,
    select: &Select,
) -> Result<(), NoMemory>
    ensures listed { OnOk result (lists by_table.new table.now select.now ≡ true) }
    ensures others { StillLists (λ _. ⊤) by_table.old by_table.new }
{
    let copy = select.copy(alloc)?;
    match by_table.get_mut(table) {
        Some(statements) => {
            statements.insert(copy)?;
        }
        None => {
            let mut statements = IndexSet::new(alloc);
            statements.insert(copy)?;
            by_table.insert(table.copy(), statements)?;
        }
    }
    Ok(())
}

/// Lists a statement under each of its tables. Out of memory may leave it listed under some of them.
pub fn list(by_table: &mut ByTable, alloc: Global, select: &Select) -> Result<(), NoMemory>
    ensures listed { OnOk result (All (λ table. lists by_table.new table select.now ≡ true) select.now.tables) }
    ensures others { StillLists (λ _. ⊤) by_table.old by_table.new }
{
    for table in select.tables.as_slice() {
        list_under(by_table, alloc, table, select)?;
    }
    Ok(())
}

fn unlist_under(by_table: &mut ByTable, table: &Name, select: &Select)
    ensures { StillLists (λ s. same_statement select.now s ≡ false) by_table.old by_table.new }
{
    let Some(statements) = by_table.get_mut(table) else {
        return;
    };
    statements.swap_remove(select);
    if statements.is_empty() {
        by_table.remove(table);
    }
}

/// Removes a statement from the lists of its tables; others stay listed.
pub fn unlist(by_table: &mut ByTable, select: &Select)
    ensures { StillLists (λ s. same_statement select.now s ≡ false) by_table.old by_table.new }
{
    for table in select.tables.as_slice() {
        unlist_under(by_table, table, select);
    }
}
