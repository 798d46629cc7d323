//! Statements.

ghost use Rattle.std.specs.Prelude.{◌≡◌, ◌++◌, codes, IfOk, OnOk};
ghost use Rattle.cj_model.specs.declared.request.Request.TheVariants as request;
ghost use Rattle.cj_print.specs.Ascii.{IsAsciiText};
ghost use Rattle.cj_print.specs.Canonical.{
  canonical,
  group_text,
  items_text,
  limit_text,
  list_text,
  order_text,
  select_text,
  separated,
  set_text,
  tuple_text,
  where_text,
  coldef_text,
  write_text,
};

use crate::buffer::TextBuffer;
use crate::condition::append_where;
use crate::literal::write_count;
use crate::part::{Part, append_separated};
use cj_model::{
    ColDefs, ColRef, Cond, Create, Items, Key, Name, Names, NoMemory, Request, Select, Sets, Text,
    Tuples, Write,
};
use std::alloc::Global;

/// Appends the list of an INSERT's columns, if there is one.
fn append_list(alloc: Global, text: &mut TextBuffer, names: &Option<Names>) -> Result<(), NoMemory>
    ensures { OnOk result (text.new ≡ text.old ++ list_text names.now) }
{
    if let Some(names) = names {
        text.push_ascii(b" (")?;
        append_separated(alloc, text, names.as_slice())?;
        text.push_ascii(b")")?;
    }
    Ok(())
}

/// Appends a statement's first words and the table's name.
fn append_head(text: &mut TextBuffer, words: &[u8], table: &Name) -> Result<(), NoMemory>
    requires { IsAsciiText words.now }
    ensures { OnOk result (text.new ≡ text.old ++ (words.now ++ table.now)) }
{
    text.push_ascii(words)?;
    text.push_name(table)?;
    Ok(())
}

fn append_insert(
    alloc: Global,
    text: &mut TextBuffer,
    columns: &Option<Names>,
    rows: &Tuples,
) -> Result<(), NoMemory>
    ensures { OnOk result (text.new ≡ text.old ++ (list_text columns.now ++ codes " VALUES " ++ separated tuple_text rows.now)) }
{
    append_list(alloc, text, columns)?;
    text.push_ascii(b" VALUES ")?;
    append_separated(alloc, text, rows.as_slice())
}

fn append_update(
    alloc: Global,
    text: &mut TextBuffer,
    sets: &Sets,
    cond: &Option<Cond>,
) -> Result<(), NoMemory>
    ensures { OnOk result (text.new ≡ text.old ++ (codes " SET " ++ separated set_text sets.now ++ where_text cond.now)) }
{
    text.push_ascii(b" SET ")?;
    append_separated(alloc, text, sets.as_slice())?;
    append_where(alloc, text, cond)
}

fn append_write(alloc: Global, text: &mut TextBuffer, write: &Write) -> Result<(), NoMemory>
    ensures { OnOk result (text.new ≡ text.old ++ write_text write.now) }
{
    match write {
        Write::Insert {
            table,
            columns,
            rows,
        } => {
            append_head(text, b"INSERT INTO ", table)?;
            append_insert(alloc, text, columns, rows)
        }
        Write::Update { table, sets, cond } => {
            append_head(text, b"UPDATE ", table)?;
            append_update(alloc, text, sets, cond)
        }
        Write::Delete { table, cond } => {
            append_head(text, b"DELETE FROM ", table)?;
            append_where(alloc, text, cond)
        }
    }
}

fn append_items(alloc: Global, text: &mut TextBuffer, items: &Items) -> Result<(), NoMemory>
    ensures { OnOk result (text.new ≡ text.old ++ items_text items.now) }
{
    match items {
        Items::All => {
            text.push_ascii(b"*")?;
            Ok(())
        }
        Items::Listed(items) => append_separated(alloc, text, items.as_slice()),
    }
}

fn append_group(
    alloc: Global,
    text: &mut TextBuffer,
    group: &Option<ColRef>,
) -> Result<(), NoMemory>
    ensures { OnOk result (text.new ≡ text.old ++ group_text group.now) }
{
    if let Some(column) = group {
        text.push_ascii(b" GROUP BY ")?;
        column.append(alloc, text)?;
    }
    Ok(())
}

fn append_order(alloc: Global, text: &mut TextBuffer, keys: &[Key]) -> Result<(), NoMemory>
    ensures { OnOk result (text.new ≡ text.old ++ order_text keys.now) }
{
    match keys {
        [] => Ok(()),
        [_, ..] => {
            text.push_ascii(b" ORDER BY ")?;
            append_separated(alloc, text, keys)
        }
    }
}

fn append_limit(alloc: Global, text: &mut TextBuffer, limit: Option<u64>) -> Result<(), NoMemory>
    ensures { OnOk result (text.new ≡ text.old ++ limit_text limit) }
{
    if let Some(most) = limit {
        text.push_ascii(b" LIMIT ")?;
        text.push_text(&write_count(alloc, most)?)?;
    }
    Ok(())
}

fn append_select(alloc: Global, text: &mut TextBuffer, select: &Select) -> Result<(), NoMemory>
    ensures { OnOk result (text.new ≡ text.old ++ select_text select.now) }
{
    text.push_ascii(b"SELECT ")?;
    append_items(alloc, text, &select.items)?;
    text.push_ascii(b" FROM ")?;
    append_separated(alloc, text, select.tables.as_slice())?;
    append_where(alloc, text, &select.cond)?;
    append_group(alloc, text, &select.group)?;
    append_order(alloc, text, select.order.as_slice())?;
    append_limit(alloc, text, select.limit)
}

fn append_columns(alloc: Global, text: &mut TextBuffer, columns: &ColDefs) -> Result<(), NoMemory>
    ensures { OnOk result (text.new ≡ text.old ++ (codes " (" ++ separated coldef_text columns.now ++ codes ")")) }
{
    text.push_ascii(b" (")?;
    append_separated(alloc, text, columns.as_slice())?;
    text.push_ascii(b")")?;
    Ok(())
}

fn append_create(alloc: Global, text: &mut TextBuffer, create: &Create) -> Result<(), NoMemory>
    ensures { OnOk result (text.new ≡ text.old ++ canonical (request.Create create.now)) }
{
    append_head(text, b"CREATE TABLE ", &create.table)?;
    append_columns(alloc, text, &create.columns)
}

/// The canonical text of a request. If some text reads as the request, this one does. Fails only with
/// `NoMemory`.
pub fn write_sql(alloc: Global, request: &Request) -> Result<Text, NoMemory>
    ensures { IfOk result (λ text. text ≡ canonical request.now) }
{
    let mut text = TextBuffer::new(alloc);
    match request {
        Request::Select(select) => append_select(alloc, &mut text, select)?,
        Request::Write(write) => append_write(alloc, &mut text, write)?,
        Request::Create(create) => append_create(alloc, &mut text, create)?,
        Request::Drop(table) => append_head(&mut text, b"DROP TABLE ", table)?,
        Request::Begin => text.push_ascii(b"BEGIN")?,
        Request::Commit => text.push_ascii(b"COMMIT")?,
        Request::Rollback => text.push_ascii(b"ROLLBACK")?,
    }
    Ok(text.into_text())
}
