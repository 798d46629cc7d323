//! Whether what SQLite holds can be stored.

ghost use Rattle.std.specs.Prelude.{◌≡◌, true, All, None, map};
ghost use Rattle.cj_model.specs.Sql.Lexical as lexical;
ghost use Rattle.cj_model.specs.Sql.Literals.{IsConstant};
ghost use Rattle.cj_model.specs.Sql.Names as names;
ghost use Rattle.cj_model.specs.Database.Storable as storable;

use cj_model::{
    Columns, Draft, KEYWORDS, Keyword, Name, Row, Rows, Slot, TEXT_LIMIT, Table, Value,
};

/// The reserved word of a name, if it is one.
fn reserved_in(mut table: &[(&[u8], Keyword)], name: &Name) -> Option<Keyword>
    ensures { result ≡ lexical.find_keyword (map (λ entry. (entry.0.now, entry.1)) table.entry.now) name.now }
{
    while let [entry, rest @ ..] = table {
        if entry.0 == name.as_slice() {
            return Some(entry.1);
        }
        table = rest;
    }
    None
}

#[tactic(auto, unfolding(cj_model::specs::Sql::Lexical::keyword))]
fn is_unreserved(name: &Name) -> bool
    ensures { result ≡ true → lexical.keyword name.now ≡ None }
{
    match reserved_in(&KEYWORDS, name) {
        None => true,
        Some(_) => false,
    }
}

/// Whether the name is not empty.
fn is_name(name: &Name) -> bool
    ensures { result ≡ true → names.is_name name.now ≡ true }
{
    match name.as_slice() {
        [] => false,
        [_, ..] => true,
    }
}

fn is_free(name: &Name) -> bool
    ensures { result ≡ true → storable.IsFreeName name.now }
{
    is_name(name) && is_unreserved(name)
}

fn is_constant(value: &Value) -> bool
    ensures { result ≡ true → IsConstant value.now }
{
    match value {
        Value::Int(number) => {
            // Reading the number tells that it has 64 bits.
            let _number = *number;
            true
        }
        Value::Text(text) => text.as_text().as_slice().len() <= TEXT_LIMIT,
    }
}

fn are_constants(row: &Row) -> bool
    ensures { result ≡ true → All IsConstant row.now }
{
    row.as_slice().iter().all(is_constant)
}

fn have_constants(rows: &Rows) -> bool
    ensures { result ≡ true → All (λ row. All IsConstant row) rows.now }
{
    rows.as_slice().iter().all(are_constants)
}

fn have_free_names(columns: &Columns) -> bool
    ensures { result ≡ true → All (λ column. storable.IsFreeName column.name) columns.now }
{
    columns
        .as_slice()
        .iter()
        .all(|column| is_free(&column.name))
}

fn is_storable_table(table: &Table) -> bool
    ensures { result ≡ true → storable.IsStorableTable table.now }
{
    is_free(&table.schema.table)
        && have_free_names(&table.schema.columns)
        && have_constants(&table.rows)
}

fn is_storable_slot(slot: &Slot) -> bool
    ensures { result ≡ true → storable.IsStorableSlot slot.now }
{
    if !is_storable_table(&slot.base) {
        return false;
    }
    match &slot.draft {
        Some(Draft { table, .. }) => is_storable_table(table),
        None => true,
    }
}

/// Whether no name is reserved, and each value can be written as a constant.
pub fn are_storable(slots: &[Slot]) -> bool
    ensures { result ≡ true → All storable.IsStorableSlot slots.now }
{
    slots.iter().all(is_storable_slot)
}
