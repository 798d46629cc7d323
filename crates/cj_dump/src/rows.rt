//! Rows in a dump.

ghost use Rattle.std.specs.Prelude.{◌≡◌, option_copied};
ghost use Rattle.cj_model.specs.Database.Tables as tables;
ghost use Rattle.cj_dump.specs.DumpLayout as layouts;
ghost use Rattle.cj_dump.specs.Layouts.{TakesOff};

use crate::error::DumpError;
use crate::fields::take_row_count;
use crate::part::{Part, take_parts};
use cj_codec::Reader;
use cj_model::{Column, Kind, Row, Rows, Schema, Value};
use std::alloc::Global;

/// A value of a row.
#[derive(Drop)]
struct ValuePart<'a> {
    schema: &'a Schema,
    /// The key of the row before.
    last: Option<&'a Value>,
}

/// A row of a table.
#[derive(Drop)]
struct RowPart<'a> {
    schema: &'a Schema,
}

fn same_kind(a: Kind, b: Kind) -> bool
    ensures { result ≡ tables.same_kind a b }
{
    match (a, b) {
        (Kind::Integer, Kind::Integer) | (Kind::Text, Kind::Text) => true,
        _ => false,
    }
}

/// Whether the value is of the kind of the column at a place.
fn is_of_column(columns: &[Column], place: usize, value: &Value) -> bool
    ensures { result ≡ layouts.is_of_column columns.now place value.now }
{
    match columns.get(place) {
        Some(column) => same_kind(column.kind, value.kind()),
        None => false,
    }
}

/// Whether the key is greater than the last one, if there is one.
fn key_rises(last: Option<&Value>, value: &Value) -> bool
    ensures { result ≡ layouts.key_rises (option_copied last.entry) value.now }
{
    match last {
        Some(last) => last < value,
        None => true,
    }
}

/// The value at the key's place of the last row.
fn last_key(rows: &[Row], key: u16) -> Option<&Value>
    ensures { option_copied result ≡ layouts.last_key key rows.now }
{
    match rows.last() {
        Some(row) => row.as_slice().get(usize::from(key)),
        None => None,
    }
}

impl<'a> Part for ValuePart<'a> {
    type Item = Value;

    ghost layout = { λ part before. layouts.row_value part.schema.now (option_copied part.last) before };

    fn take(
        &self,
        before: &[Value],
        reader: &mut Reader<'_>,
        alloc: Global,
    ) -> Result<Value, DumpError> {
        let start = reader.offset();
        let place = before.len();
        let value = reader.value(alloc)?;
        if !is_of_column(self.schema.columns.as_slice(), place, &value) {
            return Err(DumpError::BadField(start));
        }
        if place == usize::from(self.schema.key) && !key_rises(self.last, &value) {
            return Err(DumpError::Order(start));
        }
        Ok(value)
    }
}

impl<'a> Part for RowPart<'a> {
    type Item = Row;

    ghost layout = { λ part before. layouts.row part.schema.now before };

    fn take(
        &self,
        before: &[Row],
        reader: &mut Reader<'_>,
        alloc: Global,
    ) -> Result<Row, DumpError> {
        let part = ValuePart {
            schema: self.schema,
            last: last_key(before, self.schema.key),
        };
        take_parts(&part, self.schema.columns.len() as u64, reader, alloc)
    }
}

/// Takes the rows of a table, by rising key.
pub fn take_rows(schema: &Schema, reader: &mut Reader<'_>, alloc: Global) -> Result<Rows, DumpError>
    ensures { TakesOff (layouts.rows schema.now) reader.old reader.new result }
{
    let count = take_row_count(reader)?;
    take_parts(&RowPart { schema }, count, reader, alloc)
}
