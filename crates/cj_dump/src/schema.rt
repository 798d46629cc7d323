//! Schemas in a dump.

ghost use Rattle.std.specs.Prelude.{option_copied};
ghost use Rattle.cj_dump.specs.DumpLayout as layouts;
ghost use Rattle.cj_dump.specs.Layouts.{TakesOff};

use crate::error::DumpError;
use crate::fields::{take_column_count, take_column_name, take_key, take_kind, take_table};
use crate::part::{Part, take_parts};
use cj_codec::Reader;
use cj_model::{Column, Columns, Name, Schema};
use std::alloc::Global;

/// A column of a table.
#[derive(Drop)]
struct ColumnPart;

impl Part for ColumnPart {
    type Item = Column;

    ghost layout = { λ _ before. layouts.column before };

    fn take(
        &self,
        before: &[Column],
        reader: &mut Reader<'_>,
        _alloc: Global,
    ) -> Result<Column, DumpError> {
        let name = take_column_name(before, reader)?;
        let kind = take_kind(reader)?;
        Ok(Column { name, kind })
    }
}

fn take_columns(reader: &mut Reader<'_>, alloc: Global) -> Result<Columns, DumpError>
    ensures { TakesOff layouts.columns reader.old reader.new result }
{
    let count = take_column_count(reader)?;
    take_parts(&ColumnPart, u64::from(count), reader, alloc)
}

/// Takes the schema of a table, whose name is greater than the one before.
pub fn take_schema(
    before: Option<&Name>,
    reader: &mut Reader<'_>,
    alloc: Global,
) -> Result<Schema, DumpError>
    ensures { TakesOff (layouts.schema (option_copied before.entry)) reader.old reader.new result }
{
    let table = take_table(before, reader)?;
    let columns = take_columns(reader, alloc)?;
    let key = take_key(columns.as_slice(), reader)?;
    Ok(Schema {
        table,
        columns,
        key,
    })
}
