//! Tables with their drafts in a dump.

ghost use Rattle.std.specs.Prelude.{◌≡◌, option_copied, option_map};
ghost use Rattle.cj_model.specs.Database.Tables as tables;
ghost use Rattle.cj_dump.specs.DumpLayout.{last_of};
ghost use Rattle.cj_dump.specs.DumpLayout as layouts;
ghost use Rattle.cj_dump.specs.Layouts.{TakesOff};

use crate::error::DumpError;
use crate::fields::{take_flag, take_tx, take_u64};
use crate::part::{Part, take_parts};
use crate::rows::take_rows;
use crate::schema::take_schema;
use cj_codec::Reader;
use cj_model::{Db, Draft, Duplicate, Name, Schema, Slot, Table};
use std::alloc::Global;

/// A table with its draft.
#[derive(Drop)]
struct SlotPart;

/// The name of the last table.
fn last_table(slots: &[Slot]) -> Option<&Name>
    ensures { option_copied result ≡ option_map tables.table_of (last_of slots.now) }
{
    match slots.last() {
        Some(slot) => Some(&slot.base.schema.table),
        None => None,
    }
}

/// Takes the draft of a table of this schema, if there is one.
fn take_draft(
    schema: &Schema,
    reader: &mut Reader<'_>,
    alloc: Global,
) -> Result<Option<Draft>, DumpError>
    ensures { TakesOff (layouts.draft schema.now) reader.old reader.new result }
{
    let is_drafted = take_flag(reader)?;
    if !is_drafted {
        return Ok(None);
    }
    let tx = take_tx(reader)?;
    let rows = take_rows(schema, reader, alloc)?;
    let schema = schema.copy(alloc)?;
    Ok(Some(Draft {
        tx,
        table: Table { schema, rows },
    }))
}

impl Part for SlotPart {
    type Item = Slot;

    ghost layout = { λ _ before. layouts.slot before };

    fn take(
        &self,
        before: &[Slot],
        reader: &mut Reader<'_>,
        alloc: Global,
    ) -> Result<Slot, DumpError> {
        let schema = take_schema(last_table(before), reader, alloc)?;
        let rows = take_rows(&schema, reader, alloc)?;
        let draft = take_draft(&schema, reader, alloc)?;
        Ok(Slot {
            base: Table { schema, rows },
            draft,
        })
    }
}

/// Takes the tables of a dump with their drafts, by rising name.
pub fn take_slots(reader: &mut Reader<'_>, alloc: Global) -> Result<Db, DumpError>
    ensures { TakesOff layouts.slots reader.old reader.new result }
{
    let count = take_u64(reader)?;
    take_parts(&SlotPart, count, reader, alloc)
}
