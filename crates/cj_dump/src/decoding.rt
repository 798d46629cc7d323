//! The dump of bytes.

ghost use Rattle.std.specs.Prelude.{◌≡◌, [], IfOk, fold};
ghost use Rattle.cj_model.specs.Database.Tables.{name_cmp, put_by};
ghost use Rattle.cj_dump.specs.DumpLayout as layouts;
ghost use Rattle.cj_dump.specs.Dumps.{Decodes};
ghost use Rattle.cj_dump.specs.Layouts.{TakesOff};

use crate::dump::Dump;
use crate::error::DumpError;
use crate::fields::{take_byte, take_covered, take_covers_count, take_flag, take_name, take_u64};
use crate::part::{Part, take_parts};
use crate::slots::take_slots;
use cj_codec::Reader;
use cj_model::{Name, NoMemory, TableSet};
use std::alloc::Global;

/// A name that is covered.
#[derive(Drop)]
struct CoveredPart;

impl Part for CoveredPart {
    type Item = Name;

    ghost layout = { λ _ before. layouts.covered before };

    fn take(
        &self,
        before: &[Name],
        reader: &mut Reader<'_>,
        _alloc: Global,
    ) -> Result<Name, DumpError> {
        take_covered(before.last(), reader)
    }
}

/// Returns the names as a set.
fn table_set(alloc: Global, names: &[Name]) -> Result<TableSet, NoMemory>
    ensures { IfOk result (λ set. set ≡ fold (put_by name_cmp) [] names.now) }
{
    let mut set = TableSet::new(alloc);
    for name in names {
        set.insert(name)?;
    }
    Ok(set)
}

/// Takes the names covered, in rising order.
fn take_covers(all: bool, reader: &mut Reader<'_>, alloc: Global) -> Result<TableSet, DumpError>
    ensures { TakesOff (layouts.covers all) reader.old reader.new result }
{
    let count = take_covers_count(all, reader)?;
    let names = take_parts(&CoveredPart, count, reader, alloc)?;
    Ok(table_set(alloc, names.as_slice())?)
}

fn take_dump(reader: &mut Reader<'_>, alloc: Global) -> Result<Dump, DumpError>
    ensures { TakesOff layouts.dump reader.old reader.new result }
{
    let position = take_u64(reader)?;
    let source = take_byte(reader)?;
    let name = take_name(reader)?;
    let all = take_flag(reader)?;
    let covers = take_covers(all, reader, alloc)?;
    let db = take_slots(reader, alloc)?;
    Ok(Dump {
        position,
        source,
        name,
        all,
        covers,
        db,
    })
}

/// Returns the dump of these bytes (docs/FORMATS.md). `Cut`, `BadField` and `Order` come exactly if
/// the bytes are no dump's, with the offset of the first field at fault. Offsets count from 0.
pub fn decode(alloc: Global, bytes: &[u8]) -> Result<Dump, DumpError>
    ensures { Decodes bytes.now result }
{
    let mut reader = Reader::new(bytes);
    let dump = take_dump(&mut reader, alloc)?;
    if !reader.is_at_end() {
        return Err(DumpError::BadField(reader.offset()));
    }
    Ok(dump)
}
