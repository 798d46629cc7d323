//! The fields of a dump.

ghost use Rattle.std.specs.Prelude.{◌≡◌, map, option_copied, true};
ghost use Rattle.std.specs.Option.{option_map_or};
ghost use Rattle.std.specs.Ordering.{is_lt};
ghost use Rattle.cj_model.specs.Database.Tables.{name_cmp};
ghost use Rattle.cj_model.specs.Sql.Lexical as lexical;
ghost use Rattle.cj_codec.specs.Fields as fields;
ghost use Rattle.cj_dump.specs.DumpLayout as layouts;
ghost use Rattle.cj_dump.specs.Layouts.{TakesOff, field, rising_field};

use crate::error::DumpError;
use cj_codec::Reader;
use cj_model::{COLUMN_LIMIT, Column, KEYWORDS, Keyword, Kind, Name, ROW_LIMIT};
use std::cmp::Ordering;

/// Takes a byte.
pub fn take_byte(reader: &mut Reader<'_>) -> Result<u8, DumpError>
    ensures { TakesOff (field fields.byte) reader.old reader.new result }
{
    Ok(reader.u8()?)
}

/// Takes a number of 64 bits.
pub fn take_u64(reader: &mut Reader<'_>) -> Result<u64, DumpError>
    ensures { TakesOff (field fields.number64) reader.old reader.new result }
{
    Ok(reader.u64()?)
}

/// Takes a name.
pub fn take_name(reader: &mut Reader<'_>) -> Result<Name, DumpError>
    ensures { TakesOff (field fields.name) reader.old reader.new result }
{
    Ok(reader.name()?)
}

/// Takes a byte that says yes (1) or no (0). Any other byte is `BadField`.
pub fn take_flag(reader: &mut Reader<'_>) -> Result<bool, DumpError>
    ensures { TakesOff (field layouts.flag) reader.old reader.new result }
{
    let start = reader.offset();
    let byte = reader.u8()?;
    if byte > 1 {
        return Err(DumpError::BadField(start));
    }
    Ok(byte == 1)
}

/// Takes the number of names covered. Any but 0 is `BadField` if the dump covers all tables.
pub fn take_covers_count(all: bool, reader: &mut Reader<'_>) -> Result<u64, DumpError>
    ensures { TakesOff (field (layouts.covers_count all)) reader.old reader.new result }
{
    let start = reader.offset();
    let count = reader.u64()?;
    if all && count != 0 {
        return Err(DumpError::BadField(start));
    }
    Ok(count)
}

/// Takes the number of columns. 0 is `BadField`, and so is a number above `COLUMN_LIMIT`.
pub fn take_column_count(reader: &mut Reader<'_>) -> Result<u16, DumpError>
    ensures { TakesOff (field layouts.column_count) reader.old reader.new result }
{
    let start = reader.offset();
    let count = reader.u16()?;
    if count == 0 || usize::from(count) > COLUMN_LIMIT {
        return Err(DumpError::BadField(start));
    }
    Ok(count)
}

/// Takes the index of the key column, counted from 0. An index beyond the columns is `BadField`.
pub fn take_key(columns: &[Column], reader: &mut Reader<'_>) -> Result<u16, DumpError>
    ensures { TakesOff (layouts.key columns.now) reader.old reader.new result }
{
    let start = reader.offset();
    let place = reader.u16()?;
    if usize::from(place) >= columns.len() {
        return Err(DumpError::BadField(start));
    }
    Ok(place)
}

/// Takes the number of rows. A number above `ROW_LIMIT` is `BadField`.
pub fn take_row_count(reader: &mut Reader<'_>) -> Result<u64, DumpError>
    ensures { TakesOff (field layouts.row_count) reader.old reader.new result }
{
    let start = reader.offset();
    let count = reader.u64()?;
    if count > ROW_LIMIT as u64 {
        return Err(DumpError::BadField(start));
    }
    Ok(count)
}

/// Takes the transaction of a draft. 0 is `BadField`.
pub fn take_tx(reader: &mut Reader<'_>) -> Result<u64, DumpError>
    ensures { TakesOff (field layouts.transaction) reader.old reader.new result }
{
    let start = reader.offset();
    let tx = reader.u64()?;
    if tx == 0 {
        return Err(DumpError::BadField(start));
    }
    Ok(tx)
}

/// Takes the kind of a column: 1 is an integer, 2 a text. Any other byte is `BadField`.
pub fn take_kind(reader: &mut Reader<'_>) -> Result<Kind, DumpError>
    ensures { TakesOff (field layouts.kind) reader.old reader.new result }
{
    let start = reader.offset();
    match reader.u8()? {
        1 => Ok(Kind::Integer),
        2 => Ok(Kind::Text),
        _ => Err(DumpError::BadField(start)),
    }
}

/// The reserved word of a name, if it is one.
fn reserved_in(mut table: &[(&[u8], Keyword)], name: &Name) -> Option<Keyword>
    ensures { result ≡ lexical.find_keyword (map (λ entry. (entry.0.now, entry.1)) table.entry.now) name.now }
{
    while let [entry, rest @ ..] = table {
        if entry.0 == name.as_slice() {
            return Some(entry.1);
        }
        table = rest;
    }
    None
}

#[tactic(auto, unfolding(cj_model::specs::Sql::Lexical::keyword))]
fn is_free(name: &Name) -> bool
    ensures { result ≡ layouts.is_free name.now }
{
    reserved_in(&KEYWORDS, name).is_none()
}

fn is_named(columns: &[Column], name: &Name) -> bool
    ensures { result ≡ layouts.is_named columns.now name.now }
{
    columns.iter().any(|column| column.name.is(name))
}

/// Whether the name is free and no column before has it.
fn is_new(before: &[Column], name: &Name) -> bool
    ensures { result ≡ layouts.is_new before.now name.now }
{
    is_free(name) && !is_named(before, name)
}

/// Takes the name of a column. A reserved word is `BadField`, and so is the name of a column
/// before.
pub fn take_column_name(before: &[Column], reader: &mut Reader<'_>) -> Result<Name, DumpError>
    ensures { TakesOff (field (layouts.column_name before.now)) reader.old reader.new result }
{
    let start = reader.offset();
    let name = reader.name()?;
    if !is_new(before, &name) {
        return Err(DumpError::BadField(start));
    }
    Ok(name)
}

/// Whether the name is greater than the last one, if there is one.
fn rises(last: Option<&Name>, name: &Name) -> bool
    ensures { result ≡ option_map_or (λ before. is_lt (name_cmp before name.now)) (option_copied last.entry) true }
{
    match last {
        Some(last) => matches!(last.as_slice().cmp(name.as_slice()), Ordering::Less),
        None => true,
    }
}

/// Takes a name of the set that the dump covers. A name not above the last one is `Order`.
pub fn take_covered(last: Option<&Name>, reader: &mut Reader<'_>) -> Result<Name, DumpError>
    ensures { TakesOff (rising_field fields.name (layouts.rises_above (option_copied last.entry))) reader.old reader.new result }
{
    let start = reader.offset();
    let name = reader.name()?;
    if !rises(last, &name) {
        return Err(DumpError::Order(start));
    }
    Ok(name)
}

/// Takes the name of a table. A reserved word is `BadField`, and a name not above the last one is
/// `Order`.
pub fn take_table(last: Option<&Name>, reader: &mut Reader<'_>) -> Result<Name, DumpError>
    ensures { TakesOff (rising_field layouts.free_name (layouts.rises_above (option_copied last.entry))) reader.old reader.new result }
{
    let start = reader.offset();
    let name = reader.name()?;
    if !is_free(&name) {
        return Err(DumpError::BadField(start));
    }
    if !rises(last, &name) {
        return Err(DumpError::Order(start));
    }
    Ok(name)
}
