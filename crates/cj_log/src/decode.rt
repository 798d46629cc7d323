//! Reading the item of a body.

ghost use Rattle.std.specs.Prelude.{◌≡◌, IfOk};
ghost use Rattle.cj_codec.specs.Readings.{ReadsFields};
ghost use Rattle.cj_model.specs.Sql.Names.{text_of};
ghost use Rattle.cj_log.specs.Proving.ItemFormats.{FindsItem};
ghost use Rattle.cj_log.specs.Proving.ItemFormats as formats;

use crate::error::ItemError;
use crate::item::{LogEntry, LogItem, LogMarker};
use cj_codec::{CodecError, Field, Reader, read_whole};
use cj_model::{NoMemory, Text, USER_LIMIT};
use std::alloc::Global;

/// Copies the bytes as a text; `None` if they are no text.
fn text_of(alloc: Global, bytes: &[u8]) -> Result<Option<Text>, NoMemory>
    ensures { IfOk result (λ text. text ≡ text_of bytes.now) }
{
    Ok(Text::of(Vec::from_slice(alloc, bytes)?))
}

fn take_user(reader: &mut Reader<'_>, alloc: Global) -> Result<Text, CodecError>
    ensures { ReadsFields formats.user reader.old reader.new result }
{
    let start = reader.offset();
    let bytes = reader.str16()?;
    if bytes.len() > USER_LIMIT {
        return Err(CodecError::BadField(start));
    }
    match text_of(alloc, bytes)? {
        Some(user) => Ok(user),
        None => Err(CodecError::BadField(start)),
    }
}

fn take_text(reader: &mut Reader<'_>, alloc: Global) -> Result<Text, CodecError>
    ensures { ReadsFields formats.text reader.old reader.new result }
{
    let start = reader.offset();
    let bytes = reader.str64()?;
    match text_of(alloc, bytes)? {
        Some(text) => Ok(text),
        None => Err(CodecError::BadField(start)),
    }
}

fn take_backend(reader: &mut Reader<'_>) -> Result<Option<u8>, CodecError>
    ensures { ReadsFields formats.backend reader.old reader.new result }
{
    match reader.u8()? {
        255 => Ok(None),
        b => Ok(Some(b)),
    }
}

fn take_entry(reader: &mut Reader<'_>, alloc: Global) -> Result<LogItem, CodecError>
    ensures { ReadsFields formats.entry reader.old reader.new result }
{
    let number = reader.u64()?;
    let session = reader.u64()?;
    let seq = reader.u64()?;
    let tx = reader.u64()?;
    let user = take_user(reader, alloc)?;
    let text = take_text(reader, alloc)?;
    Ok(LogItem::Entry(LogEntry {
        number,
        session,
        seq,
        tx,
        user,
        text,
    }))
}

fn take_marker(reader: &mut Reader<'_>) -> Result<LogItem, CodecError>
    ensures { ReadsFields formats.marker reader.old reader.new result }
{
    let after = reader.u64()?;
    let name = reader.name()?;
    let b = take_backend(reader)?;
    Ok(LogItem::Marker(LogMarker { after, name, b }))
}

#[tactic(auto, unfolding(crate::specs::Proving::ItemFormats::fields_of))]
fn take_fields(kind: u8, reader: &mut Reader<'_>, alloc: Global) -> Result<LogItem, CodecError>
    ensures { ReadsFields (formats.fields_of kind) reader.old reader.new result }
{
    match kind {
        1 => take_entry(reader, alloc),
        2 => take_marker(reader),
        _ => Err(CodecError::BadField(reader.offset())),
    }
}

/// The kind and the fields of an item.
struct ItemField;

impl Field for ItemField {
    type Item = LogItem;

    ghost format = { λ _. formats.item };

    fn take(&self, reader: &mut Reader<'_>, alloc: Global) -> Result<LogItem, CodecError> {
        let kind = reader.u8()?;
        take_fields(kind, reader, alloc)
    }
}

/// Reads the item that has this body. `NoItem` comes exactly if no item has it.
pub fn item_of(alloc: Global, body: &[u8]) -> Result<LogItem, ItemError>
    ensures { FindsItem body.now result }
{
    let item = read_whole(alloc, body, &ItemField)?;
    Ok(item)
}
