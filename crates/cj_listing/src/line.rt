//! The line of an item, made in memory.

ghost use Rattle.std.specs.Prelude.{◌≡◌, IfOk};
ghost use Rattle.cj_listing.specs.Listing.{backend_text, entry_text, item_line, log_item_text, marker_text};

use cj_log::{LogEntry, LogItem, LogMarker};
use cj_model::{Names, NoMemory};
use std::alloc::Global;

fn entry_words(alloc: Global, entry: &LogEntry) -> Result<Vec<u8>, NoMemory>
    ensures { IfOk result (λ text. text.items ≡ entry_text entry.now) }
{
    let number = entry.number;
    let session = entry.session;
    let tx = entry.tx;
    let mut text = format!(in alloc; "{number} session={session} tx={tx} user=")?.into_bytes();
    text.extend_from_slice(entry.user.as_slice())?;
    text.push(b' ')?;
    text.extend_from_slice(entry.text.as_slice())?;
    Ok(text)
}

fn backend_word(alloc: Global, names: &Names, b: Option<u8>) -> Result<Vec<u8>, NoMemory>
    ensures { IfOk result (λ text. text.items ≡ backend_text names.now b) }
{
    let Some(b) = b else {
        return Ok(format!(in alloc; "-")?.into_bytes());
    };
    match names.as_slice().get(b as usize) {
        Some(name) => Ok(Vec::from_slice(alloc, name.as_slice())?),
        None => Ok(format!(in alloc; "{b}")?.into_bytes()),
    }
}

fn marker_words(alloc: Global, names: &Names, marker: &LogMarker) -> Result<Vec<u8>, NoMemory>
    ensures { IfOk result (λ text. text.items ≡ marker_text names.now marker.now) }
{
    let after = marker.after;
    let place = format!(in alloc; " after {after} backend=")?;
    let backend = backend_word(alloc, names, marker.b)?;
    let mut text = format!(in alloc; "marker ")?.into_bytes();
    text.extend_from_slice(marker.name.as_slice())?;
    text.extend_from_slice(place.as_bytes())?;
    text.extend_from_slice(&backend)?;
    Ok(text)
}

fn item_words(alloc: Global, names: &Names, item: &LogItem) -> Result<Vec<u8>, NoMemory>
    ensures { IfOk result (λ text. text.items ≡ log_item_text names.now item.now) }
{
    match item {
        LogItem::Entry(entry) => entry_words(alloc, entry),
        LogItem::Marker(marker) => marker_words(alloc, names, marker),
    }
}

/// Returns the line of an item, with its LF. `names` are those of the backends. `NoMemory` is the
/// only error.
pub fn make_line(alloc: Global, names: &Names, item: &LogItem) -> Result<Vec<u8>, NoMemory>
    ensures { IfOk result (λ line. line.items ≡ item_line names.now item.now) }
{
    let mut line = item_words(alloc, names, item)?;
    line.push(b'\n')?;
    Ok(line)
}
