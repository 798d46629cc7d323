//! Writing the body of an item.

ghost use Rattle.std.specs.Prelude.{◌≡◌, ◌≤◌, length, IfOk};
ghost use Rattle.cj_log.specs.Items.{backend_byte, item_bytes, IsItem, CanAppend};
ghost use Rattle.cj_log.specs.declared.item.LogItem.TheVariants.{Entry, Marker};

use crate::item::{LogEntry, LogItem, LogMarker};
use cj_codec::{put_str16, put_str64, put_u8, put_u64};
use cj_model::{NoMemory, USER_LIMIT};
use std::alloc::Global;

fn entry_bytes(alloc: Global, entry: &LogEntry) -> Result<Vec<u8>, NoMemory>
    requires { length entry.now.user ≤ USER_LIMIT }
    ensures { IfOk result (λ body. body.items ≡ item_bytes (Entry entry.now)) }
{
    let mut body = Vec::new(alloc);
    put_u8(&mut body, 1)?;
    put_u64(&mut body, entry.number)?;
    put_u64(&mut body, entry.session)?;
    put_u64(&mut body, entry.seq)?;
    put_u64(&mut body, entry.tx)?;
    put_str16(&mut body, entry.user.as_slice())?;
    put_str64(&mut body, entry.text.as_slice())?;
    Ok(body)
}

fn byte_of(b: Option<u8>) -> u8
    ensures { result ≡ backend_byte b }
{
    b.unwrap_or(255)
}

fn marker_bytes(alloc: Global, marker: &LogMarker) -> Result<Vec<u8>, NoMemory>
    ensures { IfOk result (λ body. body.items ≡ item_bytes (Marker marker.now)) }
{
    let mut body = Vec::new(alloc);
    put_u8(&mut body, 2)?;
    put_u64(&mut body, marker.after)?;
    put_str16(&mut body, marker.name.as_slice())?;
    put_u8(&mut body, byte_of(marker.b))?;
    Ok(body)
}

/// Writes the body of an item that may be appended; fails if memory runs out.
pub fn bytes_of(alloc: Global, item: &LogItem) -> Result<Vec<u8>, NoMemory>
    requires { CanAppend item.now }
    ensures body { IfOk result (λ body. body.items ≡ item_bytes item.now) }
{
    match item {
        LogItem::Entry(entry) => entry_bytes(alloc, entry),
        LogItem::Marker(marker) => marker_bytes(alloc, marker),
    }
}

/// Shows what holds of an entry's fields.
fn legal_entry(entry: &LogEntry)
    requires { length entry.now.user ≤ USER_LIMIT }
    ensures { IsItem (Entry entry.now) }
{
    let _user = entry.user.as_slice();
    let _text = entry.text.as_slice();
    let _len = entry.text.len();
    let _number = entry.number;
    let _session = entry.session;
    let _seq = entry.seq;
    let _tx = entry.tx;
}

/// Shows what holds of a marker's fields.
fn legal_marker(marker: &LogMarker)
    requires { CanAppend (Marker marker.now) }
    ensures { IsItem (Marker marker.now) }
{
    let _name = marker.name.as_slice();
    let _after = marker.after;
    let _b = byte_of(marker.b);
}

/// Shows that what may be appended is an item.
pub fn legal_item(item: &LogItem)
    requires { CanAppend item.now }
    ensures { IsItem item.now }
{
    match item {
        LogItem::Entry(entry) => legal_entry(entry),
        LogItem::Marker(marker) => legal_marker(marker),
    }
}
