//! Where the records of a store are.

ghost use Rattle.std.specs.Prelude.{◌≡◌, ◌+◌, ◌<◌, ◌≤◌, [], true, length, take, IfOk, OnOk, IsErrOf};
ghost use Rattle.cj_outside.specs.Causes.{CountsFault};
ghost use Rattle.cj_outside.specs.Streams.{most};
ghost use Rattle.cj_outside.specs.Stores.{Stays, Torn, Steps, Only};
ghost use Rattle.cj_records.specs.Proving.Places.{AllWithin};
ghost use Rattle.cj_records.specs.Proving.Keeping.{ShowsPart};
ghost use Rattle.cj_records.specs.Proving.Indexes.{Begins, Walks, Indexes};

use crate::error::RecordsError;
use crate::gate::{Gate, gate_of};
use crate::parts::write_synced;
use crate::place::Place;
use crate::window::Window;
use cj_outside::{OutError, Store};
use std::alloc::Global;

/// A file of at most so many bytes is new, and has no record.
const NEW: u64 = 5;

/// The size of a gate and a length, in bytes.
const HEADER: usize = 9;

/// Where the records of a store are, and the offset of the gate after them.
#[derive(Drop)]
pub struct Index {
    pub places: Vec<Place>,
    pub end: u64,
}

/// Finds the records after the magic, in a store of `size` bytes.
fn walk<S: Store>(
    alloc: Global,
    store: &mut S,
    window: &mut Window,
    magic: &[u8; 4],
    size: u64,
) -> Result<Index, RecordsError>
    requires limit { size ≤ most }
    requires long { 4 ≤ size }
    requires size { S.tells ≡ true → size ≡ length (S.held store.old) }
    requires magic { S.tells ≡ true → take 4 (S.held store.old) ≡ magic.now }
    requires shown { S.tells ≡ true → ShowsPart (S.held store.old) window.old.from window.old.bytes }
    ensures within { IfOk result (λ index. AllWithin index.end index.places.items × (index.end ≤ size)) }
    ensures records { S.tells ≡ true → Walks magic.now (S.held store.old) result }
    ensures shown { S.tells ≡ true → ShowsPart (S.held store.old) window.new.from window.new.bytes }
    ensures bytes { S.tells ≡ true → S.held store.new ≡ S.held store.old }
    ensures cause { CountsFault (IsErrOf result RecordsError.Failed) (S.faults store.old) (S.faults store.new) }
    ensures disk { Steps S.moment S.may S.since Stays store.old store.new }
{
    let mut places = Vec::new(alloc);
    let mut at = 4;
    'records: loop {
        window.show(store, at, HEADER)?;
        match gate_of(window.part(at, HEADER), size - at) {
            Gate::Closed => return Ok(Index { places, end: at }),
            Gate::Open(len) => {
                places.push(Place { at, len })?;
                at += 9 + len;
            }
            Gate::Bad => return Err(RecordsError::BadRecord(at)),
        }
    }
}

/// Writes a new file without records.
fn begin<S: Store>(store: &mut S, magic: &[u8; 4]) -> Result<(), OutError>
    requires { S.tells ≡ true → length (S.held store.old) ≤ 5 }
    ensures bytes { S.tells ≡ true → Begins magic.now (S.held store.new) result }
    ensures cause { CountsFault (IsErrOf result OutError.Failed) (S.faults store.old) (S.faults store.new) }
    ensures disk { Steps S.moment S.may S.since (Torn 0 5) store.old store.new }
    ensures safe { OnOk result (Only (S.held store.new) (S.may store.new)) }
{
    write_synced(store, 0, &[magic[0], magic[1], magic[2], magic[3], 0])
}

/// Finds the records of a store. A new store, of at most five bytes, gets the bytes of a file without records.
///
/// The window must show nothing before. `BadRecord` has the offset at which the bytes are no record file.
pub fn read_index<S: Store>(
    alloc: Global,
    store: &mut S,
    window: &mut Window,
    magic: &[u8; 4],
) -> Result<Index, RecordsError>
    requires { window.old.bytes ≡ [] }
    ensures within { IfOk result (λ index. AllWithin index.end index.places.items × (index.end ≤ most)) }
    ensures records { S.tells ≡ true → Indexes magic.now (S.held store.old) (S.held store.new) result }
    ensures shown { S.tells ≡ true → OnOk result (ShowsPart (S.held store.new) window.new.from window.new.bytes) }
    ensures cause { CountsFault (IsErrOf result RecordsError.Failed) (S.faults store.old) (S.faults store.new) }
    ensures safe { S.tells ≡ true → Only (S.held store.old) (S.may store.old) → OnOk result (Only (S.held store.new) (S.may store.new)) }
{
    let size = store.len()?;
    if size <= NEW {
        begin(store, magic)?;
        return Ok(Index {
            places: Vec::new(alloc),
            end: 4,
        });
    }
    window.show(store, 0, 4)?;
    if window.part(0, 4) != magic.as_slice() {
        return Err(RecordsError::BadRecord(0));
    }
    walk(alloc, store, window, magic, size)
}
