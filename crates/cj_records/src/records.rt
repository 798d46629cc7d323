//! A list of byte strings in a store.

ghost use Rattle.std.specs.Prelude.{◌≡◌, ℕ, List, ◌+◌, ◌^◌, ◌<◌, ◌≤◌, [], ◌∷◌, ◌++◌, true, false, length, IfOk, OnOk, IsErrOf};
ghost use Rattle.cj_outside.specs.Causes.{CountsFault};
ghost use Rattle.cj_outside.specs.Streams.{most};
ghost use Rattle.cj_codec.specs.Fields.{str64};
ghost use Rattle.cj_records.specs.RecordFiles.{Finds, front_bytes};
ghost use Rattle.cj_records.specs.Proving.Places.{end_of};
ghost use Rattle.cj_records.specs.Records.{CountsOpenFault, Opens, AppendsRecord, CountsRecords, SameRecords, Reads, IsBeforeOrAfter, KeepsAtLeast, Refuses, LeavesList};
ghost use Rattle.cj_records.specs.Proving.Keeping.{ReadsPart};
ghost use Rattle.cj_outside.specs.Stores.{Only, Stays, Steps, LeavesOnly};

use crate::error::RecordsError;
use crate::index::read_index;
use crate::parts::{fill, shut_gate, write_record};
use crate::place::Place;
use crate::window::{PIECE, Window};
use cj_outside::Store;
use std::alloc::{AllocError, Global};
use std::marker::Model;

/// A list of byte strings, kept in a store as a record file.
///
/// Each body comes after an open gate and its length, and after the last one comes a closed gate.
/// A body is written whole, and made safe, before its gate is opened.
#[derive(Drop)]
pub struct Records<S: Store> {
    alloc: Global,
    store: S,
    window: Window,
    magic: [u8; 4],
    /// Where the records are.
    places: Vec<Place>,
    /// The offset of the gate after the last record.
    end: u64,
    /// Whether the gate at `end` may be open, since an append failed while it was opened.
    torn: bool,
}

impl<S: Store> Model for Records<S> {
    ghost use Rattle.cj_records.specs.Proving.Places.{bodies_at};
    ghost use Rattle.cj_records.specs.Records.{RecordList};
    ghost use Rattle.cj_records.specs.Proving.Keeping.{AgreesWithStore, SurvivesStop, body_behind};

    ghost Value = { RecordList S };

    ghost view = { λ r. record { store = r.store; magic = r.magic; list = bodies_at (S.held r.store) r.places.items; end = r.end; torn = r.torn; refused = body_behind (S.held r.store) r.end } };

    ghost invariant = { λ r. AgreesWithStore S.tells (S.held r.store) r.magic r.places.items r.end r.torn r.window.from r.window.bytes × SurvivesStop S.tells (S.held r.store) (S.may r.store) r.magic r.places.items r.end r.torn };
}

/// The bytes after the gate of a new record: the length of the body, the body, and a closed gate.
fn tail_of(alloc: Global, body: &[u8]) -> Result<Vec<u8>, AllocError>
    ensures tail { IfOk result (λ tail. tail.items ≡ str64 body.now ++ 0 ∷ []) }
    ensures len { length body.now < 2 ^ 64 }
{
    let mut tail = Vec::from_slice(alloc, &(body.len() as u64).to_be_bytes())?;
    tail.extend_from_slice(body)?;
    tail.push(0)?;
    Ok(tail)
}

impl<S: Store> Records<S> {
    /// Opens the records of a store. A new store, of at most five bytes, gets the bytes of a file without records.
    ///
    /// An error gives the store back. Only a new one may have been written to, and still has at most five bytes.
    /// `BadRecord` comes exactly if the bytes are no record file with this magic; it has the offset.
    pub fn open(alloc: Global, store: S, magic: [u8; 4]) -> Result<Records<S>, (RecordsError, S)>
        requires { S.tells ≡ true → Only (S.held store) (S.may store) }
        ensures bytes { S.tells ≡ true → Opens S.held magic (S.held store) result }
        ensures magic { IfOk result (λ records. records.magic ≡ magic) }
        ensures shut { IfOk result (λ records. records.torn ≡ false) }
        ensures cause { CountsOpenFault S.faults (S.faults store) result }
    {
        let mut store = store;
        let mut window = match Window::new(alloc) {
            Ok(window) => window,
            Err(_) => return Err((RecordsError::NoMemory, store)),
        };
        match read_index(alloc, &mut store, &mut window, &magic) {
            Ok(index) => Ok(Records {
                alloc,
                store,
                window,
                magic,
                places: index.places,
                end: index.end,
                torn: false,
            }),
            Err(error) => Err((error, store)),
        }
    }

    /// Shows for proofs what holds of all records: the bytes of the store are a record file with this list.
    /// Where an append was refused while it opened a gate, they may have one body more.
    pub fn legal(&self)
        ensures list { S.tells ≡ true → self.now.torn ≡ false → Finds self.now.magic (S.held self.now.store) (Ok self.now.list) }
        ensures at_least { S.tells ≡ true → KeepsAtLeast self.now (S.held self.now.store) }
        ensures end { S.tells ≡ true → self.now.end ≡ length (front_bytes self.now.magic self.now.list) }
        ensures limit { self.now.end ≤ most }
        ensures safe { S.tells ≡ true → self.now.torn ≡ false → LeavesList (S.may self.now.store) self.now.magic self.now.list }

        // Between two calls a stop leaves this list, or the list and the body that was refused while a gate
        // was opened.
        ensures now { S.tells ≡ true → (body : List ℕ) → LeavesOnly S.moment S.since self.now.store self.now.store (IsBeforeOrAfter self.now body) }
    {
        let _ = &self.store;
    }

    /// How many records there are.
    pub fn count(&self) -> u64
        ensures { result ≡ length self.now.list }
    {
        self.places.len() as u64
    }

    /// Reads a body of at most `PIECE` bytes by the window.
    fn read_small(&mut self, place: Place) -> Result<Vec<u8>, RecordsError>
        requires piece { place.len ≤ PIECE }
        requires end { end_of place ≤ most }
        ensures body { S.tells ≡ true → ReadsPart (S.held self.old.store) place result }
        ensures same { SameRecords S.tells S.held self.old self.new }
        ensures cause { CountsFault (IsErrOf result RecordsError.Failed) (S.faults self.old.store) (S.faults self.new.store) }
        ensures disk { Steps S.moment S.may S.since Stays self.old.store self.new.store }
    {
        let at = place.at + 9;
        self.window.show(&mut self.store, at, place.len as usize)?;
        let part = self.window.part(at, place.len as usize);
        if part.len() as u64 != place.len {
            return Err(RecordsError::BadRecord(place.at));
        }
        Ok(Vec::from_slice(self.alloc, part)?)
    }

    /// Reads a long body, without the window.
    fn read_large(&mut self, place: Place) -> Result<Vec<u8>, RecordsError>
        requires end { end_of place ≤ most }
        ensures body { S.tells ≡ true → ReadsPart (S.held self.old.store) place result }
        ensures same { SameRecords S.tells S.held self.old self.new }
        ensures cause { CountsFault (IsErrOf result RecordsError.Failed) (S.faults self.old.store) (S.faults self.new.store) }
        ensures disk { Steps S.moment S.may S.since Stays self.old.store self.new.store }
    {
        let mut body = vec![in self.alloc; 0u8; place.len as usize]?;
        let count = fill(&mut self.store, place.at + 9, &mut body)?;
        if count as u64 != place.len {
            return Err(RecordsError::BadRecord(place.at));
        }
        Ok(body)
    }

    /// Reads the body of record `n`, counted from 0 and below `count()`.
    ///
    /// An error leaves the records as they were. `BadRecord` comes only of a store that doesn't tell its bytes,
    /// if it gives fewer than the record has.
    pub fn read(&mut self, n: u64) -> Result<Vec<u8>, RecordsError>
        requires { n < length self.old.list }
        ensures body { S.tells ≡ true → Reads self.old n result }
        ensures same { SameRecords S.tells S.held self.old self.new }
        ensures cause { CountsFault (IsErrOf result RecordsError.Failed) (S.faults self.old.store) (S.faults self.new.store) }
        ensures disk { Steps S.moment S.may S.since Stays self.old.store self.new.store }
    {
        let place = self.places[n as usize];
        if place.len <= PIECE as u64 {
            self.read_small(place)
        } else {
            self.read_large(place)
        }
    }

    /// Appends a record with this body, makes it safe, and answers the offset of its gate.
    ///
    /// An error leaves the list, and the offset of the next record, as they were. `NoMemory` comes only before the
    /// gate is opened. After `Failed` a stop may leave one body more: the refused one.
    pub fn append(&mut self, body: &[u8]) -> Result<u64, RecordsError>
        ensures list { S.tells ≡ true → AppendsRecord self.old body.now self.new result }
        ensures counts { CountsRecords self.old (length body.now) self.new result }
        ensures magic { self.new.magic ≡ self.old.magic }
        ensures cause { CountsFault (IsErrOf result RecordsError.Failed) (S.faults self.old.store) (S.faults self.new.store) }

        // A stop at any moment of the call leaves the old list, or one body more. After `Ok` it leaves the new list.
        ensures any_moment { S.tells ≡ true → LeavesOnly S.moment S.since self.old.store self.new.store (IsBeforeOrAfter self.old body.now) }
        ensures safe { S.tells ≡ true → OnOk result (LeavesList (S.may self.new.store) self.new.magic self.new.list) }
        ensures refused { S.tells ≡ true → Refuses self.old body.now self.new result }
    {
        let tail = tail_of(self.alloc, body)?;
        self.places.reserve(1)?;
        self.window.shut();
        shut_gate(&mut self.store, self.end, &mut self.torn)?;
        write_record(&mut self.store, self.end, &tail, &mut self.torn)?;
        let at = self.end;
        let len = body.len() as u64;
        self.places.push_reserved(Place { at, len });
        self.end = at + 9 + len;
        Ok(at)
    }

    /// Gives the store back, as it is.
    pub fn into_store(self) -> S
        ensures { result ≡ self.store }
    {
        let Records { store, .. } = self;
        store
    }
}
