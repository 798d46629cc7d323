//! The shelf over its store.

ghost use Rattle.std.specs.Prelude.{◌≡◌, true, false, is_some, IfOk, IfSome, OnOk, IsErrOf};
ghost use Rattle.std.specs.List.{AllByRecursion};
ghost use Rattle.cj_outside.specs.Causes.{CountsFault};
ghost use Rattle.cj_outside.specs.Stores.{Only, LeavesOnly, Stays, Steps};
ghost use Rattle.cj_dump.specs.declared.dump.Dump.{Dump};
ghost use Rattle.cj_dump.specs.Dumps.{CanEncode, IsDump};
ghost use Rattle.cj_shelf.specs.Shelves.{Adds, KeepsAtLeast, KeepsDumps, SameShelf, GivesFirst, is_shelved, names_of};
ghost use Rattle.cj_shelf.specs.Shelves as shelves;

use crate::error::ShelfError;
use crate::label::{Label, is_shelved, place_of};
use crate::reading::{dump_of, read_labels};
use cj_dump::{Dump, encode};
use cj_model::Name;
use cj_outside::Store;
use cj_records::Records;
use std::alloc::Global;
use std::marker::Model;

/// The first bytes of a shelf.
const MAGIC: [u8; 4] = *b"CJD1";

/// Dumps in the order in which they were added. Only their names are in memory, and a dump is read
/// from the store when it is asked for.
#[derive(Drop)]
pub struct Shelf<D: Store> {
    alloc: Global,
    records: Records<D>,
    labels: Vec<Label>,
}

impl<D: Store> Model for Shelf<D> {
    ghost use Rattle.cj_shelf.specs.Shelves.{ShelfState};
    ghost use Rattle.cj_shelf.specs.Proving.{labelled, AgreesWithRecords, dumps_in};

    ghost Value = { ShelfState D };

    ghost view = { λ shelf. record { store = shelf.records.store; names = labelled shelf.labels.items; dumps = dumps_in shelf.records.list; torn = shelf.records.torn; refused = shelf.records.refused } };

    ghost invariant = { λ shelf. AgreesWithRecords D.tells shelf.records shelf.labels.items };
}

impl<D: Store> Shelf<D> {
    /// Opens the shelf of a store. A store that has no record file yet gets an empty one.
    ///
    /// All gates are checked first, and then the bodies in order. `BadRecord` comes exactly if the
    /// bytes are no shelf, and leaves them as they were. `Failed` and `NoMemory` write nothing but
    /// the first bytes of a new file. Each error hands the store back.
    pub fn open(alloc: Global, store: D) -> Result<Shelf<D>, (ShelfError, D)>
        requires { D.tells ≡ true → Only (D.held store) (D.may store) }
        ensures bytes { D.tells ≡ true → shelves.Opens D.held (D.held store) result }
        ensures shut { IfOk result (λ shelf. shelf.torn ≡ false) }
        ensures cause { shelves.CountsOpenFault D.faults (D.faults store) result }
    {
        let mut records = match Records::open(alloc, store, MAGIC) {
            Ok(records) => records,
            Err((error, store)) => return Err((ShelfError::from(error), store)),
        };
        match read_labels(alloc, &mut records) {
            Ok(labels) => Ok(Shelf {
                alloc,
                records,
                labels,
            }),
            Err(error) => Err((error, records.into_store())),
        }
    }

    /// Adds a dump at the end. An error leaves the list as it was. `NoMemory` comes only before the
    /// gate of the dump's record is opened; `Failed` is a fault that the store counted.
    pub fn add(&mut self, d: &Dump) -> Result<(), ShelfError>
        requires { CanEncode d.now }
        ensures names { Adds self.old.names d.now.name self.new.names result }
        ensures dumps { D.tells ≡ true → Adds self.old.dumps d.now self.new.dumps result }
        ensures memory { D.tells ≡ true → IsErrOf result ShelfError.NoMemory → self.new.torn ≡ true → self.old.torn ≡ true }
        ensures cause { CountsFault (IsErrOf result ShelfError.Failed) (D.faults self.old.store) (D.faults self.new.store) }

        // A stop at any moment of the call leaves the dumps from before it, or one more; after `Ok` a stop
        // leaves the new list.
        ensures any_moment { D.tells ≡ true → LeavesOnly D.moment D.since self.old.store self.new.store (shelves.IsBeforeOrAfter self.old d.now) }
        ensures refused { D.tells ≡ true → shelves.Refuses self.old d.now self.new result }
        ensures safe { D.tells ≡ true → OnOk result (shelves.LeavesDumps (D.may self.new.store) self.new.dumps) }
    {
        self.records.legal();
        if self.labels.reserve(1).is_err() {
            return Err(ShelfError::NoMemory);
        }
        let body = encode(self.alloc, d)?;
        let at = self.records.append(&body)?;
        let name = d.name.copy();
        self.labels.push_reserved(Label { name, at });
        Ok(())
    }

    /// Shows what holds of every shelf: its bytes keep these dumps, and so does whatever a crash
    /// leaves of them. If a dump was refused while its gate was open, that one may be there too.
    pub fn legal(&self)
        ensures each { D.tells ≡ true → AllByRecursion IsDump self.now.dumps }
        ensures names { D.tells ≡ true → self.now.names ≡ names_of self.now.dumps }
        ensures dumps { D.tells ≡ true → self.now.torn ≡ false → KeepsDumps (D.held self.now.store) self.now.dumps }
        ensures at_least { D.tells ≡ true → KeepsAtLeast (D.held self.now.store) self.now.dumps self.now.torn }
        ensures safe { D.tells ≡ true → self.now.torn ≡ false → shelves.LeavesDumps (D.may self.now.store) self.now.dumps }

        // Between two calls a stop leaves these dumps, whatever is added next, or them with the one that was
        // refused.
        ensures now { D.tells ≡ true → (d : Dump) → LeavesOnly D.moment D.since self.now.store self.now.store (shelves.IsBeforeOrAfter self.now d) }
    {
        self.records.legal();
    }

    /// Whether a dump has the name. The store is not asked.
    pub fn has(&self, name: &Name) -> bool
        ensures { result ≡ is_shelved name.now self.now.names }
    {
        is_shelved(&self.labels, name)
    }

    /// Reads the first dump of this name from the store. `None` comes exactly if no dump has the
    /// name.
    ///
    /// `Failed` is a fault that the store counted. `BadRecord` comes only over a store that tells
    /// nothing, if the record at this offset is no longer that of a dump of the name. The shelf and
    /// its bytes stay in any case.
    #[tactic(auto, using(crate::proofs::Looked::place_within, crate::proofs::Looked::place_tells))]
    pub fn find(&mut self, name: &Name) -> Result<Option<Dump>, ShelfError>
        ensures first { D.tells ≡ true → GivesFirst name.now self.old.dumps result }
        ensures some { IfOk result (λ found. is_some found ≡ is_shelved name.now self.old.names) }
        ensures named { IfOk result (λ found. IfSome found (λ d. (d.name ≡ name.now) × IsDump d)) }
        ensures same { SameShelf D.tells D.held self.old self.new }
        ensures cause { CountsFault (IsErrOf result ShelfError.Failed) (D.faults self.old.store) (D.faults self.new.store) }
        ensures disk { Steps D.moment D.may D.since Stays self.old.store self.new.store }
    {
        let Some(place) = place_of(&self.labels, name) else {
            return Ok(None);
        };
        let at = self.labels[place].at;
        let body = self.records.read(place as u64)?;
        let d = dump_of(self.alloc, &body, at)?;
        if !d.name.is(name) {
            return Err(ShelfError::BadRecord(at));
        }
        Ok(Some(d))
    }

    /// Takes the shelf apart and returns the store, as it is.
    pub fn into_store(self) -> D
        ensures { result ≡ self.store }
    {
        let Shelf { records, .. } = self;
        records.into_store()
    }
}
