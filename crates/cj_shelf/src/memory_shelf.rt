//! The dumps of a world that needs no files.

ghost use Rattle.std.specs.Prelude.{◌≡◌, [], ◌∷◌, ◌++◌, find, map, option_copied, IfOk, IfSome, OnOk, OnErr};
ghost use Rattle.std.specs.Str.{bytes_eq};
ghost use Rattle.cj_dump.specs.Dumps.{CanEncode, IsDump};
ghost use Rattle.cj_shelf.specs.Shelves.{first_of};
ghost use Rattle.cj_shelf.specs.MemoryShelves.{taken_of};
ghost use Rattle.cj_shelf.specs.Proving.{IsNoBadRecord};

use crate::error::ShelfError;
use crate::shelf::Shelf;
use cj_cluster::TakenDump;
use cj_dump::Dump;
use cj_model::{Name, NoMemory};
use cj_outside::MemStore;
use std::alloc::Global;
use std::marker::Model;

/// Returns what is kept at hand of a dump.
fn taken_of(d: &Dump) -> TakenDump
    ensures { result ≡ taken_of d.now }
{
    TakenDump {
        name: d.name.copy(),
        source: d.source,
        position: d.position,
    }
}

/// Returns the first dump that was taken under the name.
fn first_taken<'a>(taken: &'a [TakenDump], name: &Name) -> Option<&'a TakenDump>
    ensures { option_copied result ≡ find (λ d. bytes_eq d.name name.now) taken.now }
{
    taken.iter().find(|d| d.name.is(name))
}

/// Returns what a refusal by a shelf in memory means. Its store fails only where it would pass the
/// most bytes of a store, and then there is no memory for more either. It tells its bytes, so no
/// record of them is bad.
fn refusal(error: ShelfError) -> NoMemory
    requires { IsNoBadRecord error }
{
    match error {
        ShelfError::Failed | ShelfError::NoMemory => NoMemory,
        ShelfError::BadRecord(_) => unreachable!(),
    }
}

/// Dumps in memory: their bytes in a shelf over a store in memory, and beside them the name, source
/// and position of each.
#[derive(Drop)]
pub struct MemoryShelf {
    shelf: Shelf<MemStore>,
    taken: Vec<TakenDump>,
}

impl Model for MemoryShelf {
    ghost use Rattle.std.specs.Prelude.{List, ◌≡◌, map};
    ghost use Rattle.cj_dump.specs.declared.dump.Dump.{Dump};
    ghost use Rattle.cj_shelf.specs.MemoryShelves.{taken_of};

    ghost Value = { List Dump };

    ghost view = { λ m. m.shelf.dumps };

    ghost invariant = { λ m. m.taken.items ≡ map taken_of m.shelf.dumps };
}

impl MemoryShelf {
    /// Makes a shelf without dumps. `NoMemory` is the only error.
    pub fn new(alloc: Global) -> Result<MemoryShelf, NoMemory>
        ensures { IfOk result (λ m. m ≡ []) }
    {
        let store = MemStore::new(Vec::new(alloc), Vec::new(alloc));
        match Shelf::open(alloc, store) {
            Ok(shelf) => Ok(MemoryShelf {
                shelf,
                taken: Vec::new(alloc),
            }),
            Err((error, _)) => Err(refusal(error)),
        }
    }

    /// Returns the name, source and position of the first dump of this name, or `None` if no dump
    /// has it. The bytes are not read.
    pub fn find(&self, name: &Name) -> Option<&TakenDump>
        ensures { option_copied result ≡ find (λ d. bytes_eq d.name name.now) (map taken_of self.now) }
    {
        first_taken(&self.taken, name)
    }

    /// Adds a dump at the end. `NoMemory` is the only error, also where the store in memory is
    /// full, and leaves the list as it was.
    pub fn add(&mut self, d: &Dump) -> Result<(), NoMemory>
        requires { CanEncode d.now }
        ensures ok { OnOk result (self.new ≡ self.old ++ d.now ∷ []) }
        ensures err { OnErr result (self.new ≡ self.old) }
    {
        // The room comes first, so that a dump on the shelf is at hand too.
        self.taken.reserve(1)?;
        match self.shelf.add(d) {
            Ok(()) => {
                self.taken.push_reserved(taken_of(d));
                Ok(())
            }
            Err(error) => Err(refusal(error)),
        }
    }

    /// Reads the first dump of this name from its bytes. `None` comes exactly if no dump has the
    /// name, and `NoMemory` is the only error. The list stays.
    pub fn read(&mut self, name: &Name) -> Result<Option<Dump>, NoMemory>
        ensures first { IfOk result (λ found. found ≡ first_of name.now self.old) }
        ensures storable { IfOk result (λ found. IfSome found IsDump) }
        ensures same { self.new ≡ self.old }
    {
        match self.shelf.find(name) {
            Ok(found) => Ok(found),
            Err(error) => Err(refusal(error)),
        }
    }
}
