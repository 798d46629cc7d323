//! Sets of tables.

ghost use Rattle.std.specs.Prelude.{◌≡◌, [], length, OnOk, OnErr};
ghost use Rattle.std.specs.List.{list_any};
ghost use Rattle.std.specs.Str.{bytes_eq};
ghost use Rattle.cj_model.specs.Database.Tables.{Rises, name_cmp, put_by};
ghost use Rattle.cj_model.specs.Proving.Gaps.{IsGap};

use crate::list::ListOf;
use crate::memory::{Duplicate, NoMemory};
use crate::name::Name;
use std::alloc::Global;
use std::cmp::Ordering;
use std::marker::Model;

/// A set of tables, which contracts see as the rising list of their names.
#[derive(Drop)]
pub struct TableSet {
    names: ListOf<Name>,
}

impl Model for TableSet {
    ghost use Rattle.std.specs.Prelude.{List, ℕ};
    ghost use Rattle.cj_model.specs.Database.Tables.{Rises, name_cmp};

    ghost Value = { List (List ℕ) };

    ghost view = { λ set. set.names };

    ghost invariant = { λ set. Rises name_cmp set.names };
}

/// The index before which a name is inserted among rising names; `None` if it is one of them.
fn gap_for(names: &[Name], name: &Name) -> Option<usize>
    ensures { IsGap name_cmp names.now name.now result }
{
    for (i, other) in names.iter().enumerate() {
        match name.as_slice().cmp(other.as_slice()) {
            Ordering::Less => return Some(i),
            Ordering::Equal => return None,
            Ordering::Greater => {}
        }
    }
    Some(names.len())
}

fn put_name(names: &mut ListOf<Name>, name: &Name) -> Result<(), NoMemory>
    ensures ok { OnOk result (names.new ≡ put_by name_cmp names.old name.now) }
    ensures err { OnErr result (names.new ≡ names.old) }
{
    if let Some(place) = gap_for(names.as_slice(), name) {
        names.insert(place, name.copy())?;
    }
    Ok(())
}

impl TableSet {
    /// An empty set; allocates nothing.
    pub fn new(alloc: Global) -> TableSet
        ensures { result ≡ [] }
    {
        TableSet {
            names: ListOf::new(alloc),
        }
    }

    /// Adds a table to the set. Out of memory leaves the set as it was.
    pub fn insert(&mut self, name: &Name) -> Result<(), NoMemory>
        ensures ok { OnOk result (self.new ≡ put_by name_cmp self.old name.now) }
        ensures err { OnErr result (self.new ≡ self.old) }
    {
        put_name(&mut self.names, name)
    }

    /// Whether the set has the table.
    pub fn contains(&self, name: &Name) -> bool
        ensures { result ≡ list_any (λ table. bytes_eq table name.now) self.now }
    {
        self.names.as_slice().iter().any(|table| table.is(name))
    }

    /// The names of the set's tables, in rising order.
    pub fn as_slice(&self) -> &[Name]
        ensures names { result.now ≡ self.now }
        ensures rises { Rises name_cmp self.now }
    {
        self.names.as_slice()
    }

    /// How many tables the set has.
    pub fn len(&self) -> usize
        ensures { result ≡ length self.now }
    {
        self.names.len()
    }
}

impl Duplicate for TableSet {
    fn copy(&self, alloc: Global) -> Result<TableSet, NoMemory> {
        Ok(TableSet {
            names: self.names.copy(alloc)?,
        })
    }
}
