//! The list type of which all lists of the vocabulary are made.

ghost use Rattle.std.specs.Prelude.{◌≡◌, ◌↔◌, ◌≤◌, List, [], ◌∷◌, ◌++◌, insert, length, IfOk, IsTrue, OnOk, OnErr, Some, None};

use crate::memory::{Duplicate, NoMemory};
use std::alloc::Global;
use std::marker::Model;

/// A list in memory of its own, which contracts see as a plain list.
#[derive(Drop)]
pub struct ListOf<T> {
    items: Vec<T>,
}

impl<T> Model for ListOf<T> {
    ghost use Rattle.std.specs.Prelude.{List};
    ghost use Rattle.std.specs.Coded.{coded_list};

    ghost Value = { List T };

    ghost coded = { coded_list T.code };

    ghost view = { λ list. list.items.items };
}

impl<T> ListOf<T> {
    ghost use Rattle.std.specs.Borrow.{sem};
    ghost use Rattle.cj_model.specs.Proving.Lent.{LendsItems};

    /// An empty list; allocates nothing.
    pub fn new(alloc: Global) -> Self
        ensures { result ≡ [] }
    {
        ListOf {
            items: Vec::new(alloc),
        }
    }

    /// The list of a vector's items.
    pub fn from_vec(items: Vec<T>) -> Self
        ensures { result ≡ items.items }
    {
        ListOf { items }
    }

    /// The items of the list, as a vector.
    pub fn into_vec(self) -> Vec<T>
        ensures { result.items ≡ self }
    {
        let ListOf { items } = self;
        items
    }

    pub fn as_slice(&self) -> &[T]
        ensures { result.now ≡ self.now }
    {
        &self.items
    }

    /// The items of the list, to be changed in place.
    pub fn as_mut_slice(&mut self) -> &mut [T]
        ensures* lends { sem 𝓛 (LendsItems T.row self.entry result) }
        ensures items { result.now ≡ self.old }
    {
        self.items.as_mut_slice()
    }

    pub fn len(&self) -> usize
        ensures { result ≡ length self.now }
    {
        self.items.len()
    }

    pub fn is_empty(&self) -> bool
        ensures { IsTrue result ↔ (self.now ≡ []) }
    {
        self.items.is_empty()
    }
}

impl<T: Drop> ListOf<T> {
    /// Adds an item at the end. Out of memory leaves the list as it was.
    /// For a first item room is made for that alone, since most lists of a statement have no second.
    pub fn push(&mut self, item: T) -> Result<(), NoMemory>
        ensures ok { OnOk result (self.new ≡ self.old ++ item ∷ []) }
        ensures err { OnErr result (self.new ≡ self.old) }
    {
        if self.items.is_empty() {
            self.items.reserve_exact(1)?;
        }
        self.items.push(item)?;
        Ok(())
    }

    /// Inserts an item before the one at index `place`, or at the end if `place` is the length.
    /// Out of memory leaves the list as it was.
    pub fn insert(&mut self, place: usize, item: T) -> Result<(), NoMemory>
        requires { place ≤ length self.old }
        ensures ok { OnOk result (self.new ≡ insert self.old place item) }
        ensures err { OnErr result (self.new ≡ self.old) }
    {
        self.items.insert(place, item)?;
        Ok(())
    }

    /// Removes the last item and returns it; `None` if the list is empty.
    pub fn pop(&mut self) -> Option<T>
        ensures some { (before : List T) (item : T) → self.old ≡ before ++ item ∷ [] → (self.new ≡ before) × (result ≡ Some item) }
        ensures none { self.old ≡ [] → (self.new ≡ []) × (result ≡ None) }
    {
        self.items.pop()
    }
}

/// Copies the items into a vector with room for just so many; fails if memory runs out.
pub fn copies<T: Duplicate + Drop>(alloc: Global, items: &[T]) -> Result<Vec<T>, NoMemory>
    ensures { IfOk result (λ copies. copies.items ≡ items.now) }
{
    let mut out = Vec::with_capacity(alloc, items.len())?;
    for item in items {
        out.push(item.copy(alloc)?)?;
    }
    Ok(out)
}

impl<T: Duplicate + Drop> Duplicate for ListOf<T> {
    fn copy(&self, alloc: Global) -> Result<Self, NoMemory> {
        Ok(ListOf {
            items: copies(alloc, &self.items)?,
        })
    }
}
