//! Lists of one type, one after another in one vector.

ghost use Rattle.std.specs.Prelude.{◌≡◌, [], ◌∷◌, ◌++◌, length, take, drop, IfOk, OnErr, OnOk};
ghost use Rattle.std.specs.List.{flat_map};
ghost use Rattle.std.specs.Iterator.{YieldsFirstRef, item_count};

use crate::list::{ListOf, copies};
use crate::memory::{Duplicate, NoMemory};
use std::alloc::Global;
use std::marker::Model;

/// Lists in one vector, which contracts see as a list of lists. Each needs memory for its items and one number.
#[derive(Drop)]
pub struct ListsOf<T> {
    items: Vec<T>,
    /// The length of each list, in order.
    lengths: Vec<usize>,
}

/// An iterator over the lists of a `ListsOf`, which contracts see as the lists that are left.
#[derive(Drop)]
pub struct Walk<'a, T> {
    items: &'a [T],
    lengths: &'a [usize],
}

impl<T> Model for ListsOf<T> {
    ghost use Rattle.std.specs.Prelude.{List};
    ghost use Rattle.std.specs.Coded.{coded_list};
    ghost use Rattle.cj_model.specs.Proving.Cuts.{cut, AreCut};

    ghost Value = { List (List T) };

    ghost coded = { coded_list (coded_list T.code) };

    ghost view = { λ lists. cut lists.lengths.items lists.items.items };

    ghost invariant = { λ lists. AreCut lists.lengths.items lists.items.items };
}

impl<'a, T> Model for Walk<'a, T> {
    ghost use Rattle.std.specs.Prelude.{List};
    ghost use Rattle.std.specs.Coded.{coded_list};
    ghost use Rattle.cj_model.specs.Proving.Cuts.{cut, AreCut};

    ghost Value = { List (List T) };

    ghost coded = { coded_list (coded_list T.code) };

    ghost view = { λ walk. cut walk.lengths.now walk.items.now };

    ghost invariant = { λ walk. AreCut walk.lengths.now walk.items.now };
}

impl<T: Drop> ListsOf<T> {
    /// A list of no lists; allocates nothing.
    pub fn new(alloc: Global) -> Self
        ensures { result ≡ [] }
    {
        ListsOf {
            items: Vec::new(alloc),
            lengths: Vec::new(alloc),
        }
    }

    /// Adds a list at the end. Out of memory leaves the lists as they were, and the new one is lost.
    pub fn push(&mut self, list: ListOf<T>) -> Result<(), NoMemory>
        ensures ok { OnOk result (self.new ≡ self.old ++ list ∷ []) }
        ensures err { OnErr result (self.new ≡ self.old) }
    {
        let length = list.len();
        let mut items = list.into_vec();
        self.lengths.reserve(1)?;
        self.items.append(&mut items)?;
        self.lengths.push_reserved(length);
        Ok(())
    }

    /// Keeps the first `count` lists and drops the others. Fewer than `count` lists all stay.
    pub fn truncate(&mut self, count: usize)
        ensures { self.new ≡ take count self.old }
    {
        if self.len() <= count {
            return;
        }
        let behind = self.behind(count);
        let kept = self.items().len() - behind;
        self.lengths.truncate(count);
        self.items.truncate(kept);
    }

    /// Moves the items of the lists into one vector. If memory runs out, the lists are lost.
    pub fn of(alloc: Global, lists: ListOf<ListOf<T>>) -> Result<Self, NoMemory>
        ensures { IfOk result (λ made. made ≡ lists) }
    {
        let mut made = ListsOf::new(alloc);
        for list in lists.into_vec() {
            made.push(list)?;
        }
        Ok(made)
    }
}

impl<T> ListsOf<T> {
    /// How many lists there are.
    #[tactic(auto, using(crate::proofs::CutLaws::cut_count))]
    pub fn len(&self) -> usize
        ensures { result ≡ length self.now }
    {
        self.lengths.len()
    }

    /// The items of all lists, one list after another.
    #[tactic(auto, using(crate::proofs::CutLaws::cut_together))]
    pub fn items(&self) -> &[T]
        ensures { result.now ≡ flat_map (λ list. list) self.now }
    {
        &self.items
    }

    /// How many items come after the first `count` lists.
    fn behind(&self, count: usize) -> usize
        ensures { result ≡ length (flat_map (λ list. list) (drop count self.now)) }
    {
        let mut walk = self.iter();
        for _ in 0..count {
            walk.next();
        }
        walk.items.len()
    }

    /// An iterator over all lists, from the first.
    pub fn iter(&self) -> Walk<'_, T>
        ensures { result ≡ self.now }
    {
        Walk {
            items: &self.items,
            lengths: &self.lengths,
        }
    }
}

impl<'a, T> Iterator for Walk<'a, T> {
    type Item = &'a [T];

    ghost next_gives = { YieldsFirstRef (λ s. s) };

    ghost remaining = { item_count (λ s. s) };

    fn next(&mut self) -> Option<&'a [T]> {
        let lengths = self.lengths;
        let [length, rest @ ..] = lengths else {
            return None;
        };
        let (list, behind) = self.items.split_at(*length);
        *self = Walk {
            items: behind,
            lengths: rest,
        };
        Some(list)
    }
}

impl<T: Duplicate + Drop> Duplicate for ListsOf<T> {
    fn copy(&self, alloc: Global) -> Result<Self, NoMemory> {
        Ok(ListsOf {
            items: copies(alloc, &self.items)?,
            lengths: Vec::from_slice(alloc, &self.lengths)?,
        })
    }
}
