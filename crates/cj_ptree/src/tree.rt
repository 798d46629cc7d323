//! The tree.

ghost use Rattle.std.specs.Prelude.{◌≡◌, [], filter, option_copied, IfOk, IsOk, None, OnOk, OnErr};
ghost use Rattle.std.specs.BTreeMap.{insert_entry, is_at};
ghost use Rattle.std.specs.List.Sorted.{IsStrictlySortedBy};
ghost use Rattle.std.specs.Map.{keys_of, lookup, remove_entry};
ghost use Rattle.std.specs.Ordering.{is_le, is_lt};
ghost use Rattle.cj_ptree.specs.Pairs.{retained, with_change};

use crate::branch::{Branch, put_below};
use crate::edit::Edit;
use crate::leaf::Leaf;
use crate::link::{Link, again, own_below, remove_below, retain_below, share_below};
use crate::node::Node;
use crate::walk::PIter;
use cj_model::{Duplicate, NoMemory};
use std::alloc::Global;
use std::marker::Model;

/// The lists of leaves.
pub(crate) type Twig<K, V> = Branch<K, Leaf<K, V>>;

/// The lists of those lists.
pub(crate) type Root<K, V> = Branch<K, Twig<K, V>>;

/// An ordered map that shares its pairs with its snapshots. Contracts see the pairs in rising key. A snapshot takes the
/// time of one count. The first change of either copies the list of twigs, one twig and one leaf; a change of what no
/// other map shares is made in place.
#[derive(Drop)]
pub struct PTree<K: Ord, V> {
    root: Link<Root<K, V>>,
    alloc: Global,
}

impl<K: Ord, V> Model for PTree<K, V> {
    ghost use Rattle.std.specs.Prelude.{List};
    ghost use Rattle.cj_ptree.specs.Links.{target};
    ghost use Rattle.cj_ptree.specs.Trees.{IsRoot, root_pairs};

    ghost Value = { List (K × V) };

    ghost view = { λ tree. root_pairs (target tree.root) };

    ghost invariant = { λ tree. IsRoot K.cmp (target tree.root) };
}

impl<K: Ord + Duplicate + Drop, V: Duplicate + Drop> PTree<K, V> {
    /// The map without pairs, without allocation.
    pub fn new(alloc: Global) -> PTree<K, V>
        ensures { result ≡ [] }
    {
        PTree {
            root: Link::Own(Branch::empty(alloc)),
            alloc,
        }
    }

    /// The law that a map's keys rise.
    pub fn rises(&self)
        ensures { IsStrictlySortedBy K.cmp (keys_of self.now) }
    {
        let _ = &self.root;
    }

    /// The value at a key; none if the map does not have the key.
    pub fn get(&self, key: &K) -> Option<&V>
        ensures { option_copied result ≡ lookup (is_at (K.cmp key.now)) self.now }
    {
        self.root.node().find(key)
    }

    /// Puts a value at a key, and gives the one that it replaces. A key that is there stays. `NoMemory` leaves the map
    /// as it was.
    pub fn insert(&mut self, key: K, value: V) -> Result<Option<V>, NoMemory>
        ensures value { IfOk result (λ old. old ≡ lookup (is_at (K.cmp key)) self.old) }
        ensures ok { OnOk result (self.new ≡ insert_entry K.cmp self.old key value) }
        ensures err { OnErr result (self.new ≡ self.old) }
    {
        put_below(&mut self.root, self.alloc, key, value)
    }

    /// Removes a key, and gives its value. That can't fail if the map does not have the key. `NoMemory` leaves the map
    /// as it was.
    pub fn remove(&mut self, key: &K) -> Result<Option<V>, NoMemory>
        ensures value { IfOk result (λ old. old ≡ lookup (is_at (K.cmp key.now)) self.old) }
        ensures ok { OnOk result (self.new ≡ remove_entry (is_at (K.cmp key.now)) self.old) }
        ensures err { OnErr result (self.new ≡ self.old) }
        ensures absent { lookup (is_at (K.cmp key.now)) self.old ≡ None → IsOk result }
    {
        let Some(_) = self.get(key) else {
            return Ok(None);
        };
        remove_below(&mut self.root, self.alloc, key)
    }

    /// A map of the same pairs, which shares them with this one.
    pub fn snapshot(&self) -> Result<PTree<K, V>, NoMemory>
        ensures { IfOk result (λ copy. copy ≡ self.now) }
    {
        Ok(PTree {
            root: again(&self.root, self.alloc)?,
            alloc: self.alloc,
        })
    }

    /// The pairs, in rising key.
    pub fn iter(&self) -> PIter<'_, K, V>
        ensures { result ≡ self.now }
    {
        PIter::all(self.root.node())
    }

    /// The pairs whose key is `key` or greater, in rising key.
    pub fn iter_from(&self, key: &K) -> PIter<'_, K, V>
        ensures { result ≡ filter (λ e. is_le (K.cmp key.now e.0)) self.now }
    {
        PIter::from(self.root.node(), key)
    }

    /// The pairs whose key is below `key`, in rising key. Taken from its end, they fall from the key.
    pub fn iter_before(&self, key: &K) -> PIter<'_, K, V>
        ensures { result ≡ filter (λ e. is_lt (K.cmp e.0 key.now)) self.now }
    {
        PIter::before(self.root.node(), key)
    }

    /// Puts a value at a key, or removes the key. `NoMemory` leaves the map as it was.
    pub fn change(&mut self, key: K, value: Option<V>) -> Result<(), NoMemory>
        ensures ok { OnOk result (self.new ≡ with_change K.cmp self.old key value) }
        ensures err { OnErr result (self.new ≡ self.old) }
    {
        match value {
            Some(value) => {
                self.insert(key, value)?;
                Ok(())
            }
            None => {
                self.remove(&key)?;
                Ok(())
            }
        }
    }

    /// Edits all values in place, and removes the pairs that don't stay. What other maps share is copied first, so
    /// `NoMemory` leaves the map as it was.
    pub fn retain<E: Edit<V>>(&mut self, by: &E) -> Result<(), NoMemory>
        ensures ok { OnOk result (self.new ≡ retained (E.stays by.now) (E.edited by.now) self.old) }
        ensures err { OnErr result (self.new ≡ self.old) }
    {
        own_below(&mut self.root, self.alloc)?;
        retain_below(&mut self.root, by);
        share_below(&mut self.root, self.alloc);
        Ok(())
    }
}
