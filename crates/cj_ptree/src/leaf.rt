//! The nodes that hold the pairs.

ghost use Rattle.std.specs.Prelude.{◌≡◌, ⊤, IfOk, OnErr, MatchResult};
ghost use Rattle.cj_ptree.specs.Nodes.{Inserts, SplitsOff};
ghost use Rattle.cj_ptree.specs.Pairs.{IsHit, IsMissing, PairsRise};
ghost use Rattle.cj_ptree.specs.Trees.{IsLeaf, leaf_pairs};

use crate::added::Added;
use crate::edit::Edit;
use crate::node::Node;
use cj_model::{Duplicate, NoMemory};
use std::alloc::Global;
use std::cmp::Ordering;
use std::mem;

/// The most pairs of a leaf. One that can't be split for want of memory has more.
const LIMIT: usize = 64;

/// Pairs of a key and a value, in rising key.
#[derive(Drop)]
pub(crate) struct Leaf<K, V> {
    pub pairs: Vec<(K, V)>,
}

/// The index of the pair with a key, or the one before which it belongs.
pub(crate) fn place_of<K: Ord, V>(pairs: &[(K, V)], key: &K) -> Result<usize, usize>
    requires { PairsRise K.cmp pairs.now }
    ensures { MatchResult result (IsHit K.cmp key.now pairs.now) (IsMissing K.cmp key.now pairs.now) }
{
    let mut low = 0;
    let mut high = pairs.len();
    while low < high {
        let middle = low + (high - low) / 2;
        let (found, _) = &pairs[middle];
        match key.cmp(found) {
            Ordering::Less => high = middle,
            Ordering::Equal => return Ok(middle),
            Ordering::Greater => low = middle + 1,
        }
    }
    Err(low)
}

fn copied_pairs<K: Duplicate + Drop, V: Duplicate + Drop>(
    alloc: Global,
    pairs: &[(K, V)],
) -> Result<Vec<(K, V)>, NoMemory>
    ensures { IfOk result (λ copies. copies.items ≡ pairs.now) }
{
    let mut copies = Vec::with_capacity(alloc, pairs.len())?;
    for (key, value) in pairs {
        copies.push((key.copy(alloc)?, value.copy(alloc)?))?;
    }
    Ok(copies)
}

impl<K: Ord + Duplicate + Drop, V: Duplicate + Drop> Leaf<K, V> {
    /// Splits the later half of the pairs off, with their bound, if the leaf has too many and there is memory.
    fn split(&mut self, alloc: Global) -> Option<(K, Leaf<K, V>)>
        requires { IsLeaf K.cmp self.old }
        ensures { SplitsOff leaf_pairs (IsLeaf K.cmp) K.cmp self.old self.new result }
    {
        if self.pairs.len() <= LIMIT {
            return None;
        }
        let at = self.pairs.len() / 2;
        let Ok(bound) = self.pairs[at].0.copy(alloc) else {
            return None;
        };
        let Ok(pairs) = self.pairs.split_off(at) else {
            return None;
        };
        self.pairs.shrink_to(LIMIT);
        Some((bound, Leaf { pairs }))
    }

    /// Puts a pair at the index where its key belongs. A pair at the end of a full leaf goes to a leaf of its own, so
    /// that pairs put in rising key fill all leaves.
    fn add(
        &mut self,
        alloc: Global,
        place: usize,
        key: K,
        value: V,
    ) -> Result<Added<K, V, Leaf<K, V>>, NoMemory>
        requires rises { IsLeaf K.cmp self.old }
        requires gap { IsMissing K.cmp key (leaf_pairs self.old) place }
        ensures ok { IfOk result (λ added. Inserts leaf_pairs (IsLeaf K.cmp) K.cmp (leaf_pairs self.old) key value added self.new) }
        ensures err { OnErr result (leaf_pairs self.new ≡ leaf_pairs self.old) }
        ensures built { IsLeaf K.cmp self.new }
    {
        if LIMIT <= place && place == self.pairs.len() {
            let bound = key.copy(alloc)?;
            let right = Leaf::single(alloc, key, value)?;
            return Ok(Added {
                old: None,
                right: Some((bound, right)),
            });
        }
        self.pairs.insert(place, (key, value))?;
        Ok(Added {
            old: None,
            right: self.split(alloc),
        })
    }
}

impl<K: Ord + Duplicate + Drop, V: Duplicate + Drop> Node<K, V> for Leaf<K, V> {
    ghost pairs = { leaf_pairs };

    ghost IsBuilt = { IsLeaf K.cmp };

    ghost IsOwned = { λ _. ⊤ };

    fn empty(alloc: Global) -> Leaf<K, V> {
        Leaf {
            pairs: Vec::new(alloc),
        }
    }

    fn single(alloc: Global, key: K, value: V) -> Result<Leaf<K, V>, NoMemory> {
        let mut pairs = Vec::new(alloc);
        pairs.push((key, value))?;
        Ok(Leaf { pairs })
    }

    fn is_filled(&self) -> bool {
        !self.pairs.is_empty()
    }

    fn find(&self, key: &K) -> Option<&V> {
        match place_of(&self.pairs, key) {
            Ok(place) => Some(&self.pairs[place].1),
            Err(_) => None,
        }
    }

    fn insert(
        &mut self,
        alloc: Global,
        key: K,
        value: V,
    ) -> Result<Added<K, V, Leaf<K, V>>, NoMemory> {
        match place_of(&self.pairs, &key) {
            Ok(place) => Ok(Added {
                old: Some(mem::replace(&mut self.pairs[place].1, value)),
                right: None,
            }),
            Err(place) => self.add(alloc, place, key, value),
        }
    }

    fn remove(&mut self, _alloc: Global, key: &K) -> Result<Option<V>, NoMemory> {
        match place_of(&self.pairs, key) {
            Ok(place) => {
                let (_, value) = self.pairs.remove(place);
                Ok(Some(value))
            }
            Err(_) => Ok(None),
        }
    }

    fn copied(&self, alloc: Global) -> Result<Leaf<K, V>, NoMemory> {
        Ok(Leaf {
            pairs: copied_pairs(alloc, &self.pairs)?,
        })
    }

    fn own(&mut self, _alloc: Global) -> Result<(), NoMemory> {
        Ok(())
    }

    fn share(&mut self, _alloc: Global) {}

    fn retain<E: Edit<V>>(&mut self, by: &E) {
        self.pairs.retain_mut(|pair| by.edit(&mut pair.1));
    }
}
