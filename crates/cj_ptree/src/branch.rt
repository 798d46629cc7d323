//! The upper nodes, which are lists of links.

ghost use Rattle.std.specs.Prelude.{◌≡◌, [], ◌∷◌, IfOk, OnOk, OnErr};
ghost use Rattle.std.specs.BTreeMap.{insert_entry, is_at};
ghost use Rattle.std.specs.Map.{lookup};
ghost use Rattle.cj_ptree.specs.Branches.{IsBranch, OwnsBranch, branch_pairs, part_of};
ghost use Rattle.cj_ptree.specs.Links.{target};
ghost use Rattle.cj_ptree.specs.Nodes.{SplitsOff};

use crate::added::Added;
use crate::child::{Child, are_filled, child_of};
use crate::edit::Edit;
use crate::link::{
    Link, again, insert_below, own_below, ready, remove_below, retain_below, share_below,
};
use crate::node::Node;
use cj_model::{Duplicate, NoMemory};
use std::alloc::Global;
use std::sync::Arc;

/// The most children of a node that is split. One that can't be split for want of memory has more.
const LIMIT: usize = 64;

/// Where a node with too many children is split. Pairs put in rising key leave nodes of so many children.
const KEPT: usize = 48;

/// A node with children, which divide its pairs.
#[derive(Drop)]
pub(crate) struct Branch<K, N> {
    pub children: Vec<Child<K, N>>,
}

/// A child with one pair.
fn child_with<K: Ord + Duplicate + Drop, V: Drop, N: Node<K, V>>(
    alloc: Global,
    key: K,
    value: V,
) -> Result<Child<K, N>, NoMemory>
    ensures pairs { IfOk result (λ child. N.pairs (target child.node) ≡ (key, value) ∷ []) }
    ensures built { IfOk result (λ child. N.IsBuilt (target child.node)) }
{
    let bound = key.copy(alloc)?;
    let node = N::single(alloc, key, value)?;
    Ok(Child {
        bound,
        node: Link::of(alloc, node),
    })
}

/// A child of the same pairs, which shares its node if that can be shared.
fn copied_child<K: Ord + Duplicate + Drop, V, N: Node<K, V>>(
    child: &Child<K, N>,
    alloc: Global,
) -> Result<Child<K, N>, NoMemory>
    requires { N.IsBuilt (target child.now.node) }
    ensures part { IfOk result (λ copy. part_of N.pairs copy ≡ part_of N.pairs child.now) }
    ensures built { IfOk result (λ copy. N.IsBuilt (target copy.node)) }
{
    Ok(Child {
        bound: child.bound.copy(alloc)?,
        node: again(&child.node, alloc)?,
    })
}

impl<K: Ord + Duplicate + Drop, N: Drop> Branch<K, N> {
    /// Puts a pair below the branch, which may get one child more than its limit.
    pub fn put<V: Drop>(&mut self, alloc: Global, key: K, value: V) -> Result<Option<V>, NoMemory>
    where
        N: Node<K, V>,
        requires { IsBranch N.pairs N.IsBuilt K.cmp self.old.children.items }
        ensures value { IfOk result (λ old. old ≡ lookup (is_at (K.cmp key)) (branch_pairs N.pairs self.old.children.items)) }
        ensures ok { OnOk result (branch_pairs N.pairs self.new.children.items ≡ insert_entry K.cmp (branch_pairs N.pairs self.old.children.items) key value) }
        ensures err { OnErr result (branch_pairs N.pairs self.new.children.items ≡ branch_pairs N.pairs self.old.children.items) }
        ensures built { IsBranch N.pairs N.IsBuilt K.cmp self.new.children.items }
    {
        if self.children.is_empty() {
            self.children.push(child_with(alloc, key, value)?)?;
            return Ok(None);
        }
        self.children.reserve(1)?;
        let place = child_of(&self.children, &key);
        let added = insert_below(&mut self.children[place].node, alloc, key, value)?;
        let Added { old, right } = added;
        let Some((bound, node)) = right else {
            return Ok(old);
        };
        let node = Link::of(alloc, node);
        let Ok(()) = self.children.insert(place + 1, Child { bound, node }) else {
            unreachable!()
        };
        Ok(old)
    }

    /// Splits the later children off, with their bound, if the branch has too many and there is memory.
    fn split<V>(&mut self, alloc: Global) -> Option<(K, Branch<K, N>)>
    where
        N: Node<K, V>,
        requires { IsBranch N.pairs N.IsBuilt K.cmp self.old.children.items }
        ensures { SplitsOff (λ branch. branch_pairs N.pairs branch.children.items) (λ branch. IsBranch N.pairs N.IsBuilt K.cmp branch.children.items) K.cmp self.old self.new result }
    {
        if self.children.len() <= LIMIT {
            return None;
        }
        let Ok(bound) = self.children[KEPT].bound.copy(alloc) else {
            return None;
        };
        let Ok(children) = self.children.split_off(KEPT) else {
            return None;
        };
        self.children.shrink_to(LIMIT);
        Some((bound, Branch { children }))
    }
}

/// Puts a pair below a link to a root, as `Branch::put` does.
pub(crate) fn put_below<K: Ord + Duplicate + Drop, V: Drop, N: Node<K, V>>(
    link: &mut Link<Branch<K, N>>,
    alloc: Global,
    key: K,
    value: V,
) -> Result<Option<V>, NoMemory>
    requires { IsBranch N.pairs N.IsBuilt K.cmp (target link.old).children.items }
    ensures value { IfOk result (λ old. old ≡ lookup (is_at (K.cmp key)) (branch_pairs N.pairs (target link.old).children.items)) }
    ensures ok { OnOk result (branch_pairs N.pairs (target link.new).children.items ≡ insert_entry K.cmp (branch_pairs N.pairs (target link.old).children.items) key value) }
    ensures err { OnErr result (branch_pairs N.pairs (target link.new).children.items ≡ branch_pairs N.pairs (target link.old).children.items) }
    ensures built { IsBranch N.pairs N.IsBuilt K.cmp (target link.new).children.items }
{
    ready(link, alloc)?;
    match link {
        Link::Own(root) => root.put(alloc, key, value),
        Link::Shared(shared) => match Arc::get_mut(shared) {
            Some(root) => root.put(alloc, key, value),
            None => Err(NoMemory),
        },
    }
}

impl<K: Ord + Duplicate + Drop, V: Drop, N: Node<K, V>> Node<K, V> for Branch<K, N> {
    ghost pairs = { λ branch. branch_pairs N.pairs branch.children.items };

    ghost IsBuilt = { λ branch. IsBranch N.pairs N.IsBuilt K.cmp branch.children.items };

    ghost IsOwned = { λ branch. OwnsBranch N.IsOwned branch.children.items };

    fn empty(alloc: Global) -> Branch<K, N> {
        Branch {
            children: Vec::new(alloc),
        }
    }

    fn single(alloc: Global, key: K, value: V) -> Result<Branch<K, N>, NoMemory> {
        let mut children = Vec::new(alloc);
        children.push(child_with(alloc, key, value)?)?;
        Ok(Branch { children })
    }

    fn is_filled(&self) -> bool {
        are_filled(&self.children)
    }

    fn find(&self, key: &K) -> Option<&V> {
        if self.children.is_empty() {
            return None;
        }
        let place = child_of(&self.children, key);
        self.children[place].node.node().find(key)
    }

    fn insert(
        &mut self,
        alloc: Global,
        key: K,
        value: V,
    ) -> Result<Added<K, V, Branch<K, N>>, NoMemory> {
        let old = self.put(alloc, key, value)?;
        Ok(Added {
            old,
            right: self.split(alloc),
        })
    }

    fn remove(&mut self, alloc: Global, key: &K) -> Result<Option<V>, NoMemory> {
        if self.children.is_empty() {
            return Ok(None);
        }
        let place = child_of(&self.children, key);
        let old = remove_below(&mut self.children[place].node, alloc, key)?;
        if self.children[place].node.node().is_filled() {
            return Ok(old);
        }
        self.children.remove(place);
        Ok(old)
    }

    fn copied(&self, alloc: Global) -> Result<Branch<K, N>, NoMemory> {
        let mut children = Vec::with_capacity(alloc, self.children.len())?;
        for child in &self.children {
            children.push(copied_child(child, alloc)?)?;
        }
        Ok(Branch { children })
    }

    fn own(&mut self, alloc: Global) -> Result<(), NoMemory> {
        for place in 0..self.children.len() {
            own_below(&mut self.children[place].node, alloc)?;
        }
        Ok(())
    }

    fn share(&mut self, alloc: Global) {
        for place in 0..self.children.len() {
            share_below(&mut self.children[place].node, alloc);
        }
    }

    fn retain<E: Edit<V>>(&mut self, by: &E) {
        let mut place = 0;
        while place < self.children.len() {
            if retain_below(&mut self.children[place].node, by) {
                place += 1;
            } else {
                self.children.remove(place);
            }
        }
    }
}
