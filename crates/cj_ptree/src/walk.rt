//! The pairs of a tree, one after another.

ghost use Rattle.std.specs.Prelude.{◌≡◌, ◌<◌, ◌++◌, [], true, false, filter};
ghost use Rattle.std.specs.Iterator.{YieldsFirstBy, YieldsLastBy, item_count};
ghost use Rattle.std.specs.Map.Iter.{deref_pair};
ghost use Rattle.std.specs.Ordering.{is_le, is_lt};
ghost use Rattle.cj_ptree.specs.Branches.{branch_pairs};
ghost use Rattle.cj_ptree.specs.Pairs.{PairsRise};
ghost use Rattle.cj_ptree.specs.Trees.{IsRoot, IsTwig, leaf_pairs, root_pairs, twig_pairs};
ghost use Rattle.cj_ptree.specs.Walks.{nodes_left, pairs_left};

use crate::child::{Child, child_of};
use crate::leaf::{Leaf, place_of};
use crate::tree::{Root, Twig};
use std::iter::DoubleEndedIterator;
use std::marker::Model;

/// A pair of a map.
type Pair<'a, K, V> = (&'a K, &'a V);

/// What a walk from either end has not passed yet.
#[derive(Drop)]
struct Rest<'a, K, V> {
    /// The pairs left of the first leaf.
    front: &'a [(K, V)],
    /// The leaves after it in its twig.
    leaves: &'a [Child<K, Leaf<K, V>>],
    /// The twigs after that.
    twigs: &'a [Child<K, Twig<K, V>>],
    /// The leaves before the last leaf in its twig.
    back_leaves: &'a [Child<K, Leaf<K, V>>],
    /// The pairs left of the last leaf.
    back: &'a [(K, V)],
}

/// The pairs of a map that a walk from either end has not passed yet. Contracts see them as a list.
#[derive(Drop)]
pub struct PIter<'a, K, V> {
    rest: Rest<'a, K, V>,
}

impl<'a, K, V> Model for PIter<'a, K, V> {
    ghost use Rattle.std.specs.Prelude.{List};
    ghost use Rattle.cj_ptree.specs.Walks.{pairs_left};

    ghost Value = { List (K × V) };

    ghost view = { λ walk. pairs_left walk.rest };
}

impl<'a, K, V> Rest<'a, K, V> {
    /// Goes on to the next leaf, or to the leaves of the next twig. False where none is left before the last leaf.
    fn go_on(&mut self) -> bool
        requires { self.old.front.now ≡ [] }
        ensures pairs { pairs_left self.new ≡ pairs_left self.old }
        ensures fewer { result ≡ true → nodes_left self.new < nodes_left self.old }
        ensures last { result ≡ false → pairs_left self.old ≡ self.new.back.now }
    {
        if let [leaf, leaves @ ..] = self.leaves {
            self.front = &leaf.node.node().pairs;
            self.leaves = leaves;
            return true;
        }
        if let [twig, twigs @ ..] = self.twigs {
            self.leaves = &twig.node.node().children;
            self.twigs = twigs;
            return true;
        }
        if let [leaf, leaves @ ..] = self.back_leaves {
            self.front = &leaf.node.node().pairs;
            self.back_leaves = leaves;
            return true;
        }
        false
    }

    /// The first pair left.
    fn next(&mut self) -> Option<Pair<'a, K, V>>
        ensures { YieldsFirstBy deref_pair pairs_left self.old result self.new }
    {
        loop {
            if let [(key, value), front @ ..] = self.front {
                self.front = front;
                return Some((key, value));
            }
            if !self.go_on() {
                let [(key, value), back @ ..] = self.back else {
                    return None;
                };
                self.back = back;
                return Some((key, value));
            }
        }
    }

    /// Goes back to the leaf before the last, or to the leaves of the twig before. False where none is left after the
    /// first leaf.
    fn go_back(&mut self) -> bool
        requires { self.old.back.now ≡ [] }
        ensures pairs { pairs_left self.new ≡ pairs_left self.old }
        ensures fewer { result ≡ true → nodes_left self.new < nodes_left self.old }
        ensures first { result ≡ false → pairs_left self.old ≡ self.new.front.now }
    {
        if let [leaves @ .., leaf] = self.back_leaves {
            self.back = &leaf.node.node().pairs;
            self.back_leaves = leaves;
            return true;
        }
        if let [twigs @ .., twig] = self.twigs {
            self.back_leaves = &twig.node.node().children;
            self.twigs = twigs;
            return true;
        }
        if let [leaves @ .., leaf] = self.leaves {
            self.back = &leaf.node.node().pairs;
            self.leaves = leaves;
            return true;
        }
        false
    }

    /// The last pair left.
    fn next_back(&mut self) -> Option<Pair<'a, K, V>>
        ensures { YieldsLastBy deref_pair pairs_left self.old result self.new }
    {
        loop {
            if let [back @ .., (key, value)] = self.back {
                self.back = back;
                return Some((key, value));
            }
            if !self.go_back() {
                let [front @ .., (key, value)] = self.front else {
                    return None;
                };
                self.front = front;
                return Some((key, value));
            }
        }
    }
}

/// The pairs whose key is `key` or greater.
fn pairs_from<'a, K: Ord, V>(pairs: &'a [(K, V)], key: &K) -> &'a [(K, V)]
    requires { PairsRise K.cmp pairs.now }
    ensures { result.now ≡ filter (λ e. is_le (K.cmp key.now e.0)) pairs.now }
{
    match place_of(pairs, key) {
        Ok(place) => &pairs[place..],
        Err(place) => &pairs[place..],
    }
}

/// The pairs of a twig whose key is `key` or greater: those of one leaf, and the leaves after it.
fn leaves_from<'a, K: Ord, V>(
    twig: &'a Twig<K, V>,
    key: &K,
) -> (&'a [(K, V)], &'a [Child<K, Leaf<K, V>>])
    requires { IsTwig K.cmp twig.now }
    ensures { result.0.now ++ branch_pairs leaf_pairs result.1.now ≡ filter (λ e. is_le (K.cmp key.now e.0)) (twig_pairs twig.now) }
{
    let children = twig.children.as_slice();
    if children.is_empty() {
        return (&[], children);
    }
    let place = child_of(children, key);
    let leaf = children[place].node.node();
    (pairs_from(&leaf.pairs, key), &children[place + 1..])
}

/// The pairs whose key is below `key`.
fn pairs_before<'a, K: Ord, V>(pairs: &'a [(K, V)], key: &K) -> &'a [(K, V)]
    requires { PairsRise K.cmp pairs.now }
    ensures { result.now ≡ filter (λ e. is_lt (K.cmp e.0 key.now)) pairs.now }
{
    match place_of(pairs, key) {
        Ok(place) => &pairs[..place],
        Err(place) => &pairs[..place],
    }
}

/// The pairs of a twig whose key is below `key`: the leaves before one leaf, and some of its pairs.
fn leaves_before<'a, K: Ord, V>(
    twig: &'a Twig<K, V>,
    key: &K,
) -> (&'a [Child<K, Leaf<K, V>>], &'a [(K, V)])
    requires { IsTwig K.cmp twig.now }
    ensures { branch_pairs leaf_pairs result.0.now ++ result.1.now ≡ filter (λ e. is_lt (K.cmp e.0 key.now)) (twig_pairs twig.now) }
{
    let children = twig.children.as_slice();
    if children.is_empty() {
        return (children, &[]);
    }
    let place = child_of(children, key);
    let leaf = children[place].node.node();
    (&children[..place], pairs_before(&leaf.pairs, key))
}

impl<'a, K, V> PIter<'a, K, V> {
    /// The pairs of these twigs, behind those of a first leaf and of the leaves after it.
    fn of(
        front: &'a [(K, V)],
        leaves: &'a [Child<K, Leaf<K, V>>],
        twigs: &'a [Child<K, Twig<K, V>>],
    ) -> PIter<'a, K, V>
        ensures { result ≡ front.now ++ (branch_pairs leaf_pairs leaves.now ++ branch_pairs twig_pairs twigs.now) }
    {
        PIter {
            rest: Rest {
                front,
                leaves,
                twigs,
                back_leaves: &[],
                back: &[],
            },
        }
    }

    /// The pairs of these twigs, before those of further leaves and of a last leaf.
    fn up_to(
        twigs: &'a [Child<K, Twig<K, V>>],
        back_leaves: &'a [Child<K, Leaf<K, V>>],
        back: &'a [(K, V)],
    ) -> PIter<'a, K, V>
        ensures { result ≡ branch_pairs twig_pairs twigs.now ++ (branch_pairs leaf_pairs back_leaves.now ++ back.now) }
    {
        PIter {
            rest: Rest {
                front: &[],
                leaves: &[],
                twigs,
                back_leaves,
                back,
            },
        }
    }

    /// All pairs of a root.
    pub(crate) fn all(root: &'a Root<K, V>) -> PIter<'a, K, V>
        ensures { result ≡ root_pairs root.now }
    {
        PIter::of(&[], &[], &root.children)
    }

    /// The pairs of a root whose key is `key` or greater.
    pub(crate) fn from(root: &'a Root<K, V>, key: &K) -> PIter<'a, K, V>
    where
        K: Ord,
        requires { IsRoot K.cmp root.now }
        ensures { result ≡ filter (λ e. is_le (K.cmp key.now e.0)) (root_pairs root.now) }
    {
        let children = root.children.as_slice();
        if children.is_empty() {
            return PIter::all(root);
        }
        let place = child_of(children, key);
        let (front, leaves) = leaves_from(children[place].node.node(), key);
        PIter::of(front, leaves, &children[place + 1..])
    }

    /// The pairs of a root whose key is below `key`.
    pub(crate) fn before(root: &'a Root<K, V>, key: &K) -> PIter<'a, K, V>
    where
        K: Ord,
        requires { IsRoot K.cmp root.now }
        ensures { result ≡ filter (λ e. is_lt (K.cmp e.0 key.now)) (root_pairs root.now) }
    {
        let children = root.children.as_slice();
        if children.is_empty() {
            return PIter::all(root);
        }
        let place = child_of(children, key);
        let (leaves, back) = leaves_before(children[place].node.node(), key);
        PIter::up_to(&children[..place], leaves, back)
    }
}

impl<'a, K, V> Iterator for PIter<'a, K, V> {
    type Item = (&'a K, &'a V);

    ghost next_gives = { YieldsFirstBy deref_pair (λ s. s) };

    ghost remaining = { item_count (λ s. s) };

    fn next(&mut self) -> Option<(&'a K, &'a V)> {
        self.rest.next()
    }
}

impl<'a, K, V> DoubleEndedIterator for PIter<'a, K, V> {
    ghost next_back_gives = { YieldsLastBy deref_pair (λ s. s) };

    fn next_back(&mut self) -> Option<(&'a K, &'a V)> {
        self.rest.next_back()
    }
}
