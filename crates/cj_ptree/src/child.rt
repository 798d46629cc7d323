//! Children of the tree's upper nodes.

ghost use Rattle.std.specs.Prelude.{◌≡◌, ◌<◌, ◌+◌, true, length, slice_index_or};
ghost use Rattle.std.specs.Ordering.{is_le};
ghost use Rattle.std.specs.declared.cmp.Ordering.TheVariants.{Less};
ghost use Rattle.cj_ptree.specs.Pairs as pair;

use crate::link::Link;

/// A node below another, with the bound that its keys are not below. The bound of a first child means nothing.
#[derive(Drop)]
pub(crate) struct Child<K, N> {
    pub bound: K,
    pub node: Link<N>,
}

/// The index of the child where a key belongs: the last whose bound is not above the key, or else the first.
pub(crate) fn child_of<K: Ord, N>(children: &[Child<K, N>], key: &K) -> usize
    requires { 0 < length children.now }
    ensures within { result < length children.now }
    ensures start { (d : _) → 0 < result → is_le (K.cmp (slice_index_or children.now result d).bound key.now) ≡ true }
    ensures end { (d : _) → result + 1 < length children.now → K.cmp key.now (slice_index_or children.now (result + 1) d).bound ≡ Less }
{
    let mut low = 0;
    let mut high = children.len();
    while high - low > 1 {
        let middle = low + (high - low) / 2;
        if key.cmp(&children[middle].bound).is_lt() {
            high = middle;
        } else {
            low = middle;
        }
    }
    low
}

/// Whether there is a child.
pub(crate) fn are_filled<K, N>(children: &[Child<K, N>]) -> bool
    ensures { result ≡ pair.is_filled children.now }
{
    !children.is_empty()
}
