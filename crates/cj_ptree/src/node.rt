//! Nodes of the tree.

ghost use Rattle.std.specs.Prelude.{◌≡◌, List, [], ◌∷◌, option_copied, IfOk, OnOk, OnErr};
ghost use Rattle.std.specs.BTreeMap.{is_at};
ghost use Rattle.std.specs.Map.{lookup, remove_entry};
ghost use Rattle.cj_ptree.specs.Nodes.{Inserts};
ghost use Rattle.cj_ptree.specs.Pairs as pair;

use crate::added::Added;
use crate::edit::Edit;
use cj_model::NoMemory;
use std::alloc::Global;

/// A node of the tree, seen as the pairs in it and below it, in rising key.
pub(crate) trait Node<K: Ord, V>: Drop {
    /// The pairs.
    ghost pairs: { Self → List (K × V) };

    /// The keys rise, and the bounds below divide them.
    ghost IsBuilt: { Self → Type 0 };

    /// No other tree shares a node below this one.
    ghost IsOwned: { Self → Type 0 };

    /// A node without pairs, without allocation.
    fn empty(alloc: Global) -> Self
        ensures pairs { pairs result ≡ [] }
        ensures built { IsBuilt result };

    /// A node with one pair.
    fn single(alloc: Global, key: K, value: V) -> Result<Self, NoMemory>
        ensures pairs { IfOk result (λ node. pairs node ≡ (key, value) ∷ []) }
        ensures built { IfOk result IsBuilt };

    /// Whether there is a pair.
    fn is_filled(&self) -> bool
        requires { IsBuilt self.now }
        ensures { result ≡ pair.is_filled (pairs self.now) };

    /// The value at a key; none if no pair has the key.
    fn find(&self, key: &K) -> Option<&V>
        requires { IsBuilt self.now }
        ensures { option_copied result ≡ lookup (is_at (K.cmp key.now)) (pairs self.now) };

    /// Puts a pair, in place of the value at its key if there is one. May split off pairs from the end. `NoMemory`
    /// leaves the pairs as they were.
    fn insert(&mut self, alloc: Global, key: K, value: V) -> Result<Added<K, V, Self>, NoMemory>
        requires { IsBuilt self.old }
        ensures ok { IfOk result (λ added. Inserts pairs IsBuilt K.cmp (pairs self.old) key value added self.new) }
        ensures err { OnErr result (pairs self.new ≡ pairs self.old) }
        ensures built { IsBuilt self.new };

    /// Removes the pair with a key, and gives its value. `NoMemory` leaves the pairs as they were.
    fn remove(&mut self, alloc: Global, key: &K) -> Result<Option<V>, NoMemory>
        requires { IsBuilt self.old }
        ensures value { IfOk result (λ old. old ≡ lookup (is_at (K.cmp key.now)) (pairs self.old)) }
        ensures ok { OnOk result (pairs self.new ≡ remove_entry (is_at (K.cmp key.now)) (pairs self.old)) }
        ensures err { OnErr result (pairs self.new ≡ pairs self.old) }
        ensures built { IsBuilt self.new };

    /// A node of the same pairs, which shares what can be shared.
    fn copied(&self, alloc: Global) -> Result<Self, NoMemory>
        requires { IsBuilt self.now }
        ensures pairs { IfOk result (λ copy. pairs copy ≡ pairs self.now) }
        ensures built { IfOk result IsBuilt };

    /// Copies all nodes below that other trees share. After `NoMemory` some may be copied.
    fn own(&mut self, alloc: Global) -> Result<(), NoMemory>
        requires { IsBuilt self.old }
        ensures pairs { pairs self.new ≡ pairs self.old }
        ensures built { IsBuilt self.new }
        ensures owned { OnOk result (IsOwned self.new) };

    /// Makes all nodes below ones that trees can share, as far as memory permits.
    fn share(&mut self, alloc: Global)
        requires { IsBuilt self.old }
        ensures pairs { pairs self.new ≡ pairs self.old }
        ensures built { IsBuilt self.new };

    /// Edits all values in place, and removes the pairs that don't stay, without allocation.
    fn retain<E: Edit<V>>(&mut self, by: &E)
        requires built { IsBuilt self.old }
        requires owned { IsOwned self.old }
        ensures pairs { pairs self.new ≡ pair.retained (E.stays by.now) (E.edited by.now) (pairs self.old) }
        ensures built { IsBuilt self.new }
        ensures owned { IsOwned self.new };
}
