//! Links to nodes, which trees share, and to other values with several owners.

ghost use Rattle.std.specs.Prelude.{◌≡◌, true, IfOk, IfSome, OnOk, OnErr};
ghost use Rattle.std.specs.Borrow.{sem};
ghost use Rattle.std.specs.BTreeMap.{is_at};
ghost use Rattle.std.specs.Map.{lookup, remove_entry};
ghost use Rattle.cj_ptree.specs.Links.{OwnsNode, target};
ghost use Rattle.cj_ptree.specs.Nodes.{Inserts};
ghost use Rattle.cj_ptree.specs.Pairs as pair;

use crate::added::Added;
use crate::edit::Edit;
use crate::node::Node;
use cj_model::{Duplicate, NoMemory};
use std::alloc::{AllocFailed, Global};
use std::mem;
use std::sync::Arc;

/// A link to a node. Nodes are `Own` while all values of a tree are edited, and where there was no memory to share
/// them; all others are `Shared`, which says nothing of how many trees share them.
#[derive(Drop)]
pub(crate) enum Link<N> {
    Own(N),
    Shared(Arc<N>),
}

impl<N> Link<N> {
    ghost use Rattle.cj_ptree.specs.LinkLends.{LendsNode};

    /// The node.
    pub fn node(&self) -> &N
        ensures { result.now ≡ target self.now }
    {
        match self {
            Link::Own(node) => node,
            Link::Shared(shared) => &**shared,
        }
    }

    /// A link to the node, which trees can share if there is memory for that.
    pub fn of(alloc: Global, node: N) -> Link<N>
        ensures { target result ≡ node }
    {
        match Arc::new(alloc, node) {
            Ok(shared) => Link::Shared(shared),
            Err(failed) => {
                let AllocFailed { value } = failed;
                Link::Own(value)
            }
        }
    }

    /// The node, to be changed in place; none where others share it.
    pub fn node_mut(&mut self) -> Option<&mut N>
        ensures* lends { sem 𝓛 (LendsNode N.row self.entry result) }
        ensures value { IfSome result (λ node. node.now ≡ target self.old) }
    {
        match self {
            Link::Own(node) => Some(node),
            Link::Shared(shared) => Arc::get_mut(shared),
        }
    }
}

impl<N: Duplicate + Drop> Link<N> {
    /// Copies the node if others share it, so that it can be changed in place.
    pub fn unshare(&mut self, alloc: Global) -> Result<(), NoMemory>
        ensures { target self.new ≡ target self.old }
    {
        if !is_alone(self) {
            *self = Link::of(alloc, self.node().copy(alloc)?);
        }
        Ok(())
    }
}

/// Another link to the same pairs; to the same node if that can be shared.
pub(crate) fn again<K: Ord, V, N: Node<K, V>>(
    link: &Link<N>,
    alloc: Global,
) -> Result<Link<N>, NoMemory>
    requires { N.IsBuilt (target link.now) }
    ensures pairs { IfOk result (λ copy. N.pairs (target copy) ≡ N.pairs (target link.now)) }
    ensures built { IfOk result (λ copy. N.IsBuilt (target copy)) }
{
    match link {
        Link::Own(node) => Ok(Link::of(alloc, node.copied(alloc)?)),
        Link::Shared(shared) => Ok(Link::Shared(Arc::try_clone(shared)?)),
    }
}

/// Makes a node that its tree alone has one that trees can share, if there is memory for that.
pub(crate) fn share<K: Ord, V, N: Node<K, V>>(link: &mut Link<N>, alloc: Global)
    ensures { target link.new ≡ target link.old }
{
    let taken = mem::replace(link, Link::Own(N::empty(alloc)));
    *link = match taken {
        Link::Own(node) => Link::of(alloc, node),
        Link::Shared(shared) => Link::Shared(shared),
    };
}

/// Whether no others share the node.
fn is_alone<N>(link: &mut Link<N>) -> bool
    ensures { target link.new ≡ target link.old }
{
    match link {
        Link::Own(_) => true,
        Link::Shared(shared) => match Arc::get_mut(shared) {
            Some(_) => true,
            None => false,
        },
    }
}

/// Copies the node if other trees share it, so that it can be changed in place.
pub(crate) fn ready<K: Ord, V, N: Node<K, V>>(
    link: &mut Link<N>,
    alloc: Global,
) -> Result<(), NoMemory>
    requires { N.IsBuilt (target link.old) }
    ensures pairs { N.pairs (target link.new) ≡ N.pairs (target link.old) }
    ensures built { N.IsBuilt (target link.new) }
{
    if is_alone(link) {
        share(link, alloc);
        return Ok(());
    }
    let node = link.node().copied(alloc)?;
    *link = Link::of(alloc, node);
    Ok(())
}

/// Puts a pair below a link, as a node does.
pub(crate) fn insert_below<K: Ord + Drop, V: Drop, N: Node<K, V>>(
    link: &mut Link<N>,
    alloc: Global,
    key: K,
    value: V,
) -> Result<Added<K, V, N>, NoMemory>
    requires { N.IsBuilt (target link.old) }
    ensures ok { IfOk result (λ added. Inserts N.pairs N.IsBuilt K.cmp (N.pairs (target link.old)) key value added (target link.new)) }
    ensures err { OnErr result (N.pairs (target link.new) ≡ N.pairs (target link.old)) }
    ensures built { N.IsBuilt (target link.new) }
{
    ready(link, alloc)?;
    match link {
        Link::Own(node) => node.insert(alloc, key, value),
        Link::Shared(shared) => match Arc::get_mut(shared) {
            Some(node) => node.insert(alloc, key, value),
            None => Err(NoMemory),
        },
    }
}

/// Removes a pair below a link, as a node does.
pub(crate) fn remove_below<K: Ord, V, N: Node<K, V>>(
    link: &mut Link<N>,
    alloc: Global,
    key: &K,
) -> Result<Option<V>, NoMemory>
    requires { N.IsBuilt (target link.old) }
    ensures value { IfOk result (λ old. old ≡ lookup (is_at (K.cmp key.now)) (N.pairs (target link.old))) }
    ensures ok { OnOk result (N.pairs (target link.new) ≡ remove_entry (is_at (K.cmp key.now)) (N.pairs (target link.old))) }
    ensures err { OnErr result (N.pairs (target link.new) ≡ N.pairs (target link.old)) }
    ensures built { N.IsBuilt (target link.new) }
{
    ready(link, alloc)?;
    match link {
        Link::Own(node) => node.remove(alloc, key),
        Link::Shared(shared) => match Arc::get_mut(shared) {
            Some(node) => node.remove(alloc, key),
            None => Err(NoMemory),
        },
    }
}

/// The node of a link, taken out of what trees share: it is copied if another tree has it.
fn alone<K: Ord, V, N: Node<K, V>>(link: Link<N>, alloc: Global) -> (Link<N>, Result<(), NoMemory>)
    requires { N.IsBuilt (target link) }
    ensures pairs { N.pairs (target result.0) ≡ N.pairs (target link) }
    ensures built { N.IsBuilt (target result.0) }
    ensures owned { OnOk result.1 (OwnsNode (λ node. N.IsBuilt node) result.0) }
{
    match link {
        Link::Own(node) => (Link::Own(node), Ok(())),
        Link::Shared(shared) => match Arc::try_unwrap(shared) {
            Ok(node) => (Link::Own(node), Ok(())),
            Err(shared) => match shared.copied(alloc) {
                Ok(node) => (Link::Own(node), Ok(())),
                Err(error) => (Link::Shared(shared), Err(error)),
            },
        },
    }
}

/// Copies the node and all below it that other trees share, so that all can be changed without allocation. After
/// `NoMemory` some may be copied.
pub(crate) fn own_below<K: Ord, V, N: Node<K, V>>(
    link: &mut Link<N>,
    alloc: Global,
) -> Result<(), NoMemory>
    requires { N.IsBuilt (target link.old) }
    ensures pairs { N.pairs (target link.new) ≡ N.pairs (target link.old) }
    ensures built { N.IsBuilt (target link.new) }
    ensures owned { OnOk result (OwnsNode N.IsOwned link.new) }
{
    let taken = mem::replace(link, Link::Own(N::empty(alloc)));
    let (owned, outcome) = alone(taken, alloc);
    *link = owned;
    outcome?;
    match link {
        Link::Own(node) => node.own(alloc),
        Link::Shared(_) => unreachable!(),
    }
}

/// Makes the node and all below it ones that trees can share, as far as memory permits.
pub(crate) fn share_below<K: Ord, V, N: Node<K, V>>(link: &mut Link<N>, alloc: Global)
    requires { N.IsBuilt (target link.old) }
    ensures pairs { N.pairs (target link.new) ≡ N.pairs (target link.old) }
    ensures built { N.IsBuilt (target link.new) }
{
    if let Link::Own(node) = link {
        node.share(alloc);
    }
    share(link, alloc);
}

/// Edits the values below a link, as a node does. Says whether there is a pair left.
pub(crate) fn retain_below<K: Ord, V, N: Node<K, V>, E: Edit<V>>(link: &mut Link<N>, by: &E) -> bool
    requires built { N.IsBuilt (target link.old) }
    requires owned { OwnsNode N.IsOwned link.old }
    ensures filled { result ≡ pair.is_filled (N.pairs (target link.new)) }
    ensures pairs { N.pairs (target link.new) ≡ pair.retained (E.stays by.now) (E.edited by.now) (N.pairs (target link.old)) }
    ensures built { N.IsBuilt (target link.new) }
    ensures owned { OwnsNode N.IsOwned link.new }
{
    match link {
        Link::Own(node) => {
            node.retain(by);
            node.is_filled()
        }
        Link::Shared(_) => unreachable!(),
    }
}
