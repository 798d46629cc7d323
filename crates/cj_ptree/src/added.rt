//! What an insert leaves to be done above.

/// The value that a pair put below a node replaced, and the node that was split off it with its bound.
#[derive(Drop)]
pub(crate) struct Added<K, V, N> {
    pub old: Option<V>,
    pub right: Option<(K, N)>,
}
