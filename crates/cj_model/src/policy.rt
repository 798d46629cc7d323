//! How the backend is picked that a read is sent to.

/// The rule by which one of several candidate backends is picked for the next read.
#[derive(Clone, Copy, PartialEq, Eq)]
pub enum Policy {
    /// The next candidate after the backend picked last, in rising number, and then again from 0.
    RoundRobin,
    /// The candidate that was picked least often for its weight.
    Weighted,
    /// The candidate with the fewest reads that haven't ended.
    LeastPending,
}
