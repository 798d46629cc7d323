//! What stands in a lane.

/// Something with a number, by which it stands in a lane.
#[derive(Clone, Copy, Debug, Drop, PartialEq, Eq)]
pub struct Numbered<T> {
    pub number: u64,
    pub item: T,
}
