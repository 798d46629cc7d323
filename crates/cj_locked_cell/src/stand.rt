//! Where a backend stands.

/// Evidence that a backend was out when its cell was looked at: only such a look makes one.
#[derive(Clone, Copy, Debug, PartialEq, Eq)]
pub struct SeenOut {
    pub(crate) b: u8,
}

/// Where a backend stands.
#[derive(Clone, Copy)]
pub enum Stand {
    /// It has taken so many entries.
    At(u64),
    /// It has missed an entry, and needs a dump.
    Out(SeenOut),
    /// The cell is another backend's, which never comes.
    Elsewhere,
}
