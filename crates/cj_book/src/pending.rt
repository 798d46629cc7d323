//! An entry or a marker whose item is on its way into the recovery log.

use cj_cluster::BoxedEntry;
use cj_log::LogItem;
use cj_model::TableSet;

/// What is on its way into the recovery log. The book has a place for it.
#[derive(Clone, Copy)]
pub enum Pending {
    Entry,
    Marker,
}

/// What an entry that is to come needs, with the memory for it.
#[derive(Drop)]
pub struct Prepared {
    /// The mask of the backends that it concerns.
    pub(crate) hosts: u32,
    /// The tables that it touches, whose answers the cache is to drop.
    pub(crate) tables: TableSet,
    pub(crate) room: BoxedEntry,
}

/// What the writer of an entry has while the entry is pending.
#[derive(Drop)]
pub struct BegunEntry {
    /// The entry's item, which the log is to append.
    pub item: LogItem,
    pub prepared: Prepared,
}
