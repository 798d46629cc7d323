//! SELECT.

use crate::condition::Cond;
use crate::list::ListOf;
use crate::memory::{Duplicate, NoMemory};
use crate::name::Names;
use crate::term::ColRef;
use std::alloc::Global;

/// One item of an answer's row.
#[derive(Drop)]
pub enum Item {
    Col(ColRef),
    /// `COUNT(*)`.
    Count,
    Sum(ColRef),
}

pub type ItemList = ListOf<Item>;

/// What each row of an answer has: all columns, or the listed items.
#[derive(Drop)]
pub enum Items {
    /// `*`: each column of each table.
    All,
    Listed(ItemList),
}

/// A key of ORDER BY.
#[derive(Drop)]
pub struct Key {
    pub col: ColRef,
    pub desc: bool,
}

pub type Keys = ListOf<Key>;

/// A query over one to four tables, all different.
#[derive(Drop)]
pub struct Select {
    pub items: Items,
    pub tables: Names,
    pub cond: Option<Cond>,
    pub group: Option<ColRef>,
    pub order: Keys,
    /// The most rows of the answer.
    pub limit: Option<u64>,
}

impl Duplicate for Item {
    fn copy(&self, alloc: Global) -> Result<Item, NoMemory> {
        match self {
            Item::Col(column) => Ok(Item::Col(column.copy(alloc)?)),
            Item::Count => Ok(Item::Count),
            Item::Sum(column) => Ok(Item::Sum(column.copy(alloc)?)),
        }
    }
}

impl Duplicate for Items {
    fn copy(&self, alloc: Global) -> Result<Items, NoMemory> {
        match self {
            Items::All => Ok(Items::All),
            Items::Listed(items) => Ok(Items::Listed(items.copy(alloc)?)),
        }
    }
}

impl Duplicate for Key {
    fn copy(&self, alloc: Global) -> Result<Key, NoMemory> {
        Ok(Key {
            col: self.col.copy(alloc)?,
            desc: self.desc,
        })
    }
}

impl Duplicate for Select {
    fn copy(&self, alloc: Global) -> Result<Select, NoMemory> {
        Ok(Select {
            items: self.items.copy(alloc)?,
            tables: self.tables.copy(alloc)?,
            cond: self.cond.copy(alloc)?,
            group: self.group.copy(alloc)?,
            order: self.order.copy(alloc)?,
            limit: self.limit,
        })
    }
}
