//! Which rows of a table a statement may concern.

use crate::error::LiteError;
use cj_expr::{BindError, Predicate, Scope, bind};
use cj_model::{Cond, Row, Value};
use std::alloc::Global;

/// Binds a condition to these columns. The outer option is none where the condition is refused, the inner
/// one where there is no condition.
pub fn bound(
    alloc: Global,
    cond: &Option<Cond>,
    scope: &Scope,
) -> Result<Option<Option<Predicate>>, LiteError> {
    match cond {
        None => Ok(Some(None)),
        Some(cond) => match bind(alloc, cond, scope) {
            Ok(predicate) => Ok(Some(Some(predicate))),
            Err(BindError::Refused(_)) => Ok(None),
            Err(BindError::NoMemory) => Err(LiteError::NoMemory),
        },
    }
}

/// A search for rows of one table.
#[derive(Drop)]
pub struct Search<'a> {
    pub cond: &'a Option<Predicate>,
    /// The index of the table's key among the columns of the condition.
    pub key: usize,
    /// Whether the condition has the columns of this table only.
    pub is_alone: bool,
    /// The number of rows in rising key that are enough; none where all are needed.
    pub limit: Option<u64>,
}

impl<'a> Search<'a> {
    /// The key of each row in question, if the condition fixes it.
    pub fn key_wanted(&self) -> Option<&'a Value> {
        match self.cond {
            Some(predicate) => predicate.key_of(self.key),
            None => None,
        }
    }

    /// The key below which no row from `key` on is in question, if there is one.
    pub fn start(&self, key: &Value) -> Option<&'a Value> {
        match self.cond {
            Some(predicate) => match predicate.reach(self.key, key) {
                Some(reach) => reach.start,
                None => None,
            },
            None => None,
        }
    }

    /// Whether a row with this key or a greater one may be in question.
    pub fn goes_on(&self, key: &Value) -> bool {
        match self.cond {
            Some(predicate) => predicate.reach(self.key, key).is_some(),
            None => true,
        }
    }

    /// Whether the row may be in question.
    pub fn takes(&self, row: &Row) -> bool {
        match self.cond {
            Some(predicate) => !self.is_alone || predicate.holds(row.as_slice()),
            None => true,
        }
    }

    /// Whether `count` rows are enough.
    pub fn is_enough(&self, count: usize) -> bool {
        match self.limit {
            Some(limit) => count as u64 >= limit,
            None => false,
        }
    }
}
