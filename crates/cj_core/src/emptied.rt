//! The list in which backends came, kept for giving them up.

ghost use Rattle.std.specs.Prelude.{◌≡◌, ◌≤◌, [], vec_capacity};

use cj_model::{BACKEND_LIMIT, NoMemory};
use std::marker::Model;

/// An empty list with room for the most backends, so that giving them up takes no memory.
#[derive(Drop)]
pub struct Emptied<B> {
    list: Vec<B>,
}

impl<B> Model for Emptied<B> {
    ghost use Rattle.std.specs.Prelude.{List, ◌≡◌, ◌≤◌, [], vec_capacity};
    ghost use Rattle.std.specs.Coded.{coded_list};
    ghost use Rattle.cj_model.specs.declared.limits.TheConstants.{BACKEND_LIMIT};

    ghost Value = { List B };

    ghost coded = { coded_list B.code };

    ghost view = { λ emptied. emptied.list.items };

    ghost invariant = { λ emptied. (emptied.list.items ≡ []) × (BACKEND_LIMIT ≤ vec_capacity emptied.list) };
}

impl<B> Emptied<B> {
    /// Makes room for the most backends in an empty list. `NoMemory` is the only error, and drops
    /// the list.
    pub fn new(list: Vec<B>) -> Result<Self, NoMemory>
    where
        B: Drop,
        requires { list.items ≡ [] }
    {
        let mut list = list;
        list.reserve(BACKEND_LIMIT as usize)?;
        Ok(Emptied { list })
    }

    /// Returns the list, which is empty and has room for the most backends.
    pub fn into_vec(self) -> Vec<B>
        ensures items { result.items ≡ [] }
        ensures room { BACKEND_LIMIT ≤ vec_capacity result }
    {
        let Emptied { list } = self;
        list
    }
}
