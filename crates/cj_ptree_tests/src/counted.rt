//! A value by which tests see what is copied and what is freed.

use cj_model::{Duplicate, NoMemory};
use std::alloc::Global;
use std::marker::Model;
use std::sync::Arc;

/// A value that counts how many copies of it there are.
#[derive(Drop)]
pub struct Counted {
    pub arc: Arc<u64>,
}

impl Model for Counted {
    ghost use Rattle.std.specs.Prelude.{ℕ};
    ghost use Rattle.std.specs.Arc.{arc_value};

    ghost Value = { ℕ };

    ghost view = { λ counted. arc_value counted.arc };
}

impl Duplicate for Counted {
    fn copy(&self, _alloc: Global) -> Result<Counted, NoMemory> {
        Ok(Counted {
            arc: Arc::try_clone(&self.arc)?,
        })
    }
}
