//! Snapshots of a database in memory.

ghost use Rattle.std.specs.Prelude.{◌≡◌, Some};
ghost use Rattle.std.specs.Arc.{arc_value};

use cj_backend::Snap;
use cj_model::{Asked, NoMemory, Select};
use cj_query::select;
use cj_table::Tables;
use std::alloc::Global;
use std::sync::Arc;

/// What a backend in memory held at one moment. Its rows are shared with the backend and with other snapshots, until
/// one of them changes them.
#[derive(Drop)]
pub struct MemSnap {
    alloc: Global,
    tables: Arc<Tables, Global>,
}

impl MemSnap {
    /// A snapshot that shows these tables, and answers by memory of `alloc`.
    pub(crate) fn of(alloc: Global, tables: Arc<Tables, Global>) -> MemSnap
        ensures { arc_value result.tables ≡ arc_value tables }
    {
        MemSnap { alloc, tables }
    }
}

impl Snap for MemSnap {
    ghost shows = { λ snap. Some (arc_value snap.tables) };

    fn ask(&mut self, tx: u64, query: &Select) -> Result<Asked, NoMemory> {
        let tables = &*self.tables;
        tables.legal();
        let answer = select(self.alloc, query, tables, tx)?;
        Ok(answer)
    }
}
