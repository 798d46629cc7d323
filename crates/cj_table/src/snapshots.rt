//! Snapshots of databases.

ghost use Rattle.std.specs.Prelude.{◌≡◌, IfOk};

use cj_model::NoMemory;
use cj_ptree::Shared;
use cj_rowstore::StoredTable;
use std::alloc::Global;

/// The same slots again, which share their tables with these. Fails only with `NoMemory`.
pub fn slots_again(
    alloc: Global,
    slots: &[Shared<StoredTable>],
) -> Result<Vec<Shared<StoredTable>>, NoMemory>
    ensures { IfOk result (λ copies. copies.items ≡ slots.now) }
{
    let mut copies = Vec::with_capacity(alloc, slots.len())?;
    for slot in slots {
        copies.push(slot.again(alloc)?)?;
    }
    Ok(copies)
}
