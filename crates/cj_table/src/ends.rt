//! The ends of tables and of transactions.

ghost use Rattle.std.specs.Prelude.{◌≡◌, IfOk, filter, map, not};
ghost use Rattle.std.specs.Str.{bytes_eq};
ghost use Rattle.cj_model.specs.Database.Steps.{dropped};
ghost use Rattle.cj_model.specs.Database.Tables.{table_of};
ghost use Rattle.cj_table.specs.Ends.{ended};

use crate::slots::find;
use cj_model::{LOCKED, NO_TABLE, Name, NoMemory, Outcome, Refusal};
use cj_ptree::Shared;
use cj_rowstore::StoredTable;
use std::alloc::Global;

fn remove_slot(slots: &mut Vec<Shared<StoredTable>>, name: &Name)
    ensures { slots.new.items ≡ filter (λ s. not (bytes_eq (table_of s) name.now)) slots.old.items }
{
    slots.retain(|slot| !slot.get().schema().table.is(name));
}

/// Drops a table, or refuses it if the table does not exist or a transaction has a draft of it. Allocates
/// nothing.
pub fn drop_slot(slots: &mut Vec<Shared<StoredTable>>, name: &Name) -> Outcome
    ensures outcome { result ≡ (dropped slots.old.items name.now).outcome }
    ensures slots { slots.new.items ≡ (dropped slots.old.items name.now).db }
{
    match find(slots, name) {
        None => Outcome::Refused(Refusal::of_code(NO_TABLE)),
        Some(slot) => match slot.writer() {
            Some(tx) => Outcome::Refused(Refusal {
                code: LOCKED,
                a: tx,
                b: 0,
            }),
            None => {
                remove_slot(slots, name);
                Outcome::Done(0)
            }
        },
    }
}

/// How a transaction ends.
#[derive(Clone, Copy)]
pub enum End {
    Commit,
    Abort,
}

/// The slot after the end of transaction `tx`: the same table where `tx` has no draft of it, and a new one else.
fn ended_slot(
    alloc: Global,
    slot: &Shared<StoredTable>,
    tx: u64,
    end: End,
) -> Result<Shared<StoredTable>, NoMemory>
    ensures { IfOk result (λ after. after ≡ ended end tx slot.now) }
{
    let table = slot.get();
    if table.writer() != Some(tx) {
        return slot.again(alloc);
    }
    let after = match end {
        End::Commit => table.committed(alloc, tx)?,
        End::Abort => table.aborted(alloc, tx)?,
    };
    Ok(Shared::of(alloc, after))
}

/// The slots after the end of transaction `tx`. Fails only with `NoMemory`.
pub fn ended_slots(
    alloc: Global,
    slots: &[Shared<StoredTable>],
    tx: u64,
    end: End,
) -> Result<Vec<Shared<StoredTable>>, NoMemory>
    ensures { IfOk result (λ after. after.items ≡ map (ended end tx) slots.now) }
{
    let mut after = Vec::with_capacity(alloc, slots.len())?;
    for slot in slots {
        after.push(ended_slot(alloc, slot, tx, end)?)?;
    }
    Ok(after)
}
