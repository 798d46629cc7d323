//! The transactions that have a draft.

ghost use Rattle.std.specs.Prelude.{◌≡◌, fold, option_map, option_to_list, IfOk, OnOk};
ghost use Rattle.std.specs.Ordering.{nat_cmp};
ghost use Rattle.cj_model.specs.Database.Storable.{writers};
ghost use Rattle.cj_model.specs.Database.Tables.{put_by};
ghost use Rattle.cj_model.specs.Proving.Gaps.{IsGap};

use cj_model::NoMemory;
use cj_ptree::Shared;
use cj_rowstore::StoredTable;
use std::alloc::Global;
use std::cmp::Ordering;

/// The index at which a number is inserted among rising ones; none if it is one of them.
fn gap_for(numbers: &[u64], number: u64) -> Option<usize>
    ensures { IsGap nat_cmp numbers.now number result }
{
    for (i, other) in numbers.iter().enumerate() {
        match number.cmp(other) {
            Ordering::Less => return Some(i),
            Ordering::Equal => return None,
            Ordering::Greater => {}
        }
    }
    Some(numbers.len())
}

fn put(numbers: &mut Vec<u64>, number: u64) -> Result<(), NoMemory>
    ensures { OnOk result (numbers.new.items ≡ put_by nat_cmp numbers.old.items number) }
{
    if let Some(place) = gap_for(numbers, number) {
        numbers.insert(place, number)?;
    }
    Ok(())
}

fn put_writer(numbers: &mut Vec<u64>, slot: &StoredTable) -> Result<(), NoMemory>
    ensures { OnOk result (numbers.new.items ≡ fold (put_by nat_cmp) numbers.old.items (option_to_list (option_map (λ draft. draft.tx) slot.now.draft))) }
{
    match slot.writer() {
        Some(tx) => put(numbers, tx),
        None => Ok(()),
    }
}

/// The transactions that have a draft in these slots, in rising number. Fails only with `NoMemory`.
pub fn writers_in(alloc: Global, slots: &[Shared<StoredTable>]) -> Result<Vec<u64>, NoMemory>
    ensures { IfOk result (λ numbers. numbers.items ≡ writers slots.now) }
{
    let mut numbers = Vec::new(alloc);
    for slot in slots {
        put_writer(&mut numbers, slot.get())?;
    }
    Ok(numbers)
}
