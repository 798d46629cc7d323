//! Tables by their names.

ghost use Rattle.std.specs.Prelude.{◌≡◌, ◌≤◌, is_some, length, option_copied, position, OnOk, OnErr};
ghost use Rattle.std.specs.Str.{bytes_eq};
ghost use Rattle.cj_model.specs.Proving.Gaps.{IsPlace};
ghost use Rattle.cj_model.specs.Database.Steps as steps;
ghost use Rattle.cj_model.specs.Database.Steps.{written};
ghost use Rattle.cj_model.specs.Database.Updates.{change};
ghost use Rattle.cj_model.specs.Database.Tables.{IsDatabase, IsSlot, by_table, put_by, slot_of, table_of};
ghost use Rattle.cj_table.specs.Carried.{Carries, CarriesSlot, change_of, is_undrafted};
ghost use Rattle.cj_dml.specs.Changes.{MakesChange};

use crate::schemas::{empty_table, makes_schema};
use cj_dml::{Change, Decided, decided};
use cj_model::{
    BAD_COLUMNS, COLUMN_LIMIT, Create, LOCKED, NO_TABLE, Name, NoMemory, Outcome, Refusal,
    TABLE_EXISTS, Write,
};
use cj_ptree::Shared;
use cj_rowstore::{StoredTable, View};
use std::alloc::Global;
use std::cmp::Ordering;

fn slot_named<'a>(slots: &'a [Shared<StoredTable>], name: &Name) -> Option<&'a Shared<StoredTable>>
    ensures { option_copied result ≡ slot_of slots.now name.now }
{
    slots.iter().find(|slot| slot.get().schema().table.is(name))
}

/// The slot of the table with this name; none if it does not exist.
pub fn find<'a>(slots: &'a [Shared<StoredTable>], name: &Name) -> Option<&'a StoredTable>
    ensures { option_copied result ≡ slot_of slots.now name.now }
{
    match slot_named(slots, name) {
        Some(slot) => Some(slot.get()),
        None => None,
    }
}

fn position_of(slots: &[Shared<StoredTable>], name: &Name) -> Option<usize>
    ensures { result ≡ position (λ s. bytes_eq (table_of s) name.now) slots.now }
{
    slots
        .iter()
        .position(|slot| slot.get().schema().table.is(name))
}

fn table_written(write: &Write) -> &Name
    ensures { result.now ≡ steps.table_written write.now }
{
    match write {
        Write::Insert { table, .. } | Write::Update { table, .. } | Write::Delete { table, .. } =>
            table,
    }
}

/// Whether rows may be changed in place: no transaction has a draft of the table, and this write makes
/// none.
fn is_undrafted(slot: &StoredTable, tx: u64) -> bool
    ensures { result ≡ is_undrafted slot.now tx }
{
    tx == 0 && slot.writer().is_none()
}

/// The change of a write to the table as its transaction sees it, or its refusal.
fn decided_for(
    alloc: Global,
    slot: &StoredTable,
    tx: u64,
    write: &Write,
) -> Result<Decided, NoMemory>
    requires { IsSlot slot.now }
    ensures { MakesChange (is_undrafted slot.now tx) (steps.seen slot.now tx) (change (steps.seen slot.now tx) write.now) result }
{
    let view = View::of(slot, tx);
    decided(alloc, &view, is_undrafted(slot, tx), write)
}

fn write_slot(
    alloc: Global,
    slot: &mut Shared<StoredTable>,
    tx: u64,
    write: &Write,
) -> Result<Outcome, NoMemory>
    requires { IsSlot slot.old }
    ensures { CarriesSlot slot.old tx (change_of slot.old tx write.now) result slot.new }
{
    if let Some(other) = slot.get().other_writer(tx) {
        return Ok(Outcome::Refused(Refusal {
            code: LOCKED,
            a: other,
            b: 0,
        }));
    }
    match decided_for(alloc, slot.get(), tx, write)? {
        Ok(Change::ByKey(plan)) => {
            slot.edit(alloc)?.change(tx, plan.changes, plan.count)?;
            Ok(Outcome::Done(plan.written))
        }
        Ok(Change::InPlace { edit, written }) => {
            slot.edit(alloc)?.edit_rows(&edit)?;
            Ok(Outcome::Done(written))
        }
        Ok(Change::Removal { by, count, written }) => {
            slot.edit(alloc)?.keep_rows(&by, count)?;
            Ok(Outcome::Done(written))
        }
        Err(refusal) => Ok(Outcome::Refused(refusal)),
    }
}

/// Carries out a write of transaction `tx`, 0 for none, or refuses it. `NoMemory` leaves the slots
/// unchanged.
pub fn write_slots(
    alloc: Global,
    slots: &mut Vec<Shared<StoredTable>>,
    tx: u64,
    write: &Write,
) -> Result<Outcome, NoMemory>
    requires { IsDatabase slots.old.items }
    ensures { Carries slots.old.items (written slots.old.items tx write.now) result slots.new.items }
{
    match position_of(slots, table_written(write)) {
        None => Ok(Outcome::Refused(Refusal::of_code(NO_TABLE))),
        Some(place) => {
            let slot = &mut slots[place];
            write_slot(alloc, slot, tx, write)
        }
    }
}

/// Where a slot is put: `Ok` with the index of the slot of the same table, or `Err` with the index that it
/// is inserted at.
fn place_of(slots: &[Shared<StoredTable>], slot: &StoredTable) -> Result<usize, usize>
    ensures { IsPlace by_table slots.now slot.now result }
{
    let name = slot.schema().table.as_slice();
    for (i, other) in slots.iter().enumerate() {
        match name.cmp(other.get().schema().table.as_slice()) {
            Ordering::Less => return Err(i),
            Ordering::Equal => return Ok(i),
            Ordering::Greater => {}
        }
    }
    Err(slots.len())
}

/// Puts a slot, in place of the one of its table if there is one. `NoMemory` leaves the slots unchanged.
pub fn put_slot(
    slots: &mut Vec<Shared<StoredTable>>,
    slot: Shared<StoredTable>,
) -> Result<(), NoMemory>
    ensures ok { OnOk result (slots.new.items ≡ put_by by_table slots.old.items slot) }
    ensures err { OnErr result (slots.new.items ≡ slots.old.items) }
{
    match place_of(slots, slot.get()) {
        Ok(place) => slots[place] = slot,
        Err(place) => slots.insert(place, slot)?,
    }
    Ok(())
}

fn has_table(slots: &[Shared<StoredTable>], name: &Name) -> bool
    ensures { result ≡ is_some (slot_of slots.now name.now) }
{
    find(slots, name).is_some()
}

/// Creates a table, or refuses it. `NoMemory` leaves the slots unchanged.
pub fn create_slot(
    alloc: Global,
    slots: &mut Vec<Shared<StoredTable>>,
    create: &Create,
) -> Result<Outcome, NoMemory>
    requires { length create.now.columns ≤ COLUMN_LIMIT }
    ensures { Carries slots.old.items (steps.created slots.old.items create.now) result slots.new.items }
{
    if has_table(slots, &create.table) {
        return Ok(Outcome::Refused(Refusal::of_code(TABLE_EXISTS)));
    }
    if !makes_schema(alloc, create.columns.as_slice())? {
        return Ok(Outcome::Refused(Refusal::of_code(BAD_COLUMNS)));
    }
    let slot = empty_table(alloc, create)?;
    put_slot(slots, Shared::of(alloc, slot))?;
    Ok(Outcome::Done(0))
}
