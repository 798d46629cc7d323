//! What backends have counted, and what they hold of the workload's table.

ghost use Rattle.std.specs.Prelude.{◌≡◌, ◌↔◌, ◌<◌, ◌≤◌, ◌-◌, ◌^◌, ℕ, List, [], All, IfOk, IsTrue, true, false, length, map, min, option_copied, sum};
ghost use Rattle.std.specs.declared.option.Option.{Option};
ghost use Rattle.cj_model.specs.declared.limits.TheConstants.{BACKEND_LIMIT};
ghost use Rattle.cj_model.specs.declared.value.Value.{Value};
ghost use Rattle.cj_model.specs.Cluster.Masks.{in_mask};
ghost use Rattle.cj_workload.specs.Holdings as spec;
ghost use Rattle.cj_workload.specs.Holdings.{AreSame, EachHolds, first_count, times_armed};

use crate::statements::table;
use cj_backend::{Backend, BackendError};
use cj_model::{Db, ListOf, Rows, Same, has_bit};
use std::alloc::Global;

/// The rows that the database has of the workload's table; none where it lacks the table.
fn rows_in(db: &Db) -> Option<&Rows>
    ensures { option_copied result ≡ spec.rows_in db.now }
{
    let table = table();
    match db
        .as_slice()
        .iter()
        .find(|slot| slot.base.schema.table.is(&table))
    {
        Some(slot) => Some(&slot.base.rows),
        None => None,
    }
}

/// Whether two databases have the same rows of the workload's table, or both lack it.
fn has_same(one: &Db, other: &Db) -> bool
    ensures { IsTrue result ↔ (spec.rows_in one.now ≡ spec.rows_in other.now) }
{
    match (rows_in(one), rows_in(other)) {
        (None, None) => true,
        (Some(first), Some(second)) => first.is_same(second),
        (None, Some(_)) => false,
        (Some(_), None) => false,
    }
}

/// Asks each backend of the mask for its contents, in the order of numbers, and gives the backends back. They have
/// counted no fault more, and were armed as often as before. Stops at the first that fails.
pub fn ask_each<B: Backend + Drop>(
    alloc: Global,
    backends: Vec<B>,
    mask: u32,
) -> Result<(ListOf<Db>, ListOf<B>), BackendError>
    requires { length backends.items ≤ BACKEND_LIMIT }
    ensures same { (rows : Option (List (List Value))) → EachHolds mask (map B.told backends.items) rows → IfOk result (λ (held, _). All (λ db. spec.rows_in db ≡ rows) held) }
    ensures some { (b : ℕ) → b < length backends.items → in_mask mask b ≡ true → IfOk result (λ (held, _). 0 < length held) }
    ensures none { ((b : ℕ) → in_mask mask b ≡ false) → IfOk result (λ (held, _). held ≡ []) }
    ensures faults { IfOk result (λ (_, asked). map B.faults asked ≡ map B.faults backends.items) }
    ensures armings { IfOk result (λ (_, asked). times_armed B.arming asked ≡ times_armed B.arming backends.items) }
{
    let mut held = ListOf::new(alloc);
    let mut asked = ListOf::new(alloc);
    let mut b: u8 = 0;
    for mut backend in backends {
        if has_bit(mask, b) {
            held.push(backend.contents()?)?;
        }
        asked.push(backend)?;
        b += 1;
    }
    Ok((held, asked))
}

/// Whether all of these databases have the rows of the workload's table that another one has.
fn all_have_same(held: &[Db], other: &Db) -> bool
    ensures { IsTrue result ↔ All (λ db. spec.rows_in db ≡ spec.rows_in other.now) held.now }
{
    held.iter().all(|db| has_same(db, other))
}

/// Whether all of these databases have the same rows of the workload's table.
pub fn are_equal(held: &[Db]) -> bool
    ensures { IsTrue result ↔ AreSame held.now }
{
    match held {
        [] => true,
        [first, others @ ..] => all_have_same(others, first),
    }
}

/// How many rows of the workload's table the first of these databases has; 0 where there is none.
pub fn count_of(held: &[Db]) -> u64
    ensures { result ≡ first_count held.now }
{
    match held {
        [] => 0,
        [first, ..] => match rows_in(first) {
            Some(rows) => rows.len() as u64,
            None => 0,
        },
    }
}

/// The sum of the faults that the backends have counted, up to 2^64 - 1.
pub fn count_faults<B: Backend>(backends: &[B]) -> u64
    ensures { result ≡ min (sum (map B.faults backends.now)) (2 ^ 64 - 1) }
{
    let mut faults: u64 = 0;
    for backend in backends {
        faults = faults.saturating_add(backend.counts().faults);
    }
    faults
}
