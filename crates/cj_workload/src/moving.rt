//! The moves between the statements of a workload: backends are armed, one is dumped, and those that are out are
//! brought back from that dump.

ghost use Rattle.std.specs.Prelude.{◌≡◌, ◌<◌, ◌≤◌, ℕ, IfOk, Ok};
ghost use Rattle.cj_core.specs.Played.{given_of};
ghost use Rattle.cj_moves.specs.Steps.{IsMet};
ghost use Rattle.cj_place.specs.Layouts.{placement_of};
ghost use Rattle.cj_workload.specs.Proving.Keeping as keeping;
ghost use Rattle.cj_workload.specs.Proving.Keeping.{IsOfBackend, KeepsSolo};
ghost use Rattle.cj_workload.specs.Workloads as workload;
ghost use Rattle.cj_workload.specs.Workloads.{ArmsWhereDue, CatchesUpAndEnables, MakesOwnMove, MakesMoveBetween, Repairs, RepairsEach, TakesDump, TakesEntries};

use crate::statements::{letter, table};
use cj_backend::Backend;
use cj_cluster::{Did, Made, Move, MoveError, Moved};
use cj_core::Solo;
use cj_model::{NoMemory, has_bit};
use cj_outside::Store;
use cj_place::Placement;

/// Whether a move gave that a backend ran out of memory.
fn tells_want(moved: &Moved) -> bool
    ensures { result ≡ workload.gives_want (Ok moved.now) }
{
    match moved {
        Moved::Starved => true,
        Moved::Replayed { did, .. } => matches!(did, Did::Starved),
        _ => false,
    }
}

/// Makes a move of one backend. A move that can't be made now changes nothing.
/// `NoMemory`: memory ran out, be it at the backend, which is out then.
fn make<B: Backend, S: Store>(solo: &mut Solo<B, S>, m: Move) -> Result<Made, NoMemory>
    requires met { IsMet solo.old.world.core m }
    requires kind { IsOfBackend m }
    ensures made { IfOk result (λ made. MakesOwnMove B.tells B.can_be_armed solo.old m (given_of made) solo.new) }
    ensures keeps { IfOk result (λ made. KeepsSolo 0 (keeping.enabled_by (given_of made)) solo.old solo.new) }
{
    match solo.step(m) {
        Ok(moved) => {
            if tells_want(&moved) {
                return Err(NoMemory);
            }
            Ok(Made::Moved(moved))
        }
        Err(MoveError::NotNow(why)) => Ok(Made::NotNow(why)),
        Err(MoveError::NoMemory) => Err(NoMemory),
    }
}

/// How many backends a move enabled, by what it gave: 1 or 0.
fn enabled_by(made: &Made) -> u64
    ensures same { result ≡ keeping.enabled_by (given_of made.now) }
    ensures few { result ≤ 1 }
{
    match made {
        Made::Moved(Moved::Enabled) => 1,
        Made::Moved(_) => 0,
        Made::NotNow(_) => 0,
    }
}

/// Enables the backend, if that can be done now. Answers how many backends were enabled: 1 or 0.
fn enable<B: Backend, S: Store>(solo: &mut Solo<B, S>, b: u8) -> Result<u64, NoMemory>
    requires { b < solo.old.world.core.placement.backends }
    ensures made { IfOk result (λ _. MakesMoveBetween B.tells B.can_be_armed solo.old (Move.Enable b) solo.new) }
    ensures keeps { IfOk result (λ enabled. KeepsSolo 0 enabled solo.old solo.new) }
    ensures few { IfOk result (λ enabled. enabled ≤ 1) }
{
    let made = make(solo, Move::Enable { b })?;
    Ok(enabled_by(&made))
}

/// Disables the backend, dumps it as `d`, and enables it. Backends are brought back from this dump.
pub fn take_dump<B: Backend, S: Store>(solo: &mut Solo<B, S>, b: u8) -> Result<(), NoMemory>
    requires { b < solo.old.world.core.placement.backends }
    ensures made { IfOk result (λ _. TakesDump B.tells B.can_be_armed b solo.old solo.new) }
    ensures keeps { IfOk result (λ _. (enabled : ℕ) × KeepsSolo 0 enabled solo.old solo.new) }
{
    make(solo, Move::Disable { b })?;
    let name = letter(b'd');
    make(solo, Move::Dump { b, name })?;
    enable(solo, b)?;
    Ok(())
}

/// Has the backend replay the next entry of the log, if it can.
fn take_entry<B: Backend, S: Store>(solo: &mut Solo<B, S>, b: u8) -> Result<(), NoMemory>
    requires { b < solo.old.world.core.placement.backends }
    ensures made { IfOk result (λ _. MakesMoveBetween B.tells B.can_be_armed solo.old (Move.Replay b) solo.new) }
    ensures keeps { IfOk result (λ _. KeepsSolo 0 0 solo.old solo.new) }
{
    make(solo, Move::Replay { b })?;
    Ok(())
}

/// Has the backend replay the next `count` entries of the log, as far as it can.
fn take_entries<B: Backend, S: Store>(
    solo: &mut Solo<B, S>,
    b: u8,
    count: u64,
) -> Result<(), NoMemory>
    requires { b < solo.old.world.core.placement.backends }
    ensures made { IfOk result (λ _. TakesEntries B.tells B.can_be_armed b count solo.old solo.new) }
    ensures keeps { IfOk result (λ _. KeepsSolo 0 0 solo.old solo.new) }
{
    for _ in 0..count {
        take_entry(solo, b)?;
    }
    Ok(())
}

/// Has the backend replay the entries after a position, and enables it. Answers how many were enabled: 1 or 0.
fn catch_up<B: Backend, S: Store>(
    solo: &mut Solo<B, S>,
    b: u8,
    position: u64,
) -> Result<u64, NoMemory>
    requires { b < solo.old.world.core.placement.backends }
    ensures made { IfOk result (λ _. CatchesUpAndEnables B.tells B.can_be_armed b position solo.old solo.new) }
    ensures keeps { IfOk result (λ enabled. KeepsSolo 0 enabled solo.old solo.new) }
    ensures few { IfOk result (λ enabled. enabled ≤ 1) }
{
    let behind = solo.world().length().saturating_sub(position);
    take_entries(solo, b, behind)?;
    enable(solo, b)
}

/// Brings the backend back, where it is out and the dump covers what it hosts: it is loaded from the dump, replays to
/// the log's end and is enabled. Answers how many backends were enabled: 1 or 0.
fn repair<B: Backend, S: Store>(solo: &mut Solo<B, S>, b: u8) -> Result<u64, NoMemory>
    requires { b < solo.old.world.core.placement.backends }
    ensures made { IfOk result (λ _. Repairs B.tells B.can_be_armed b solo.old solo.new) }
    ensures keeps { IfOk result (λ enabled. KeepsSolo 0 enabled solo.old solo.new) }
    ensures few { IfOk result (λ enabled. enabled ≤ 1) }
{
    if solo.world().position(b).is_some() {
        return Ok(0);
    }
    let name = letter(b'd');
    match make(solo, Move::Load { b, name })? {
        Made::Moved(Moved::Loaded(position)) => catch_up(solo, b, position),
        Made::Moved(_) => Ok(0),
        Made::NotNow(_) => Ok(0),
    }
}

/// Brings back each backend that is out and whose tables the dump covers. Answers how many were enabled.
pub fn repair_each<B: Backend, S: Store>(solo: &mut Solo<B, S>) -> Result<u64, NoMemory>
    ensures made { IfOk result (λ _. RepairsEach B.tells B.can_be_armed solo.old.world.core.placement.backends solo.old solo.new) }
    ensures keeps { IfOk result (λ enabled. KeepsSolo 0 enabled solo.old solo.new) }
    ensures few { IfOk result (λ enabled. enabled ≤ 32) }
{
    let mut enabled = 0;
    for b in 0..solo.world().placement().count() {
        enabled += repair(solo, b)?;
    }
    Ok(enabled)
}

/// The first backend that hosts the workload's table; none where no backend does.
pub fn first_host(placement: &Placement) -> Option<u8>
    ensures { result ≡ workload.first_host (placement_of placement.now) }
{
    let hosts = placement.hosts(&table());
    (0..placement.count()).find(|b| has_bit(hosts, *b))
}

/// The backend that is armed before statement `i`: where `i` mod 500 is 1, a backend in turn, if it hosts the table.
fn due(placement: &Placement, i: u64) -> Option<u8>
    ensures { result ≡ workload.due (placement_of placement.now) i }
{
    if i % 500 != 1 {
        return None;
    }
    let b = (i / 500 % u64::from(placement.count())) as u8;
    if has_bit(placement.hosts(&table()), b) {
        Some(b)
    } else {
        None
    }
}

/// Arms the backend that is due before statement `i`, if one is.
pub fn arm<B: Backend, S: Store>(solo: &mut Solo<B, S>, i: u64) -> Result<(), NoMemory>
    ensures made { IfOk result (λ _. ArmsWhereDue B.tells B.can_be_armed (workload.due solo.old.world.core.placement i) solo.old solo.new) }
    ensures keeps { IfOk result (λ _. KeepsSolo 0 0 solo.old solo.new) }
{
    if let Some(b) = due(solo.world().placement(), i) {
        make(solo, Move::Arm { b })?;
    }
    Ok(())
}
