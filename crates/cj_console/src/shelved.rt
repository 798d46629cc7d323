//! How a backend comes back, and the commands that look up a dump or add one.

ghost use Rattle.std.specs.Prelude.{◌≡◌, ◌≢◌, ◌<◌, ℕ, [], true, length, IfSome, Result};
ghost use Rattle.cj_cluster.specs.History.Legality.{IsLegal};
ghost use Rattle.cj_board.specs.Seats.{front, pass_view};
ghost use Rattle.cj_pass.specs.Passes.{HasSeenMore};
ghost use Rattle.cj_shelf.specs.Shelves.{SameShelf};
ghost use Rattle.cj_return_path.specs.Restoring.{IsRightDump};
ghost use Rattle.cj_replay.specs.Reenabling.{Reenables};
ghost use Rattle.cj_replay.specs.declared.reenabling.ReplayError as replay;
ghost use Rattle.cj_console.specs.Answers.{AreRightDumps, BacksUpAndReenables, ReenablesFrom, answer_of_reenabling};

use crate::answer::Answer;
use cj_backend::Backend;
use cj_backup::backup;
use cj_control::Control;
use cj_dump::Dump;
use cj_model::Name;
use cj_outside::Store;
use cj_pass::{Naming, Pass};
use cj_replay::reenable;
use cj_shelf::{Shelf, ShelfError};
use std::sync::Wait;

/// Brings backend `b` back, with this dump if the backend is out.
pub fn enable<J: Naming, B: Backend, S: Store + Drop, R: Wait>(
    rt: &R,
    control: &Control<J, B, S>,
    pass: &mut Pass<J>,
    b: u8,
    dump: Option<Dump>,
) -> Answer
    requires below { b < length J.layout.names }
    requires right { IfSome dump (IsRightDump B.tells (front pass.old.seat)) }
    ensures reenables { (r : Result ℕ replay.ReplayError) × Reenables J.layout b dump (pass_view pass.old.seat) (pass_view pass.new.seat) r × (result ≡ answer_of_reenabling r) }
    ensures seen { HasSeenMore (pass_view pass.old.seat) (pass_view pass.new.seat) }
    ensures legal { IsLegal (front pass.new.seat) }
{
    let enabled = reenable(rt, control, pass, b, dump);
    match enabled {
        Ok(position) => Answer::Number(position),
        Err(error) => Answer::NotReenabled(error),
    }
}

/// Brings backend `b` back, with the first dump of this name on the shelf if the backend is out. Nothing is done if the
/// shelf does not give the dump.
pub fn enable_from<J: Naming, B: Backend, S: Store + Drop, D: Store, R: Wait>(
    rt: &R,
    control: &Control<J, B, S>,
    pass: &mut Pass<J>,
    shelf: &mut Shelf<D>,
    b: u8,
    name: &Name,
) -> Answer
    requires below { b < length J.layout.names }
    requires legal { IsLegal (front pass.old.seat) }
    requires kept { B.tells ≡ true → D.tells ≡ true }
    requires dumps { AreRightDumps B.tells (front pass.old.seat) shelf.old.dumps }
    ensures reenables { ReenablesFrom (record { tells = B.tells; kept = D.tells; layout = J.layout; held = D.held; faults = D.faults }) b name.now (pass_view pass.old.seat) (pass_view pass.new.seat) shelf.old shelf.new result }
    ensures shelf { SameShelf D.tells D.held shelf.old shelf.new }
    ensures seen { HasSeenMore (pass_view pass.old.seat) (pass_view pass.new.seat) }
    ensures legal { IsLegal (front pass.new.seat) }
{
    let found = shelf.find(name);
    match found {
        Ok(Some(dump)) => enable(rt, control, pass, b, Some(dump)),
        Ok(None) => Answer::NoDump,
        Err(ShelfError::Failed) => Answer::StoreFault,
        Err(ShelfError::BadRecord(offset)) => Answer::BadRecord(offset),
        Err(ShelfError::NoMemory) => Answer::NoMemory,
    }
}

/// Puts a dump of backend `b` onto the shelf under this name, and brings the backend back. If the backend does not come
/// back, the dump stays.
pub fn back_up<J: Naming, B: Backend, S: Store + Drop, D: Store, R: Wait>(
    rt: &R,
    control: &Control<J, B, S>,
    pass: &mut Pass<J>,
    shelf: &mut Shelf<D>,
    b: u8,
    name: &Name,
) -> Answer
    requires below { b < length J.layout.names }
    requires named { name.now ≢ [] }
    requires legal { IsLegal (front pass.old.seat) }
    requires kept { B.tells ≡ true → D.tells ≡ true }
    requires dumps { AreRightDumps B.tells (front pass.old.seat) shelf.old.dumps }
    ensures backs_up { BacksUpAndReenables (record { tells = B.tells; kept = D.tells; layout = J.layout; held = D.held; faults = D.faults }) b name.now (pass_view pass.old.seat) (pass_view pass.new.seat) shelf.old shelf.new result }
    ensures seen { HasSeenMore (pass_view pass.old.seat) (pass_view pass.new.seat) }
    ensures legal { IsLegal (front pass.new.seat) }
    ensures dumps { AreRightDumps B.tells (front pass.new.seat) shelf.new.dumps }
{
    let backed = backup(rt, control, pass, b, name, shelf);
    match backed {
        Ok(position) => match reenable(rt, control, pass, b, None) {
            Ok(_) => Answer::Number(position),
            Err(error) => Answer::NotReenabled(error),
        },
        Err(error) => Answer::NotBackedUp(error),
    }
}
