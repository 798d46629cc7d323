//! What a command does, and what it is answered.

ghost use Rattle.std.specs.Prelude.{◌≡◌, ◌≢◌, ◌≤◌, ◌<◌, ℕ, [], true, length, None, Result};
ghost use Rattle.cj_model.specs.declared.limits.TheConstants.{BACKEND_LIMIT};
ghost use Rattle.cj_cluster.specs.History.Legality.{IsLegal};
ghost use Rattle.cj_place.specs.Layouts.{placement_of};
ghost use Rattle.cj_board.specs.Seats.{front, pass_view};
ghost use Rattle.cj_listing.specs.Listing.{listing};
ghost use Rattle.cj_pass.specs.Passes.{HasSeenMore};
ghost use Rattle.cj_locked.specs.Listing.{items_between};
ghost use Rattle.cj_administration.specs.Administration.{ChecksSince, DisablesSince, EndsOrphanSince};
ghost use Rattle.cj_administration.specs.Showing.{ShowsBackends};
ghost use Rattle.cj_administration.specs.declared.administration.AdminError as admin;
ghost use Rattle.cj_console.specs.Answers.{AnswersCommand, AnswersLine, AreRightDumps, ShowsAudit, ShowsText, answer_of_done, answer_of_number};
ghost use Rattle.cj_console.specs.Steps.{CanObey, answer_of_unread};
ghost use Rattle.cj_console.specs.declared.answer.Answer.TheVariants as answers;

use crate::answer::Answer;
use crate::shelved::{back_up, enable, enable_from};
use cj_administration::abort_orphan;
use cj_backend::Backend;
use cj_commands::{Command, Unread, read_command};
use cj_control::Control;
use cj_model::{Name, Names};
use cj_outside::Store;
use cj_pass::{Naming, Pass};
use cj_shelf::Shelf;
use std::sync::Wait;

fn show_backends<J: Naming, B: Backend, S: Store + Drop, R: Wait>(
    rt: &R,
    control: &Control<J, B, S>,
    pass: &mut Pass<J>,
) -> Answer
    ensures shows { ShowsText (ShowsBackends J.layout.names (pass_view pass.old.seat) (pass_view pass.new.seat)) result }
    ensures seen { HasSeenMore (pass_view pass.old.seat) (pass_view pass.new.seat) }
    ensures legal { IsLegal (front pass.new.seat) }
{
    let shown = cj_administration::show_backends(control, rt, pass);
    match shown {
        Ok(text) => Answer::Lines(text),
        Err(_) => Answer::NoMemory,
    }
}

fn show_log<J: Naming, B: Backend, S: Store + Drop, R: Wait>(
    rt: &R,
    control: &Control<J, B, S>,
    pass: &mut Pass<J>,
    from: u64,
    to: u64,
) -> Answer
    ensures shows { ShowsText (λ text. text ≡ listing J.layout.names (items_between from to (front pass.new.seat))) result }
    ensures seen { HasSeenMore (pass_view pass.old.seat) (pass_view pass.new.seat) }
    ensures legal { IsLegal (front pass.new.seat) }
{
    let shown = cj_administration::show_log(control, rt, pass, from, to);
    match shown {
        Ok(text) => Answer::Lines(text),
        Err(_) => Answer::NoMemory,
    }
}

fn show_cache<J: Naming, B: Backend, S: Store + Drop, R: Wait>(
    rt: &R,
    control: &Control<J, B, S>,
) -> Answer
    ensures { (hits : ℕ) × (misses : ℕ) × (result ≡ answers.CacheCounts hits misses) }
{
    let (hits, misses) = cj_administration::show_cache(control, rt);
    Answer::CacheCounts(hits, misses)
}

fn audit<J: Naming, B: Backend, S: Store + Drop, R: Wait>(
    rt: &R,
    control: &Control<J, B, S>,
    pass: &mut Pass<J>,
) -> Answer
    ensures shows { ShowsAudit B.tells J.layout (pass_view pass.old.seat) (pass_view pass.new.seat) result }
    ensures seen { HasSeenMore (pass_view pass.old.seat) (pass_view pass.new.seat) }
    ensures legal { IsLegal (front pass.new.seat) }
{
    let audited = cj_administration::audit(control, rt, pass);
    match audited {
        Ok(text) => Answer::Lines(text),
        Err(error) => Answer::Refused(error),
    }
}

fn checkpoint<J: Naming, B: Backend, S: Store + Drop, R: Wait>(
    rt: &R,
    control: &Control<J, B, S>,
    pass: &mut Pass<J>,
    name: &Name,
) -> Answer
    requires named { name.now ≢ [] }
    ensures checks { (r : Result ℕ admin.AdminError) × ChecksSince (front pass.old.seat) (front pass.new.seat) name.now r × (result ≡ answer_of_number r) }
    ensures seen { HasSeenMore (pass_view pass.old.seat) (pass_view pass.new.seat) }
    ensures legal { IsLegal (front pass.new.seat) }
{
    let marked = cj_administration::checkpoint(control, rt, pass, name);
    match marked {
        Ok(number) => Answer::Number(number),
        Err(error) => Answer::Refused(error),
    }
}

fn disable<J: Naming, B: Backend, S: Store + Drop, R: Wait>(
    rt: &R,
    control: &Control<J, B, S>,
    pass: &mut Pass<J>,
    b: u8,
) -> Answer
    requires below { b < length J.layout.names }
    ensures disables { (r : Result Unit admin.AdminError) × DisablesSince (front pass.old.seat) (front pass.new.seat) b r × (result ≡ answer_of_done r) }
    ensures seen { HasSeenMore (pass_view pass.old.seat) (pass_view pass.new.seat) }
    ensures legal { IsLegal (front pass.new.seat) }
{
    let disabled = cj_administration::disable(control, rt, pass, b);
    match disabled {
        Ok(()) => Answer::Done,
        Err(error) => Answer::Refused(error),
    }
}

fn abort<J: Naming, B: Backend, S: Store + Drop, R: Wait>(
    rt: &R,
    control: &Control<J, B, S>,
    pass: &mut Pass<J>,
    tx: u64,
) -> Answer
    ensures ends { (r : Result ℕ admin.AdminError) × EndsOrphanSince B.tells (placement_of J.layout) (front pass.old.seat) (front pass.new.seat) tx r × (result ≡ answer_of_number r) }
    ensures seen { HasSeenMore (pass_view pass.old.seat) (pass_view pass.new.seat) }
    ensures legal { IsLegal (front pass.new.seat) }
{
    let aborted = abort_orphan(control, rt, pass, tx);
    match aborted {
        Ok(number) => Answer::Number(number),
        Err(error) => Answer::Refused(error),
    }
}

/// Carries out a command, and returns its answer. `Quit` does nothing.
fn obey<J: Naming, B: Backend, S: Store + Drop, D: Store, R: Wait>(
    rt: &R,
    control: &Control<J, B, S>,
    pass: &mut Pass<J>,
    shelf: &mut Shelf<D>,
    command: Command,
) -> Answer
    requires can { CanObey J.layout.names command }
    requires legal { IsLegal (front pass.old.seat) }
    requires kept { B.tells ≡ true → D.tells ≡ true }
    requires dumps { AreRightDumps B.tells (front pass.old.seat) shelf.old.dumps }
    ensures answers { AnswersCommand (record { tells = B.tells; kept = D.tells; layout = J.layout; held = D.held; faults = D.faults }) command (record { view = pass_view pass.old.seat; shelf = shelf.old }) (record { view = pass_view pass.new.seat; shelf = shelf.new }) result }
    ensures seen { HasSeenMore (pass_view pass.old.seat) (pass_view pass.new.seat) }
    ensures legal { IsLegal (front pass.new.seat) }
    ensures dumps { AreRightDumps B.tells (front pass.new.seat) shelf.new.dumps }
{
    match command {
        Command::ShowBackends => show_backends(rt, control, pass),
        Command::ShowLog { from, to } => show_log(rt, control, pass, from, to),
        Command::ShowCache => show_cache(rt, control),
        Command::Audit => audit(rt, control, pass),
        Command::Checkpoint(name) => checkpoint(rt, control, pass, &name),
        Command::Disable(b) => disable(rt, control, pass, b),
        Command::Enable(b, None) => enable(rt, control, pass, b, None),
        Command::Enable(b, Some(name)) => enable_from(rt, control, pass, shelf, b, &name),
        Command::Backup(b, name) => back_up(rt, control, pass, shelf, b, &name),
        Command::Abort(tx) => abort(rt, control, pass, tx),
        Command::Quit => Answer::Done,
    }
}

/// Lends the names of the backends. Counting them shows that they are few.
fn names_of<J: Naming, B: Backend + Drop, S: Store + Drop>(control: &Control<J, B, S>) -> &Names
    ensures names { result.now ≡ J.layout.names }
    ensures few { length result.now ≤ BACKEND_LIMIT }
{
    let placement = control.placement();
    let _ = placement.count();
    placement.names()
}

/// Returns the answer to a line that is no command.
fn refusal_of(unread: Unread) -> Answer
    ensures { result ≡ answer_of_unread unread }
{
    match unread {
        Unread::NoCommand => Answer::NoCommand,
        Unread::NoBackend => Answer::NoBackend,
    }
}

/// Carries out the command that a line is, and returns its answer. A line that is none changes nothing.
pub fn answer_line<J: Naming, B: Backend + Drop, S: Store + Drop, D: Store, R: Wait>(
    rt: &R,
    control: &Control<J, B, S>,
    pass: &mut Pass<J>,
    shelf: &mut Shelf<D>,
    line: &[u8],
) -> Answer
    requires legal { IsLegal (front pass.old.seat) }
    requires kept { B.tells ≡ true → D.tells ≡ true }
    requires dumps { AreRightDumps B.tells (front pass.old.seat) shelf.old.dumps }
    ensures answers { AnswersLine (record { tells = B.tells; kept = D.tells; layout = J.layout; held = D.held; faults = D.faults }) line.now (record { view = pass_view pass.old.seat; shelf = shelf.old }) (record { view = pass_view pass.new.seat; shelf = shelf.new }) result }
    ensures seen { HasSeenMore (pass_view pass.old.seat) (pass_view pass.new.seat) }
    ensures legal { IsLegal (front pass.new.seat) }
    ensures dumps { AreRightDumps B.tells (front pass.new.seat) shelf.new.dumps }
{
    let read = read_command(names_of(control), line);
    match read {
        Ok(command) => obey(rt, control, pass, shelf, command),
        Err(unread) => refusal_of(unread),
    }
}
