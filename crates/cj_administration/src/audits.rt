//! The audit: what the enabled backends hold while the turn is held.

ghost use Rattle.std.specs.Prelude.{◌≡◌, ◌++◌, ◌<◌, ℕ, true, List, length, IfErr, IfOk, OnOk};
ghost use mathlib.Core.List.{IsPrefix};
ghost use Rattle.cj_model.specs.declared.limits.TheConstants.{BACKEND_LIMIT};
ghost use Rattle.cj_model.specs.Cluster.Masks.{in_mask};
ghost use Rattle.cj_audit.specs.Audits.{StaysText};
ghost use Rattle.cj_cluster.specs.declared.event.Event.{Event};
ghost use Rattle.cj_cluster.specs.History.Histories.{is_enabled, is_free, log};
ghost use Rattle.cj_cluster.specs.History.Legality.{IsLegal};
ghost use Rattle.cj_place.specs.Layouts.{placement_of};
ghost use Rattle.cj_board.specs.Seats.{front, pass_view};
ghost use Rattle.cj_pass.specs.Passes.{HasNotedMore};
ghost use Rattle.cj_administration.specs.Auditing.{FailsAudit, audit_lines_at, audit_text_of};

use crate::administration::AdminError;
use cj_audit::{append_backend, into_text};
use cj_backend::Backend;
use cj_control::Control;
use cj_locked::HeldTurn;
use cj_model::{Text, has_bit};
use cj_outside::Store;
use cj_pass::{Naming, Pass};
use cj_replica::CellError;
use std::sync::Wait;

/// Appends the lines of one backend. It is asked for its contents if it is in the mask, and else has no lines. No
/// lock is held while the lines are made.
fn audit_backend<J: Naming, B: Backend, S: Store + Drop, R: Wait>(
    control: &Control<J, B, S>,
    rt: &R,
    pass: &mut Pass<J>,
    text: &mut Vec<u8>,
    b: u8,
    n: u64,
    enabled: u32,
) -> Result<(), AdminError>
    requires backend { b < length J.layout.names }
    requires few { b < BACKEND_LIMIT }
    ensures lines { OnOk result ((h : List Event) → IsPrefix h (front pass.old.seat) → n ≡ length (log h) → in_mask enabled b ≡ is_enabled h b → B.tells ≡ true → text.new.items ≡ text.old.items ++ audit_lines_at J.layout.names (placement_of J.layout) h b) }
    ensures text { OnOk result (StaysText text.old.items text.new.items) }
    ensures err { (h : List Event) → in_mask enabled b ≡ is_enabled h b → IfErr result (FailsAudit h (pass_view pass.old.seat) (pass_view pass.new.seat)) }
    ensures more { HasNotedMore (pass_view pass.old.seat) (pass_view pass.new.seat) }
{
    if !has_bit(enabled, b) {
        return Ok(());
    }
    let contents = control.locks.contents_at(rt, pass, b, n);
    match contents {
        Ok(database) => match append_backend(text, control.locks.placement.name(b), &database) {
            Ok(()) => Ok(()),
            Err(_) => Err(AdminError::NoMemory),
        },
        Err(CellError::Failed) => Err(AdminError::Fault(b)),
        Err(CellError::Starved) => Err(AdminError::NoMemory),
    }
}

/// Makes the audit while the turn is held: `n` is the length of the log, and the mask has the enabled backends.
fn audit_each<J: Naming, B: Backend, S: Store + Drop, R: Wait>(
    control: &Control<J, B, S>,
    rt: &R,
    pass: &mut Pass<J>,
    n: u64,
    enabled: u32,
) -> Result<Text, AdminError>
    requires length { n ≡ length (log (front pass.old.seat)) }
    requires enabled { (b : ℕ) → in_mask enabled b ≡ is_enabled (front pass.old.seat) b }
    ensures text { IfOk result (λ text. B.tells ≡ true → text ≡ audit_text_of J.layout.names (placement_of J.layout) (front pass.old.seat)) }
    ensures err { IfErr result (FailsAudit (front pass.old.seat) (pass_view pass.old.seat) (pass_view pass.new.seat)) }
    ensures more { HasNotedMore (pass_view pass.old.seat) (pass_view pass.new.seat) }
{
    let mut text = Vec::new(control.locks.alloc);
    for b in 0..control.locks.placement.count() {
        let audited = audit_backend(control, rt, pass, &mut text, b, n, enabled);
        if let Err(error) = audited {
            return Err(error);
        }
    }
    Ok(into_text(text))
}

/// Asks each enabled backend for its contents and returns them as lines, in the order of numbers. Waits for the
/// turn, and holds it meanwhile, so no entry comes. Queries are answered all the same.
///
/// The first backend that fails ends the audit. The turn is given back in any case.
pub fn audit<J: Naming, B: Backend, S: Store + Drop, R: Wait>(
    control: &Control<J, B, S>,
    rt: &R,
    pass: &mut Pass<J>,
) -> Result<Text, AdminError>
    ensures text { IfOk result (λ text. B.tells ≡ true → text ≡ audit_text_of J.layout.names (placement_of J.layout) (front pass.new.seat)) }
    ensures err { IfErr result (FailsAudit (front pass.new.seat) (pass_view pass.old.seat) (pass_view pass.new.seat)) }
    ensures free { is_free (front pass.new.seat) ≡ true }
    ensures more { HasNotedMore (pass_view pass.old.seat) (pass_view pass.new.seat) }
    ensures legal { IsLegal (front pass.new.seat) }
{
    let HeldTurn {
        length,
        enabled,
        turn,
    } = control
        .locks
        .wait_for_turn(rt)
        .hold(&control.locks.board, pass);
    let text = audit_each(control, rt, pass, length, enabled);
    control.locks.give_back(rt, pass, turn);
    text
}
