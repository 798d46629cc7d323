//! The administrator: ends orphans, sets checkpoints, audits, and disables a backend.

use crate::worker::{Stage, Worker};
use cj_administration::{AdminError, abort_orphan};
use cj_backend::Backend;
use cj_control::Naming;
use cj_model::{Name, NoMemory, Text};
use cj_outside::{Draw, Store};
use cj_stress_text::Lines;
use std::sync::Wait;

/// In this round a backend is disabled.
const DISABLES: u64 = 8;

fn tell_error(lines: &mut Lines, error: AdminError) -> Result<(), NoMemory> {
    match error {
        AdminError::NotEnabled => lines.add(" NotEnabled"),
        AdminError::NameTaken => lines.add(" NameTaken"),
        AdminError::NotOrphan(tx) => {
            lines.add(" NotOrphan")?;
            lines.add_number(tx)
        }
        AdminError::Fault(b) => {
            lines.add(" Fault")?;
            lines.add_number(b as u64)
        }
        AdminError::HistoryFull(_) => lines.add(" HistoryFull"),
        AdminError::LogFault => lines.add(" LogFault"),
        AdminError::NoMemory => lines.add(" NoMemory"),
    }
}

/// Tells under a word what came of a call with this number, and ends the line.
fn tell(
    lines: &mut Lines,
    word: &str,
    number: u64,
    told: Result<u64, AdminError>,
) -> Result<(), NoMemory> {
    lines.add(word)?;
    lines.add_number(number)?;
    match told {
        Ok(entry) => {
            lines.add(" ok")?;
            lines.add_number(entry)?;
        }
        Err(error) => tell_error(lines, error)?,
    }
    lines.end()
}

/// Ends a transaction, and tells what came of it.
fn abort<J: Naming, B: Backend + Drop, S: Store + Drop, R: Wait>(
    rt: &R,
    stage: &Stage<'_, J, B, S>,
    worker: &mut Worker<J>,
    tx: u64,
) -> Result<(), NoMemory> {
    let told = abort_orphan(stage.control, rt, &mut worker.pass, tx);
    tell(&mut worker.lines, "abort", tx, told)
}

/// Ends all transactions that were left open so far.
fn abort_all<J: Naming, B: Backend + Drop, S: Store + Drop, R: Wait>(
    rt: &R,
    stage: &Stage<'_, J, B, S>,
    worker: &mut Worker<J>,
) -> Result<(), NoMemory> {
    for _ in 0..u64::MAX {
        let Some(tx) = stage.next_orphan(rt) else {
            break;
        };
        abort(rt, stage, worker, tx)?;
    }
    Ok(())
}

/// Sets a checkpoint with a name of this number, and tells what came of it.
fn checkpoint<J: Naming, B: Backend + Drop, S: Store + Drop, R: Wait>(
    rt: &R,
    stage: &Stage<'_, J, B, S>,
    worker: &mut Worker<J>,
    number: u64,
) -> Result<(), NoMemory> {
    let text = format!(in stage.alloc; "c{number}")?;
    let name = match Name::of(text.as_bytes()) {
        Some(name) if !name.as_slice().is_empty() => name,
        _ => return Ok(()),
    };
    let told = cj_administration::checkpoint(stage.control, rt, &mut worker.pass, &name);
    tell(&mut worker.lines, "checkpoint", number, told)
}

/// Disables a backend but the first, and tells what came of it.
fn disable<J: Naming, B: Backend + Drop, S: Store + Drop, R: Wait>(
    rt: &R,
    stage: &Stage<'_, J, B, S>,
    worker: &mut Worker<J>,
) -> Result<(), NoMemory> {
    let b = worker.draw.below(3) as u8 + 1;
    if b >= stage.control.placement().count() {
        return Ok(());
    }
    let told = match cj_administration::disable(stage.control, rt, &mut worker.pass, b) {
        Ok(()) => Ok(0),
        Err(error) => Err(error),
    };
    tell(&mut worker.lines, "disable", b as u64, told)
}

/// Audits, and tells the text under this word.
pub fn audit<J: Naming, B: Backend + Drop, S: Store + Drop, R: Wait>(
    rt: &R,
    stage: &Stage<'_, J, B, S>,
    worker: &mut Worker<J>,
    word: &str,
) -> Result<(), NoMemory> {
    let told = cj_administration::audit(stage.control, rt, &mut worker.pass);
    worker.lines.add(word)?;
    match told {
        Ok(text) => {
            worker.lines.add(" ok")?;
            worker.lines.add_bytes(Text::as_slice(&text))?;
        }
        Err(error) => tell_error(&mut worker.lines, error)?,
    }
    worker.lines.end()
}

/// Does one thing besides ending orphans, by chance.
fn do_drawn<J: Naming, B: Backend + Drop, S: Store + Drop, R: Wait>(
    rt: &R,
    stage: &Stage<'_, J, B, S>,
    worker: &mut Worker<J>,
) -> Result<(), NoMemory> {
    match worker.draw.below(8) {
        0 => {
            let tx = worker.draw.below(1000);
            abort(rt, stage, worker, tx)
        }
        1 | 2 => {
            let number = worker.draw.below(100000);
            checkpoint(rt, stage, worker, number)
        }
        3 | 4 => audit(rt, stage, worker, "audit"),
        _ => Ok(()),
    }
}

/// One round of the administrator.
pub fn administer<J: Naming, B: Backend + Drop, S: Store + Drop, R: Wait>(
    rt: &R,
    stage: &Stage<'_, J, B, S>,
    worker: &mut Worker<J>,
) -> Result<(), NoMemory> {
    abort_all(rt, stage, worker)?;
    if worker.rounds == DISABLES {
        return disable(rt, stage, worker);
    }
    do_drawn(rt, stage, worker)
}
