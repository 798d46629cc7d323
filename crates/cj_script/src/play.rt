//! The loop of a script: takes lines from a source, plays them, and writes what they give to a sink.

ghost use Rattle.std.specs.Prelude.{◌≡◌, ◌≤◌, ◌^◌, ℕ, IsErrOf, length};
ghost use Rattle.cj_outside.specs.Causes.{CountsFault};
ghost use Rattle.cj_outside.specs.Streams.{most, WritesAll};
ghost use Rattle.cj_cluster.specs.Moves.Runs.{CanCountRequests};
ghost use Rattle.cj_cluster.specs.Script.Lines.{moved_lines};
ghost use Rattle.cj_script.specs.Script.{CameTo, InTurns, audit_line};
ghost use Rattle.cj_script.specs.Steps as steps;
ghost use Rattle.cj_script.specs.Steps.{PlaysOrEnds, ReadsLine};
ghost use Rattle.cj_script.specs.declared.play.ScriptEnd.TheVariants as ends;
ghost use Rattle.std.specs.declared.result.Result.TheVariants.{Err};

use crate::parse::parse_move;
use crate::print::print_made;
use cj_backend::Backend;
use cj_cluster::{Made, Reason, Why};
use cj_core::{AuditError, World};
use cj_model::Names;
use cj_outside::{Line, LineError, Lines, OutError, Sink, Source, Store, write_all};
use std::alloc::Global;

/// How a script ended.
#[derive(Clone, Copy)]
pub enum ScriptEnd {
    /// All lines were played.
    Done,
    /// This line, counted from 1, is too long, or neither empty nor a move nor an audit.
    Line(u64),
    /// The source failed.
    ReadFault,
    /// The sink failed.
    WriteFault,
    /// `MOST` bytes were taken, and the source has not ended.
    Spent,
    /// Memory ran out.
    NoMemory,
}

/// Returns the next line, or how the script ends if there is none.
fn read_line<I: Source>(
    alloc: Global,
    lines: &mut Lines,
    number: u64,
    input: &mut I,
) -> Result<Vec<u8>, ScriptEnd>
    ensures bytes { ReadsLine (I.left input.old) (I.left input.new) lines.old lines.new number result }
    ensures few { lines.new.taken ≤ most }
    ensures cause { CountsFault (IsErrOf result ends.ReadFault) (I.faults input.old) (I.faults input.new) }
{
    let next = lines.next(alloc, input);
    lines.legal();
    match next {
        Ok(Line::Text(line)) => Ok(line),
        Ok(Line::Long) => Err(ScriptEnd::Line(number)),
        Ok(Line::End) => Err(ScriptEnd::Done),
        Err(LineError::Failed) => Err(ScriptEnd::ReadFault),
        Err(LineError::Spent) => Err(ScriptEnd::Spent),
        Err(LineError::NoMemory) => Err(ScriptEnd::NoMemory),
    }
}

/// Writes the lines that a move gives.
fn write_made<O: Sink>(
    alloc: Global,
    names: &Names,
    made: &Made,
    output: &mut O,
) -> Result<(), OutError>
    ensures bytes { WritesAll (O.held output.old) (O.held output.new) (moved_lines names.now made.now) result }
    ensures cause { CountsFault (IsErrOf result OutError.Failed) (O.faults output.old) (O.faults output.new) }
{
    match print_made(alloc, names, made) {
        Ok(lines) => write_all(output, &lines),
        Err(_) => Err(OutError::NoMemory),
    }
}

/// Returns how the script ends, if the lines that a line gives weren't written.
fn written_or_end(written: Result<(), OutError>) -> Result<(), ScriptEnd>
    ensures { result ≡ steps.written_or_end written }
{
    match written {
        Ok(()) => Ok(()),
        Err(OutError::Failed) => Err(ScriptEnd::WriteFault),
        Err(OutError::NoMemory) => Err(ScriptEnd::NoMemory),
    }
}

/// Asks the enabled backends what they hold, and writes it. If an entry is open or a backend fails,
/// that is written instead.
fn play_audit<B: Backend, S: Store, O: Sink>(
    alloc: Global,
    world: &mut World<B, S>,
    output: &mut O,
) -> Result<(), ScriptEnd>
    ensures plays { (number : ℕ) → PlaysOrEnds B.tells B.can_be_armed world.old.setup.names (O.held output.old) (O.held output.new) world.old audit_line number result world.new }
    ensures setup { world.new.setup ≡ world.old.setup }
    ensures cause { CountsFault (IsErrOf result ends.WriteFault) (O.faults output.old) (O.faults output.new) }
{
    if let Some(number) = world.open_entry() {
        let why = Why {
            reason: Reason::EntryOpen,
            value: number,
        };
        let made = Made::NotNow(why);
        return written_or_end(write_made(alloc, world.placement().names(), &made, output));
    }
    match world.audit() {
        Ok(text) => written_or_end(write_all(output, text.as_slice())),
        Err(AuditError::Fault(_)) => written_or_end(write_all(output, b"failed\n")),
        Err(AuditError::NoMemory) => Err(ScriptEnd::NoMemory),
    }
}

/// Plays a line, or returns how the script ends in it.
fn play_line<B: Backend, S: Store, O: Sink>(
    alloc: Global,
    world: &mut World<B, S>,
    number: u64,
    line: &[u8],
    output: &mut O,
) -> Result<(), ScriptEnd>
    requires { 2 ≤ length line.now → CanCountRequests world.old.core 1 }
    ensures plays { PlaysOrEnds B.tells B.can_be_armed world.old.setup.names (O.held output.old) (O.held output.new) world.old line.now number result world.new }
    ensures setup { world.new.setup ≡ world.old.setup }
    ensures cause { CountsFault (IsErrOf result ends.WriteFault) (O.faults output.old) (O.faults output.new) }
{
    if line.is_empty() {
        return Ok(());
    }
    if line == b"audit".as_slice() {
        return play_audit(alloc, world, output);
    }
    world.legal();
    let m = match parse_move(alloc, world.placement().names(), line) {
        Ok(Some(m)) => m,
        Ok(None) => return Err(ScriptEnd::Line(number)),
        Err(_) => return Err(ScriptEnd::NoMemory),
    };
    let Ok(made) = world.make(m) else {
        return Err(ScriptEnd::NoMemory);
    };
    written_or_end(write_made(alloc, world.placement().names(), &made, output))
}

/// Plays the lines of the source, each a move of the world or an audit of it, and writes what they
/// give. Backends go by the names that the world has for them.
///
/// A line that can't be played ends the script, and so does a fault of a stream or of memory. What
/// was played and written until then stays. The replies to each session are turns of one database,
/// whatever the end.
pub fn script<B: Backend, S: Store, I: Source, O: Sink>(
    alloc: Global,
    world: &mut World<B, S>,
    input: &mut I,
    output: &mut O,
) -> ScriptEnd
    requires { CanCountRequests world.old.core (2 ^ 61) }
    ensures came { CameTo B.tells B.can_be_armed world.old.setup.names (I.left input.old) (I.left input.new) (O.held output.old) (O.held output.new) world.old result world.new }
    ensures turns { InTurns B.tells world.old.setup.names (I.left input.old) (I.left input.new) (O.held output.old) (O.held output.new) world.old world.new }
    ensures setup { world.new.setup ≡ world.old.setup }
    ensures input { CountsFault (result ≡ ends.ReadFault) (I.faults input.old) (I.faults input.new) }
    ensures output { CountsFault (result ≡ ends.WriteFault) (O.faults output.old) (O.faults output.new) }
{
    world.legal();
    let mut lines = Lines::new(alloc);
    let mut number = 0;
    loop {
        number += 1;
        let line = match read_line(alloc, &mut lines, number, input) {
            Ok(line) => line,
            Err(end) => return end,
        };
        if let Err(end) = play_line(alloc, world, number, &line, output) {
            return end;
        }
    }
}
