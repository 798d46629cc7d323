//! Cases played.

ghost use Rattle.std.specs.Prelude.{◌≡◌, ◌≢◌, IsErrOf, Result};
ghost use Rattle.cj_outside.specs.Causes.{CountsFault};
ghost use Rattle.cj_cases.specs.Lines.{lines_of};
ghost use Rattle.cj_cases.specs.Plays as spec;
ghost use Rattle.cj_cases.specs.Plays.{EndsPlay, PlaysCases, PlaysOrStops, RunsOrStops, WritesLine, refused_line};

use crate::case::Case;
use crate::cut::cut;
use crate::runner::Runner;
use crate::show::shown;
use cj_outside::{OutError, ReadError, Sink, Source, read_to_end, write_all};
use std::alloc::Global;

/// All cases were played.
const PLAYED: u8 = 0;
/// Memory ran out.
const NO_MEMORY: u8 = 1;
/// The source failed.
const READ_FAULT: u8 = 5;
/// The sink failed.
const WRITE_FAULT: u8 = 6;
/// A line is no directive.
const WRONG_LINE: u8 = 10;
/// `MOST` bytes were taken, and the source has not ended.
const SPENT: u8 = 11;

/// Whether the line asks for a run.
fn asks_run(case: &Case, line: &[u8]) -> bool
    ensures { result ≡ spec.asks_run case.now line.now }
{
    case.number() > 0 && line == b"run".as_slice()
}

/// Runs the case, writes what the run gave, and keeps the log that it left. After an error a part
/// of the text may be written.
fn run_case<R: Runner, O: Sink>(
    alloc: Global,
    runner: &mut R,
    case: &mut Case,
    output: &mut O,
) -> Result<(), OutError>
    ensures plays { RunsOrStops R.gives case.old (O.held output.old) (O.held output.new) case.new result }
    ensures cause { CountsFault (IsErrOf result OutError.Failed) (O.faults output.old) (O.faults output.new) }
{
    let Ok(outcome) = runner.run(alloc, case) else {
        return Err(OutError::NoMemory);
    };
    let Ok(text) = shown(alloc, case, &outcome) else {
        return Err(OutError::NoMemory);
    };
    match write_all(output, &text) {
        Ok(()) => {
            case.forget(alloc, outcome.log);
            Ok(())
        }
        Err(error) => Err(error),
    }
}

/// Plays a line, and returns whether the line was a directive.
fn play_line<R: Runner, O: Sink>(
    alloc: Global,
    runner: &mut R,
    case: &mut Case,
    line: &[u8],
    output: &mut O,
) -> Result<bool, OutError>
    ensures plays { PlaysOrStops R.gives case.old line.now (O.held output.old) (O.held output.new) case.new result }
    ensures cause { CountsFault (IsErrOf result OutError.Failed) (O.faults output.old) (O.faults output.new) }
{
    if asks_run(case, line) {
        return match run_case(alloc, runner, case, output) {
            Ok(()) => Ok(true),
            Err(error) => Err(error),
        };
    }
    match case.say(alloc, line) {
        Ok(known) => Ok(known),
        Err(_) => Err(OutError::NoMemory),
    }
}

/// Writes the number of the case with a line that is no directive, if that can be written.
fn refuse<E: Sink>(alloc: Global, case: &Case, line: &[u8], errors: &mut E)
    ensures { WritesLine (E.held errors.old) (E.held errors.new) (E.faults errors.old) (E.faults errors.new)
        (refused_line case.now line.now) }
{
    let number = case.number_at(line);
    if let Ok(text) = format!(in alloc; "case {number}\n") {
        let _ = write_all(errors, text.as_bytes());
    }
}

fn play_text<R: Runner, O: Sink, E: Sink>(
    alloc: Global,
    runner: &mut R,
    text: &[u8],
    output: &mut O,
    errors: &mut E,
) -> u8
    ensures ends { EndsPlay R.gives
        (WritesLine (E.held errors.old) (E.held errors.new) (E.faults errors.old) (E.faults errors.new))
        (lines_of text.now) (O.held output.old) (O.held output.new) result }
    ensures quiet { result ≢ 10 → errors.new ≡ errors.old }
    ensures output { CountsFault (result ≡ 6) (O.faults output.old) (O.faults output.new) }
{
    let mut case = Case::none(alloc);
    let mut rest = Some(text);
    while let Some(here) = rest {
        let (line, more) = cut(b'\n', here);
        match play_line(alloc, runner, &mut case, line, output) {
            Ok(true) => rest = more,
            Ok(false) => {
                refuse(alloc, &case, line, errors);
                return WRONG_LINE;
            }
            Err(OutError::Failed) => return WRITE_FAULT,
            Err(OutError::NoMemory) => return NO_MEMORY,
        }
    }
    PLAYED
}

/// Takes the source to its end, plays its lines, and writes the text of each run once the run has
/// ended. Returns a status:
///
/// - 0: all lines were played.
/// - 10: a line is no directive. `case N` was written to the errors, if that could be written. N is
///   the number of cases up to that line.
/// - 5, 6: the source or the sink failed, and counted it.
/// - 11: the source has `MOST` bytes or more.
/// - 1: memory ran out. All of the source has to fit into it.
///
/// At 10, and if the sink failed or memory ran out in a line, the text of all runs before that line
/// was written. At 5 and 11 nothing was.
pub fn play<R: Runner, I: Source, O: Sink, E: Sink>(
    alloc: Global,
    runner: &mut R,
    input: &mut I,
    output: &mut O,
    errors: &mut E,
) -> u8
    ensures plays { PlaysCases R.gives
        (WritesLine (E.held errors.old) (E.held errors.new) (E.faults errors.old) (E.faults errors.new))
        (I.left input.old) (I.left input.new) (O.held output.old) (O.held output.new) result }
    ensures quiet { result ≢ 10 → errors.new ≡ errors.old }
    ensures input { CountsFault (result ≡ 5) (I.faults input.old) (I.faults input.new) }
    ensures output { CountsFault (result ≡ 6) (O.faults output.old) (O.faults output.new) }
{
    match read_to_end(alloc, input) {
        Ok(text) => play_text(alloc, runner, &text, output, errors),
        Err(ReadError::Failed) => READ_FAULT,
        Err(ReadError::Spent) => SPENT,
        Err(ReadError::NoMemory) => NO_MEMORY,
    }
}
