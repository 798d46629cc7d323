//! Tells why the program ends with an error.

ghost use Rattle.std.specs.Prelude.{◌≡◌, true};
ghost use Rattle.cj_explain.specs.Explanations.{Explains, TellsListedLine, TellsPlace};

use crate::lines::line_of;
use crate::place::place_line;
use crate::traces::Traces;
use cj_outside::{Sink, Store, write_all};
use std::alloc::Global;

/// Tells the line of the table for this status and this cause, if there is one. A failure changes nothing else.
pub fn tell<E: Sink>(status: u8, cause: &str, errors: &mut E)
    ensures { TellsListedLine (E.held errors.old) (E.held errors.new) (E.faults errors.old) (E.faults errors.new) status }
{
    if let Some(line) = line_of(status, cause) {
        let _ = write_all(errors, line.as_bytes());
    }
}

/// Tells where a configuration is refused, if there is more to say than the refusal does.
fn tell_place<F: Store, E: Sink>(alloc: Global, conf: &mut F, errors: &mut E)
    ensures told { TellsPlace (E.held errors.old) (E.held errors.new) (E.faults errors.old) (E.faults errors.new) }
    ensures conf { F.tells ≡ true → F.held conf.new ≡ F.held conf.old }
{
    if let Some(line) = place_line(alloc, conf) {
        let _ = write_all(errors, &line);
    }
}

/// Tells in plain words why a run ended with this status, after what `run` has written to the errors.
///
/// Where the table has lines for the status, one of them is told. At 3 a line tells the row of a list, counted from 1,
/// or the value found, if that is known: the configuration is read once more for it. A failure of the errors or of the
/// configuration's store changes nothing else.
pub fn explain<F: Store, E: Sink>(
    alloc: Global,
    status: u8,
    traces: &Traces<'_>,
    conf: &mut F,
    errors: &mut E,
)
    ensures told { Explains (E.held errors.old) (E.held errors.new) (E.faults errors.old) (E.faults errors.new) status }
    ensures conf { F.tells ≡ true → F.held conf.new ≡ F.held conf.old }
{
    if status == 3 {
        tell_place(alloc, conf, errors);
    } else {
        tell(status, traces.cause(status), errors);
    }
}
