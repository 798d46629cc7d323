//! How serving stops at dumps that can't be opened.

ghost use Rattle.std.specs.Prelude.{◌≡◌, ◌≢◌};
ghost use Rattle.cj_program.specs.Served.{TellsShelfRefusal, status_of_shelf};

use cj_outside::Sink;
use cj_shelf::ShelfError;
use cj_top::write_bad_record;
use std::alloc::Global;

/// Answers the exit status of a command whose dumps were not opened. Where their bytes are no shelf's, the errors are
/// told so. Where they fail in that, nothing else changes.
pub fn stop_at_dumps<E: Sink>(alloc: Global, error: ShelfError, errors: &mut E) -> u8
    ensures status { result ≡ status_of_shelf error }
    ensures told { TellsShelfRefusal (E.held errors.old) (E.held errors.new) (E.faults errors.old) (E.faults errors.new) error }
    ensures quiet { result ≢ 8 → errors.new ≡ errors.old }
{
    match error {
        ShelfError::Failed => 7,
        ShelfError::NoMemory => 1,
        ShelfError::BadRecord(offset) => {
            let _ = write_bad_record(alloc, offset, errors);
            8
        }
    }
}
