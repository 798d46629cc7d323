//! What a move gives whose event did not come.

ghost use Rattle.std.specs.Prelude.{◌≡◌};
ghost use Rattle.cj_book.specs.Refusals.{refusal_of};
ghost use Rattle.cj_moves.specs.Proving.RefusedEvents.{refused_as};

use cj_book::BookError;
use cj_cluster::{MoveError, Moved};

/// Returns what a move of the administrator gives whose event was refused.
pub fn refused(error: BookError) -> Result<Moved, MoveError>
    ensures { result ≡ refused_as (refusal_of error) }
{
    match error.refusal() {
        Some(refusal) => Ok(Moved::Refused(refusal)),
        None => Err(MoveError::NoMemory),
    }
}
