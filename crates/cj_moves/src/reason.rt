//! The reason why a move can't be made now.

ghost use Rattle.std.specs.Prelude.{◌≡◌, Some};

use cj_cluster::{Reason, Why};

/// Returns a reason with its value, as a move's `not_now` gives it.
pub fn why(reason: Reason, value: u64) -> Option<Why>
    ensures { result ≡ Some (record { reason = reason; value = value }) }
{
    Some(Why { reason, value })
}
