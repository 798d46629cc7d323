//! The history that the items of a log open with.

ghost use Rattle.std.specs.Prelude.{ℕ, ◌^◌, ◌<◌, length, IfOk, IsErrOf};
ghost use Rattle.std.specs.List.{AllByRecursion};
ghost use Rattle.cj_log.specs.Items.{IsItem};
ghost use Rattle.cj_recovery.specs.Openings.{OpensTo, HasBadEntry};

use crate::error::OpeningError;
use crate::grown::Grown;
use cj_cluster::Event;
use cj_log::LogItem;
use std::alloc::Global;

/// Answers the history that the items of a log open with. There are fewer than 2^59 items.
///
/// `BadEntry` comes exactly if no history has these items (`openings_are_good`), with the number of the entry that
/// should come where the first bad item is.
pub fn opening(alloc: Global, items: &[LogItem]) -> Result<Vec<Event>, OpeningError>
    requires each { AllByRecursion IsItem items.now }
    requires few { length items.now < 2 ^ 59 }
    ensures history { IfOk result (λ h. OpensTo items.now h.items) }
    ensures bad { (n : ℕ) → IsErrOf result (OpeningError.BadEntry n) → HasBadEntry items.now n }
{
    let mut grown = Grown::new(alloc);
    for item in items {
        grown.add(item)?;
    }
    Ok(grown.events)
}
