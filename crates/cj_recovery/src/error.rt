//! Why no history has these items.

use cj_model::NoMemory;
use std::alloc::AllocFailed;
use thiserror::Error;

/// Why no history has these items of a log.
#[derive(Clone, Copy, Debug, PartialEq, Eq, Error)]
pub enum OpeningError {
    /// The item that should be entry `n`, or a marker before it, can't come next.
    #[error("entry {0} of the log is none")]
    BadEntry(u64),
    #[error("out of memory")]
    NoMemory,
}

impl From<NoMemory> for OpeningError {
    ghost use Rattle.std.specs.Prelude.{◌≡◌};
    ghost use Rattle.cj_recovery.specs.declared.error.OpeningError.TheVariants.{NoMemory};

    ghost from_gives = { λ _ e. e ≡ NoMemory };

    fn from(_error: NoMemory) -> OpeningError {
        OpeningError::NoMemory
    }
}

impl<T: Drop> From<AllocFailed<T>> for OpeningError {
    ghost use Rattle.std.specs.Prelude.{◌≡◌};
    ghost use Rattle.cj_recovery.specs.declared.error.OpeningError.TheVariants.{NoMemory};

    ghost from_gives = { λ _ e. e ≡ NoMemory };

    fn from(_error: AllocFailed<T>) -> OpeningError {
        OpeningError::NoMemory
    }
}
