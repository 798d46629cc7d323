//! Why a call of a shelf was refused.

ghost use Rattle.std.specs.Prelude.{◌≡◌};

use cj_model::NoMemory;
use cj_records::RecordsError;
use thiserror::Error;

/// Why a call of a shelf was refused.
#[derive(Clone, Copy, Debug, PartialEq, Eq, Error)]
pub enum ShelfError {
    /// The store failed, and has counted it.
    #[error("the store failed")]
    Failed,
    /// The bytes are no shelf, because of the record at this offset.
    #[error("bad record: {0}")]
    BadRecord(u64),
    #[error("out of memory")]
    NoMemory,
}

impl From<RecordsError> for ShelfError {
    ghost use Rattle.cj_shelf.specs.Proving.{of_records};

    ghost from_gives = { λ e error. error ≡ of_records e };

    fn from(error: RecordsError) -> ShelfError {
        match error {
            RecordsError::Failed => ShelfError::Failed,
            RecordsError::BadRecord(offset) => ShelfError::BadRecord(offset),
            RecordsError::NoMemory => ShelfError::NoMemory,
        }
    }
}

impl From<NoMemory> for ShelfError {
    ghost use Rattle.cj_shelf.specs.declared.error.ShelfError.TheVariants as errors;

    ghost from_gives = { λ _ error. error ≡ errors.NoMemory };

    fn from(_error: NoMemory) -> ShelfError {
        ShelfError::NoMemory
    }
}
