//! Why a call of the SQLite database failed.

use cj_model::NoMemory;
use sqlite::ErrorCode;
use std::alloc::{AllocError, AllocFailed};
use thiserror::Error;

/// Why a call of the database was not carried out.
#[derive(Clone, Copy, Debug, PartialEq, Eq, Error)]
pub enum LiteError {
    /// SQLite refused a statement that was found right, or gave back what was never stored.
    #[error("a fault of the database")]
    Fault,
    /// An allocation failed.
    #[error("out of memory")]
    NoMemory,
}

impl From<sqlite::Error> for LiteError {
    fn from(error: sqlite::Error) -> LiteError {
        match error {
            sqlite::Error::SqliteFailure(ErrorCode::OutOfMemory) => LiteError::NoMemory,
            _ => LiteError::Fault,
        }
    }
}

impl From<NoMemory> for LiteError {
    fn from(_error: NoMemory) -> LiteError {
        LiteError::NoMemory
    }
}

impl From<AllocError> for LiteError {
    fn from(_error: AllocError) -> LiteError {
        LiteError::NoMemory
    }
}

impl<T: Drop> From<AllocFailed<T>> for LiteError {
    fn from(_error: AllocFailed<T>) -> LiteError {
        LiteError::NoMemory
    }
}
