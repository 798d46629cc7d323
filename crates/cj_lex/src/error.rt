//! Why a text is not read.

use std::alloc::{AllocError, AllocFailed};
use thiserror::Error;

/// Why a text is not read.
#[derive(Clone, Copy, Debug, PartialEq, Eq, Error)]
pub enum SqlError {
    /// The text is not of the language, or exceeds one of its limits.
    #[error("not SQL")]
    Syntax,
    #[error("out of memory")]
    NoMemory,
}

impl From<AllocError> for SqlError {
    ghost use Rattle.std.specs.Prelude.{◌≡◌};
    ghost use Rattle.cj_lex.specs.declared.error.SqlError.TheVariants.{NoMemory};

    ghost from_gives = { λ _ error. error ≡ NoMemory };

    fn from(_error: AllocError) -> SqlError {
        SqlError::NoMemory
    }
}

impl<T: Drop> From<AllocFailed<T>> for SqlError {
    ghost use Rattle.std.specs.Prelude.{◌≡◌};
    ghost use Rattle.cj_lex.specs.declared.error.SqlError.TheVariants.{NoMemory};

    ghost from_gives = { λ _ error. error ≡ NoMemory };

    fn from(_error: AllocFailed<T>) -> SqlError {
        SqlError::NoMemory
    }
}

impl From<cj_model::NoMemory> for SqlError {
    ghost use Rattle.std.specs.Prelude.{◌≡◌};
    ghost use Rattle.cj_lex.specs.declared.error.SqlError.TheVariants.{NoMemory};

    ghost from_gives = { λ _ error. error ≡ NoMemory };

    fn from(_error: cj_model::NoMemory) -> SqlError {
        SqlError::NoMemory
    }
}
