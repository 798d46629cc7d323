//! Why a field was not read.

ghost use Rattle.std.specs.Prelude.{◌≡◌};

use cj_model::NoMemory;
use std::alloc::AllocError;
use thiserror::Error;

/// Why a field was not read. Offsets count bytes from the first that the reader was given.
#[derive(Clone, Copy, Debug, PartialEq, Eq, Error)]
pub enum CodecError {
    /// The bytes end inside the field that begins at this offset.
    #[error("the bytes end inside the field at byte {0}")]
    Cut(u64),
    /// The field that begins at this offset isn't allowed.
    #[error("the field at byte {0} isn't allowed")]
    BadField(u64),
    #[error("out of memory")]
    NoMemory,
}

impl From<NoMemory> for CodecError {
    ghost use Rattle.cj_codec.specs.declared.error.CodecError.TheVariants as errors;

    ghost from_gives = { λ _ error. error ≡ errors.NoMemory };

    fn from(_error: NoMemory) -> CodecError {
        CodecError::NoMemory
    }
}

/// What is wrong with the bytes of a field.
#[derive(Clone, Copy, PartialEq, Eq)]
pub enum Fault {
    Cut,
    BadField,
}

/// Why a step of reading stopped.
#[derive(Clone, Copy, PartialEq, Eq)]
pub enum Stop {
    Fault(Fault),
    NoMemory,
}

impl From<NoMemory> for Stop {
    ghost use Rattle.cj_codec.specs.declared.error.Stop.TheVariants.{NoMemory};

    ghost from_gives = { λ _ stop. stop ≡ NoMemory };

    fn from(_error: NoMemory) -> Stop {
        Stop::NoMemory
    }
}

impl From<AllocError> for Stop {
    ghost use Rattle.cj_codec.specs.declared.error.Stop.TheVariants.{NoMemory};

    ghost from_gives = { λ _ stop. stop ≡ NoMemory };

    fn from(_error: AllocError) -> Stop {
        Stop::NoMemory
    }
}
