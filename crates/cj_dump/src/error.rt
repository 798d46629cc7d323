//! Why bytes are no dump.

ghost use Rattle.std.specs.Prelude.{◌≡◌};

use cj_codec::CodecError;
use cj_model::NoMemory;
use thiserror::Error;

/// Why bytes were not decoded. Offsets count from 0, the first byte of the dump.
#[derive(Clone, Copy, Debug, PartialEq, Eq, Error)]
pub enum DumpError {
    /// The bytes end inside the field that begins at this offset.
    #[error("the bytes end inside the field at byte {0}")]
    Cut(u64),
    /// The field that begins at this offset isn't allowed.
    #[error("the field at byte {0} isn't allowed")]
    BadField(u64),
    /// The name or the key that begins at this offset isn't greater than the one before it.
    #[error("the field at byte {0} doesn't rise")]
    Order(u64),
    #[error("out of memory")]
    NoMemory,
}

impl From<CodecError> for DumpError {
    ghost use Rattle.cj_dump.specs.Proving.{located};

    ghost from_gives = { λ e error. error ≡ located e };

    fn from(error: CodecError) -> DumpError {
        match error {
            CodecError::Cut(offset) => DumpError::Cut(offset),
            CodecError::BadField(offset) => DumpError::BadField(offset),
            CodecError::NoMemory => DumpError::NoMemory,
        }
    }
}

impl From<NoMemory> for DumpError {
    ghost use Rattle.cj_dump.specs.declared.error.DumpError.TheVariants as errors;

    ghost from_gives = { λ _ error. error ≡ errors.NoMemory };

    fn from(_error: NoMemory) -> DumpError {
        DumpError::NoMemory
    }
}
