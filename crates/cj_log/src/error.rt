//! Why an item was not appended, or not read.

use cj_codec::CodecError;
use thiserror::Error;

/// Why an item was not appended.
#[derive(Clone, Copy, Debug, PartialEq, Eq, Error)]
pub enum LogError {
    /// The store failed, and has counted it.
    #[error("the store failed")]
    Failed,
    #[error("out of memory")]
    NoMemory,
}

/// Why no item was read from a body.
#[derive(Clone, Copy, Debug, PartialEq, Eq)]
pub enum ItemError {
    /// No item has this body.
    NoItem,
    NoMemory,
}

impl From<CodecError> for ItemError {
    ghost use Rattle.std.specs.Prelude.{◌≡◌};
    ghost use Rattle.cj_log.specs.Proving.ItemFormats.{item_error};

    ghost from_gives = { λ error e. e ≡ item_error error };

    fn from(error: CodecError) -> ItemError {
        match error {
            CodecError::Cut(_) | CodecError::BadField(_) => ItemError::NoItem,
            CodecError::NoMemory => ItemError::NoMemory,
        }
    }
}
