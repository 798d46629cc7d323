//! What is wrong with a list of accounts.

use cj_model::{NoMemory, Text};
use thiserror::Error;

/// What is wrong with a list of accounts.
#[derive(Debug, Drop, Error)]
pub enum AuthError {
    /// This user has two accounts.
    #[error("a user is listed twice")]
    Twice(Text),
    /// The digest of this user isn't 64 hexadecimal digits.
    #[error("the digest of a user is not 64 hexadecimal digits")]
    BadDigest(Text),
    /// This user doesn't have one login for each backend.
    #[error("a user does not have one login for each backend")]
    LoginCount(Text),
    #[error("out of memory")]
    NoMemory,
}

impl From<NoMemory> for AuthError {
    ghost use Rattle.std.specs.Prelude.{◌≡◌};
    ghost use Rattle.cj_auth.specs.declared.error.AuthError.TheVariants as error;

    ghost from_gives = { λ _ e. e ≡ error.NoMemory };

    fn from(_error: NoMemory) -> AuthError {
        AuthError::NoMemory
    }
}
