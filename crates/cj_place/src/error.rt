//! Why a placement is refused.

use cj_model::{Name, NoMemory};
use thiserror::Error;

/// Why a placement is refused.
#[derive(Debug, Drop, Error)]
pub enum PlaceError {
    /// There are not 1 to 16 backends.
    #[error("there must be 1 to 16 backends")]
    BackendCount,
    /// A backend, a table, or a host of a table is named twice: this name.
    #[error("a backend, a table or a host of a table is named twice")]
    Twice(Name),
    /// This host is no backend.
    #[error("a host is no backend")]
    Stranger(Name),
    /// This table has no host.
    #[error("a table has no host")]
    NoHost(Name),
    /// This table has more than one host, though tables are partitioned.
    #[error("a table has more than one host")]
    ManyHosts(Name),
    /// This table is not on every backend, though tables are replicated in full.
    #[error("a table is not on every backend")]
    NotAll(Name),
    #[error("out of memory")]
    NoMemory,
}

impl From<NoMemory> for PlaceError {
    ghost use Rattle.std.specs.Prelude.{◌≡◌};
    ghost use Rattle.cj_place.specs.declared.error.PlaceError.TheVariants as error;

    ghost from_gives = { λ _ e. e ≡ error.NoMemory };

    fn from(_error: NoMemory) -> PlaceError {
        PlaceError::NoMemory
    }
}
