//! Why a configuration is refused.

ghost use Rattle.std.specs.Prelude.{◌≡◌, IfOk};
ghost use Rattle.cj_conf.specs.Refusals.{error_number, config_key_text};

use crate::key::Key;
use cj_auth::AuthError;
use cj_model::NoMemory;
use cj_place::PlaceError;
use std::alloc::Global;
use std::fmt;
use std::marker::Model;
use thiserror::Error;

/// A key that a configuration has and that isn't known. Contracts see its bytes.
#[derive(Debug, Drop)]
pub struct UnknownKey {
    text: String,
}

impl Model for UnknownKey {
    ghost use Rattle.std.specs.Prelude.{List, ℕ, string_bytes};

    ghost Value = { List ℕ };

    ghost view = { λ key. string_bytes key.text };
}

impl UnknownKey {
    pub fn of(alloc: Global, key: &str) -> Result<UnknownKey, NoMemory>
        ensures { IfOk result (λ made. made ≡ key.now) }
    {
        Ok(UnknownKey {
            text: String::from_str(alloc, key)?,
        })
    }

    pub fn as_slice(&self) -> &[u8]
        ensures { result.now ≡ self.now }
    {
        self.text.as_bytes()
    }
}

impl fmt::Display for UnknownKey {
    fn fmt<W: fmt::Write>(&self, f: &mut fmt::Formatter<W>) -> fmt::Result {
        f.write_str(self.text.as_str())
    }
}

/// The name that a refusal is about, for its message; no bytes if it is about none.
#[derive(Clone, Copy)]
struct Subject<'a>(&'a [u8]);

impl Subject<'_> {
    fn of_place(error: &PlaceError) -> Subject<'_> {
        match error {
            PlaceError::BackendCount => Subject(b""),
            PlaceError::Twice(name) => Subject(name.as_slice()),
            PlaceError::Stranger(name) => Subject(name.as_slice()),
            PlaceError::NoHost(name) => Subject(name.as_slice()),
            PlaceError::ManyHosts(name) => Subject(name.as_slice()),
            PlaceError::NotAll(name) => Subject(name.as_slice()),
            PlaceError::NoMemory => Subject(b""),
        }
    }

    fn of_auth(error: &AuthError) -> Subject<'_> {
        match error {
            AuthError::Twice(user) => Subject(user.as_slice()),
            AuthError::BadDigest(user) => Subject(user.as_slice()),
            AuthError::LoginCount(user) => Subject(user.as_slice()),
            AuthError::NoMemory => Subject(b""),
        }
    }
}

impl fmt::Display for Subject<'_> {
    fn fmt<W: fmt::Write>(&self, f: &mut fmt::Formatter<W>) -> fmt::Result {
        match std::str::from_utf8(self.0) {
            Ok("") => Ok(()),
            Ok(name) => write!(f, ": `{name}`"),
            Err(_) => Ok(()),
        }
    }
}

/// Why a configuration is refused.
#[derive(Debug, Drop, Error)]
pub enum ConfError {
    /// The bytes are no TOML document.
    #[error("this is no TOML document in UTF-8: give lines of the form `key = value`, each key once")]
    NotToml,
    #[error("`{}` is missing: give {}", .0.name(), .0.expected())]
    Missing(Key),
    #[error("`{}` has a value of another type: give {}", .0.name(), .0.expected())]
    WrongType(Key),
    #[error("`{}` has a value that isn't allowed: give {}", .0.name(), .0.expected())]
    Range(Key),
    #[error("`{0}` is no key here: remove it, or look for a mistake in its spelling")]
    Unknown(UnknownKey),
    #[error("the tables can't be placed: {}{}", .0, Subject::of_place(.0))]
    Place(PlaceError),
    #[error("the users can't be admitted: {}{}", .0, Subject::of_auth(.0))]
    Auth(AuthError),
    #[error("out of memory")]
    NoMemory,
}

impl From<NoMemory> for ConfError {
    ghost use Rattle.std.specs.Prelude.{◌≡◌};
    ghost use Rattle.cj_conf.specs.declared.error.ConfError.TheVariants as error;

    ghost from_gives = { λ _ e. e ≡ error.NoMemory };

    fn from(_error: NoMemory) -> ConfError {
        ConfError::NoMemory
    }
}

impl ConfError {
    /// The number of the refusal, from 1 to 8.
    pub fn number(&self) -> u8
        ensures { result ≡ error_number self.now }
    {
        match self {
            ConfError::NotToml => 1,
            ConfError::Missing(_) => 2,
            ConfError::WrongType(_) => 3,
            ConfError::Range(_) => 4,
            ConfError::Unknown(_) => 5,
            ConfError::Place(_) => 6,
            ConfError::Auth(_) => 7,
            ConfError::NoMemory => 8,
        }
    }

    /// The key at which the configuration is refused; no bytes if there is none.
    pub fn key(&self) -> &[u8]
        ensures { result.now ≡ config_key_text self.now }
    {
        match self {
            ConfError::NotToml => b"",
            ConfError::Missing(key) => key.name().as_bytes(),
            ConfError::WrongType(key) => key.name().as_bytes(),
            ConfError::Range(key) => key.name().as_bytes(),
            ConfError::Unknown(key) => key.as_slice(),
            ConfError::Place(_) => Key::Tables.name().as_bytes(),
            ConfError::Auth(_) => Key::Users.name().as_bytes(),
            ConfError::NoMemory => b"",
        }
    }
}
