//! The values at the keys of a table.

ghost use Rattle.std.specs.Prelude.{◌≡◌, ◌⊎◌, ◌≤◌, length, option_map, IfErr, IfOk, IsOk, None, Some};
ghost use Rattle.toml.specs.Data.{as_integer, as_str};
ghost use Rattle.toml.specs.View.{table_view, view};
ghost use Rattle.cj_model.specs.declared.limits.TheConstants.{USER_LIMIT};
ghost use Rattle.cj_model.specs.Sql.Names as names;
ghost use Rattle.cj_conf.specs.Fields as fields;
ghost use Rattle.cj_conf.specs.Fields.{at, first_unknown, number_within, text_as};
ghost use Rattle.cj_conf.specs.Refusals.{Gives};
ghost use Rattle.cj_conf.specs.declared.error.ConfError.TheVariants as error;

use crate::backend::BackendKind;
use crate::error::{ConfError, UnknownKey};
use crate::key::Key;
use cj_model::{Level, Name, NoMemory, Policy, Text, USER_LIMIT};
use std::alloc::Global;
use toml::{Table, Value};

/// The value at a key of the table; `None` exactly if the key is absent.
pub fn find<'a>(table: &'a Table, key: Key) -> Option<&'a Value>
    ensures { option_map (λ v. view v.now) result ≡ at key (table_view table.now) }
{
    table.get(key.name())
}

fn number_of(value: &Value, key: Key, least: u64, most: u64) -> Result<u64, ConfError>
    ensures value { result ≡ number_within key least most (as_integer (view value.now)) }
    ensures most { IfOk result (λ n. n ≤ most) }
    ensures least { IfOk result (λ n. least ≤ n) }
{
    match value.as_integer() {
        None => Err(ConfError::WrongType(key)),
        Some(n) if n < 0 => Err(ConfError::Range(key)),
        Some(n) if least <= n as u64 && n as u64 <= most => Ok(n as u64),
        Some(_) => Err(ConfError::Range(key)),
    }
}

/// The integer at a key, from `least` to `most`; `absent` if the key is absent.
/// `WrongType` if it is no integer, and `Range` if it is out of bounds.
pub fn number_at(
    table: &Table,
    key: Key,
    least: u64,
    most: u64,
    absent: u64,
) -> Result<u64, ConfError>
    requires low { least ≤ absent }
    requires high { absent ≤ most }
    ensures value { result ≡ fields.number_at key least most absent (table_view table.now) }
    ensures most { IfOk result (λ n. n ≤ most) }
    ensures least { IfOk result (λ n. least ≤ n) }
{
    match find(table, key) {
        None => Ok(absent),
        Some(value) => number_of(value, key, least, most),
    }
}

/// The RAIDb level at the key `level`, which must be there.
pub fn level_at(table: &Table) -> Result<Level, ConfError>
    ensures { result ≡ fields.level_at (table_view table.now) }
{
    let Some(value) = find(table, Key::Level) else {
        return Err(ConfError::Missing(Key::Level));
    };
    match value.as_str() {
        None => Err(ConfError::WrongType(Key::Level)),
        Some("raidb0") => Ok(Level::Raidb0),
        Some("raidb1") => Ok(Level::Raidb1),
        Some("raidb2") => Ok(Level::Raidb2),
        Some(_) => Err(ConfError::Range(Key::Level)),
    }
}

/// The balancing policy at the key `policy`; round-robin if the key is absent.
pub fn policy_at(table: &Table) -> Result<Policy, ConfError>
    ensures { result ≡ fields.policy_at (table_view table.now) }
{
    let Some(value) = find(table, Key::Policy) else {
        return Ok(Policy::RoundRobin);
    };
    match value.as_str() {
        None => Err(ConfError::WrongType(Key::Policy)),
        Some("round-robin") => Ok(Policy::RoundRobin),
        Some("weighted") => Ok(Policy::Weighted),
        Some("least-pending") => Ok(Policy::LeastPending),
        Some(_) => Err(ConfError::Range(Key::Policy)),
    }
}

/// The kind of a backend at the key `kind`, which must be there: what holds its tables.
pub fn kind_at(table: &Table) -> Result<BackendKind, ConfError>
    ensures { result ≡ fields.kind_at (table_view table.now) }
{
    let Some(value) = find(table, Key::Kind) else {
        return Err(ConfError::Missing(Key::Kind));
    };
    match value.as_str() {
        None => Err(ConfError::WrongType(Key::Kind)),
        Some("memory") => Ok(BackendKind::Memory),
        Some("sqlite") => Ok(BackendKind::Sqlite),
        Some(_) => Err(ConfError::Range(Key::Kind)),
    }
}

/// Reads a value as the name of a backend or a table. A refusal names `key`.
pub fn name_in(value: &Value, key: Key) -> Result<Name, ConfError>
    ensures { result ≡ fields.name_in key (view value.now) }
{
    let Some(text) = value.as_str() else {
        return Err(ConfError::WrongType(key));
    };
    match Name::of(text.as_bytes()) {
        None => Err(ConfError::Range(key)),
        Some(name) => Ok(name),
    }
}

/// The name of a backend or a table at the key `name`, which must be there.
pub fn name_at(table: &Table) -> Result<Name, ConfError>
    ensures { result ≡ fields.name_field (table_view table.now) }
{
    match find(table, Key::Name) {
        None => Err(ConfError::Missing(Key::Name)),
        Some(value) => name_in(value, Key::Name),
    }
}

fn own_text(alloc: Global, text: &[u8], key: Key) -> Result<Text, ConfError>
    ensures { Gives (fields.in_range key (names.text_of text.now)) result }
{
    let Ok(bytes) = Vec::from_slice(alloc, text) else {
        return Err(ConfError::NoMemory);
    };
    match Text::of(bytes) {
        None => Err(ConfError::Range(key)),
        Some(text) => Ok(text),
    }
}

/// Reads a value as a text without byte 0, and copies it. A refusal names `key`.
pub fn text_in(alloc: Global, value: &Value, key: Key) -> Result<Text, ConfError>
    ensures { Gives (fields.text_in key (view value.now)) result }
{
    match value.as_str() {
        None => Err(ConfError::WrongType(key)),
        Some(text) => own_text(alloc, text.as_bytes(), key),
    }
}

fn user_in(alloc: Global, value: &Value) -> Result<Text, ConfError>
    ensures user { Gives (text_as Key.Name fields.user_text (as_str (view value.now))) result }
    ensures short { IfOk result (λ user. length user ≤ USER_LIMIT) }
{
    match value.as_str() {
        None => Err(ConfError::WrongType(Key::Name)),
        Some(text) if text.is_empty() || text.len() > USER_LIMIT => Err(ConfError::Range(
            Key::Name,
        )),
        Some(text) => own_text(alloc, text.as_bytes(), Key::Name),
    }
}

/// The name of a user at the key `name`, which must be there: 1 to `USER_LIMIT` bytes.
pub fn user_at(alloc: Global, table: &Table) -> Result<Text, ConfError>
    ensures user { Gives (fields.user_at (table_view table.now)) result }
    ensures short { IfOk result (λ user. length user ≤ USER_LIMIT) }
{
    match find(table, Key::Name) {
        None => Err(ConfError::Missing(Key::Name)),
        Some(value) => user_in(alloc, value),
    }
}

/// The SHA-256 of a user's password at the key `sha256`, as it is written; the key must be there.
pub fn digest_at(alloc: Global, table: &Table) -> Result<Text, ConfError>
    ensures { Gives (fields.digest_at (table_view table.now)) result }
{
    match find(table, Key::Sha256) {
        None => Err(ConfError::Missing(Key::Sha256)),
        Some(value) => text_in(alloc, value, Key::Sha256),
    }
}

fn is_known(known: &[Key], key: &str) -> bool
    ensures { result ≡ fields.is_known known.now key.now }
{
    known.iter().any(|other| key == other.name())
}

/// The first key in byte order that isn't known.
fn stranger<'a>(table: &'a Table, known: &[Key]) -> Option<&'a str>
    ensures { option_map (λ s. s.now) result ≡ first_unknown known.now (table_view table.now) }
{
    'keys: for (key, _) in table {
        if !is_known(known, key.as_str()) {
            return Some(key.as_str());
        }
    }
    None
}

/// Passes a table that has no other than the known keys. The error is the first other key in byte order, or
/// `NoMemory`.
pub fn refuse_others(alloc: Global, table: &Table, known: &[Key]) -> Result<(), ConfError>
    ensures passed { IsOk result → first_unknown known.now (table_view table.now) ≡ None }
    ensures refused { IfErr result (λ e. (e ≡ error.NoMemory) ⊎ (option_map error.Unknown (first_unknown known.now (table_view table.now)) ≡ Some e)) }
{
    match stranger(table, known) {
        None => Ok(()),
        Some(key) => Err(ConfError::Unknown(UnknownKey::of(alloc, key)?)),
    }
}
