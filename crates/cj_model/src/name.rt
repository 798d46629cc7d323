//! Names of tables, columns and backends, kept in place.

ghost use Rattle.std.specs.Prelude.{◌≡◌, ◌≤◌, [], length, map, take, true};
ghost use Rattle.std.specs.List.{list_all};
ghost use Rattle.std.specs.Str.{bytes_eq};
ghost use Rattle.cj_model.specs.Sql.Names.{lower, name_of, IsNameOrEmpty};
ghost use Rattle.cj_model.specs.Sql.Names as names;

use crate::limits::NAME_LIMIT;
use crate::list::ListOf;
use crate::memory::{Duplicate, NoMemory};
use std::alloc::Global;
use std::marker::Model;

/// A name: 1 to `NAME_LIMIT` ASCII letters in lower case, digits and `_`, not beginning with a digit.
/// A name allocates nothing. The empty name occurs only where that is said.
#[derive(Debug, Drop)]
pub struct Name {
    bytes: [u8; NAME_LIMIT],
    len: u8,
}

impl Model for Name {
    ghost use Rattle.std.specs.Prelude.{List, ℕ, take, ◌≤◌};
    ghost use Rattle.cj_model.specs.declared.limits.TheConstants.{NAME_LIMIT};
    ghost use Rattle.cj_model.specs.Sql.Names.{IsNameOrEmpty};

    ghost Value = { List ℕ };

    ghost view = { λ name. take name.len name.bytes };

    ghost invariant = { λ name. (name.len ≤ NAME_LIMIT) × IsNameOrEmpty (take name.len name.bytes) };
}

pub type Names = ListOf<Name>;

fn begins_name(b: u8) -> bool
    ensures { result ≡ names.begins_name b }
{
    b.is_ascii_lowercase() || b == b'_'
}

fn continues_name(b: u8) -> bool
    ensures { result ≡ names.continues_name b }
{
    begins_name(b) || b.is_ascii_digit()
}

fn all_continue(mut bytes: &[u8]) -> bool
    ensures { result ≡ list_all names.continues_name bytes.entry.now }
{
    while let [b, rest @ ..] = bytes {
        if !continues_name(*b) {
            return false;
        }
        bytes = rest;
    }
    true
}

fn is_spelled_as_name(bytes: &[u8]) -> bool
    ensures { result ≡ names.is_spelled_as_name bytes.now }
{
    match bytes {
        [] => false,
        [first, rest @ ..] => begins_name(*first) && all_continue(rest),
    }
}

#[tactic(auto, unfolding(crate::specs::Sql::Names::is_name))]
fn is_name(bytes: &[u8]) -> bool
    ensures name { result ≡ names.is_name bytes.now }
    ensures short { result ≡ true → length bytes.now ≤ NAME_LIMIT }
{
    bytes.len() <= NAME_LIMIT && is_spelled_as_name(bytes)
}

/// The word in lower case, at the front of an array of `NAME_LIMIT` bytes.
fn lowered(word: &[u8]) -> [u8; NAME_LIMIT]
    requires { length word.now ≤ NAME_LIMIT }
    ensures { take (length word.now) result ≡ map lower word.now }
{
    let mut place = [0; NAME_LIMIT];
    for (i, b) in word.iter().enumerate() {
        place[i] = b.to_ascii_lowercase();
    }
    place
}

impl Name {
    /// The empty name, of no bytes.
    pub fn empty() -> Name
        ensures { result ≡ [] }
    {
        Name {
            bytes: [0; NAME_LIMIT],
            len: 0,
        }
    }

    /// The bytes as a name; `None` exactly where they are no name.
    pub fn of(bytes: &[u8]) -> Option<Name>
        ensures { result ≡ name_of bytes.now }
    {
        if !is_name(bytes) {
            return None;
        }
        let mut place = [0; NAME_LIMIT];
        place[..bytes.len()].copy_from_slice(bytes);
        Some(Name {
            bytes: place,
            len: bytes.len() as u8,
        })
    }

    /// The word, turned to lower case, as a name; `None` exactly where that is no name.
    pub fn lower(word: &[u8]) -> Option<Name>
        ensures { result ≡ name_of (map lower word.now) }
    {
        if word.len() > NAME_LIMIT {
            return None;
        }
        let place = lowered(word);
        Name::of(&place[..word.len()])
    }

    /// The bytes of the name.
    pub fn as_slice(&self) -> &[u8]
        ensures value { result.now ≡ self.now }
        ensures name { IsNameOrEmpty self.now }
    {
        &self.bytes[..self.len as usize]
    }

    /// Copies the name; allocates nothing and can't fail.
    pub fn copy(&self) -> Name
        ensures { result ≡ self.now }
    {
        Name {
            bytes: self.bytes,
            len: self.len,
        }
    }

    /// Whether this name has the same bytes as the other.
    pub fn is(&self, other: &Name) -> bool
        ensures { result ≡ bytes_eq self.now other.now }
    {
        self.as_slice() == other.as_slice()
    }
}

impl Duplicate for Name {
    fn copy(&self, _alloc: Global) -> Result<Name, NoMemory> {
        Ok(Name::copy(self))
    }
}
