//! The row and the value at which a configuration is refused.

ghost use Rattle.std.specs.Prelude.{◌≡◌, ◌++◌, ◌∷◌, ℕ, List, [], true, IfSome};

use cj_conf::{ConfError, Key, read_conf};
use cj_outside::{Store, read_store};
use std::alloc::Global;
use toml::value::Array;
use toml::{Table, Value};

/// The most bytes of a value that are shown.
const SHOWN_LIMIT: usize = 64;

/// The lists of a configuration, in the order in which they are looked at.
const LISTS: [Key; 3] = [Key::Backends, Key::Tables, Key::Users];

/// A row of a list.
#[derive(Clone, Copy)]
struct Row<'a> {
    list: Key,
    /// Its number, from 1.
    number: u64,
    value: &'a Value,
}

/// Whether the document is refused in the same way.
fn is_refused_so(alloc: Global, document: &str, error: &ConfError) -> bool {
    match read_conf(alloc, document.as_bytes()) {
        Ok(_) => false,
        Err(other) => other.number() == error.number() && *other.key() == *error.key(),
    }
}

/// Returns the front of a document in which one row of this list stands, up to that row. Nothing that is looked at
/// before the list is refused in it. Level and backends are those of the table, if the list comes after them.
fn front_of(alloc: Global, table: &Table, list: Key) -> Option<String> {
    let level = table.get(Key::Level.name())?;
    let backends = table.get(Key::Backends.name())?;
    let front = match list {
        Key::Backends => format!(in alloc; "level = \"raidb1\"\nusers = []\nbackends = ["),
        Key::Tables => {
            format!(in alloc; "level = {level}\nbackends = {backends}\nusers = []\ntables = [")
        }
        _ => format!(in alloc; "level = {level}\nbackends = {backends}\nusers = ["),
    };
    front.ok()
}

/// Returns the first of the rows that is refused in the same way after this front.
fn row_among<'a>(
    alloc: Global,
    list: Key,
    front: &str,
    rows: &'a Array,
    error: &ConfError,
) -> Option<Row<'a>> {
    for (at, value) in rows.iter().enumerate() {
        let document = format!(in alloc; "{front}{value}]\n").ok()?;
        if is_refused_so(alloc, document.as_str(), error) {
            let number = (at as u64).saturating_add(1);
            return Some(Row {
                list,
                number,
                value,
            });
        }
    }
    None
}

/// Returns the first row of a list that is refused in the same way, if a list without rows isn't.
fn row_in<'a>(alloc: Global, table: &'a Table, list: Key, error: &ConfError) -> Option<Row<'a>> {
    let rows = table.get(list.name())?.as_array()?;
    let front = front_of(alloc, table, list)?;
    let without = format!(in alloc; "{front}]\n").ok()?;
    if is_refused_so(alloc, without.as_str(), error) {
        return None;
    }
    row_among(alloc, list, front.as_str(), rows, error)
}

/// Returns the row at which the configuration is refused, if it is one.
fn row_of<'a>(alloc: Global, table: &'a Table, error: &ConfError) -> Option<Row<'a>> {
    for list in &LISTS {
        if let Some(row) = row_in(alloc, table, *list, error) {
            return Some(row);
        }
    }
    None
}

/// Returns what stands at the key, or only its type if it is long, or kept from those who read messages.
fn shown(alloc: Global, key: &str, value: &Value) -> Option<String> {
    let text = format!(in alloc; "{value}").ok()?;
    let is_secret = key == Key::Sha256.name() || key == Key::Logins.name();
    let shown = if is_secret || text.len() > SHOWN_LIMIT {
        format!(in alloc; "`{key}` is of the type {}", value.type_str())
    } else {
        format!(in alloc; "{key} = {text}")
    };
    shown.ok()
}

/// Returns the value at the key in a row or in the whole document. A row that is no table is itself that value.
fn value_at<'a>(table: &'a Table, row: Option<Row<'a>>, key: &str) -> Option<&'a Value> {
    match row {
        None => table.get(key),
        Some(row) => match row.value.as_table() {
            Some(members) => members.get(key),
            None => Some(row.value),
        },
    }
}

/// Returns where the configuration of this document is refused, or `None` if there is nothing to say.
fn place_in(alloc: Global, table: &Table, error: &ConfError) -> Option<String> {
    let key = std::str::from_utf8(error.key()).ok()?;
    let row = row_of(alloc, table, error);
    let value = match error {
        ConfError::WrongType(_) | ConfError::Range(_) => value_at(table, row, key),
        _ => None,
    };
    let found = match value {
        Some(value) => format!(in alloc; ": {}", shown(alloc, key, value)?).ok()?,
        None => String::new(alloc),
    };
    match row {
        Some(row) => {
            let list = row.list.name();
            format!(in alloc; "found in row {} of `{list}`{found}", row.number).ok()
        }
        None if found.is_empty() => None,
        None => format!(in alloc; "found{found}").ok(),
    }
}

fn as_line(text: String) -> Option<Vec<u8>>
    ensures { IfSome result (λ line. (front : List ℕ) × (line.items ≡ front ++ 10 ∷ [])) }
{
    let mut line = text.into_bytes();
    line.push(b'\n').ok()?;
    Some(line)
}

/// Reads the configuration once more, and returns a line that says where it is refused: in which row of a list,
/// counted from 1, and with which value. Returns `None` if there is nothing to say, the store failed or memory ran
/// out.
pub fn place_line<F: Store>(alloc: Global, conf: &mut F) -> Option<Vec<u8>>
    ensures line { IfSome result (λ line. (front : List ℕ) × (line.items ≡ front ++ 10 ∷ [])) }
    ensures conf { F.tells ≡ true → F.held conf.new ≡ F.held conf.old }
{
    let Ok(bytes) = read_store(alloc, conf) else {
        return None;
    };
    let Err(error) = read_conf(alloc, &bytes) else {
        return None;
    };
    let Ok(table) = toml::table_from_slice(alloc, &bytes) else {
        return None;
    };
    as_line(place_in(alloc, &table, &error)?)
}
