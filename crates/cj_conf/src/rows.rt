//! The lists of a configuration.

ghost use Rattle.std.specs.Prelude.{◌≡◌, ◌≤◌, length, All, IfOk};
ghost use Rattle.toml.specs.Data.{as_table};
ghost use Rattle.toml.specs.View.{array_view, table_view};
ghost use Rattle.cj_model.specs.Cluster.Accounts.{HasShortUsers};
ghost use Rattle.cj_model.specs.declared.limits.TheConstants.{USER_LIMIT};
ghost use Rattle.cj_conf.specs.Fields.{name_in, text_in};
ghost use Rattle.cj_conf.specs.Refusals.{Gives};
ghost use Rattle.cj_conf.specs.Rows as rows;
ghost use Rattle.cj_conf.specs.Rows.{all_items, backend_row, each, is_table, is_text, config_row};
ghost use Rattle.cj_conf.specs.Weights.{IsWeighted};

use crate::backend::{Backend, Backends};
use crate::error::ConfError;
use crate::fields;
use crate::fields::find;
use crate::key::Key;
use cj_balance::MOST_WEIGHT;
use cj_model::{Account, AccountRows, ListOf, Name, Names, PlaceRow, PlaceRows, Text, Texts};
use std::alloc::Global;
use toml::value::Array;
use toml::{Table, Value};

fn are_texts(array: &Array) -> bool
    ensures { result ≡ all_items is_text (array_view array.now) }
{
    for value in array {
        if !value.is_str() {
            return false;
        }
    }
    true
}

fn are_tables(array: &Array) -> bool
    ensures { result ≡ all_items is_table (array_view array.now) }
{
    for value in array {
        if !value.is_table() {
            return false;
        }
    }
    true
}

fn names_of(alloc: Global, array: &Array) -> Result<Names, ConfError>
    ensures { Gives (each (name_in Key.Hosts) (array_view array.now)) result }
{
    let mut names = ListOf::new(alloc);
    for value in array {
        names.push(fields::name_in(value, Key::Hosts)?)?;
    }
    Ok(names)
}

fn texts_of(alloc: Global, array: &Array) -> Result<Texts, ConfError>
    ensures { Gives (each (text_in Key.Logins) (array_view array.now)) result }
{
    let mut texts = ListOf::new(alloc);
    for value in array {
        texts.push(fields::text_in(alloc, value, Key::Logins)?)?;
    }
    Ok(texts)
}

fn hosts_at(alloc: Global, table: &Table) -> Result<Names, ConfError>
    ensures { Gives (rows.hosts_at (table_view table.now)) result }
{
    let Some(value) = find(table, Key::Hosts) else {
        return Err(ConfError::Missing(Key::Hosts));
    };
    match value.as_array() {
        Some(array) if are_texts(array) => names_of(alloc, array),
        _ => Err(ConfError::WrongType(Key::Hosts)),
    }
}

fn logins_at(alloc: Global, table: &Table) -> Result<Texts, ConfError>
    ensures { Gives (rows.logins_at (table_view table.now)) result }
{
    let Some(value) = find(table, Key::Logins) else {
        return Err(ConfError::Missing(Key::Logins));
    };
    match value.as_array() {
        Some(array) if are_texts(array) => texts_of(alloc, array),
        _ => Err(ConfError::WrongType(Key::Logins)),
    }
}

fn backend_of(alloc: Global, table: &Table) -> Result<Backend, ConfError>
    ensures backend { Gives (backend_row (table_view table.now)) result }
    ensures weight { IfOk result IsWeighted }
{
    let name = fields::name_at(table)?;
    let kind = fields::kind_at(table)?;
    let weight = fields::number_at(table, Key::Weight, 1, u64::from(MOST_WEIGHT), 1)?;
    fields::refuse_others(alloc, table, &[Key::Name, Key::Kind, Key::Weight])?;
    Ok(Backend {
        name,
        kind,
        weight: weight as u16,
    })
}

fn placed_of(alloc: Global, table: &Table) -> Result<PlaceRow, ConfError>
    ensures { Gives (rows.placed_of (table_view table.now)) result }
{
    let name = fields::name_at(table)?;
    let hosts = hosts_at(alloc, table)?;
    fields::refuse_others(alloc, table, &[Key::Name, Key::Hosts])?;
    Ok(PlaceRow { table: name, hosts })
}

fn account_of(alloc: Global, table: &Table) -> Result<Account, ConfError>
    ensures account { Gives (rows.account_of (table_view table.now)) result }
    ensures short { IfOk result (λ account. length account.user ≤ USER_LIMIT) }
{
    let user = fields::user_at(alloc, table)?;
    let digest = fields::digest_at(alloc, table)?;
    let logins = logins_at(alloc, table)?;
    fields::refuse_others(alloc, table, &[Key::Name, Key::Sha256, Key::Logins])?;
    Ok(Account {
        user,
        digest,
        logins,
    })
}

fn each_backend(alloc: Global, array: &Array) -> Result<Backends, ConfError>
    ensures backends { Gives (each (λ row. config_row Key.Backends backend_row (as_table row)) (array_view array.now)) result }
    ensures weights { IfOk result (All IsWeighted) }
{
    let mut backends = ListOf::new(alloc);
    for value in array {
        let Some(table) = value.as_table() else {
            return Err(ConfError::WrongType(Key::Backends));
        };
        backends.push(backend_of(alloc, table)?)?;
    }
    Ok(backends)
}

fn each_placed(alloc: Global, array: &Array) -> Result<PlaceRows, ConfError>
    ensures { Gives (each (λ row. config_row Key.Tables rows.placed_of (as_table row)) (array_view array.now)) result }
{
    let mut tables = ListOf::new(alloc);
    for value in array {
        let Some(table) = value.as_table() else {
            return Err(ConfError::WrongType(Key::Tables));
        };
        tables.push(placed_of(alloc, table)?)?;
    }
    Ok(tables)
}

fn each_account(alloc: Global, array: &Array) -> Result<AccountRows, ConfError>
    ensures accounts { Gives (each (λ row. config_row Key.Users rows.account_of (as_table row)) (array_view array.now)) result }
    ensures short { IfOk result HasShortUsers }
{
    let mut accounts = ListOf::new(alloc);
    for value in array {
        let Some(table) = value.as_table() else {
            return Err(ConfError::WrongType(Key::Users));
        };
        accounts.push(account_of(alloc, table)?)?;
    }
    Ok(accounts)
}

/// The list of backends at the key `backends`, which must be there.
pub fn backends_at(alloc: Global, table: &Table) -> Result<Backends, ConfError>
    ensures backends { Gives (rows.backends_at (table_view table.now)) result }
    ensures weights { IfOk result (All IsWeighted) }
{
    let Some(value) = find(table, Key::Backends) else {
        return Err(ConfError::Missing(Key::Backends));
    };
    match value.as_array() {
        Some(array) if are_tables(array) => each_backend(alloc, array),
        _ => Err(ConfError::WrongType(Key::Backends)),
    }
}

/// The list of tables with their hosts at the key `tables`; empty if the key is absent.
pub fn tables_at(alloc: Global, table: &Table) -> Result<PlaceRows, ConfError>
    ensures { Gives (rows.tables_at (table_view table.now)) result }
{
    let Some(value) = find(table, Key::Tables) else {
        return Ok(ListOf::new(alloc));
    };
    match value.as_array() {
        Some(array) if are_tables(array) => each_placed(alloc, array),
        _ => Err(ConfError::WrongType(Key::Tables)),
    }
}

/// The list of accounts at the key `users`, which must be there. Each user has at most `USER_LIMIT` bytes.
pub fn users_at(alloc: Global, table: &Table) -> Result<AccountRows, ConfError>
    ensures accounts { Gives (rows.users_at (table_view table.now)) result }
    ensures short { IfOk result HasShortUsers }
{
    let Some(value) = find(table, Key::Users) else {
        return Err(ConfError::Missing(Key::Users));
    };
    match value.as_array() {
        Some(array) if are_tables(array) => each_account(alloc, array),
        _ => Err(ConfError::WrongType(Key::Users)),
    }
}
