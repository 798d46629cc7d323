//! The settings of a document.

ghost use Rattle.std.specs.Prelude.{◌≡◌, ◌⊎◌, ◌≤◌, option_map, All, IfErr, IfOk, IsOk, None, Some};
ghost use Rattle.toml.specs.View.{table_view};
ghost use Rattle.cj_model.specs.Cluster.Accounts.{HasShortUsers};
ghost use Rattle.cj_conf.specs.Fields.{first_unknown};
ghost use Rattle.cj_conf.specs.Refusals.{Gives};
ghost use Rattle.cj_conf.specs.Settings.{document_keys, settings_of};
ghost use Rattle.cj_conf.specs.Weights.{IsWeighted};
ghost use Rattle.cj_conf.specs.declared.error.ConfError.TheVariants as error;

use crate::backend::Backends;
use crate::error::ConfError;
use crate::fields::{level_at, number_at, policy_at, refuse_others};
use crate::key::Key;
use crate::rows::{backends_at, tables_at, users_at};
use cj_model::{AccountRows, Level, PlaceRows, Policy};
use std::alloc::Global;
use toml::Table;

/// The greatest capacity of a result cache, in answers.
pub const CACHE_MOST: u64 = 65_536;

/// The capacity of the result cache, in answers, if the document doesn't give it.
pub const CACHE_ABSENT: u64 = 64;

/// The greatest seed, and the greatest count of connections.
pub const NUMBER_MOST: u64 = 9_223_372_036_854_775_807;

/// The settings of a document, before the placement and the accounts are checked.
#[derive(Drop)]
pub struct Settings {
    pub level: Level,
    pub policy: Policy,
    pub cache: u32,
    pub seed: u64,
    pub connections: u64,
    pub backends: Backends,
    pub tables: PlaceRows,
    pub users: AccountRows,
}

fn refuse_strangers(alloc: Global, table: &Table) -> Result<(), ConfError>
    ensures passed { IsOk result → first_unknown document_keys (table_view table.now) ≡ None }
    ensures refused { IfErr result (λ e. (e ≡ error.NoMemory) ⊎ (option_map error.Unknown (first_unknown document_keys (table_view table.now)) ≡ Some e)) }
{
    let known = [
        Key::Level,
        Key::Policy,
        Key::Cache,
        Key::Seed,
        Key::Connections,
        Key::Backends,
        Key::Tables,
        Key::Users,
    ];
    refuse_others(alloc, table, &known)
}

/// Reads the settings of a document, key by key. The error is the first thing that is wrong, or `NoMemory`.
pub fn settings_of(alloc: Global, table: &Table) -> Result<Settings, ConfError>
    ensures settings { Gives (settings_of (table_view table.now)) result }
    ensures cache { IfOk result (λ s. s.cache ≤ CACHE_MOST) }
    ensures weights { IfOk result (λ s. All IsWeighted s.backends) }
    ensures short { IfOk result (λ s. HasShortUsers s.users) }
{
    let level = level_at(table)?;
    let policy = policy_at(table)?;
    let cache = number_at(table, Key::Cache, 0, CACHE_MOST, CACHE_ABSENT)?;
    let seed = number_at(table, Key::Seed, 0, NUMBER_MOST, 0)?;
    let connections = number_at(table, Key::Connections, 0, NUMBER_MOST, 0)?;
    let backends = backends_at(alloc, table)?;
    let tables = tables_at(alloc, table)?;
    let users = users_at(alloc, table)?;
    refuse_strangers(alloc, table)?;
    Ok(Settings {
        level,
        policy,
        cache: cache as u32,
        seed,
        connections,
        backends,
        tables,
        users,
    })
}
