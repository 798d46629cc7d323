//! The configuration of a text.

ghost use Rattle.std.specs.Prelude.{◌≡◌, ◌⊎◌, ◌≤◌, length, All, IfErr, IfOk, None, Some};
ghost use Rattle.toml.specs.View.{table_view};
ghost use Rattle.cj_balance.specs.Kept.{AreWeights};
ghost use Rattle.cj_model.specs.Cluster.Accounts.{HasShortUsers};
ghost use Rattle.cj_model.specs.declared.limits.TheConstants.{BACKEND_LIMIT};
ghost use Rattle.cj_place.specs.Layouts.{layout_of};
ghost use Rattle.cj_place.specs.Refusals.{refusal_of_placement};
ghost use Rattle.cj_conf.specs.Confs.{IsUsable, accounts_from, conf_from, conf_of, document_of};
ghost use Rattle.cj_conf.specs.Confs as confs;
ghost use Rattle.cj_conf.specs.Fields.{unless};
ghost use Rattle.cj_conf.specs.Refusals.{Gives, TellsMemoryPlainly};
ghost use Rattle.cj_conf.specs.Weights.{IsWeighted};
ghost use Rattle.cj_conf.specs.declared.error.ConfError.TheVariants as error;
ghost use Rattle.cj_conf.specs.declared.settings.TheConstants.{CACHE_MOST};

use crate::backend::{Backend, BackendKind};
use crate::error::ConfError;
use crate::settings::{Settings, settings_of};
use cj_auth::{Accounts, AuthError};
use cj_model::{
    AccountRows, BACKEND_LIMIT, Level, ListOf, Name, Names, NoMemory, PlaceRows, Policy,
};
use cj_place::{PlaceError, Placement};
use std::alloc::Global;
use toml::Table;

/// What holds the tables of each backend, in the order of the backends.
pub type Kinds = ListOf<BackendKind>;

/// The weight of each backend, and 1 past the last.
pub type Weights = [u16; BACKEND_LIMIT as usize];

/// The configuration of a cluster. Backends go by their number, from 0.
#[derive(Drop)]
pub struct Conf {
    pub placement: Placement,
    pub kinds: Kinds,
    pub accounts: Accounts,
    pub policy: Policy,
    pub weights: Weights,
    /// The most answers that the result cache keeps.
    pub cache: u32,
    pub seed: u64,
    /// How many connections are served; 0 means without end.
    pub connections: u64,
}

fn names_of(alloc: Global, backends: &[Backend]) -> Result<Names, NoMemory>
    ensures { IfOk result (λ names. names ≡ confs.names_of backends.now) }
{
    let mut names = ListOf::new(alloc);
    for backend in backends {
        names.push(backend.name.copy())?;
    }
    Ok(names)
}

#[tactic(auto, using(crate::proofs::Making::kind_count))]
fn kinds_of(alloc: Global, backends: &[Backend]) -> Result<Kinds, NoMemory>
    ensures kinds { IfOk result (λ kinds. kinds ≡ confs.kinds_of backends.now) }
    ensures count { IfOk result (λ kinds. length kinds ≡ length backends.now) }
{
    let mut kinds = ListOf::new(alloc);
    for backend in backends {
        kinds.push(backend.kind)?;
    }
    Ok(kinds)
}

fn weight_at(backends: &[Backend], b: usize) -> u16
    ensures { result ≡ confs.weight_at backends.now b }
{
    match backends.get(b) {
        Some(backend) => backend.weight,
        None => 1,
    }
}

fn weights_of(backends: &[Backend]) -> Weights
    requires { All IsWeighted backends.now }
    ensures value { result ≡ confs.weights_of backends.now }
    ensures weights { AreWeights result }
{
    let mut weights = [1; BACKEND_LIMIT as usize];
    for b in 0..BACKEND_LIMIT as usize {
        weights[b] = weight_at(backends, b);
    }
    weights
}

fn placement_of(
    alloc: Global,
    level: Level,
    names: Names,
    tables: PlaceRows,
) -> Result<Placement, ConfError>
    ensures placement { Gives (unless error.Place (refusal_of_placement level names tables) (layout_of level names tables)) result }
    ensures names { IfOk result (λ placement. placement.names ≡ names) }
{
    match Placement::new(alloc, level, names, tables) {
        Ok(placement) => Ok(placement),
        Err(PlaceError::NoMemory) => Err(ConfError::NoMemory),
        Err(e) => Err(ConfError::Place(e)),
    }
}

#[tactic(auto, using(crate::proofs::Making::name_count))]
fn place(
    alloc: Global,
    level: Level,
    backends: &[Backend],
    tables: PlaceRows,
) -> Result<Placement, ConfError>
    ensures placement { Gives (confs.placement_from level backends.now tables) result }
    ensures count { IfOk result (λ placement. length placement.names ≡ length backends.now) }
{
    let names = names_of(alloc, backends)?;
    placement_of(alloc, level, names, tables)
}

fn admit(alloc: Global, users: AccountRows, backends: u8) -> Result<Accounts, ConfError>
    requires { HasShortUsers users }
    ensures accounts { Gives (accounts_from users backends) result }
    ensures backends { IfOk result (λ accounts. accounts.backends ≡ backends) }
{
    match Accounts::new(alloc, users, backends) {
        Ok(accounts) => Ok(accounts),
        Err(AuthError::NoMemory) => Err(ConfError::NoMemory),
        Err(e) => Err(ConfError::Auth(e)),
    }
}

fn conf_from(alloc: Global, settings: Settings) -> Result<Conf, ConfError>
    requires cache { settings.cache ≤ CACHE_MOST }
    requires weights { All IsWeighted settings.backends }
    requires short { HasShortUsers settings.users }
    ensures conf { Gives (conf_from settings) result }
    ensures usable { IfOk result IsUsable }
{
    let Settings {
        level,
        policy,
        cache,
        seed,
        connections,
        backends,
        tables,
        users,
    } = settings;
    let kinds = kinds_of(alloc, backends.as_slice())?;
    let placement = place(alloc, level, backends.as_slice(), tables)?;
    let accounts = admit(alloc, users, placement.count())?;
    Ok(Conf {
        placement,
        kinds,
        accounts,
        policy,
        weights: weights_of(backends.as_slice()),
        cache,
        seed,
        connections,
    })
}

#[tactic(auto, using(crate::proofs::Documents::has_document, crate::proofs::Documents::has_none))]
fn document_of(alloc: Global, bytes: &[u8]) -> Result<Table, ConfError>
    ensures read { IfOk result (λ table. document_of bytes.now ≡ Some (table_view table)) }
    ensures refused { IfErr result (λ e. (e ≡ error.NoMemory) ⊎ ((e ≡ error.NotToml) × (document_of bytes.now ≡ None))) }
{
    match toml::table_from_slice(alloc, bytes) {
        Ok(table) => Ok(table),
        Err(e) if e.is_memory() => Err(ConfError::NoMemory),
        Err(_) => Err(ConfError::NotToml),
    }
}

/// Reads the configuration that the bytes of a TOML document give.
///
/// The error is the first thing that is wrong with the bytes, or `NoMemory`. Running out of memory is never told as
/// the refusal of a placement or of accounts.
pub fn read_conf(alloc: Global, bytes: &[u8]) -> Result<Conf, ConfError>
    ensures conf { Gives (conf_of bytes.now) result }
    ensures usable { IfOk result IsUsable }
    ensures memory { IfErr result TellsMemoryPlainly }
{
    let table = document_of(alloc, bytes)?;
    let settings = settings_of(alloc, &table)?;
    conf_from(alloc, settings)
}
