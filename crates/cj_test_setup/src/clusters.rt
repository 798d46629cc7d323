//! Clusters over two backends `b0` and `b1`: what they are started of.

ghost use Rattle.std.specs.Prelude.{◌≡◌, ◌≤◌, true, [], length, vec_capacity, IfSome, Some};
ghost use Rattle.cj_model.specs.declared.limits.TheConstants.{BACKEND_LIMIT, USER_LIMIT};
ghost use Rattle.cj_model.specs.Cluster.Caching.{empty_cache};
ghost use Rattle.cj_outside.specs.Memory.{State};
ghost use Rattle.cj_board.specs.Seats.{board_id, pass_board};
ghost use Rattle.cj_control.specs.Starting.{AreOfStarted};

use cj_auth::Accounts;
use cj_backend::Backend;
use cj_balance::Balancer;
use cj_book::BookParts;
use cj_cache::Cache;
use cj_core::{Backends, Parts, Shared, World};
use cj_model::{
    Account, BACKEND_LIMIT, Level, ListOf, Name, PlaceRow, PlaceRows, Policy, Text, USER_LIMIT,
};
use cj_outside::MemStore;
use cj_place::Placement;
use std::alloc::Global;

/// The digest of the password `secret`.
const SECRET: &[u8] = b"2bb80d537b1da3e38bd30361aa855686bde0eacd7162fef6a25fe97bf527a25b";

/// What a cluster is started of, beside its backends.
#[derive(Drop)]
pub struct Setup {
    pub placement: Placement,
    /// The result cache keeps so many answers.
    pub cache: u32,
    /// The bytes of the recovery log.
    pub log: Vec<u8>,
    /// The calls of the log's store that fail, counted from 1.
    pub log_fails: Vec<u64>,
}

/// The text of these bytes.
fn text(alloc: Global, bytes: &[u8]) -> Option<Text> {
    Text::of(bytes.to_vec(alloc).ok()?)
}

/// The account of `ann`, whose password is `secret`.
fn account(alloc: Global) -> Option<Account>
    ensures { IfSome result (λ account. length account.user ≤ USER_LIMIT) }
{
    let user = text(alloc, b"ann")?;
    if user.len() > USER_LIMIT {
        return None;
    }
    let logins = [text(alloc, b"l0")?, text(alloc, b"l1")?];
    Some(Account {
        user,
        digest: text(alloc, SECRET)?,
        logins: ListOf::from_vec(Vec::from_array(alloc, logins).ok()?),
    })
}

/// The accounts at two backends.
fn accounts(alloc: Global) -> Option<Accounts>
    ensures { IfSome result (λ accounts. accounts.backends ≡ 2) }
{
    let rows = Vec::from_array(alloc, [account(alloc)?]).ok()?;
    match Accounts::new(alloc, ListOf::from_vec(rows), 2) {
        Ok(accounts) => Some(accounts),
        Err(_) => None,
    }
}

/// The two backends, and which tables each has.
fn placement(alloc: Global, level: Level, rows: PlaceRows) -> Option<Placement>
    ensures { IfSome result (λ placement. length placement.names ≡ 2) }
{
    let names = Vec::from_array(alloc, [Name::of(b"b0")?, Name::of(b"b1")?]).ok()?;
    let Ok(placement) = Placement::new(alloc, level, ListOf::from_vec(names), rows) else {
        return None;
    };
    if placement.count() != 2 {
        return None;
    }
    Some(placement)
}

/// The two backends, each of which has every table. None where memory is wanting.
pub fn replicated(alloc: Global) -> Option<Placement>
    ensures { IfSome result (λ placement. length placement.names ≡ 2) }
{
    placement(alloc, Level::Raidb1, ListOf::new(alloc))
}

/// The two backends, which both have table `t`. Only the one of this name has table `u`. None where there is no such
/// backend, or memory is wanting.
pub fn partial(alloc: Global, host: &str) -> Option<Placement>
    ensures { IfSome result (λ placement. length placement.names ≡ 2) }
{
    let both = Vec::from_array(alloc, [Name::of(b"b0")?, Name::of(b"b1")?]).ok()?;
    let one = Vec::from_array(alloc, [Name::of(host.as_bytes())?]).ok()?;
    let rows = [
        PlaceRow {
            table: Name::of(b"t")?,
            hosts: ListOf::from_vec(both),
        },
        PlaceRow {
            table: Name::of(b"u")?,
            hosts: ListOf::from_vec(one),
        },
    ];
    let rows = ListOf::from_vec(Vec::from_array(alloc, rows).ok()?);
    placement(alloc, Level::Raidb2, rows)
}

/// The parts of a world: reads go to the backends in turn, and the result cache keeps so many answers. None where
/// memory is wanting.
pub fn parts(alloc: Global, placement: Placement, cache: u32) -> Option<Parts>
    requires two { length placement.names ≡ 2 }
    ensures two { IfSome result (λ parts. length parts.book.placement.names ≡ 2) }
    ensures registered { IfSome result (λ parts. parts.accounts.backends ≡ length parts.book.placement.names) }
    ensures cache { IfSome result (λ parts. parts.book.cache ≡ empty_cache parts.book.cache.capacity) }
{
    let Ok(cache) = Cache::new(alloc, cache) else {
        return None;
    };
    Some(Parts {
        book: BookParts {
            placement,
            balancer: Balancer::new(Policy::RoundRobin, [1; BACKEND_LIMIT as usize]),
            cache,
        },
        accounts: accounts(alloc)?,
    })
}

/// Starts a world over two empty backends, and takes it apart. None where it does not start, or memory is wanting.
pub fn started<B: Backend + Drop>(
    alloc: Global,
    setup: Setup,
    one: B,
    other: B,
) -> Option<Shared<B, MemStore>>
    requires two { length setup.placement.names ≡ 2 }
    requires empty { B.tells ≡ true → (B.told one ≡ Some []) × (B.told other ≡ Some []) }
    requires none { (B.begun one ≡ []) × (B.begun other ≡ []) }
    ensures world { IfSome result (λ shared. AreOfStarted B.tells true (λ (store : State). store.faults) (board_id shared.board) (pass_board shared.pass) shared.book shared.recovery_log shared.cells.items shared.accounts shared.dumps) }
    ensures emptied { IfSome result (λ shared. (length shared.emptied.items ≡ 0) × (BACKEND_LIMIT ≤ vec_capacity shared.emptied)) }
{
    let Setup {
        placement,
        cache,
        log,
        log_fails,
    } = setup;
    let mut backends = Backends::new(alloc);
    backends.push(one).ok()?;
    backends.push(other).ok()?;
    let parts = parts(alloc, placement, cache)?;
    match World::start(alloc, parts, MemStore::new(log, log_fails), backends) {
        Ok(world) => Some(world.into_shared()),
        Err(_) => None,
    }
}
