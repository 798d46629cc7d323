//! Which lists of accounts are refused, and why.

ghost use Rattle.std.specs.Prelude.{◌≡◌, ◌⊎◌, [], not, option_copied, IfErr, IfOk, IsOk, None, Some};
ghost use Rattle.cj_model.specs.Cluster.Accounts as accounts;
ghost use Rattle.cj_model.specs.Cluster.Accounts.{has_logins, user_where};
ghost use Rattle.cj_auth.specs.Digests.{is_digest};
ghost use Rattle.cj_auth.specs.Refusals.{refusal_of_accounts};
ghost use Rattle.cj_auth.specs.declared.error.AuthError.TheVariants as error;

use crate::digests;
use crate::error::AuthError;
use cj_model::{Account, Duplicate, NoMemory, Text};
use std::alloc::Global;
use std::collections::BTreeSet;

/// The first user that has an account before its own.
fn repeated_user(alloc: Global, rows: &[Account]) -> Result<Option<&Text>, NoMemory>
    ensures { IfOk result (λ user. option_copied user ≡ accounts.repeated_user [] rows.now) }
{
    let mut seen = BTreeSet::new(alloc);
    for account in rows {
        if !seen.insert(account.user.as_slice())? {
            return Ok(Some(&account.user));
        }
    }
    Ok(None)
}

/// The first user whose digest isn't 64 hexadecimal digits.
fn user_without_digest(rows: &[Account]) -> Option<&Text>
    ensures { option_copied result ≡ user_where (λ account. not (is_digest account.digest)) rows.now }
{
    rows.iter()
        .find(|account| !digests::is_digest(account.digest.as_slice()))
        .map(|account| &account.user)
}

/// The first user that doesn't have one login for each backend.
fn user_without_logins(rows: &[Account], backends: u8) -> Option<&Text>
    ensures { option_copied result ≡ user_where (λ account. not (has_logins backends account)) rows.now }
{
    rows.iter()
        .find(|account| account.logins.len() != backends as usize)
        .map(|account| &account.user)
}

/// Passes accounts with which nothing is wrong. The error is the first thing that is wrong, or `NoMemory`.
pub fn refuse(alloc: Global, rows: &[Account], backends: u8) -> Result<(), AuthError>
    ensures passed { IsOk result → refusal_of_accounts rows.now backends ≡ None }
    ensures refused { IfErr result (λ e. (e ≡ error.NoMemory) ⊎ (refusal_of_accounts rows.now backends ≡ Some e)) }
{
    if let Some(user) = repeated_user(alloc, rows)? {
        return Err(AuthError::Twice(user.copy(alloc)?));
    }
    if let Some(user) = user_without_digest(rows) {
        return Err(AuthError::BadDigest(user.copy(alloc)?));
    }
    if let Some(user) = user_without_logins(rows, backends) {
        return Err(AuthError::LoginCount(user.copy(alloc)?));
    }
    Ok(())
}
