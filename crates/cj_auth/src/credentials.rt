//! Accounts with the bytes that their digests spell.

ghost use Rattle.std.specs.Prelude.{◌≡◌, ◌≤◌, ◌&&◌, find, length, option_copied, true, All, IfOk};
ghost use Rattle.std.specs.List.{list_any};
ghost use Rattle.std.specs.Str.{bytes_eq};
ghost use Rattle.cj_model.specs.Cluster.Accounts.{HasShortUsers, is_account_of};
ghost use Rattle.cj_auth.specs.Digests.{is_digest};
ghost use Rattle.cj_auth.specs.Kept.{HasKey, IsUserName, kept_accounts};

use crate::digests::{is_same_key, key_of};
use cj_model::{Account, AccountRows, Duplicate, ListOf, NoMemory, USER_LIMIT};
use std::alloc::Global;

/// An account and the bytes that its digest spells.
#[derive(Drop)]
pub struct Credential {
    pub account: Account,
    pub key: [u8; 32],
}

impl Duplicate for Credential {
    fn copy(&self, alloc: Global) -> Result<Credential, NoMemory> {
        Ok(Credential {
            account: self.account.copy(alloc)?,
            key: self.key,
        })
    }
}

fn with_key(account: Account) -> Credential
    requires digest { is_digest account.digest ≡ true }
    requires user { length account.user ≤ USER_LIMIT }
    ensures account { result.account ≡ account }
    ensures key { HasKey result }
    ensures user { IsUserName result.account.user }
{
    let _text = account.user.as_slice();
    Credential {
        key: key_of(account.digest.as_slice()),
        account,
    }
}

/// The accounts, each with the bytes that its digest spells. Fails if memory runs out.
pub fn with_keys(alloc: Global, accounts: AccountRows) -> Result<ListOf<Credential>, NoMemory>
    requires digests { All (λ account. is_digest account.digest ≡ true) accounts }
    requires users { HasShortUsers accounts }
    ensures accounts { IfOk result (λ made. kept_accounts made ≡ accounts) }
    ensures keys { IfOk result (λ made. All HasKey made) }
    ensures users { IfOk result (λ made. All (λ credential. IsUserName credential.account.user) made) }
{
    let mut made = ListOf::new(alloc);
    for account in accounts.into_vec() {
        made.push(with_key(account))?;
    }
    Ok(made)
}

/// Whether an account is the user's and its digest spells the key.
pub fn has_key(credentials: &[Credential], user: &[u8], key: &[u8; 32]) -> bool
    ensures { result ≡ list_any (λ credential. is_account_of user.now credential.account && bytes_eq credential.key key.now) credentials.now }
{
    credentials.iter().any(|credential| {
        credential.account.user.as_slice() == user && is_same_key(&credential.key, key)
    })
}

/// The first account of the user; `None` exactly if there is none.
pub fn find_user<'a>(credentials: &'a [Credential], user: &[u8]) -> Option<&'a Credential>
    ensures { option_copied result ≡ find (λ credential. is_account_of user.now credential.account) credentials.now }
{
    credentials
        .iter()
        .find(|credential| credential.account.user.as_slice() == user)
}
