//! The accounts of users.

ghost use Rattle.std.specs.Prelude.{◌≡◌, ◌⊎◌, ◌<◌, IfErr, IfOk, None, Some};
ghost use Rattle.std.specs.Bool.{OnTrue};
ghost use Rattle.cj_model.specs.Cluster.Accounts.{HasShortUsers, login_of};
ghost use Rattle.cj_auth.specs.Admission.{admits};
ghost use Rattle.cj_auth.specs.Kept.{IsUserName};
ghost use Rattle.cj_auth.specs.Refusals.{refusal_of_accounts};
ghost use Rattle.cj_auth.specs.declared.error.AuthError.TheVariants as error;

use crate::credentials::{Credential, find_user, has_key, with_keys};
use crate::error::AuthError;
use crate::refusals::refuse;
use cj_model::{AccountRows, Duplicate, ListOf, NoMemory, Text};
use sha2::{Digest, Sha256};
use std::alloc::Global;
use std::marker::Model;

/// The accounts: who may log in, and under which login each backend is called for a user.
/// Backends go by their number, from 0.
#[derive(Drop)]
pub struct Accounts {
    credentials: ListOf<Credential>,
    backends: u8,
    /// The empty login, which is lent if no account is the user's.
    empty: Text,
}

impl Model for Accounts {
    ghost use Rattle.cj_auth.specs.Admission.{Register};

    ghost Value = { Register };

    ghost use Rattle.cj_auth.specs.Kept.{AreKeptAccounts, kept_accounts};

    ghost view = { λ a. record { accounts = kept_accounts a.credentials; backends = a.backends } };

    ghost invariant = { λ a. AreKeptAccounts a.credentials a.backends a.empty };
}

impl Accounts {
    /// The accounts of these rows. Each has one login for each of so many backends.
    ///
    /// The error is the first thing that is wrong with the rows, or `NoMemory`.
    pub fn new(alloc: Global, rows: AccountRows, backends: u8) -> Result<Accounts, AuthError>
        requires { HasShortUsers rows }
        ensures accounts { IfOk result (λ a. a.accounts ≡ rows) }
        ensures backends { IfOk result (λ a. a.backends ≡ backends) }
        ensures accepted { IfOk result (λ _. refusal_of_accounts rows backends ≡ None) }
        ensures refused { IfErr result (λ e. (e ≡ error.NoMemory) ⊎ (refusal_of_accounts rows backends ≡ Some e)) }
    {
        refuse(alloc, rows.as_slice(), backends)?;
        Ok(Accounts {
            credentials: with_keys(alloc, rows)?,
            backends,
            empty: Text::of(Vec::new(alloc)).unwrap(),
        })
    }

    /// Whether an account has this user and this password; allocates nothing.
    pub fn check(&self, user: &[u8], password: &[u8]) -> bool
        ensures admitted { result ≡ admits self.now.accounts user.now password.now }
        ensures user { OnTrue result (IsUserName user.now) }
    {
        has_key(self.credentials.as_slice(), user, &Sha256::digest(password))
    }

    /// The user's login at backend `b`; the empty text if no account is the user's.
    pub fn mapped(&self, user: &Text, b: u8) -> &Text
        requires { b < self.now.backends }
        ensures { result.now ≡ login_of self.now.accounts user.now b }
    {
        match find_user(self.credentials.as_slice(), user.as_slice()) {
            Some(credential) => &credential.account.logins.as_slice()[b as usize],
            None => &self.empty,
        }
    }
}

impl Duplicate for Accounts {
    fn copy(&self, alloc: Global) -> Result<Accounts, NoMemory> {
        Ok(Accounts {
            credentials: self.credentials.copy(alloc)?,
            backends: self.backends,
            empty: self.empty.copy(alloc)?,
        })
    }
}
