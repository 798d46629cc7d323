//! Who may log in.

use crate::list::ListOf;
use crate::memory::{Duplicate, NoMemory};
use crate::text::Text;
use std::alloc::Global;

pub type Texts = ListOf<Text>;

/// A user, the SHA-256 of its password in hexadecimal digits, and the login under which each
/// backend is called for the user.
#[derive(Drop)]
pub struct Account {
    pub user: Text,
    pub digest: Text,
    pub logins: Texts,
}

pub type AccountRows = ListOf<Account>;

impl Duplicate for Account {
    fn copy(&self, alloc: Global) -> Result<Account, NoMemory> {
        Ok(Account {
            user: self.user.copy(alloc)?,
            digest: self.digest.copy(alloc)?,
            logins: self.logins.copy(alloc)?,
        })
    }
}
