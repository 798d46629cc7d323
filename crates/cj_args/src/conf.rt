//! A word that names a configuration's file, or an address.

ghost use Rattle.std.specs.Prelude.{◌≡◌, IfOk};

use cj_model::NoMemory;
use std::alloc::Global;
use std::marker::Model;

/// The path of a configuration's file or an address, which contracts see as its bytes.
#[derive(Drop)]
pub struct ConfPath {
    text: String,
}

impl Model for ConfPath {
    ghost use Rattle.std.specs.Prelude.{List, ℕ, string_bytes};

    ghost Value = { List ℕ };

    ghost view = { λ path. string_bytes path.text };
}

impl ConfPath {
    pub(crate) fn of(alloc: Global, word: &str) -> Result<ConfPath, NoMemory>
        ensures { IfOk result (λ path. path ≡ word.now) }
    {
        let text = String::from_str(alloc, word)?;
        Ok(ConfPath { text })
    }

    /// Returns the word as it was written.
    pub fn as_str(&self) -> &str
        ensures { result.now ≡ self.now }
    {
        self.text.as_str()
    }
}
