//! A buffer for a text that is being written.

ghost use Rattle.std.specs.Prelude.{◌≡◌, ◌++◌, [], OnErr, OnOk};
ghost use Rattle.cj_print.specs.Ascii.{IsAsciiText};

use cj_model::{Name, NoMemory, Text};
use std::alloc::Global;
use std::marker::Model;

/// The text written so far, which is valid after each step.
#[derive(Drop)]
pub struct TextBuffer {
    bytes: Vec<u8>,
}

impl Model for TextBuffer {
    ghost use Rattle.std.specs.Prelude.{List, ℕ};
    ghost use Rattle.cj_model.specs.Sql.Names.{IsText};

    ghost Value = { List ℕ };

    ghost view = { λ buffer. buffer.bytes.items };

    ghost invariant = { λ buffer. IsText buffer.bytes.items };
}

impl TextBuffer {
    /// An empty text, without allocation.
    pub fn new(alloc: Global) -> TextBuffer
        ensures { result ≡ [] }
    {
        TextBuffer {
            bytes: Vec::new(alloc),
        }
    }

    /// Appends bytes of ASCII. After `NoMemory` the text is unchanged.
    pub fn push_ascii(&mut self, words: &[u8]) -> Result<(), NoMemory>
        requires { IsAsciiText words.now }
        ensures ok { OnOk result (self.new ≡ self.old ++ words.now) }
        ensures err { OnErr result (self.new ≡ self.old) }
    {
        self.bytes.extend_from_slice(words)?;
        Ok(())
    }

    /// Appends a name. After `NoMemory` the text is unchanged.
    pub fn push_name(&mut self, name: &Name) -> Result<(), NoMemory>
        ensures ok { OnOk result (self.new ≡ self.old ++ name.now) }
        ensures err { OnErr result (self.new ≡ self.old) }
    {
        self.bytes.extend_from_slice(name.as_slice())?;
        Ok(())
    }

    /// Appends a text. After `NoMemory` the text is unchanged.
    pub fn push_text(&mut self, text: &Text) -> Result<(), NoMemory>
        ensures ok { OnOk result (self.new ≡ self.old ++ text.now) }
        ensures err { OnErr result (self.new ≡ self.old) }
    {
        self.bytes.extend_from_slice(text.as_slice())?;
        Ok(())
    }

    /// The text that was written, without allocation.
    pub fn into_text(self) -> Text
        ensures { result ≡ self }
    {
        Text::of(self.bytes).unwrap()
    }
}
