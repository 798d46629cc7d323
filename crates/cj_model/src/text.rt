//! Texts: UTF-8 without byte 0.

ghost use Rattle.std.specs.Prelude.{◌≡◌, ◌↔◌, ◌==◌, not, [], length, IfOk, IsTrue};
ghost use Rattle.std.specs.List.{list_all};
ghost use Rattle.std.specs.Str as str;
ghost use Rattle.cj_model.specs.Sql.Names.{text_of, IsText};
ghost use Rattle.cj_model.specs.Sql.Names as names;

use crate::memory::{Duplicate, NoMemory};
use std::alloc::Global;
use std::marker::Model;

/// UTF-8 without byte 0, which contracts see as its bytes.
#[derive(Debug, Drop)]
pub struct Text {
    bytes: Vec<u8>,
}

impl Model for Text {
    ghost use Rattle.std.specs.Prelude.{List, ℕ};
    ghost use Rattle.cj_model.specs.Sql.Names.{IsText};

    ghost Value = { List ℕ };

    ghost view = { λ text. text.bytes.items };

    ghost invariant = { λ text. IsText text.bytes.items };
}

fn is_utf8(bytes: &[u8]) -> bool
    ensures { result ≡ str.is_utf8 bytes.now }
{
    match std::str::from_utf8(bytes) {
        Ok(_) => true,
        Err(_) => false,
    }
}

fn has_no_zero(mut bytes: &[u8]) -> bool
    ensures { result ≡ list_all (λ b. not (b == 0)) bytes.entry.now }
{
    while let [b, rest @ ..] = bytes {
        if *b == 0 {
            return false;
        }
        bytes = rest;
    }
    true
}

#[tactic(auto, unfolding(crate::specs::Sql::Names::is_text))]
fn is_text(bytes: &[u8]) -> bool
    ensures { result ≡ names.is_text bytes.now }
{
    is_utf8(bytes) && has_no_zero(bytes)
}

impl Text {
    /// The bytes as a text; `None` exactly where they are no text.
    pub fn of(bytes: Vec<u8>) -> Option<Text>
        ensures { result ≡ text_of bytes.items }
    {
        if is_text(&bytes) {
            Some(Text { bytes })
        } else {
            None
        }
    }

    /// The bytes of the text.
    pub fn as_slice(&self) -> &[u8]
        ensures value { result.now ≡ self.now }
        ensures text { IsText self.now }
    {
        &self.bytes
    }

    pub fn len(&self) -> usize
        ensures { result ≡ length self.now }
    {
        self.bytes.len()
    }

    pub fn is_empty(&self) -> bool
        ensures { IsTrue result ↔ (self.now ≡ []) }
    {
        self.bytes.is_empty()
    }
}

/// A text in a box, so that a value, which is a number or a text, is no larger than two numbers.
pub struct BoxedText {
    text: Box<Text>,
}

impl Model for BoxedText {
    ghost use Rattle.std.specs.Prelude.{List, ℕ};

    ghost Value = { List ℕ };

    ghost view = { λ boxed. boxed.text.value };
}

impl Drop for BoxedText {
    fn drop(self) {
        let BoxedText { text } = self;
        drop(Box::into_inner(text));
    }
}

impl BoxedText {
    /// Puts the text into a box. If memory runs out, the text is lost.
    pub fn of(alloc: Global, text: Text) -> Result<BoxedText, NoMemory>
        ensures { IfOk result (λ boxed. boxed ≡ text) }
    {
        Ok(BoxedText {
            text: Box::new(alloc, text)?,
        })
    }

    pub fn as_text(&self) -> &Text
        ensures { result.now ≡ self.now }
    {
        &self.text
    }

    pub fn as_slice(&self) -> &[u8]
        ensures { result.now ≡ self.now }
    {
        self.text.as_slice()
    }
}

impl Duplicate for BoxedText {
    fn copy(&self, alloc: Global) -> Result<BoxedText, NoMemory> {
        BoxedText::of(alloc, self.text.copy(alloc)?)
    }
}

impl Duplicate for Text {
    fn copy(&self, alloc: Global) -> Result<Text, NoMemory> {
        Ok(Text {
            bytes: Vec::from_slice(alloc, &self.bytes)?,
        })
    }
}
