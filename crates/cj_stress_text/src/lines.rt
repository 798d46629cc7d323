//! What is told, as lines of words.

use cj_model::NoMemory;
use std::alloc::Global;

/// Lines that one thread tells, in order.
#[derive(Drop)]
pub struct Lines {
    alloc: Global,
    text: Vec<u8>,
}

impl Lines {
    pub fn new(alloc: Global) -> Lines {
        Lines {
            alloc,
            text: Vec::new(alloc),
        }
    }

    /// Adds text.
    pub fn add(&mut self, text: &str) -> Result<(), NoMemory> {
        self.text.extend_from_slice(text.as_bytes())?;
        Ok(())
    }

    /// Adds a space and a number.
    pub fn add_number(&mut self, number: u64) -> Result<(), NoMemory> {
        let alloc = self.alloc;
        let text = format!(in alloc; " {number}")?;
        self.add(text.as_str())
    }

    /// Adds a space and bytes in hexadecimal, or `-` for none.
    pub fn add_bytes(&mut self, bytes: &[u8]) -> Result<(), NoMemory> {
        if bytes.is_empty() {
            return self.add(" -");
        }
        let text = hex::encode(self.alloc, bytes)?;
        self.add(" ")?;
        self.add(text.as_str())
    }

    /// Ends the line.
    pub fn end(&mut self) -> Result<(), NoMemory> {
        self.add("\n")
    }

    /// Adds all lines of another thread.
    pub fn add_all(&mut self, other: Lines) -> Result<(), NoMemory> {
        self.text.extend_from_slice(&other.text)?;
        Ok(())
    }

    pub fn into_text(self) -> Vec<u8> {
        let Lines { text, .. } = self;
        text
    }
}
