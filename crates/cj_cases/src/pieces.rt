//! A source that comes in small pieces.

ghost use Rattle.std.specs.Prelude.{◌≡◌, Some};

use cj_outside::{Failed, MemSource, Source};
use std::marker::Model;

/// A source in memory that gives at most `limit` bytes at a call, and one where `limit` is 0.
#[derive(Drop)]
pub struct Pieces {
    source: MemSource,
    limit: u64,
}

impl Model for Pieces {
    ghost use Rattle.cj_outside.specs.Memory.{State};

    ghost Value = { State };

    ghost view = { λ p. p.source };
}

impl Pieces {
    /// Makes a source of the bytes that `source` has left, at most `limit` of them at a call.
    pub fn new(source: MemSource, limit: u64) -> Pieces
        ensures { result ≡ source }
    {
        Pieces { source, limit }
    }
}

impl Source for Pieces {
    ghost left = { λ p. Some p.bytes };

    ghost faults = { λ p. p.faults };

    fn take(&mut self, buf: &mut [u8]) -> Result<usize, Failed> {
        let room = (buf.len() as u64).min(self.limit.max(1)) as usize;
        self.source.take(&mut buf[..room])
    }
}
