//! A source and a sink in memory, which fail at chosen calls.
//!
//! Calls of `take` and of `put` are numbered from 1, up to 2^64 - 1, where the number stays. A call answers `Failed`
//! exactly if its number is listed. It then moves no byte, and counts one fault, up to 2^64 - 1 of them.

ghost use Rattle.std.specs.Prelude.{◌≡◌, ◌↔◌, ◌⊎◌, ◌≤◌, ◌+◌, ◌++◌, min, Some, IfOk, IsErr, IsErrOf, IsTrue, Contains, take, drop, length};
ghost use Rattle.std.specs.Io.{ReadsAtMost, WritesAtMost};
ghost use Rattle.std.specs.Io.KnownBytes.{ReadConsumes, WriteAppends};
ghost use Rattle.cj_outside.specs.Bytes.{TakesSome, TellsEnd};
ghost use Rattle.cj_outside.specs.Causes.{CountsFault};
ghost use Rattle.cj_outside.specs.Memory.{FailsAsListed};

use crate::sink::{OutError, Sink};
use crate::source::{Failed, Source};
use std::marker::Model;

/// Which calls are to fail, how many there were, and how many of them failed.
#[derive(Drop)]
pub(crate) struct Schedule {
    pub(crate) fails: Vec<u64>,
    pub(crate) calls: u64,
    pub(crate) faults: u64,
}

impl Schedule {
    ghost use Rattle.cj_outside.specs.Causes.{next};

    pub(crate) fn new(fails: Vec<u64>) -> Self
        ensures { result ≡ record { fails = fails; calls = 0; faults = 0 } }
    {
        Schedule {
            fails,
            calls: 0,
            faults: 0,
        }
    }

    /// Numbers the next call and answers whether it fails. A failure is counted.
    pub(crate) fn fails_next(&mut self) -> bool
        ensures list { self.new.fails ≡ self.old.fails }
        ensures number { self.new.calls ≡ next self.old.calls }
        ensures listed { IsTrue result ↔ Contains self.old.fails.items self.new.calls }
        ensures counted { CountsFault (IsTrue result) self.old.faults self.new.faults }
    {
        self.fails_next_or(false)
    }

    /// Numbers the next call and answers whether it fails: listed, or as it `passes` a limit. A failure is counted.
    pub(crate) fn fails_next_or(&mut self, passes: bool) -> bool
        ensures list { self.new.fails ≡ self.old.fails }
        ensures number { self.new.calls ≡ next self.old.calls }
        ensures listed { IsTrue result ↔ Contains self.old.fails.items self.new.calls ⊎ IsTrue passes }
        ensures counted { CountsFault (IsTrue result) self.old.faults self.new.faults }
    {
        self.calls = self.calls.saturating_add(1);
        let fails = passes || self.fails.contains(&self.calls);
        if fails {
            self.faults = self.faults.saturating_add(1);
        }
        fails
    }
}

/// Copies as many bytes of `content` from `at` on as fit into the front of `buf`, and answers how many.
pub(crate) fn fill(buf: &mut [u8], content: &[u8], at: usize) -> usize
    requires { at ≤ length content.now }
    ensures count { result ≡ min (length (drop at content.now)) (length buf.old) }
    ensures moved { drop at content.now ≡ take result buf.new ++ drop (at + result) content.now }
{
    let (_, rest) = content.split_at(at);
    let count = rest.len().min(buf.len());
    buf[..count].copy_from_slice(&rest[..count]);
    count
}

/// A source that gives the bytes of a vector, as many at a call as fit.
#[derive(Drop)]
pub struct MemSource {
    content: Vec<u8>,
    at: usize,
    schedule: Schedule,
}

impl Model for MemSource {
    ghost use Rattle.std.specs.Prelude.{◌≤◌, drop, length};
    ghost use Rattle.cj_outside.specs.Memory.{State};

    ghost Value = { State };

    ghost view = { λ s. record { bytes = drop s.at s.content.items; fails = s.schedule.fails.items; calls = s.schedule.calls; faults = s.schedule.faults } };

    ghost invariant = { λ s. s.at ≤ length s.content.items };
}

impl MemSource {
    /// A source of `content`, whose calls with the numbers in `fails` fail.
    pub fn new(content: Vec<u8>, fails: Vec<u64>) -> Self
        ensures { result ≡ record { bytes = content.items; fails = fails.items; calls = 0; faults = 0 } }
    {
        MemSource {
            content,
            at: 0,
            schedule: Schedule::new(fails),
        }
    }
}

impl Source for MemSource {
    ghost left = { λ s. Some s.bytes };

    ghost faults = { λ s. s.faults };

    /// Takes as many bytes as are left and fit into `buf`. Fails if the call is listed.
    fn take(&mut self, buf: &mut [u8]) -> Result<usize, Failed>
        ensures bound { ReadsAtMost result buf.new }
        ensures bytes { ReadConsumes (Some self.old.bytes) (Some self.new.bytes) result buf.new }
        ensures end { TellsEnd (Some self.old.bytes) result buf.new }
        ensures cause { CountsFault (IsErr result) self.old.faults self.new.faults }

        ensures most { IfOk result (λ count. count ≡ min (length self.old.bytes) (length buf.old)) }
        ensures listed { FailsAsListed IsErr self.old self.new result }
    {
        if self.schedule.fails_next() {
            return Err(Failed);
        }
        let count = fill(buf, &self.content, self.at);
        self.at += count;
        Ok(count)
    }
}

/// A sink that appends to a vector, a whole piece at a call.
#[derive(Drop)]
pub struct MemSink {
    content: Vec<u8>,
    schedule: Schedule,
}

impl Model for MemSink {
    ghost use Rattle.cj_outside.specs.Memory.{State};

    ghost Value = { State };

    ghost view = { λ s. record { bytes = s.content.items; fails = s.schedule.fails.items; calls = s.schedule.calls; faults = s.schedule.faults } };
}

impl MemSink {
    /// A sink that holds `content`, whose calls with the numbers in `fails` fail. The vector `content` grows with it.
    pub fn new(content: Vec<u8>, fails: Vec<u64>) -> Self
        ensures { result ≡ record { bytes = content.items; fails = fails.items; calls = 0; faults = 0 } }
    {
        MemSink {
            content,
            schedule: Schedule::new(fails),
        }
    }

    /// The bytes that the sink was made with, and then all that it has taken.
    pub fn content(&self) -> &[u8]
        ensures { result.now ≡ self.now.bytes }
    {
        &self.content
    }
}

impl Sink for MemSink {
    ghost held = { λ s. Some s.bytes };

    ghost faults = { λ s. s.faults };

    /// Appends the whole piece. Fails if the call is listed; may run out of memory. Refused, it appends nothing.
    fn put(&mut self, piece: &[u8]) -> Result<usize, OutError>
        ensures bound { WritesAtMost result piece.now }
        ensures some { TakesSome piece.now result }
        ensures bytes { WriteAppends (Some self.old.bytes) (Some self.new.bytes) result piece.now }
        ensures cause { CountsFault (IsErrOf result OutError.Failed) self.old.faults self.new.faults }

        ensures whole { IfOk result (λ count. count ≡ length piece.now) }
        ensures listed { FailsAsListed (λ r. IsErrOf r OutError.Failed) self.old self.new result }
    {
        if self.schedule.fails_next() {
            return Err(OutError::Failed);
        }
        match self.content.extend_from_slice(piece) {
            Ok(()) => Ok(piece.len()),
            Err(_) => Err(OutError::NoMemory),
        }
    }
}
