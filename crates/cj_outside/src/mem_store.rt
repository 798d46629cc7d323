//! A store in memory, which fails at chosen calls.
//!
//! Calls of a store, of all four kinds together, are numbered from 1, up to 2^64 - 1, where the number stays.
//! A call answers `Failed` exactly if its number is listed or it would pass the most bytes of a store.
//! It then changes nothing, and counts one fault, up to 2^64 - 1 of them.

ghost use Rattle.std.specs.Prelude.{◌≡◌, ◌+◌, ◌-◌, ◌<◌, ◌≤◌, min, true, false, List, ℕ, length, drop, IfOk, OnOk, OnErr, IsErr, IsErrOf};
ghost use Rattle.std.specs.Io.{ReadsAtMost};
ghost use Rattle.cj_outside.specs.Causes.{CountsFault};
ghost use Rattle.cj_outside.specs.Memory.{FailsAsListed, FailsAsListedOr};
ghost use Rattle.cj_outside.specs.Streams.{most};
ghost use Rattle.cj_outside.specs.Stores.{TellsLength, ReadsAt, Writes, KeepsLimit, Torn, Stays, Only, Steps, overwritten, no_moment, no_image, no_past};

use crate::memory::{Schedule, fill};
use crate::sink::OutError;
use crate::source::Failed;
use crate::store::{Store, is_past_most};
use crate::streams::MOST;
use std::alloc::AllocError;
use std::marker::Model;

/// Writes over the bytes from `at` on, and past the last of them. Out of memory leaves all as they were.
fn overwrite(content: &mut Vec<u8>, at: usize, bytes: &[u8]) -> Result<(), AllocError>
    requires { at ≤ length content.old.items }
    ensures ok { OnOk result (content.new.items ≡ overwritten content.old.items at bytes.now) }
    ensures err { OnErr result (content.new.items ≡ content.old.items) }
    ensures full { OnErr result (length content.old.items < at + length bytes.now) }
{
    let within = bytes.len().min(content.len() - at);
    let (over, more) = bytes.split_at(within);
    if !more.is_empty() {
        content.extend_from_slice(more)?;
    }
    content[at..at + within].copy_from_slice(over);
    Ok(())
}

/// A store that keeps its bytes in a vector.
#[derive(Drop)]
pub struct MemStore {
    content: Vec<u8>,
    schedule: Schedule,
}

impl Model for MemStore {
    ghost use Rattle.cj_outside.specs.Memory.{State};

    ghost Value = { State };

    ghost view = { λ s. record { bytes = s.content.items; fails = s.schedule.fails.items; calls = s.schedule.calls; faults = s.schedule.faults } };
}

impl MemStore {
    /// A store of `content`, whose calls with the numbers in `fails` fail. The vector of `content` grows with it.
    pub fn new(content: Vec<u8>, fails: Vec<u64>) -> Self
        ensures { result ≡ record { bytes = content.items; fails = fails.items; calls = 0; faults = 0 } }
    {
        MemStore {
            content,
            schedule: Schedule::new(fails),
        }
    }

    /// The bytes that the store holds.
    pub fn content(&self) -> &[u8]
        ensures { result.now ≡ self.now.bytes }
    {
        &self.content
    }
}

impl Store for MemStore {
    ghost tells = { true };

    ghost has_disk = { false };

    ghost held = { λ s. s.bytes };

    ghost faults = { λ s. s.faults };

    ghost moment = { no_moment };

    ghost may = { no_image };

    ghost since = { no_past };

    ghost stands = { λ s e. Prim.cc };

    ghost counts_now = { λ s t image le now. now };

    ghost only_now = { λ s image left. left };

    /// Tells the length in bytes. Fails if the call is listed.
    fn len(&mut self) -> Result<u64, Failed>
        ensures limit { IfOk result (λ n. n ≤ most) }
        ensures count { true ≡ true → TellsLength self.old.bytes result }
        ensures bytes { true ≡ true → self.new.bytes ≡ self.old.bytes }
        ensures cause { CountsFault (IsErr result) self.old.faults self.new.faults }
        ensures disk { Steps no_moment no_image no_past Stays self.old self.new }

        ensures listed { FailsAsListedOr (most < length self.old.bytes) IsErr self.old self.new result }
    {
        let len = self.content.len() as u64;
        if self.schedule.fails_next_or(len > MOST) {
            return Err(Failed);
        }
        Ok(len)
    }

    /// Reads as many bytes from `at` on as there are and fit into `buf`. Fails if the call is listed.
    fn read_at(&mut self, at: u64, buf: &mut [u8]) -> Result<usize, Failed>
        ensures bound { ReadsAtMost result buf.new }
        ensures read { true ≡ true → IfOk result (λ count. ReadsAt self.old.bytes at buf.new count) }
        ensures bytes { true ≡ true → self.new.bytes ≡ self.old.bytes }
        ensures cause { CountsFault (IsErr result) self.old.faults self.new.faults }
        ensures disk { Steps no_moment no_image no_past Stays self.old self.new }

        ensures most { IfOk result (λ count. count ≡ min (length self.old.bytes - at) (length buf.old)) }
        ensures listed { FailsAsListed IsErr self.old self.new result }
    {
        if self.schedule.fails_next() {
            return Err(Failed);
        }
        Ok(fill(buf, &self.content, (at as usize).min(self.content.len())))
    }

    /// Writes the bytes from `at` on. Fails if the call is listed or passes `MOST` bytes; may run out of memory.
    /// A refused write changes no byte.
    fn write_at(&mut self, at: u64, bytes: &[u8]) -> Result<(), OutError>
        requires { true ≡ true → at ≤ length self.old.bytes }
        ensures limit { KeepsLimit (at + length bytes.now) result }
        ensures memory { IsErrOf result OutError.NoMemory → (true ≡ true) × (length self.old.bytes < at + length bytes.now) }
        ensures bytes { true ≡ true → Writes self.old.bytes at bytes.now self.new.bytes result }
        ensures cause { CountsFault (IsErrOf result OutError.Failed) self.old.faults self.new.faults }
        ensures disk { Steps no_moment no_image no_past (Torn at (length bytes.now)) self.old self.new }

        ensures unchanged { OnErr result (self.new.bytes ≡ self.old.bytes) }
        ensures listed { FailsAsListedOr (most < at + length bytes.now) (λ r. IsErrOf r OutError.Failed) self.old self.new result }
    {
        if self.schedule.fails_next_or(is_past_most(at, bytes.len())) {
            return Err(OutError::Failed);
        }
        match overwrite(&mut self.content, at as usize, bytes) {
            Ok(()) => Ok(()),
            Err(_) => Err(OutError::NoMemory),
        }
    }

    /// Does nothing, since memory has no disk. Fails if the call is listed.
    fn sync(&mut self) -> Result<(), Failed>
        ensures bytes { true ≡ true → self.new.bytes ≡ self.old.bytes }
        ensures cause { CountsFault (IsErr result) self.old.faults self.new.faults }
        ensures disk { Steps no_moment no_image no_past Stays self.old self.new }
        ensures safe { OnOk result (Only self.new.bytes (no_image self.new)) }

        ensures listed { FailsAsListed IsErr self.old self.new result }
    {
        if self.schedule.fails_next() {
            return Err(Failed);
        }
        Ok(())
    }
}
