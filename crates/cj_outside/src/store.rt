//! Bytes that are read and written at any offset.

ghost use Rattle.std.specs.Prelude.{◌≡◌, ◌↔◌, ◌+◌, ◌<◌, ◌≤◌, ℕ, Bool, true, List, length, IfOk, OnOk, IsErr, IsErrOf, IsTrue};
ghost use Rattle.std.specs.Io.{ReadsAtMost};
ghost use Rattle.cj_outside.specs.Causes.{CountsFault};
ghost use Rattle.cj_outside.specs.Streams.{most};
ghost use Rattle.cj_outside.specs.Stores.{Stays, Steps};

use crate::sink::OutError;
use crate::source::Failed;
use crate::streams::{MOST, PIECE};
use std::alloc::{AllocError, Global};
use thiserror::Error;

/// An object that keeps bytes, at most `MOST` of them, which are read and written at any offset.
///
/// `Failed` counts one fault, and no other result does. A stop may lose a write, until a `sync` after it succeeded.
pub trait Store {
    ghost use Rattle.cj_outside.specs.Stores.{TellsLength, ReadsAt, Writes, KeepsLimit, Torn, Only};

    /// Whether contracts see the bytes that the store holds.
    ghost tells: { Bool };

    /// Whether contracts see which bytes a stop may leave.
    ghost has_disk: { Bool };

    /// The bytes that the store holds, if it tells them.
    ghost held: { Self → List ℕ };

    /// How many faults the store has counted, up to 2^64 - 1.
    ghost faults: { Self → ℕ };

    /// The moment, as a number that doesn't fall.
    ghost moment: { Self → ℕ };

    /// The images that a stop at this moment may leave. A store without a disk gives none.
    ghost may: { Self → List ℕ → Type 0 };

    /// The images that a stop at some moment may have left, from the given moment to this one.
    ghost since: { Self → ℕ → List ℕ → Type 0 };

    /// How many bytes the store has, at most `MOST`.
    fn len(&mut self) -> Result<u64, Failed>
        ensures limit { IfOk result (λ n. n ≤ most) }
        ensures count { tells ≡ true → TellsLength (held self.old) result }
        ensures bytes { tells ≡ true → held self.new ≡ held self.old }
        ensures cause { CountsFault (IsErr result) (faults self.old) (faults self.new) }
        ensures disk { Steps moment may since Stays self.old self.new };

    /// Reads bytes from `at` on into the front of `buf` and answers how many, at most `buf.len()`.
    ///
    /// 0 with room in `buf` is the end. If the store tells its bytes, 0 comes exactly if it has none at `at`.
    fn read_at(&mut self, at: u64, buf: &mut [u8]) -> Result<usize, Failed>
        ensures bound { ReadsAtMost result buf.new }
        ensures read { tells ≡ true → IfOk result (λ count. ReadsAt (held self.old) at buf.new count) }
        ensures bytes { tells ≡ true → held self.new ≡ held self.old }
        ensures cause { CountsFault (IsErr result) (faults self.old) (faults self.new) }
        ensures disk { Steps moment may since Stays self.old self.new };

    /// Writes over the bytes from `at` on, and past the last of them.
    ///
    /// `at` is at most the length. A range that passes `MOST` is `Failed`. `NoMemory` comes only from a store that
    /// tells its bytes, and only for a range past the last one. After a refusal the bytes in the range may be any,
    /// and the others are unchanged.
    fn write_at(&mut self, at: u64, bytes: &[u8]) -> Result<(), OutError>
        requires { tells ≡ true → at ≤ length (held self.old) }
        ensures limit { KeepsLimit (at + length bytes.now) result }
        ensures memory { IsErrOf result OutError.NoMemory → (tells ≡ true) × (length (held self.old) < at + length bytes.now) }
        ensures bytes { tells ≡ true → Writes (held self.old) at bytes.now (held self.new) result }
        ensures cause { CountsFault (IsErrOf result OutError.Failed) (faults self.old) (faults self.new) }
        ensures disk { Steps moment may since (Torn at (length bytes.now)) self.old self.new };

    /// Makes what was written safe: after a success, a stop leaves the bytes as they are.
    fn sync(&mut self) -> Result<(), Failed>
        ensures bytes { tells ≡ true → held self.new ≡ held self.old }
        ensures cause { CountsFault (IsErr result) (faults self.old) (faults self.new) }
        ensures disk { Steps moment may since Stays self.old self.new }
        ensures safe { OnOk result (Only (held self.new) (may self.new)) };

    /// A stop may leave the bytes as they are.
    ghost stands: { (store : Self) → has_disk ≡ true → may store (held store) };

    /// What a stop may leave now, it may have left since any earlier moment.
    ghost counts_now: { (store : Self) (t : ℕ) (image : List ℕ) → t ≤ moment store → may store image → since store t image };

    /// What a stop may have left since this moment, it may leave now.
    ghost only_now: { (store : Self) (image : List ℕ) → since store (moment store) image → may store image };
}

/// Whether `len` bytes from `at` on reach past `MOST`, the most bytes of a store.
pub fn is_past_most(at: u64, len: usize) -> bool
    ensures { IsTrue result ↔ (most < at + len) }
{
    at > MOST || len as u64 > MOST - at
}

/// Why a store was not read whole.
#[derive(Clone, Copy, Debug, PartialEq, Eq, Error)]
pub enum StoreReadError {
    /// The store failed.
    #[error("the store failed")]
    Failed,
    /// The bytes did not fit into memory.
    #[error("out of memory")]
    NoMemory,
}

impl From<Failed> for StoreReadError {
    ghost use Rattle.cj_outside.specs.declared.store.StoreReadError.TheVariants as errors;

    ghost from_gives = { λ _ error. error ≡ errors.Failed };

    fn from(_error: Failed) -> StoreReadError {
        StoreReadError::Failed
    }
}

impl From<AllocError> for StoreReadError {
    ghost use Rattle.cj_outside.specs.declared.store.StoreReadError.TheVariants as errors;

    ghost from_gives = { λ _ error. error ≡ errors.NoMemory };

    fn from(_error: AllocError) -> StoreReadError {
        StoreReadError::NoMemory
    }
}

/// Reads all bytes of the store, in pieces of at most 4096, and answers them.
///
/// The length is asked first, and no more than that is read. A store that doesn't tell its bytes may end sooner:
/// then the bytes up to there are answered. On an error the bytes that were read are lost.
pub fn read_store<S: Store>(alloc: Global, store: &mut S) -> Result<Vec<u8>, StoreReadError>
    ensures whole { S.tells ≡ true → IfOk result (λ bytes. bytes.items ≡ S.held store.old) }
    ensures limit { IfOk result (λ bytes. length bytes.items ≤ most) }
    ensures bytes { S.tells ≡ true → S.held store.new ≡ S.held store.old }
    ensures cause { CountsFault (IsErrOf result StoreReadError.Failed) (S.faults store.old) (S.faults store.new) }
    ensures disk { Steps S.moment S.may S.since Stays store.old store.new }
{
    let len = store.len()?;
    let mut bytes = Vec::new(alloc);
    let mut buf = [0u8; PIECE];
    let mut at = 0;
    while at < len {
        let room = (PIECE as u64).min(len - at) as usize;
        let piece = &mut buf[..room];
        let count = store.read_at(at, piece)?;
        if count == 0 {
            break;
        }
        bytes.extend_from_slice(&piece[..count])?;
        at += count as u64;
    }
    Ok(bytes)
}
