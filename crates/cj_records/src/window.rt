//! A window on a store, by which small parts are read in large pieces.

ghost use Rattle.std.specs.Prelude.{◌≡◌, ◌+◌, ◌-◌, ◌<◌, ◌≤◌, [], true, length, take, drop, IfOk, OnOk, IsErr};
ghost use Rattle.cj_outside.specs.Causes.{CountsFault};
ghost use Rattle.cj_outside.specs.Streams.{most};
ghost use Rattle.cj_outside.specs.Stores.{Stays, Steps};
ghost use Rattle.cj_records.specs.Proving.Keeping.{ShowsPart};

use crate::parts::fill;
use cj_outside::{Failed, Store};
use std::alloc::{AllocError, Global};
use std::marker::Model;

/// The most bytes that a window shows, and that are read at a call.
pub const PIECE: usize = 65_536;

/// A window on a store: a buffer that shows up to `PIECE` of its bytes from some offset on.
#[derive(Drop)]
pub struct Window {
    piece: Vec<u8>,
    from: u64,
    count: usize,
}

impl Model for Window {
    ghost use Rattle.std.specs.Prelude.{◌≡◌, ◌≤◌, take, length};
    ghost use Rattle.cj_records.specs.Proving.Windows.{WindowView};
    ghost use Rattle.cj_outside.specs.Streams.{most};

    ghost Value = { WindowView };

    ghost view = { λ w. record { from = w.from; bytes = take w.count w.piece.items } };

    ghost invariant = { λ w. (w.count ≤ length w.piece.items) × (length w.piece.items ≡ 65536) × (w.from ≤ most) };
}

impl Window {
    /// Allocates a window that shows nothing.
    pub fn new(alloc: Global) -> Result<Window, AllocError>
        ensures { IfOk result (λ window. window.bytes ≡ []) }
    {
        Ok(Window {
            piece: vec![in alloc; 0u8; PIECE]?,
            from: 0,
            count: 0,
        })
    }

    /// Makes the window show nothing.
    pub fn shut(&mut self)
        ensures { self.new.bytes ≡ [] }
    {
        self.count = 0;
    }

    /// Reads `PIECE` bytes from `at` on, or as many as there are, to be shown.
    fn load<S: Store>(&mut self, store: &mut S, at: u64) -> Result<(), Failed>
        requires { at ≤ most }
        ensures from { self.new.from ≡ at }
        ensures shown { S.tells ≡ true → OnOk result (self.new.bytes ≡ take PIECE (drop at (S.held store.old))) }
        ensures part { S.tells ≡ true → ShowsPart (S.held store.old) self.new.from self.new.bytes }
        ensures bytes { S.tells ≡ true → S.held store.new ≡ S.held store.old }
        ensures cause { CountsFault (IsErr result) (S.faults store.old) (S.faults store.new) }
        ensures disk { Steps S.moment S.may S.since Stays store.old store.new }
    {
        self.count = 0;
        self.from = at;
        self.count = fill(store, at, &mut self.piece)?;
        Ok(())
    }

    /// Whether the window shows `n` bytes from `at` on.
    fn covers(&self, at: u64, n: usize) -> bool
        requires at { at ≤ most }
        requires n { n ≤ PIECE }
        ensures { result ≡ true → (self.now.from ≤ at) × (at + n ≤ self.now.from + length self.now.bytes) }
    {
        self.from <= at && at + n as u64 <= self.from + self.count as u64
    }

    /// Makes the window show `n` bytes from `at` on, or as many as there are; reads the store only if it must.
    pub fn show<S: Store>(&mut self, store: &mut S, at: u64, n: usize) -> Result<(), Failed>
        requires at { at ≤ most }
        requires n { n ≤ PIECE }
        requires part { S.tells ≡ true → ShowsPart (S.held store.old) self.old.from self.old.bytes }
        ensures from { OnOk result (self.new.from ≤ at) }
        ensures shown { S.tells ≡ true → OnOk result (take n (drop (at - self.new.from) self.new.bytes) ≡ take n (drop at (S.held store.old))) }
        ensures part { S.tells ≡ true → ShowsPart (S.held store.old) self.new.from self.new.bytes }
        ensures bytes { S.tells ≡ true → S.held store.new ≡ S.held store.old }
        ensures cause { CountsFault (IsErr result) (S.faults store.old) (S.faults store.new) }
        ensures disk { Steps S.moment S.may S.since Stays store.old store.new }
    {
        if self.covers(at, n) {
            return Ok(());
        }
        self.load(store, at)
    }

    /// The bytes from `at` on, at most `n`, as far as the window shows them.
    pub fn part(&self, at: u64, n: usize) -> &[u8]
        requires { self.now.from ≤ at }
        ensures { result.now ≡ take n (drop (at - self.now.from) self.now.bytes) }
    {
        let shown = &self.piece[..self.count];
        let skip = ((at - self.from) as usize).min(shown.len());
        let (_, rest) = shown.split_at(skip);
        let (part, _) = rest.split_at(n.min(rest.len()));
        part
    }
}
