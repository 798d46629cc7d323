//! The standard streams as a source and a sink. They tell of their bytes what std tells, and count each error.

use cj_outside::{Failed, OutError, Sink, Source};
use std::io::{Read, Write};

/// A reader as a source. An interrupted read counts as an error.
#[derive(Drop)]
pub struct StdSource<R> {
    inner: R,
    faults: u64,
}

impl<R> StdSource<R> {
    /// Makes a source of the reader, which has counted no fault.
    pub fn new(inner: R) -> Self {
        StdSource { inner, faults: 0 }
    }
}

impl<R: Read> Source for StdSource<R> {
    ghost left = { λ s. R.remaining s.inner };

    ghost faults = { λ s. s.faults };

    fn take(&mut self, buf: &mut [u8]) -> Result<usize, Failed> {
        match self.inner.read(buf) {
            Ok(count) => Ok(count),
            Err(_) => {
                self.faults = self.faults.saturating_add(1);
                Err(Failed)
            }
        }
    }
}

/// A writer as a sink. A writer that takes nothing of a piece counts as an error.
#[derive(Drop)]
pub struct StdSink<W> {
    inner: W,
    faults: u64,
}

impl<W> StdSink<W> {
    /// Makes a sink of the writer, which has counted no fault.
    pub fn new(inner: W) -> Self {
        StdSink { inner, faults: 0 }
    }
}

impl<W: Write> Sink for StdSink<W> {
    ghost held = { λ s. W.contents s.inner };

    ghost faults = { λ s. s.faults };

    fn put(&mut self, piece: &[u8]) -> Result<usize, OutError> {
        match self.inner.write(piece) {
            Ok(count) if count > 0 || piece.is_empty() => Ok(count),
            _ => {
                self.faults = self.faults.saturating_add(1);
                Err(OutError::Failed)
            }
        }
    }
}
