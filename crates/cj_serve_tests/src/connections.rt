//! Connections in memory whose sources meet.

ghost use Rattle.std.specs.Prelude.{Some};

use cj_outside::{Failed, MemSource, Source};
use cj_test_setup::{Ear, Heard, connection};
use std::alloc::{AllocError, Global};
use std::sync::Arc;
use std::sync::atomic::{AtomicU64, Ordering};

/// How often a source looks for the other.
const LOOKS: u64 = 100_000_000;

pub type Flag = Arc<AtomicU64, Global>;

/// A source that raises a flag at each call, and then looks for that of another. Where it gives up, it says so.
#[derive(Drop)]
pub struct Meeting {
    inner: MemSource,
    mine: Flag,
    other: Flag,
    missed: Flag,
}

impl Meeting {
    /// Waits until the other source was asked, too.
    fn meet(&self) {
        self.mine.store(1, Ordering::SeqCst);
        for _ in 0..LOOKS {
            if self.other.load(Ordering::SeqCst) == 1 {
                return;
            }
        }
        self.missed.store(1, Ordering::SeqCst);
    }
}

impl Source for Meeting {
    ghost left = { λ s. Some s.inner.bytes };

    ghost faults = { λ s. s.inner.faults };

    fn take(&mut self, buf: &mut [u8]) -> Result<usize, Failed> {
        self.meet();
        self.inner.take(buf)
    }
}

/// The connection of a client that sends these bytes once another client is served, too.
pub fn meets(
    alloc: Global,
    sent: &[u8],
    heard: &Heard,
    mine: &Flag,
    other: &Flag,
    missed: &Flag,
) -> Result<(Meeting, Ear), AllocError> {
    let (inner, ear) = connection(alloc, sent, heard)?;
    let source = Meeting {
        inner,
        mine: Arc::try_clone(mine)?,
        other: Arc::try_clone(other)?,
        missed: Arc::try_clone(missed)?,
    };
    Ok((source, ear))
}
