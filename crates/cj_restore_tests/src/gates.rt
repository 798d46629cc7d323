//! Backends that fail at chosen calls, and a gate that holds the first write of one until a session was answered.

ghost use Rattle.std.specs.Prelude.{◌≡◌};
ghost use Rattle.cj_flaky.specs.FlakyBackends.{fresh_over};
ghost use Rattle.cj_mem.specs.MemoryBackends.{fresh_state};

use cj_flaky::{Flaky, Gate, Gated};
use cj_mem::MemBackend;
use cj_model::{ListOf, NoMemory};
use std::alloc::Global;
use std::sync::Arc;
use std::sync::atomic::{AtomicU64, Ordering};

/// So often one thread looks for the other's flag.
const LOOKS: u64 = 100_000_000;

/// Flags by which a backend's first write and a session wait for each other.
#[derive(Drop)]
pub struct Flags {
    /// The write came.
    came: AtomicU64,
    /// The session was answered.
    answered: AtomicU64,
    /// One of both gave up.
    missed: AtomicU64,
}

pub type SharedFlags = Arc<Flags, Global>;

/// Whether the flag is raised before the looks are spent.
fn is_seen(flag: &AtomicU64) -> bool {
    for _ in 0..LOOKS {
        if flag.load(Ordering::SeqCst) == 1 {
            return true;
        }
    }
    false
}

impl Flags {
    /// Flags of which none is raised.
    pub fn lowered(alloc: Global) -> Result<SharedFlags, NoMemory> {
        let flags = Flags {
            came: AtomicU64::new(0),
            answered: AtomicU64::new(0),
            missed: AtomicU64::new(0),
        };
        Ok(Arc::new(alloc, flags)?)
    }

    /// Flags that hold no write.
    pub fn raised(alloc: Global) -> Result<SharedFlags, NoMemory> {
        let flags = Flags::lowered(alloc)?;
        flags.answer();
        Ok(flags)
    }

    /// Waits for the backend's first write.
    pub fn wait_for_write(&self) {
        if !is_seen(&self.came) {
            self.missed.store(1, Ordering::SeqCst);
        }
    }

    /// Tells that the session was answered.
    pub fn answer(&self) {
        self.answered.store(1, Ordering::SeqCst);
    }

    /// Whether one of both gave up.
    pub fn is_missed(&self) -> bool {
        self.missed.load(Ordering::SeqCst) == 1
    }
}

/// A gate that tells when the first write comes, and holds that until the session was answered.
#[derive(Drop)]
pub struct Held {
    flags: SharedFlags,
}

impl Gate for Held {
    fn pass(&mut self) {}

    fn pass_write(&mut self) {
        let came = self.flags.came.swap(1, Ordering::SeqCst);
        if came == 0 && !is_seen(&self.flags.answered) {
            self.flags.missed.store(1, Ordering::SeqCst);
        }
    }

    fn again(&self) -> Option<Held> {
        let flags = Arc::try_clone(&self.flags).ok()?;
        Some(Held { flags })
    }
}

/// A backend of the tests.
pub type HeldBackend = Gated<Flaky<MemBackend>, Held>;

/// A backend that fails at these calls, and whose first write is held by these flags.
pub fn backend(alloc: Global, fails: Vec<u64>, flags: SharedFlags) -> HeldBackend
    ensures { result.inner ≡ fresh_over fresh_state result.inner.fails }
{
    let flaky = Flaky::new(MemBackend::new(alloc), ListOf::from_vec(fails));
    Gated::new(flaky, Held { flags })
}
