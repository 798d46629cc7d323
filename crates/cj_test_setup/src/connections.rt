//! Connections in memory, whose sink a test still sees.

ghost use Rattle.std.specs.Prelude.{None};

use cj_outside::{MemSource, OutError, Sink};
use std::alloc::{AllocError, Global};
use std::sync::{Arc, Mutex, Wait};

/// What a client was sent.
pub type Heard = Arc<Mutex<Vec<u8>>, Global>;

/// A sink that a client listens to.
#[derive(Drop)]
pub struct Ear {
    heard: Heard,
}

impl Sink for Ear {
    ghost held = { λ _. None };

    ghost faults = { λ _. 0 };

    /// Runs out of memory also where the test listens at this moment, which it does not while it serves.
    fn put(&mut self, piece: &[u8]) -> Result<usize, OutError> {
        let Some(mut heard) = self.heard.try_lock() else {
            return Err(OutError::NoMemory);
        };
        match heard.extend_from_slice(piece) {
            Ok(()) => Ok(piece.len()),
            Err(_) => Err(OutError::NoMemory),
        }
    }
}

/// A client that heard nothing yet.
pub fn silence(alloc: Global) -> Result<Heard, AllocError> {
    Ok(Arc::new(alloc, Mutex::new(Vec::new(alloc)))?)
}

/// Whether a client heard just these bytes.
pub fn has_heard<R: Wait>(rt: &R, heard: &Heard, bytes: &[u8]) -> bool {
    heard.lock(rt).as_slice() == bytes
}

/// A source of what a client sends.
fn source(alloc: Global, sent: &[u8]) -> Result<MemSource, AllocError> {
    Ok(MemSource::new(sent.to_vec(alloc)?, Vec::new(alloc)))
}

/// The connection of a client that sends these bytes.
pub fn connection(
    alloc: Global,
    sent: &[u8],
    heard: &Heard,
) -> Result<(MemSource, Ear), AllocError> {
    let ear = Ear {
        heard: Arc::try_clone(heard)?,
    };
    Ok((source(alloc, sent)?, ear))
}
