//! Connections in memory: a sink whose bytes its test still sees.

ghost use Rattle.std.specs.Prelude.{None};

use crate::frames::{SENT_T, SENT_U};
use cj_outside::{MemSource, OutError, Sink};
use cj_port::MemPort;
use std::alloc::{AllocError, Global};
use std::sync::{Arc, Mutex, Wait};

/// What a client was sent.
type Heard = Arc<Mutex<Vec<u8>>, Global>;

/// A sink that a client listens to.
#[derive(Drop)]
pub struct Ear {
    heard: Heard,
}

impl Sink for Ear {
    ghost held = { λ _. None };

    ghost faults = { λ _. 0 };

    /// Runs out of memory also where the test listens at this moment, which it does not while it serves.
    fn put(&mut self, piece: &[u8]) -> Result<usize, OutError> {
        let Some(mut heard) = self.heard.try_lock() else {
            return Err(OutError::NoMemory);
        };
        match heard.extend_from_slice(piece) {
            Ok(()) => Ok(piece.len()),
            Err(_) => Err(OutError::NoMemory),
        }
    }
}

/// Two clients: one makes table `t`, the other `u`.
#[derive(Drop)]
pub struct Clients {
    one: Heard,
    other: Heard,
}

/// The connection of a client that sends these bytes.
fn connection(alloc: Global, sent: &[u8], heard: &Heard) -> Result<(MemSource, Ear), AllocError> {
    let ear = Ear {
        heard: Arc::try_clone(heard)?,
    };
    Ok((MemSource::new(sent.to_vec(alloc)?, Vec::new(alloc)), ear))
}

impl Clients {
    /// Clients that have heard nothing yet.
    pub fn new(alloc: Global) -> Result<Clients, AllocError> {
        Ok(Clients {
            one: Arc::new(alloc, Mutex::new(Vec::new(alloc)))?,
            other: Arc::new(alloc, Mutex::new(Vec::new(alloc)))?,
        })
    }

    /// A port at which both connect, whose call with this number fails, from 1.
    pub fn port(&self, alloc: Global, fails: u64) -> Result<MemPort<MemSource, Ear>, AllocError> {
        let connections = vec![in alloc;
            connection(alloc, SENT_T, &self.one)?,
            connection(alloc, SENT_U, &self.other)?,
        ]?;
        Ok(MemPort::new(connections, vec![in alloc; fails]?))
    }

    /// Whether each of them heard just these bytes.
    pub fn have_heard<R: Wait>(&self, rt: &R, bytes: &[u8]) -> bool {
        self.one.lock(rt).as_slice() == bytes && self.other.lock(rt).as_slice() == bytes
    }
}
