//! A gate that takes time, so that other threads come while a backend is called.

use cj_flaky::Gate;
use std::thread;
use std::time::{Clock, Duration};

/// A gate at which each query and each write sleeps for so many microseconds.
#[derive(Drop)]
pub struct Slow<R: Clock + Copy> {
    clock: R,
    query: u64,
    write: u64,
}

impl<R: Clock + Copy> Slow<R> {
    /// Makes a gate of these times, by this clock.
    pub fn new(clock: R, query: u64, write: u64) -> Slow<R> {
        Slow {
            clock,
            query,
            write,
        }
    }
}

/// Sleeps, if it is for some time.
fn pause(clock: &impl Clock, micros: u64) {
    if micros > 0 {
        thread::sleep(clock, Duration::from_micros(micros));
    }
}

impl<R: Clock + Copy> Gate for Slow<R> {
    fn pass(&mut self) {
        pause(&self.clock, self.query);
    }

    fn pass_write(&mut self) {
        pause(&self.clock, self.write);
    }

    fn again(&self) -> Option<Slow<R>> {
        Some(Slow::new(self.clock, self.query, self.write))
    }
}
