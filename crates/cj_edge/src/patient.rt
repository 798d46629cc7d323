//! Streams that are asked again if a call came too early.

use std::io::{self, ErrorKind, Read, Write};
use std::thread;
use std::time::{Clock, Duration};

/// How long a stream that isn't ready is left alone, in milliseconds.
const PAUSE: u64 = 5;

/// A reader or a writer that is asked again after an interrupted call, and after a pause if the
/// stream wasn't ready.
///
/// So a stream that another program made non-blocking serves like any other. A call waits as long
/// as the stream isn't ready.
#[derive(Drop)]
pub struct Patient<T, C> {
    inner: T,
    clock: C,
}

impl<T, C> Patient<T, C> {
    /// Makes a patient stream. The clock is needed for the pauses.
    pub fn new(inner: T, clock: C) -> Self {
        Patient { inner, clock }
    }
}

/// Whether the call may be made again. If the stream wasn't ready, this waits for a pause first.
fn may_ask_again(clock: &impl Clock, error: io::Error) -> bool {
    match error.kind() {
        ErrorKind::Interrupted => true,
        ErrorKind::WouldBlock => {
            thread::sleep(clock, Duration::from_millis(PAUSE));
            true
        }
        _ => false,
    }
}

impl<T: Read, C: Clock> Read for Patient<T, C> {
    ghost remaining = { λ s. T.remaining s.inner };

    fn read(&mut self, buf: &mut [u8]) -> io::Result<usize> {
        for _ in 0..u64::MAX {
            match self.inner.read(buf) {
                Ok(count) => return Ok(count),
                Err(error) if may_ask_again(&self.clock, error) => {}
                Err(error) => return Err(error),
            }
        }
        Err(ErrorKind::TimedOut.into())
    }
}

impl<T: Write, C: Clock> Write for Patient<T, C> {
    ghost contents = { λ s. T.contents s.inner };

    fn write(&mut self, buf: &[u8]) -> io::Result<usize> {
        for _ in 0..u64::MAX {
            match self.inner.write(buf) {
                Ok(count) => return Ok(count),
                Err(error) if may_ask_again(&self.clock, error) => {}
                Err(error) => return Err(error),
            }
        }
        Err(ErrorKind::TimedOut.into())
    }

    fn flush(&mut self) -> io::Result<()> {
        self.inner.flush()
    }
}
