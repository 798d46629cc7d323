//! A side of a connection.

use std::alloc::{AllocError, Global};
use std::io::{self, ErrorKind, Read, Write};
use std::net::TcpStream;
use std::sync::Arc;

/// A side of a connection. It shares the other side's socket, so a connection takes one file of the process.
///
/// The socket is closed once both sides are let go. A write to a client that has gone is an error, and no signal. A
/// call that was interrupted is made again: since the socket has limits of time, a stop of the process interrupts each.
#[derive(Drop)]
pub struct Side {
    stream: Arc<TcpStream, Global>,
}

impl Side {
    /// Makes both sides of a connection. On an error it is closed.
    pub fn both(alloc: Global, stream: TcpStream) -> Result<(Side, Side), AllocError> {
        let stream = Arc::new(alloc, stream)?;
        let shared = Arc::try_clone(&stream)?;
        Ok((Side { stream }, Side { stream: shared }))
    }
}

impl Read for Side {
    fn read(&mut self, buf: &mut [u8]) -> io::Result<usize> {
        let mut stream: &TcpStream = &self.stream;
        for _ in 0..u64::MAX {
            match stream.read(buf) {
                Err(error) if error.kind() == ErrorKind::Interrupted => {}
                done => return done,
            }
        }
        Err(ErrorKind::Interrupted.into())
    }
}

impl Write for Side {
    fn write(&mut self, buf: &[u8]) -> io::Result<usize> {
        let mut stream: &TcpStream = &self.stream;
        for _ in 0..u64::MAX {
            match stream.write(buf) {
                Err(error) if error.kind() == ErrorKind::Interrupted => {}
                done => return done,
            }
        }
        Err(ErrorKind::Interrupted.into())
    }

    fn flush(&mut self) -> io::Result<()> {
        Ok(())
    }
}
