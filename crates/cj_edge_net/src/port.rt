//! A port that listens for TCP.

ghost use Rattle.std.specs.Prelude.{◌≡◌, ◌-◌, ◌<◌, ◌^◌, OnOk};
ghost use Rattle.cj_outside.specs.Causes.{next};

use crate::side::Side;
use cj_edge::{StdSink, StdSource};
use cj_outside::Failed;
use cj_port::Port;
use std::alloc::Global;
use std::io::{self, ErrorKind};
use std::net::{Net, SocketAddr, TcpListener, TcpStream};
use std::thread;
use std::time::{Clock, Duration};

/// How long the port waits after an error that passes by itself, in milliseconds.
const PAUSE: u64 = 10;
/// For so many seconds a client may send nothing: eight hours, as of MySQL. Then its connection is given up.
const SILENCE: u64 = 28_800;
/// For so many seconds a client may take nothing of a reply. Then its connection is given up.
const STANDSTILL: u64 = 300;

// Numbers of Linux for errors that have no kind of their own.
/// All files that the system may have open are.
const SYSTEM_HAS_NO_FILE: i32 = 23;
/// All files that the process may have open are.
const PROCESS_HAS_NO_FILE: i32 = 24;
/// The client broke the protocol.
const PROTOCOL_ERROR: i32 = 71;
/// The system has no memory for a socket.
const NO_BUFFER: i32 = 105;
/// The client's host is down.
const HOST_IS_DOWN: i32 = 112;

/// A port that listens for TCP, and tells nothing of bytes.
///
/// It gives each client once, and small replies leave at once (`TCP_NODELAY`). A read fails once a client has sent
/// nothing for eight hours, and a write once it has taken nothing for five minutes. An error of the listener that
/// passes by itself is no fault: the port waits for a moment and listens again. Any other error counts as a fault.
#[derive(Drop)]
pub struct TcpPort {
    alloc: Global,
    listener: io::Result<TcpListener>,
    accepted: u64,
    faults: u64,
    /// The kind of the last error that was counted.
    cause: Option<ErrorKind>,
}

/// Whether the listener may give a connection after this error. A client went or was refused before it was accepted, or
/// no file or memory was free.
fn passes(error: io::Error) -> bool {
    match error.kind() {
        ErrorKind::ConnectionAborted
        | ErrorKind::HostUnreachable
        | ErrorKind::Interrupted
        | ErrorKind::NetworkDown
        | ErrorKind::NetworkUnreachable
        | ErrorKind::OutOfMemory
        | ErrorKind::PermissionDenied
        | ErrorKind::TimedOut => true,
        _ => matches!(
            error.raw_os_error(),
            Some(
                SYSTEM_HAS_NO_FILE | PROCESS_HAS_NO_FILE | PROTOCOL_ERROR | NO_BUFFER | HOST_IS_DOWN
            )
        ),
    }
}

/// Waits for one connection. If it can't be served for want of memory, it is closed.
fn next_sides(alloc: Global, listener: &TcpListener) -> io::Result<(Side, Side)> {
    let (stream, _) = listener.accept()?;
    // A client that went meanwhile is found out by the first read.
    drop(stream.set_nodelay(true));
    drop(stream.set_read_timeout(Some(Duration::from_secs(SILENCE))));
    drop(stream.set_write_timeout(Some(Duration::from_secs(STANDSTILL))));
    Ok(Side::both(alloc, stream)?)
}

impl TcpPort {
    /// Listens at the address: the host's name or number, a colon and the port's number. With number 0 the system picks
    /// one. If the address can't be had, each call fails.
    pub fn bind<R: Net<Listener = TcpListener, Stream = TcpStream>>(
        rt: &R,
        alloc: Global,
        address: &str,
    ) -> TcpPort {
        TcpPort::new(alloc, TcpListener::bind(rt, address))
    }

    /// Makes a port that listens nowhere: each call fails.
    pub fn none(alloc: Global) -> TcpPort {
        TcpPort::new(alloc, Err(ErrorKind::Unsupported.into()))
    }

    fn new(alloc: Global, listener: io::Result<TcpListener>) -> TcpPort {
        TcpPort {
            alloc,
            listener,
            accepted: 0,
            faults: 0,
            cause: None,
        }
    }

    /// Returns the address at which the port listens.
    pub fn address(&self) -> io::Result<SocketAddr> {
        match &self.listener {
            Ok(listener) => listener.local_addr(),
            Err(error) => Err(*error),
        }
    }

    /// Returns the kind of the last error: that of the last call that failed, or the one that each call meets since
    /// the address can't be had. `None` if there was none.
    pub fn cause(&self) -> Option<ErrorKind> {
        match (self.cause, &self.listener) {
            (None, Err(error)) => Some(error.kind()),
            (cause, _) => cause,
        }
    }

    /// Waits for the next connection, through errors that pass.
    fn wait<R: Clock>(&self, rt: &R) -> io::Result<(Side, Side)>
        ensures { OnOk result (self.now.accepted < 2 ^ 64 - 1) }
    {
        let listener = match &self.listener {
            Ok(listener) if self.accepted < u64::MAX => listener,
            Ok(_) => return Err(ErrorKind::QuotaExceeded.into()),
            Err(error) => return Err(*error),
        };
        for _ in 0..u64::MAX {
            match next_sides(self.alloc, listener) {
                Ok(sides) => return Ok(sides),
                Err(error) if passes(error) => thread::sleep(rt, Duration::from_millis(PAUSE)),
                Err(error) => return Err(error),
            }
        }
        Err(ErrorKind::TimedOut.into())
    }

    fn count_fault(&mut self, cause: ErrorKind)
        ensures faults { self.new.faults ≡ next self.old.faults }
        ensures accepted { self.new.accepted ≡ self.old.accepted }
    {
        self.faults = self.faults.saturating_add(1);
        self.cause = Some(cause);
    }
}

impl<R: Clock> Port<R> for TcpPort {
    type In = StdSource<Side>;

    type Out = StdSink<Side>;

    ghost accepted = { λ p. p.accepted };

    ghost faults = { λ p. p.faults };

    fn accept(&mut self, rt: &R) -> Result<(StdSource<Side>, StdSink<Side>), Failed> {
        match self.wait(rt) {
            Ok((input, output)) => {
                self.accepted += 1;
                Ok((StdSource::new(input), StdSink::new(output)))
            }
            Err(error) => {
                self.count_fault(error.kind());
                Err(Failed)
            }
        }
    }
}
