//! What serving comes to.

use crate::connections::Clients;
use crate::frames::REPLIES;
use crate::handed::{Dumps, Streams, serve};
use std::process::Abort;
use std::test::Fail;

/// With no thread the accepting thread serves each connection, and the console comes last.
#[test]
fn each_connection_is_served(rt: HostRuntime) -> Result<(), Fail> {
    let alloc = rt.alloc();
    for threads in [0, 2] {
        let clients = Clients::new(alloc)?;
        let mut port = clients.port(alloc, 0)?;
        let mut streams = Streams::new(alloc, 0, 0)?;
        let ended = serve(
            &rt,
            alloc,
            Dumps::Empty,
            0,
            &mut streams,
            &mut port,
            threads,
        )?;
        assert_eq!(rt; ended.status, 0, "{threads} threads");
        assert!(rt; clients.have_heard(&rt, REPLIES), "{threads} threads");
        assert!(rt; streams.output() == b"ok\n".as_slice(), "{threads} threads");
        assert!(rt; streams.errors().is_empty(), "{threads} threads");
    }
    Ok(())
}

/// Which call fails of the port, of the input and of the output, 0 for none; what the clients hear, what the console
/// writes, and the status. A port that fails leaves the console, and comes before what ended it.
#[test]
fn a_fault_is_the_status(rt: HostRuntime) -> Result<(), Fail> {
    let alloc = rt.alloc();
    for (accept, take, put, heard, written, status) in [
        (1, 0, 0, b"".as_slice(), b"ok\n".as_slice(), 9),
        (1, 1, 0, b"".as_slice(), b"".as_slice(), 9),
        (0, 1, 0, REPLIES, b"".as_slice(), 5),
        (0, 0, 1, REPLIES, b"".as_slice(), 6),
    ] {
        let clients = Clients::new(alloc)?;
        let mut port = clients.port(alloc, accept)?;
        let mut streams = Streams::new(alloc, take, put)?;
        let ended = serve(&rt, alloc, Dumps::Empty, 0, &mut streams, &mut port, 0)?;
        assert_eq!(rt; ended.status, status);
        assert!(rt; clients.have_heard(&rt, heard), "status {status}");
        assert!(rt; streams.output() == written, "status {status}");
        assert!(rt; streams.errors().is_empty(), "status {status}");
    }
    Ok(())
}
