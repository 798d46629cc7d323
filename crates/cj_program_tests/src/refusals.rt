//! Dumps that are refused: nothing is served then, and both stores come back.

use crate::connections::Clients;
use crate::handed::{Dumps, LOG, Streams, bytes_of, serve};
use std::process::Abort;
use std::test::Fail;

/// A store that fails at its first call gives 7. One with bytes that are no dumps' gives 8, of which the errors are
/// told.
#[test]
fn dumps_that_are_refused_stay(rt: HostRuntime) -> Result<(), Fail> {
    let alloc = rt.alloc();
    for (dumps, fails, status, told) in [
        (Dumps::Empty, 1, 7, b"".as_slice()),
        (Dumps::Foreign, 0, 8, b"bad record: 0\n".as_slice()),
    ] {
        let clients = Clients::new(alloc)?;
        let mut port = clients.port(alloc, 0)?;
        let mut streams = Streams::new(alloc, 0, 0)?;
        let ended = serve(&rt, alloc, dumps, fails, &mut streams, &mut port, 0)?;
        assert_eq!(rt; ended.status, status);
        assert!(rt; streams.errors() == told, "status {status}");
        let (Some(log), Some(left)) = (ended.log, ended.dumps) else {
            panic!(rt; "a store is kept at status {status}")
        };
        assert!(rt;
            log.content() == LOG && left.content() == bytes_of(dumps),
            "status {status}"
        );
        assert!(rt; streams.output().is_empty(), "status {status}");
        assert!(rt; clients.have_heard(&rt, b"".as_slice()), "status {status}");
    }
    Ok(())
}
