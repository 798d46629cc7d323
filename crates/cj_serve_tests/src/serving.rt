//! Connections that are served, by threads and without.

use crate::clusters::serve_at_new;
use crate::connections::meets;
use crate::frames::{BROKEN_OFF, DONE, LAST_SESSION, REPLIES, SENT_T, SENT_U, SESSIONS_FULL};
use cj_port::MemPort;
use cj_serve::ServeEnd;
use cj_test_setup::{connection, has_heard, silence};
use std::process::Abort;
use std::sync::Arc;
use std::sync::atomic::{AtomicU64, Ordering};
use std::test::Fail;

/// A connection that is accepted and dropped would leave its client without a reply.
#[test]
fn each_client_is_answered(rt: HostRuntime) -> Result<(), Fail> {
    let alloc = rt.alloc();
    for threads in [0, 1, 2] {
        let (one, other) = (silence(alloc)?, silence(alloc)?);
        let connections = vec![in alloc;
            connection(alloc, SENT_T, &one)?,
            connection(alloc, SENT_U, &other)?,
        ]?;
        let mut port = MemPort::new(connections, Vec::new(alloc));
        let end = serve_at_new(&rt, alloc, Vec::new(alloc), &mut port, threads, 2)?;
        assert!(rt; end == ServeEnd::Done, "{threads} threads");
        assert!(rt; has_heard(&rt, &one, REPLIES), "{threads} threads");
        assert!(rt; has_heard(&rt, &other, REPLIES), "{threads} threads");
    }
    Ok(())
}

/// It hears the replies to what it sent whole. The table that it named is not made, so the other client can make it.
#[test]
fn a_client_that_breaks_off_disturbs_no_other(rt: HostRuntime) -> Result<(), Fail> {
    let alloc = rt.alloc();
    for threads in [0, 1, 2] {
        let (one, other) = (silence(alloc)?, silence(alloc)?);
        let connections = vec![in alloc;
            connection(alloc, BROKEN_OFF, &one)?,
            connection(alloc, SENT_U, &other)?,
        ]?;
        let mut port = MemPort::new(connections, Vec::new(alloc));
        let end = serve_at_new(&rt, alloc, Vec::new(alloc), &mut port, threads, 2)?;
        assert!(rt; end == ServeEnd::Done, "{threads} threads");
        assert!(rt; has_heard(&rt, &one, DONE), "{threads} threads");
        assert!(rt; has_heard(&rt, &other, REPLIES), "{threads} threads");
    }
    Ok(())
}

/// Each source gives bytes only once the other was asked for some.
#[test]
fn connections_are_served_beside_each_other(rt: HostRuntime) -> Result<(), Fail> {
    let alloc = rt.alloc();
    let (one, other) = (silence(alloc)?, silence(alloc)?);
    let left = Arc::new(alloc, AtomicU64::new(0))?;
    let right = Arc::new(alloc, AtomicU64::new(0))?;
    let missed = Arc::new(alloc, AtomicU64::new(0))?;
    let connections = vec![in alloc;
        meets(alloc, SENT_T, &one, &left, &right, &missed)?,
        meets(alloc, SENT_U, &other, &right, &left, &missed)?,
    ]?;
    let mut port = MemPort::new(connections, Vec::new(alloc));
    let end = serve_at_new(&rt, alloc, Vec::new(alloc), &mut port, 2, 2)?;
    assert!(rt; end == ServeEnd::Done);
    assert!(rt; missed.load(Ordering::SeqCst) == 0, "they did not meet");
    assert!(rt; has_heard(&rt, &one, REPLIES) && has_heard(&rt, &other, REPLIES));
    Ok(())
}

/// Which call fails, how many connections are asked for, and what the two clients hear. The third call fails in any
/// case, since no connection is left.
#[test]
fn a_port_that_fails_ends_the_accepting_alone(rt: HostRuntime) -> Result<(), Fail> {
    let alloc = rt.alloc();
    for (fails, asked, first, second) in [
        (1, 2, b"".as_slice(), b"".as_slice()),
        (2, 2, REPLIES, b"".as_slice()),
        (3, 0, REPLIES, REPLIES),
    ] {
        let (one, other) = (silence(alloc)?, silence(alloc)?);
        let connections = vec![in alloc;
            connection(alloc, SENT_T, &one)?,
            connection(alloc, SENT_U, &other)?,
        ]?;
        let mut port = MemPort::new(connections, vec![in alloc; fails]?);
        let end = serve_at_new(&rt, alloc, Vec::new(alloc), &mut port, 2, asked)?;
        assert!(rt; end == ServeEnd::PortFault, "call {fails}");
        assert!(rt; has_heard(&rt, &one, first), "call {fails}");
        assert!(rt; has_heard(&rt, &other, second), "call {fails}");
    }
    Ok(())
}

#[test]
fn a_client_without_a_session_is_told_so(rt: HostRuntime) -> Result<(), Fail> {
    let alloc = rt.alloc();
    let (one, other) = (silence(alloc)?, silence(alloc)?);
    let connections = vec![in alloc;
        connection(alloc, SENT_T, &one)?,
        connection(alloc, SENT_U, &other)?,
    ]?;
    let mut port = MemPort::new(connections, Vec::new(alloc));
    let log = LAST_SESSION.to_vec(alloc)?;
    let end = serve_at_new(&rt, alloc, log, &mut port, 1, 2)?;
    assert!(rt; end == ServeEnd::Done);
    assert!(rt; has_heard(&rt, &one, SESSIONS_FULL) && has_heard(&rt, &other, SESSIONS_FULL));
    Ok(())
}
