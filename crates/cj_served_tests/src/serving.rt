//! A console beside sessions, by threads and without.

use crate::clusters::{Setting, serve_new};
use crate::frames::{REPLIES, SENT_T, SENT_U};
use cj_console::ConsoleEnd;
use cj_outside::{MemSink, MemSource};
use cj_port::MemPort;
use cj_serve::ServeEnd;
use cj_served::status_of_serving;
use cj_test_setup::{connection, has_heard, silence};
use std::process::Abort;
use std::test::Fail;

/// Without a thread the console comes after both sessions, and with threads it may come first.
#[test]
fn a_console_chats_beside_sessions(rt: HostRuntime) -> Result<(), Fail> {
    let alloc = rt.alloc();
    for threads in [0, 2] {
        let (one, other) = (silence(alloc)?, silence(alloc)?);
        let connections = vec![in alloc;
            connection(alloc, SENT_T, &one)?,
            connection(alloc, SENT_U, &other)?,
        ]?;
        let mut port = MemPort::new(connections, Vec::new(alloc));
        let mut input = MemSource::new(b"quit\n".to_vec(alloc)?, Vec::new(alloc));
        let mut output = MemSink::new(Vec::new(alloc), Vec::new(alloc));
        let setting = Setting {
            log: Vec::new(alloc),
            dumps: Vec::new(alloc),
            threads,
            connections: 2,
        };
        let Ok((console, accepting)) = serve_new(
            &rt,
            alloc,
            setting,
            &mut input,
            &mut output,
            &mut port,
        )?
        else {
            panic!(rt; "not served with {threads} threads")
        };
        assert!(rt; console == ConsoleEnd::Quit && accepting == ServeEnd::Done);
        assert!(rt;
            status_of_serving(accepting, console) == 0,
            "{threads} threads"
        );
        assert!(rt; output.content() == b"ok\n".as_slice(), "{threads} threads");
        assert!(rt; has_heard(&rt, &one, REPLIES), "{threads} threads");
        assert!(rt; has_heard(&rt, &other, REPLIES), "{threads} threads");
    }
    Ok(())
}

/// A port that fails ends the accepting. The console goes on to its end, and the status tells of the port.
#[test]
fn a_port_that_fails_leaves_the_console(rt: HostRuntime) -> Result<(), Fail> {
    let alloc = rt.alloc();
    let heard = silence(alloc)?;
    let connections = vec![in alloc; connection(alloc, SENT_T, &heard)?]?;
    let mut port = MemPort::new(connections, vec![in alloc; 1]?);
    let mut input = MemSource::new(b"nothing\n".to_vec(alloc)?, Vec::new(alloc));
    let mut output = MemSink::new(Vec::new(alloc), Vec::new(alloc));
    let setting = Setting {
        log: Vec::new(alloc),
        dumps: Vec::new(alloc),
        threads: 2,
        connections: 0,
    };
    let Ok((console, accepting)) = serve_new(
        &rt,
        alloc,
        setting,
        &mut input,
        &mut output,
        &mut port,
    )?
    else {
        panic!(rt; "not served")
    };
    assert!(rt; console == ConsoleEnd::Eof && accepting == ServeEnd::PortFault);
    assert!(rt; status_of_serving(accepting, console) == 9);
    assert!(rt; output.content() == b"refused Command\n".as_slice());
    assert!(rt; has_heard(&rt, &heard, b"".as_slice()));
    Ok(())
}
