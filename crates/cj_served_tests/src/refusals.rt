//! Stores that are refused: nothing is served then, and both come back.

use crate::clusters::{Setting, serve_new};
use crate::frames::SENT_T;
use cj_book::StartError;
use cj_outside::{MemSink, MemSource};
use cj_port::MemPort;
use cj_served::Unserved;
use cj_shelf::ShelfError;
use cj_test_setup::{connection, has_heard, silence};
use std::process::Abort;
use std::test::Fail;

/// The first bytes of a log that has no entry.
const LOG: &[u8] = b"CJL1\x00";

const NO_FILE: &[u8] = b"no file";

/// A log of other bytes stops the start. The dumps are not looked at.
#[test]
fn a_log_of_other_bytes_is_refused(rt: HostRuntime) -> Result<(), Fail> {
    let alloc = rt.alloc();
    let heard = silence(alloc)?;
    let connections = vec![in alloc; connection(alloc, SENT_T, &heard)?]?;
    let mut port = MemPort::new(connections, Vec::new(alloc));
    let mut input = MemSource::new(b"quit\n".to_vec(alloc)?, Vec::new(alloc));
    let mut output = MemSink::new(Vec::new(alloc), Vec::new(alloc));
    let setting = Setting {
        log: NO_FILE.to_vec(alloc)?,
        dumps: Vec::new(alloc),
        threads: 0,
        connections: 1,
    };
    let Err(Unserved::Log(error, log, dumps)) = serve_new(
        &rt,
        alloc,
        setting,
        &mut input,
        &mut output,
        &mut port,
    )?
    else {
        panic!(rt; "the log is accepted")
    };
    assert!(rt; error == StartError::BadRecord(0));
    assert!(rt; log.content() == NO_FILE && dumps.content().is_empty());
    assert!(rt; output.content().is_empty() && has_heard(&rt, &heard, b"".as_slice()));
    Ok(())
}

/// Dumps of other bytes stop it once the world has started over the log.
#[test]
fn dumps_of_other_bytes_are_refused(rt: HostRuntime) -> Result<(), Fail> {
    let alloc = rt.alloc();
    let heard = silence(alloc)?;
    let connections = vec![in alloc; connection(alloc, SENT_T, &heard)?]?;
    let mut port = MemPort::new(connections, Vec::new(alloc));
    let mut input = MemSource::new(b"quit\n".to_vec(alloc)?, Vec::new(alloc));
    let mut output = MemSink::new(Vec::new(alloc), Vec::new(alloc));
    let setting = Setting {
        log: Vec::new(alloc),
        dumps: NO_FILE.to_vec(alloc)?,
        threads: 0,
        connections: 1,
    };
    let Err(Unserved::Dumps(error, log, dumps)) = serve_new(
        &rt,
        alloc,
        setting,
        &mut input,
        &mut output,
        &mut port,
    )?
    else {
        panic!(rt; "the dumps are accepted")
    };
    assert!(rt; error == ShelfError::BadRecord(0));
    assert!(rt; log.content() == LOG && dumps.content() == NO_FILE);
    assert!(rt; output.content().is_empty() && has_heard(&rt, &heard, b"".as_slice()));
    Ok(())
}
