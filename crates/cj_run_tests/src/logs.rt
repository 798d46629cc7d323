//! Recovery logs that were cut or changed.

use crate::handed::{CREATE, Handed, INSERT};
use std::alloc::Global;
use std::process::Abort;
use std::test::Fail;

/// Adds a record: an open gate, the length of the body, and the body.
fn put_record(log: &mut Vec<u8>, body: &[u8]) -> Result<(), Fail> {
    log.push(1)?;
    log.extend_from_slice(&(body.len() as u64).to_be_bytes())?;
    log.extend_from_slice(body)?;
    Ok(())
}

/// The body of an entry of ann's session 1, outside of a transaction.
fn entry(alloc: Global, number: u64, text: &str) -> Result<Vec<u8>, Fail> {
    let mut body = Vec::new(alloc);
    body.push(1)?;
    for field in [number, 1, number, 0] {
        body.extend_from_slice(&field.to_be_bytes())?;
    }
    body.extend_from_slice(b"\x00\x03ann")?;
    body.extend_from_slice(&(text.len() as u64).to_be_bytes())?;
    body.extend_from_slice(text.as_bytes())?;
    Ok(body)
}

/// A log of three entries, with a marker before the last, and the offsets of its gates.
fn four_items(alloc: Global) -> Result<(Vec<u8>, Vec<usize>), Fail> {
    let bodies = [
        entry(alloc, 1, CREATE)?,
        entry(alloc, 2, INSERT)?,
        b"\x02\x00\x00\x00\x00\x00\x00\x00\x02\x00\x01d\xff".to_vec(alloc)?,
        entry(alloc, 3, "INSERT INTO t VALUES (2, 'b')")?,
    ];
    let mut log = b"CJL1".to_vec(alloc)?;
    let mut gates = Vec::new(alloc);
    for body in &bodies {
        gates.push(log.len())?;
        put_record(&mut log, body)?;
    }
    gates.push(log.len())?;
    log.push(0)?;
    Ok((log, gates))
}

#[test]
fn a_log_that_was_cut_is_refused_at_its_gate(rt: HostRuntime) -> Result<(), Fail> {
    let alloc = rt.alloc();
    let (log, gates) = four_items(alloc)?;
    for count in 6..log.len() {
        let (cut, _) = log.split_at(count);
        let mut gate = 0;
        for at in &gates {
            if *at <= count {
                gate = *at;
            }
        }
        for command in ["log c1.toml", "pipe c1.toml", "script c1.toml"] {
            let mut handed = Handed::over(alloc, cut, b"")?;
            assert_eq!(rt; handed.run(alloc, command)?, 8, "{command} of {count}");
            let told = format!(in alloc; "bad record: {gate}\n")?;
            assert!(rt; handed.errors() == told.as_bytes(), "{count} bytes");
        }
    }
    Ok(())
}

#[test]
fn a_log_that_was_changed_is_opened_or_refused(rt: HostRuntime) -> Result<(), Fail> {
    let alloc = rt.alloc();
    let (log, _) = four_items(alloc)?;
    for place in 0..log.len() {
        let mut changed = log.to_vec(alloc)?;
        if let Some(byte) = changed.get_mut(place) {
            *byte ^= 1;
        }
        let mut handed = Handed::over(alloc, &changed, b"")?;
        let status = handed.run(alloc, "pipe c1.toml")?;
        assert!(rt; status == 0 || status == 8, "{status} at {place}");
        let told = handed.errors();
        assert!(rt; told.is_empty() == (status == 0), "at {place}");
    }
    Ok(())
}
