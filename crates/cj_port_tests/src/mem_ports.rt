//! A port in memory.

use crate::streams::give_back;
use cj_outside::{Failed, MemSink, MemSource, Source};
use cj_port::{MemPort, Port};
use std::alloc::{AllocError, Global};
use std::process::Abort;
use std::test::Fail;

/// A connection whose client sends this text.
fn connection(alloc: Global, text: &str) -> Result<(MemSource, MemSink), AllocError> {
    let content = Vec::from_slice(alloc, text.as_bytes())?;
    Ok((
        MemSource::new(content, Vec::new(alloc)),
        MemSink::new(Vec::new(alloc), Vec::new(alloc)),
    ))
}

#[test]
fn connections_come_in_order_and_calls_fail_as_listed(rt: HostRuntime) -> Result<(), Fail> {
    let alloc = rt.alloc();
    let connections = vec![in alloc; connection(alloc, "first")?, connection(alloc, "second")?]?;
    let mut port = MemPort::new(connections, vec![in alloc; 2]?);
    for (call, text) in [(1, "first"), (3, "second")] {
        if call > 1 {
            assert!(rt; port.accept(&rt).is_err(), "call 2 is listed");
        }
        let (mut input, mut output) = port.accept(&rt)?;
        assert!(rt; give_back(&mut input, &mut output) == Ok(text.len() as u64));
        assert!(rt; output.content() == text.as_bytes(), "{text}");
    }
    for _ in 0..2 {
        assert!(rt; port.accept(&rt).is_err(), "no connection is left");
    }
    Ok(())
}
