//! A port that listens on this host.

use crate::streams::{Echo, give_back};
use cj_edge_net::TcpPort;
use cj_outside::{Sink, Source};
use cj_port::{Port, Spawner};
use std::io::{ErrorKind, Read, Write};
use std::net::{SocketAddr, TcpStream};
use std::process::Abort;
use std::test::Fail;

/// An address of this host, at which the system picks the number.
const HERE: &str = "127.0.0.1:0";

/// Sends the bytes and returns whether they come back.
fn is_echoed(client: &mut TcpStream, bytes: &[u8; 5]) -> bool {
    let mut back = [0u8; 5];
    client.write_all(bytes).is_ok() && client.read_exact(&mut back).is_ok() && back == *bytes
}

#[test]
fn a_client_is_answered_to_its_end(rt: HostRuntime) -> Result<(), Fail> {
    let mut port = TcpPort::bind(&rt, rt.alloc(), HERE);
    let mut client = TcpStream::connect(&rt, port.address()?)?;
    client.write_all(b"frame")?;
    let (mut input, mut output) = port.accept(&rt)?;
    let mut buf = [0u8; 8];
    assert!(rt; input.take(&mut buf)? == 5 && &buf[..5] == b"frame".as_slice());
    assert!(rt; output.put(b"reply")? == 5);
    client.read_exact(&mut buf[..5])?;
    assert!(rt; &buf[..5] == b"reply".as_slice());
    drop(client);
    assert!(rt; input.take(&mut buf)? == 0, "the client has gone");
    Ok(())
}

#[test]
fn clients_are_served_beside_each_other(rt: HostRuntime) -> Result<(), Fail> {
    let alloc = rt.alloc();
    let mut port = TcpPort::bind(&rt, alloc, HERE);
    let mut spawner = Spawner::new(alloc, 8);
    let mut clients = Vec::new(alloc);
    for _ in 0..4 {
        clients.push(TcpStream::connect(&rt, port.address()?)?)?;
        let (input, output) = port.accept(&rt)?;
        assert!(rt;
            spawner.start(&rt, Echo { input, output }).is_ok(),
            "a thread"
        );
    }
    for client in clients.iter_mut().rev() {
        assert!(rt; is_echoed(client, b"hello") && is_echoed(client, b"again"));
    }
    drop(clients);
    spawner.join_all(&rt);
    Ok(())
}

#[test]
fn a_client_that_went_before_it_was_accepted_is_no_fault(rt: HostRuntime) -> Result<(), Fail> {
    let mut port = TcpPort::bind(&rt, rt.alloc(), HERE);
    drop(TcpStream::connect(&rt, port.address()?)?);
    let (mut input, mut output) = port.accept(&rt)?;
    assert!(rt; give_back(&mut input, &mut output) == Ok(0), "nothing came");
    let mut client = TcpStream::connect(&rt, port.address()?)?;
    let (mut input, mut output) = port.accept(&rt)?;
    client.write_all(b"hello")?;
    drop(client);
    assert!(rt;
        give_back(&mut input, &mut output) == Ok(5),
        "the next is served"
    );
    assert!(rt; port.cause().is_none());
    Ok(())
}

#[test]
fn a_connection_that_is_reset_is_a_fault_of_its_sides(rt: HostRuntime) -> Result<(), Fail> {
    let mut port = TcpPort::bind(&rt, rt.alloc(), HERE);
    let client = TcpStream::connect(&rt, port.address()?)?;
    let (mut input, mut output) = port.accept(&rt)?;
    assert!(rt; output.put(b"unread")? == 6);
    drop(client);
    let mut buf = [0u8; 8];
    assert!(rt; input.take(&mut buf).is_err(), "a read");
    assert!(rt; output.put(b"more").is_err(), "a write");
    assert!(rt; port.cause().is_none());
    Ok(())
}

#[test]
fn a_port_without_an_address_fails_at_once(rt: HostRuntime) -> Result<(), Fail> {
    let alloc = rt.alloc();
    let first = TcpPort::bind(&rt, alloc, HERE);
    let taken = format!(in alloc; "{}", first.address()?)?;
    let ports = [
        (
            TcpPort::bind(&rt, alloc, taken.as_str()),
            ErrorKind::AddrInUse,
        ),
        (
            TcpPort::bind(&rt, alloc, "127.0.0.1"),
            ErrorKind::InvalidInput,
        ),
        (TcpPort::none(alloc), ErrorKind::Unsupported),
    ];
    for (mut port, cause) in ports {
        assert!(rt; port.address().is_err());
        assert!(rt; port.cause() == Some(cause));
        assert!(rt; port.accept(&rt).is_err() && port.cause() == Some(cause));
    }
    Ok(())
}
