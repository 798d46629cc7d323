//! A port in memory, which fails at chosen calls.
//!
//! Calls of `accept` are numbered from 1, up to 2^64 - 1, where the number stays. A call answers `Failed` exactly if
//! its number is listed or no connection is left. It then gives none, and counts one fault, up to 2^64 - 1 of them.

ghost use Rattle.std.specs.Prelude.{◌≡◌, ◌+◌, [], IsErr, OnErr, OnOk};
ghost use Rattle.cj_outside.specs.Causes.{next, CountsFault};
ghost use Rattle.cj_port.specs.Ports.{FailsAsListedOrEmpty, GivesNext};

use crate::port::Port;
use cj_outside::{Failed, Sink, Source};
use std::collections::VecDeque;
use std::marker::Model;

/// A port that gives the connections of a list, in order.
#[derive(Drop)]
pub struct MemPort<I, O> {
    /// The connections that are left.
    connections: VecDeque<(I, O)>,
    accepted: u64,
    /// The numbers of the calls that fail.
    fails: Vec<u64>,
    calls: u64,
    faults: u64,
}

impl<I, O> Model for MemPort<I, O> {
    ghost use Rattle.std.specs.Prelude.{◌+◌, ◌^◌, ◌<◌, length};
    ghost use Rattle.cj_port.specs.Ports.{PortState};

    ghost Value = { PortState (I × O) };

    ghost view = { λ p. record { left = p.connections.items; accepted = p.accepted; fails = p.fails.items; calls = p.calls; faults = p.faults } };

    ghost invariant = { λ p. p.accepted + length p.connections.items < 2 ^ 64 };
}

impl<I, O> MemPort<I, O> {
    /// A port of these connections, whose calls with the numbers in `fails` fail.
    pub fn new(connections: Vec<(I, O)>, fails: Vec<u64>) -> Self
        ensures { result ≡ record { left = connections.items; accepted = 0; fails = fails.items; calls = 0; faults = 0 } }
    {
        MemPort {
            connections: VecDeque::from(connections),
            accepted: 0,
            fails,
            calls: 0,
            faults: 0,
        }
    }

    fn count_fault(&mut self)
        ensures { self.new ≡ record self.old { faults = next self.old.faults } }
    {
        self.faults = self.faults.saturating_add(1);
    }
}

impl<I: Source + Send + Drop + 'static, O: Sink + Send + Drop + 'static, R> Port<R>
    for MemPort<I, O> {
    type In = I;

    type Out = O;

    ghost accepted = { λ p. p.accepted };

    ghost faults = { λ p. p.faults };

    /// Gives the next connection at once. Fails if the call is listed or no connection is left.
    fn accept(&mut self, _rt: &R) -> Result<(I, O), Failed>
        ensures given { OnOk result (self.new.accepted ≡ self.old.accepted + 1) }
        ensures none { OnErr result (self.new.accepted ≡ self.old.accepted) }
        ensures cause { CountsFault (IsErr result) self.old.faults self.new.faults }

        ensures connection { GivesNext self.old.left self.new.left result }
        ensures listed { FailsAsListedOrEmpty self.old self.new result }
    {
        self.calls = self.calls.saturating_add(1);
        if self.fails.contains(&self.calls) {
            self.count_fault();
            return Err(Failed);
        }
        match self.connections.pop_front() {
            Some(connection) => {
                self.accepted += 1;
                Ok(connection)
            }
            None => {
                self.count_fault();
                Err(Failed)
            }
        }
    }
}
