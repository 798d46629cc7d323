//! A session at a desk that runs out of memory at each call, with bytes that were worked out by hand.

ghost use Rattle.std.specs.Prelude.{◌≡◌, true};
ghost use Rattle.cj_cluster.specs.Wire.Sessions.{refused_reply};
ghost use Rattle.cj_desk.specs.DeskStates.{DeskSteps};
ghost use Rattle.cj_part_tests.specs.StarvedDesks.{starved_desk};

use cj_cluster::SessionEnd;
use cj_desk::{Desk, Written};
use cj_model::{Act, NO_MEMORY, Refusal, Reply, Select, Text, USER_LIMIT};
use cj_outside::{FixedClock, ListDraw, MemSink, MemSource};
use cj_session::serve_session;
use std::process::Abort;
use std::test::Fail;

#[derive(Drop)]
struct StarvedDesk {
    user: Text,
    requests: u64,
}

fn starved() -> Reply
    ensures { result ≡ refused_reply NO_MEMORY }
{
    Reply::Refused(Refusal::of_code(NO_MEMORY))
}

impl<R> Desk<R> for StarvedDesk {
    ghost tells = { true };

    ghost state_of = { λ desk. starved_desk desk.user desk.requests };

    ghost leads_to = { λ a x z. DeskSteps true (starved_desk a.user a.requests) x (starved_desk z.user z.requests) };

    ghost promised = { λ a z x h. h };

    fn check(&self, user: &[u8], _password: &[u8]) -> bool {
        user.len() <= USER_LIMIT && user == self.user.as_slice()
    }

    #[tactic(auto, using(crate::proofs::StarvedTurns::starved_write))]
    fn write(&mut self, _rt: &R, _user: &Text, _tx: u64, _act: Act) -> Written {
        self.requests += 1;
        Written {
            number: 0,
            reply: starved(),
        }
    }

    #[tactic(auto, using(crate::proofs::StarvedTurns::starved_read))]
    fn read(&mut self, _rt: &R, _user: &Text, _tx: u64, _select: &Select) -> Reply {
        self.requests += 1;
        starved()
    }

    fn skip(&mut self) {
        self.requests += 1;
    }

    fn stats(&mut self, _rt: &R) -> (u64, u64) {
        (0, 0)
    }

    fn session(&self) -> u64 {
        1
    }
}

const STATS: &[u8] = b"\x00\x00\x00\x01\x03";

const DONE_0: &[u8] = b"\x00\x00\x00\x09\x81\x00\x00\x00\x00\x00\x00\x00\x00";

const NO_COUNTS: &[u8] =
    b"\x00\x00\x00\x11\x83\x00\x00\x00\x00\x00\x00\x00\x00\x00\x00\x00\x00\x00\x00\x00\x00";

/// Appends a refusal whose code is below 256 and whose numbers say nothing.
fn refused(output: &mut Vec<u8>, code: u8) -> Result<(), Fail> {
    output.extend_from_slice(b"\x00\x00\x00\x13\x8f\x00")?;
    output.push(code)?;
    output.extend_from_slice(&[0; 16])?;
    Ok(())
}

#[test]
fn each_kind_of_message(rt: HostRuntime) -> Result<(), Fail> {
    let alloc = rt.alloc();
    let mut input = STATS.to_vec(alloc)?;
    let mut wanted = Vec::new(alloc);
    refused(&mut wanted, 2)?;
    input.extend_from_slice(b"\x00\x00\x00\x09\x01\x00\x03bob\x00\x01p")?;
    refused(&mut wanted, 3)?;
    input.extend_from_slice(b"\x00\x00\x00\x09\x01\x00\x03ann\x00\x01p")?;
    wanted.extend_from_slice(DONE_0)?;
    input.extend_from_slice(b"\x00\x00\x00\x09\x01\x00\x03ann\x00\x01p")?;
    refused(&mut wanted, 4)?;
    input.extend_from_slice(b"\x00\x00\x00\x07\x02SELECT")?;
    refused(&mut wanted, 10)?;
    input.extend_from_slice(b"\x00\x00\x00\x07\x02COMMIT")?;
    refused(&mut wanted, 12)?;
    input.extend_from_slice(b"\x00\x00\x00\x10\x02SELECT * FROM t")?;
    refused(&mut wanted, 43)?;
    input.extend_from_slice(b"\x00\x00\x00\x06\x02BEGIN")?;
    refused(&mut wanted, 43)?;
    input.extend_from_slice(STATS)?;
    wanted.extend_from_slice(NO_COUNTS)?;
    input.extend_from_slice(b"\x00\x00\x00\x01\x04")?;
    input.extend_from_slice(STATS)?;
    let Some(user) = Text::of(b"ann".to_vec(alloc)?) else {
        return Err(Fail::from("a text"));
    };
    let mut desk = StarvedDesk { user, requests: 0 };
    let mut source = MemSource::new(input, Vec::new(alloc));
    let mut sink = MemSink::new(Vec::new(alloc), Vec::new(alloc));
    let mut draws = ListDraw::new(Vec::new(alloc));
    let clock = FixedClock::new(0);
    let end = serve_session(
        &rt,
        alloc,
        &mut desk,
        &mut source,
        &mut sink,
        &clock,
        &mut draws,
    );
    assert!(rt; end == SessionEnd::Quit);
    assert!(rt; sink.content() == wanted.as_slice());
    Ok(())
}
