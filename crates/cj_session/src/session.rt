//! A whole session over a source and a sink.

ghost use Rattle.std.specs.Prelude.{◌≡◌, ◌<◌, ◌≤◌, ◌+◌, ◌-◌, ◌*◌, ◌^◌, [], length, IfNone, MatchOption, Some, None};
ghost use Rattle.cj_model.specs.declared.limits.TheConstants.{REQUEST_LIMIT};
ghost use Rattle.cj_cluster.specs.Wire.Sessions as sessions;
ghost use Rattle.cj_outside.specs.Causes.{CountsFault};
ghost use Rattle.cj_outside.specs.Streams.{most};
ghost use Rattle.cj_desk.specs.DeskStates.{desk_tx};
ghost use Rattle.cj_desk.specs.SessionTranscripts.{client_state, setting};
ghost use Rattle.cj_session.specs.Serving.{ServesSession};
ghost use Rattle.cj_session.specs.Proving.Points.{point, FillsFeed, ServesToEnd, ServesUpTo};
ghost use Rattle.cj_session.specs.Proving.Works.{IsClientAt};

use crate::client::Client;
use crate::send::refuse;
use cj_cluster::SessionEnd;
use cj_desk::Desk;
use cj_frame::{Feed, FrameError};
use cj_model::Message;
use cj_outside::{Clock, Draw, MOST, OutError, Sink, Source};
use std::alloc::Global;

/// The most bytes that one call takes.
const PIECE: usize = 4096;

fn is_quit(message: &Message) -> bool
    ensures { result ≡ sessions.is_quit message.now }
{
    matches!(message, Message::Quit)
}

/// Returns how a session ends whose source has ended, while so many bytes are held.
fn end_at(held: u64) -> SessionEnd
    ensures eof { held ≡ 0 → result ≡ SessionEnd.Eof }
    ensures cut { 0 < held → result ≡ SessionEnd.Cut }
{
    if held == 0 {
        SessionEnd::Eof
    } else {
        SessionEnd::Cut
    }
}

/// Takes the next piece of the source. Returns how the session ends if none came.
fn fill<I: Source>(feed: &mut Feed, taken: &mut u64, input: &mut I) -> Option<SessionEnd>
    requires { taken.old ≤ most }
    ensures bytes { FillsFeed (I.left input.old) (I.left input.new) feed.old feed.new taken.old taken.new result }
    ensures cause { CountsFault (result ≡ Some SessionEnd.ReadFault) (I.faults input.old) (I.faults input.new) }
{
    if *taken == MOST {
        return Some(SessionEnd::Spent);
    }
    let mut buf = [0u8; PIECE];
    let room = (PIECE as u64).min(MOST - *taken) as usize;
    let piece = &mut buf[..room];
    match input.take(piece) {
        Ok(0) => Some(end_at(feed.rest())),
        Ok(count) => {
            if feed.feed(&piece[..count]).is_err() {
                return Some(SessionEnd::NoMemory);
            }
            *taken += count as u64;
            None
        }
        Err(_) => Some(SessionEnd::ReadFault),
    }
}

/// A session under way.
#[derive(Drop)]
pub struct Session {
    client: Client,
    /// The bytes taken of the input that are no whole frame yet.
    feed: Feed,
    /// How many bytes were taken.
    taken: u64,
}

impl Session {
    /// Answers the next message, or takes a piece of the input if none is whole. Returns how the
    /// session ends, if it does.
    fn step<R, K: Desk<R>, I: Source, O: Sink, C: Clock, D: Draw>(
        &mut self,
        rt: &R,
        alloc: Global,
        desk: &mut K,
        input: &mut I,
        output: &mut O,
        clock: &C,
        draw: &mut D,
    ) -> Option<SessionEnd>
        requires at { IsClientAt self.old.client.user self.old.client.tx (K.state_of desk.old) }
        requires room { (K.state_of desk.old).requests < REQUEST_LIMIT }
        requires few { self.old.taken ≤ most }
        ensures goes { MatchOption result
            (ServesUpTo (setting K.state_of K.leads_to D.drawn D.later (C.moment clock.now))
            (point (I.left input.old) (O.held output.old) (client_state self.old.client.user desk.old draw.old) self.old.feed self.old.taken)
            (point (I.left input.new) (O.held output.new) (client_state self.new.client.user desk.new draw.new) self.new.feed self.new.taken))
            (λ ending. ServesToEnd (setting K.state_of K.leads_to D.drawn D.later (C.moment clock.now))
            (point (I.left input.old) (O.held output.old) (client_state self.old.client.user desk.old draw.old) self.old.feed self.old.taken)
            (I.left input.new) (O.held output.new) ending (client_state self.new.client.user desk.new draw.new)) }
        ensures at { IsClientAt self.new.client.user self.new.client.tx (K.state_of desk.new) }
        ensures requests { (K.state_of desk.new).requests ≤ (K.state_of desk.old).requests + 1 }
        ensures smaller { IfNone result (2 * (most - self.new.taken) + length self.new.feed < 2 * (most - self.old.taken) + length self.old.feed) }
        ensures input { CountsFault (result ≡ Some SessionEnd.ReadFault) (I.faults input.old) (I.faults input.new) }
        ensures output { CountsFault (result ≡ Some SessionEnd.WriteFault) (O.faults output.old) (O.faults output.new) }
    {
        match self.feed.next(alloc) {
            Ok(Some(message)) => {
                if is_quit(&message) {
                    return Some(SessionEnd::Quit);
                }
                match self
                    .client
                    .exchange(rt, alloc, desk, output, clock, draw, message)
                {
                    Ok(()) => None,
                    Err(OutError::Failed) => Some(SessionEnd::WriteFault),
                    Err(OutError::NoMemory) => Some(SessionEnd::NoMemory),
                }
            }
            Ok(None) => fill(&mut self.feed, &mut self.taken, input),
            Err(FrameError::Fault(fault)) => Some(refuse(output, fault)),
            Err(FrameError::NoMemory) => Some(SessionEnd::NoMemory),
        }
    }

    /// Answers messages until the session ends, and returns how it ends.
    fn answer_all<R, K: Desk<R>, I: Source, O: Sink, C: Clock, D: Draw>(
        &mut self,
        rt: &R,
        alloc: Global,
        desk: &mut K,
        input: &mut I,
        output: &mut O,
        clock: &C,
        draw: &mut D,
    ) -> SessionEnd
        requires at { IsClientAt self.old.client.user self.old.client.tx (K.state_of desk.old) }
        requires nothing_held { self.old.feed ≡ [] }
        requires nothing_taken { self.old.taken ≡ 0 }
        requires few { (K.state_of desk.old).requests ≤ 2 ^ 61 }
        ensures served { ServesToEnd (setting K.state_of K.leads_to D.drawn D.later (C.moment clock.now))
            (point (I.left input.old) (O.held output.old) (client_state self.old.client.user desk.old draw.old) self.old.feed self.old.taken)
            (I.left input.new) (O.held output.new) result (client_state self.new.client.user desk.new draw.new) }
        ensures at { IsClientAt self.new.client.user self.new.client.tx (K.state_of desk.new) }
        ensures room { (K.state_of desk.new).requests < REQUEST_LIMIT }
        ensures input { CountsFault (result ≡ SessionEnd.ReadFault) (I.faults input.old) (I.faults input.new) }
        ensures output { CountsFault (result ≡ SessionEnd.WriteFault) (O.faults output.old) (O.faults output.new) }
    {
        loop {
            if let Some(end) = self.step(rt, alloc, desk, input, output, clock, draw) {
                return end;
            }
        }
    }
}

/// Serves one session at a desk, and returns how it ended. It takes the input in pieces of at most
/// 4096 bytes, and writes the reply to each message before it takes more. At most `MOST` bytes are
/// taken.
///
/// At every end the desk is asked to roll back an open transaction. `ReadFault` and `WriteFault`
/// are faults that the source or the sink counted.
pub fn serve_session<R, K: Desk<R>, I: Source, O: Sink, C: Clock, D: Draw>(
    rt: &R,
    alloc: Global,
    desk: &mut K,
    input: &mut I,
    output: &mut O,
    clock: &C,
    draw: &mut D,
) -> SessionEnd
    requires few { (K.state_of desk.old).requests ≤ 2 ^ 61 }
    requires closed { desk_tx (K.state_of desk.old) ≡ 0 }
    ensures served { ServesSession (setting K.state_of K.leads_to D.drawn D.later (C.moment clock.now)) (I.left input.old) (I.left input.new) (O.held output.old) (O.held output.new)
        (client_state None desk.old draw.old) result desk.new draw.new }
    ensures input { CountsFault (result ≡ SessionEnd.ReadFault) (I.faults input.old) (I.faults input.new) }
    ensures output { CountsFault (result ≡ SessionEnd.WriteFault) (O.faults output.old) (O.faults output.new) }
{
    let mut session = Session {
        client: Client { user: None, tx: 0 },
        feed: Feed::new(alloc),
        taken: 0,
    };
    let end = session.answer_all(rt, alloc, desk, input, output, clock, draw);
    session.client.leave(rt, desk);
    end
}
