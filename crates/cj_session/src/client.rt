//! A client at a desk: who logged in, and the open transaction.

ghost use Rattle.std.specs.Prelude.{◌≡◌, ◌<◌, ◌≤◌, ◌+◌, false, IsErrOf, MatchResult, None};
ghost use Rattle.cj_model.specs.declared.answer.Reply.TheVariants as replies;
ghost use Rattle.cj_model.specs.declared.limits.TheConstants.{REQUEST_LIMIT};
ghost use Rattle.cj_model.specs.Sql.Grammar.{TextReadsAs};
ghost use Rattle.cj_model.specs.Sql.PlainRequests.{act_of};
ghost use Rattle.cj_cluster.specs.Wire.Sessions as sessions;
ghost use Rattle.cj_outside.specs.Causes.{CountsFault};
ghost use Rattle.cj_reply.specs.Encode.{IsSendable};
ghost use Rattle.cj_desk.specs.SessionTranscripts as transcripts;
ghost use Rattle.cj_desk.specs.SessionTranscripts.{
  client_state,
  login_reply,
  setting,
  user_after_login,
  AnswersMessage,
  AnswersQuery,
  AnswersStats,
  IsRefusedBefore,
  LeavesDesk,
};
ghost use Rattle.cj_session.specs.Proving.Points.{ExchangesMessage};
ghost use Rattle.cj_session.specs.Proving.Works.{IsClientAt};

use crate::send::send;
use crate::turn::turn;
use crate::work::refusal_by_transaction;
use cj_desk::Desk;
use cj_model::{
    ALREADY_LOGGED_IN, Act, BAD_LOGIN, Bytes, Message, NO_MEMORY, NOT_LOGGED_IN, Refusal, Reply,
    Request, SYNTAX, Text,
};
use cj_outside::{Clock, Draw, OutError, Sink};
use cj_sql::{SqlError, read};
use std::alloc::Global;

/// A client at a desk.
#[derive(Drop)]
pub struct Client {
    /// The user that logged in, if one did.
    pub user: Option<Text>,
    /// The session's open transaction, or 0.
    pub tx: u64,
}

fn refused(code: u16) -> Reply
    ensures { result ≡ sessions.refused_reply code }
{
    Reply::Refused(Refusal::of_code(code))
}

/// Returns the request of the text, or the refusal of a text that never reaches the desk.
fn statement(alloc: Global, tx: u64, text: &[u8]) -> Result<Request, Refusal>
    ensures { MatchResult result (λ request. TextReadsAs text.now request × (transcripts.refusal_by_transaction tx (act_of request) ≡ None)) (λ refusal. IsRefusedBefore tx text.now (replies.Refused refusal)) }
{
    match read(alloc, text) {
        Ok(request) => match refusal_by_transaction(tx, &request) {
            None => Ok(request),
            Some(refusal) => Err(refusal),
        },
        Err(SqlError::Syntax) => Err(Refusal::of_code(SYNTAX)),
        Err(SqlError::NoMemory) => Err(Refusal::of_code(NO_MEMORY)),
    }
}

impl Client {
    fn log_in<R, K: Desk<R>>(&mut self, desk: &K, user: Bytes, password: &[u8]) -> Reply
        requires { IsClientAt self.old.user self.old.tx (K.state_of desk.now) }
        ensures reply { result ≡ login_reply self.old.user ((K.state_of desk.now).admits user password.now) }
        ensures user { self.new.user ≡ user_after_login self.old.user ((K.state_of desk.now).admits user password.now) user }
        ensures at { IsClientAt self.new.user self.new.tx (K.state_of desk.now) }
    {
        if self.user.is_some() {
            return refused(ALREADY_LOGGED_IN);
        }
        if !desk.check(user.as_slice(), password) {
            return refused(BAD_LOGIN);
        }
        match Text::of(user.into_vec()) {
            Some(user) => {
                self.user = Some(user);
                Reply::Done(0)
            }
            None => unreachable!(),
        }
    }

    fn stats<R, K: Desk<R>>(&self, rt: &R, desk: &mut K) -> Reply
        ensures { AnswersStats K.leads_to self.now.user desk.old result desk.new }
    {
        match &self.user {
            None => refused(NOT_LOGGED_IN),
            Some(_) => {
                let (hits, misses) = desk.stats(rt);
                Reply::Stats(hits, misses)
            }
        }
    }

    fn query<R, K: Desk<R>, C: Clock, D: Draw>(
        &mut self,
        rt: &R,
        alloc: Global,
        desk: &mut K,
        clock: &C,
        draw: &mut D,
        text: &[u8],
    ) -> Reply
        requires at { IsClientAt self.old.user self.old.tx (K.state_of desk.old) }
        requires room { (K.state_of desk.old).requests < REQUEST_LIMIT }
        ensures answers { AnswersQuery (setting K.state_of K.leads_to D.drawn D.later (C.moment clock.now)) self.old.user
            (client_state self.old.user desk.old draw.old) text.now result (client_state self.new.user desk.new draw.new) }
        ensures at { IsClientAt self.new.user self.new.tx (K.state_of desk.new) }
        ensures requests { (K.state_of desk.new).requests ≤ (K.state_of desk.old).requests + 1 }
        ensures sendable { IsSendable result }
    {
        let Some(user) = &self.user else {
            desk.skip();
            return refused(NOT_LOGGED_IN);
        };
        match statement(alloc, self.tx, text) {
            Ok(request) => {
                let (tx, reply) = turn(rt, desk, clock, draw, user, self.tx, request);
                self.tx = tx;
                reply
            }
            Err(refusal) => {
                desk.skip();
                Reply::Refused(refusal)
            }
        }
    }

    /// Returns the reply to a message that is no Quit.
    fn answer<R, K: Desk<R>, C: Clock, D: Draw>(
        &mut self,
        rt: &R,
        alloc: Global,
        desk: &mut K,
        clock: &C,
        draw: &mut D,
        message: Message,
    ) -> Reply
        requires at { IsClientAt self.old.user self.old.tx (K.state_of desk.old) }
        requires room { (K.state_of desk.old).requests < REQUEST_LIMIT }
        requires goes_on { sessions.is_quit message ≡ false }
        ensures answers { AnswersMessage (setting K.state_of K.leads_to D.drawn D.later (C.moment clock.now))
            (client_state self.old.user desk.old draw.old) message result (client_state self.new.user desk.new draw.new) }
        ensures at { IsClientAt self.new.user self.new.tx (K.state_of desk.new) }
        ensures requests { (K.state_of desk.new).requests ≤ (K.state_of desk.old).requests + 1 }
        ensures sendable { IsSendable result }
    {
        match message {
            Message::Login { user, password } => {
                self.log_in::<R, K>(desk, user, password.as_slice())
            }
            Message::Query(text) => self.query(rt, alloc, desk, clock, draw, text.as_slice()),
            Message::Stats => self.stats(rt, desk),
            Message::Quit => unreachable!(),
        }
    }

    /// Answers a message that is no Quit, and writes the reply. After an error a part of the reply
    /// may be written. `Failed` is a fault that the sink counted.
    pub fn exchange<R, K: Desk<R>, O: Sink, C: Clock, D: Draw>(
        &mut self,
        rt: &R,
        alloc: Global,
        desk: &mut K,
        output: &mut O,
        clock: &C,
        draw: &mut D,
        message: Message,
    ) -> Result<(), OutError>
        requires at { IsClientAt self.old.user self.old.tx (K.state_of desk.old) }
        requires room { (K.state_of desk.old).requests < REQUEST_LIMIT }
        requires goes_on { sessions.is_quit message ≡ false }
        ensures exchanged { ExchangesMessage (setting K.state_of K.leads_to D.drawn D.later (C.moment clock.now)) (O.held output.old) (O.held output.new)
            (client_state self.old.user desk.old draw.old) message (client_state self.new.user desk.new draw.new) result }
        ensures at { IsClientAt self.new.user self.new.tx (K.state_of desk.new) }
        ensures requests { (K.state_of desk.new).requests ≤ (K.state_of desk.old).requests + 1 }
        ensures cause { CountsFault (IsErrOf result OutError.Failed) (O.faults output.old) (O.faults output.new) }
    {
        let reply = self.answer(rt, alloc, desk, clock, draw, message);
        send(alloc, output, &reply)
    }

    /// Asks the desk to roll back the open transaction, if there is one. The desk's reply is
    /// dropped.
    pub fn leave<R, K: Desk<R>>(&self, rt: &R, desk: &mut K)
        requires at { IsClientAt self.now.user self.now.tx (K.state_of desk.old) }
        requires room { (K.state_of desk.old).requests < REQUEST_LIMIT }
        ensures { LeavesDesk K.state_of K.leads_to self.now.user desk.old desk.new }
    {
        if self.tx == 0 {
            return;
        }
        match &self.user {
            Some(user) => {
                let _ = desk.write(rt, user, self.tx, Act::Abort);
            }
            None => unreachable!(),
        }
    }
}
