//! One connection as a job: its session is opened, served and closed.

ghost use Rattle.std.specs.Prelude.{◌≡◌, ℕ};
ghost use Rattle.cj_model.specs.declared.codes.TheConstants.{NO_MEMORY, SESSIONS_FULL};
ghost use Rattle.cj_model.specs.Database.Inserts.{refusal_of_code};
ghost use Rattle.cj_cluster.specs.History.Histories.{log, tx_of};
ghost use Rattle.cj_board.specs.Seats.{front};

use cj_backend::Backend;
use cj_control::{Caller, CallerError, Control};
use cj_desk::Desk;
use cj_model::{NO_MEMORY, Refusal, SESSIONS_FULL};
use cj_outside::{Clock, PcgDraw, Sink, Source, Store, write_all};
use cj_pass::{Naming, Pass};
use cj_port::Task;
use cj_reply::encode_refused;
use cj_session::serve_session;
use std::alloc::Global;
use std::sync::{Arc, Wait};

/// A connection, and what its session needs.
#[derive(Drop)]
pub(crate) struct Connection<J: Naming, B: Backend, S: Store, C, I, O> {
    pub alloc: Global,
    pub control: Arc<Control<J, B, S>, Global>,
    pub pass: Pass<J>,
    pub clock: Arc<C, Global>,
    /// With the session's number added, the seed of its random numbers.
    pub seed: u64,
    pub input: I,
    pub output: O,
}

/// What a client is sent that gets no session.
fn refusal_of(error: CallerError) -> Refusal
    ensures full { (n : ℕ) → error ≡ CallerError.SessionsFull n → result ≡ record { code = SESSIONS_FULL; a = n; b = 0 } }
    ensures memory { error ≡ CallerError.NoMemory → result ≡ refusal_of_code NO_MEMORY }
{
    match error {
        CallerError::SessionsFull(greatest) => Refusal {
            code: SESSIONS_FULL,
            a: greatest,
            b: 0,
        },
        CallerError::NoMemory => Refusal::of_code(NO_MEMORY),
    }
}

/// Serves the session of a caller that was just opened.
fn serve_caller<J: Naming, B: Backend, S: Store + Drop, R: Wait, C: Clock, I: Source, O: Sink>(
    rt: &R,
    alloc: Global,
    caller: &mut Caller<'_, J, B, S>,
    clock: &C,
    seed: u64,
    input: &mut I,
    output: &mut O,
)
    requires begins { caller.old.queries ≡ 0 }
    requires idle { tx_of (log (front caller.old.pass.seat)) caller.old.session ≡ 0 }
{
    let session = Desk::<R>::session(caller);
    let mut draw = PcgDraw::new(seed.wrapping_add(session));
    let _ = serve_session(rt, alloc, caller, input, output, clock, &mut draw);
}

impl<
    J: Naming + Send + Sync + 'static,
    B: Backend + Send + Drop + 'static,
    S: Store + Send + Drop + 'static,
    C: Clock + Send + Sync + Drop + 'static,
    I: Source + Send + Drop + 'static,
    O: Sink + Send + Drop + 'static,
> Task for Connection<J, B, S, C, I, O>
where
    B::Snap: Send + 'static,
{
    fn go<R: Wait>(self, rt: &R) {
        let Connection {
            alloc,
            control,
            mut pass,
            clock,
            seed,
            mut input,
            mut output,
        } = self;
        match control.caller(rt, &mut pass) {
            Ok(mut caller) => {
                serve_caller(
                    rt,
                    alloc,
                    &mut caller,
                    &*clock,
                    seed,
                    &mut input,
                    &mut output,
                );
                control.leave(rt, caller, &mut pass);
            }
            // A client that is gone does not hear it.
            Err(error) => drop(write_all(&mut output, &encode_refused(refusal_of(error)))),
        }
    }
}
