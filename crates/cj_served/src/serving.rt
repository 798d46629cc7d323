//! The console and the accepting, beside each other.

ghost use Rattle.std.specs.Prelude.{◌≡◌, ◌≢◌, ◌↔◌, ◌+◌, true};
ghost use Rattle.std.specs.Thread.{IsSend};
ghost use Rattle.cj_cluster.specs.History.Legality.{IsLegal};
ghost use Rattle.cj_outside.specs.Causes.{CountsFault};
ghost use Rattle.cj_board.specs.Seats.{front, pass_view};
ghost use Rattle.cj_console.specs.Answers.{AreRightDumps};
ghost use Rattle.cj_console.specs.Chats.{ChatsTo};
ghost use Rattle.cj_console.specs.declared.chat.ConsoleEnd.TheVariants as ends;
ghost use Rattle.cj_serve.specs.declared.serving.ServeEnd.TheVariants as accepting;

use crate::side::{Side, beside};
use cj_backend::Backend;
use cj_console::{ConsoleEnd, console};
use cj_control::Control;
use cj_outside::{Clock, Sink, Source, Store};
use cj_pass::{Naming, Pass};
use cj_port::{Port, Spawner};
use cj_serve::{ServeEnd, serve};
use cj_shelf::Shelf;
use std::alloc::Global;
use std::sync::{Arc, Wait};
use std::thread::Threads;

/// A console over its streams.
#[derive(Drop)]
struct Chatting<'a, J: Naming, B: Backend, S: Store, D: Store, I, O> {
    alloc: Global,
    control: &'a Control<J, B, S>,
    pass: &'a mut Pass<J>,
    shelf: &'a mut Shelf<D>,
    input: &'a mut I,
    output: &'a mut O,
}

impl<'a, J: Naming, B: Backend + Drop, S: Store + Drop, D: Store, I: Source, O: Sink, R: Wait> Side<
    R,
> for Chatting<'a, J, B, S, D, I, O> {
    type End = ConsoleEnd;

    ghost can_go = { λ s. IsLegal (front s.pass.now.seat) × (B.tells ≡ true → D.tells ≡ true) × AreRightDumps B.tells (front s.pass.now.seat) s.shelf.now.dumps };

    ghost goes = { λ s end t. (t.pass.ghost_name ≡ s.pass.ghost_name) × (t.shelf.ghost_name ≡ s.shelf.ghost_name) × (t.input.ghost_name ≡ s.input.ghost_name) × (t.output.ghost_name ≡ s.output.ghost_name)
        × ChatsTo (record { tells = B.tells; kept = D.tells; layout = J.layout; held = D.held; faults = D.faults }) (I.left s.input.now) (I.left t.input.now) (O.held s.output.now) (O.held t.output.now) (record { view = pass_view s.pass.now.seat; shelf = s.shelf.now }) end (record { view = pass_view t.pass.now.seat; shelf = t.shelf.now })
        × CountsFault (end ≡ ends.ReadFault) (I.faults s.input.now) (I.faults t.input.now)
        × CountsFault (end ≡ ends.WriteFault) (O.faults s.output.now) (O.faults t.output.now) };

    fn go(&mut self, rt: &R) -> ConsoleEnd {
        console(
            rt,
            self.alloc,
            self.control,
            self.pass,
            self.shelf,
            self.input,
            self.output,
        )
    }
}

/// Has a console chat on the streams, and meanwhile serves sessions over so many connections of the port, 0 for any
/// number. Returns how both ended, once they have. Where no thread can be made, the console comes after the accepting.
pub(crate) fn chat_and_serve<
    'a,
    J: Naming + Send + Sync + 'static,
    B: Backend + Send + Drop + 'static,
    S: Store + Send + Drop + 'static,
    D: Store + Send,
    I: Source + Send,
    O: Sink + Send,
    C: Clock + Send + Sync + Drop + 'static,
    R: Threads + Wait + Copy + Drop + Send + Sync + 'static,
    P: Port<R>,
>(
    rt: &R,
    alloc: Global,
    control: &'a Arc<Control<J, B, S>, Global>,
    pass: &'a mut Pass<J>,
    shelf: &'a mut Shelf<D>,
    input: &'a mut I,
    output: &'a mut O,
    clock: &'a Arc<C, Global>,
    port: &'a mut P,
    spawner: &'a mut Spawner,
    seed: u64,
    connections: u64,
) -> (ConsoleEnd, ServeEnd)
where
    B::Snap: Send + 'static,
    requires legal { IsLegal (front pass.old.seat) }
    requires kept { B.tells ≡ true → D.tells ≡ true }
    requires dumps { AreRightDumps B.tells (front pass.old.seat) shelf.old.dumps }
    ensures chats { ChatsTo (record { tells = B.tells; kept = D.tells; layout = J.layout; held = D.held; faults = D.faults }) (I.left input.old) (I.left input.new) (O.held output.old) (O.held output.new) (record { view = pass_view pass.old.seat; shelf = shelf.old }) result.0 (record { view = pass_view pass.new.seat; shelf = shelf.new }) }
    ensures input { CountsFault (result.0 ≡ ends.ReadFault) (I.faults input.old) (I.faults input.new) }
    ensures output { CountsFault (result.0 ≡ ends.WriteFault) (O.faults output.old) (O.faults output.new) }
    ensures done { (result.1 ≡ accepting.Done) ↔ ((P.accepted port.new ≡ P.accepted port.old + connections) × (connections ≢ 0)) }
    ensures port { CountsFault (result.1 ≡ accepting.PortFault) (P.faults port.old) (P.faults port.new) }
{
    let mut split = control.split(pass);
    let mut chatting = Chatting {
        alloc,
        control: &**control,
        pass,
        shelf,
        input,
        output,
    };
    beside(
        rt,
        &mut chatting,
        &mut || -> ServeEnd
            requires { IsSend J.row × IsSend B.row × IsSend S.row × IsSend C.row × IsSend P.In.row × IsSend P.Out.row }
            ensures { ((result ≡ accepting.Done) ↔ ((P.accepted port.exit.now ≡ P.accepted port.entry.now + connections) × (connections ≢ 0))) × CountsFault (result ≡ accepting.PortFault) (P.faults port.entry.now) (P.faults port.exit.now) }
        {
            serve(
                rt,
                alloc,
                control,
                &mut split,
                port,
                spawner,
                clock,
                seed,
                connections,
            )
        },
    )
}
