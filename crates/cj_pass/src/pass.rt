//! The board that `J` names, and what threads carry from lock to lock.

ghost use Rattle.std.specs.Prelude.{◌≡◌, ◌≤◌, ◌<◌, length};
ghost use mathlib.Core.List.{IsPrefix};
ghost use Rattle.cj_board.specs.Counting.{event_count_of};
ghost use Rattle.cj_board.specs.Seats.{board_id, front, pass_board, pass_view};
ghost use Rattle.cj_board.specs.Steps.{after_join};
ghost use Rattle.cj_board.specs.Views.{pass_without_tokens};
ghost use Rattle.cj_pass.specs.Passes.{HasNotedMore};

use crate::naming::Naming;
use cj_board::Board;
use std::marker::PhantomData;

/// The board that `J` names.
#[derive(Drop)]
pub struct NamedBoard<J: Naming> {
    pub board: Board,
    of: PhantomData<J>,
    ghost on: { board_id board ≡ J.board },
}

/// What a thread carries from lock to lock, at the board that `J` names. A pass has no bytes at run time.
#[derive(Drop)]
pub struct Pass<J: Naming> {
    pub seat: cj_board::Pass,
    of: PhantomData<J>,
    ghost on: { pass_board seat ≡ J.board },
}

impl<J: Naming> Pass<J> {
    /// Makes a pass of the named board of a pass of that board.
    pub fn new(seat: cj_board::Pass) -> Pass<J>
        requires { pass_board seat ≡ J.board }
        ensures { result.seat ≡ seat }
    {
        Pass {
            seat,
            of: PhantomData,
        }
    }

    /// Returns the pass, as it is.
    pub fn into_seat(self) -> cj_board::Pass
        ensures seat { result ≡ self.seat }
        ensures board { pass_board result ≡ J.board }
    {
        let Pass { seat, .. } = self;
        seat
    }
}

impl<J: Naming> NamedBoard<J> {
    /// Takes the board, which is the one named.
    pub fn new(board: Board) -> NamedBoard<J>
        requires { board_id board ≡ J.board }
        ensures { result.board ≡ board }
    {
        NamedBoard {
            board,
            of: PhantomData,
        }
    }

    /// Makes another pass that has seen the same, with the same notes. The fault tokens stay with the first.
    pub fn split(&self, pass: &mut Pass<J>) -> Pass<J>
        ensures pass { pass_view pass.new.seat ≡ pass_view pass.old.seat }
        ensures other { pass_view result.seat ≡ pass_without_tokens (pass_view pass.old.seat) }
    {
        let seat = self.board.split(&mut pass.seat);
        Pass::new(seat)
    }

    /// Joins another pass: this one has then seen what either has, with the notes and fault tokens of both.
    pub fn rejoin(&self, pass: &mut Pass<J>, other: Pass<J>)
        ensures pass { pass_view pass.new.seat ≡ after_join (pass_view pass.old.seat) (pass_view other.seat) }
        ensures more { HasNotedMore (pass_view pass.old.seat) (pass_view pass.new.seat) }
        ensures other { IsPrefix (front other.seat) (front pass.new.seat) }
    {
        let Pass { seat, .. } = other;
        self.board.rejoin(&mut pass.seat, seat);
    }

    /// Looks up how many events the history has at a moment of the call. What the pass has seen is no longer.
    pub fn events(&self, pass: &mut Pass<J>) -> u64
        ensures same { pass_view pass.new.seat ≡ pass_view pass.old.seat }
        ensures within { length (front pass.old.seat) ≤ result }
    {
        self.board.events(&mut pass.seat)
    }

    /// Shows that the session of an own pass has no more events, in what the pass has seen, than it has counted.
    pub fn check_count(&self, pass: &mut Pass<J>)
        ensures same { pass_view pass.new.seat ≡ pass_view pass.old.seat }
        ensures counted { 0 < (pass_view pass.old.seat).own_session → event_count_of (pass_view pass.old.seat).own_session (front pass.old.seat) ≤ (pass_view pass.old.seat).count }
    {
        self.board.check_count(&mut pass.seat);
    }
}
