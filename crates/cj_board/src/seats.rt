//! The board, and the seats at it.

ghost use Rattle.std.specs.Prelude.{◌≡◌, ◌+◌, ◌*◌, ◌<◌, ◌≤◌, [], length};
ghost use Rattle.cj_model.specs.declared.limits.TheConstants.{BACKEND_LIMIT};
ghost use Rattle.cj_board.specs.Views.{AreGiven, IsBook, IsCellOf, IsPass};

use crate::rule::BoardRule;
use crate::view::SeatView;
use atomic_table::{Seat, Table};
use cj_cluster::Event;
use cj_model::ListOf;
use std::alloc::Global;

/// A board: atomic words for the length of the history, and for each backend's position and number of faults.
#[derive(Drop)]
pub struct Board {
    pub(crate) table: Table<Event, SeatView, u64, BoardRule, Global>,
    pub(crate) backends: u8,
    ghost sized: { (table.shared.table_id.words ≡ 2 * backends + 1) × (table.shared.key ≡ backends) },
    ghost few: { backends ≤ BACKEND_LIMIT },
}

/// The book's seat, which has seen the whole history.
#[derive(Drop)]
pub struct BookSeat {
    pub(crate) events: u64,
    pub(crate) seat: Seat<Event, SeatView>,
    ghost counts: { events ≡ length seat.me.0.front },
    ghost is_book: { IsBook seat.me.0.role },
    ghost not_own: { seat.me.0.own_session ≡ 0 },
    ghost given: { AreGiven seat.me.0.given seat.me.0.last_given },
}

/// The seat of one backend's cell, which knows the backend's position and its faults.
#[derive(Drop)]
pub struct CellSeat {
    pub(crate) b: u8,
    pub(crate) seat: Seat<Event, SeatView>,
    ghost is_cell: { IsCellOf b seat.me.0.role },
    ghost inside: { 2 * b + 1 < seat.table_id.words },
    ghost known: { b < BACKEND_LIMIT },
}

/// What a thread carries from lock to lock: what it has seen and noted. A pass has no bytes at run time.
#[derive(Drop)]
pub struct Pass {
    pub(crate) seat: Seat<Event, SeatView>,
    ghost is_pass: { IsPass seat.me.0.role },
    ghost empty: { seat.me.1 ≡ [] },
}

/// The cells' seats, in the order of the backends.
pub type CellSeats = ListOf<CellSeat>;

impl BookSeat {
    /// How many events the history has.
    pub fn len(&self) -> u64
        ensures { result ≡ length self.now.seat.me.0.front }
    {
        self.events
    }
}

impl CellSeat {
    /// The number of the cell's backend.
    pub fn backend(&self) -> u8
        ensures { result ≡ self.now.b }
    {
        self.b
    }
}
