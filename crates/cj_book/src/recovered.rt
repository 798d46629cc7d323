//! Opening: which entries, transactions and markers a book keeps of the history that its log opens with.

ghost use Rattle.std.specs.Prelude.{◌≡◌, ◌+◌, ◌<◌, ◌^◌, ℕ, List, [], ◌∷◌, ◌++◌, length, All, IfOk, OnOk, IsErrOf};
ghost use Rattle.std.specs.List.{AllByRecursion};
ghost use Rattle.cj_model.specs.Cluster.Placements as placements;
ghost use Rattle.cj_cluster.specs.declared.event.Event.{Event};
ghost use Rattle.cj_cluster.specs.declared.event.Event.TheVariants.{Sched};
ghost use Rattle.cj_cluster.specs.History.Legality.{IsLegal};
ghost use Rattle.cj_log.specs.Items.{IsItem};
ghost use Rattle.cj_recovery.specs.Openings.{HasBadEntry, IsOpening, OpensTo};
ghost use Rattle.cj_place.specs.Layouts.{placement_of};
ghost use Rattle.cj_board.specs.Seats.{board_id, book_board, book_view, history};
ghost use Rattle.cj_board.specs.Steps.{after_append};
ghost use Rattle.cj_book.specs.Found.{IsRecovered};
ghost use Rattle.cj_book.specs.Seated.{CanCome};
ghost use Rattle.cj_transactions.specs.Lists.{tx_number};

use cj_board::{Board, BookSeat};
use cj_cluster::{BoxedEntry, Event};
use cj_log::{LogItem, LogMarker};
use cj_model::NoMemory;
use cj_place::Placement;
use cj_recovery::{OpeningError, opening};
use cj_transactions::OpenTransactions;
use std::alloc::Global;

/// What the book keeps of the events that were read so far.
#[derive(Drop)]
pub struct Recovered {
    pub entries: Vec<BoxedEntry>,
    pub transactions: OpenTransactions,
    pub markers: Vec<LogMarker>,
    /// The greatest session number of an entry.
    pub greatest: u64,
}

impl Recovered {
    fn new(alloc: Global) -> Self
        ensures { (p : placements.Placement) → IsRecovered p [] result }
    {
        Recovered {
            entries: Vec::new(alloc),
            transactions: OpenTransactions::new(alloc),
            markers: Vec::new(alloc),
            greatest: 0,
        }
    }

    /// Adds the next entry of the log. An error leaves the entry out, and may leave its transaction in.
    fn add_entry(&mut self, placement: &Placement, boxed: BoxedEntry) -> Result<(), NoMemory>
        requires { All (λ t. tx_number t < length self.old.entries.items + 1) self.old.transactions.list }
        ensures { (h : List Event) → IsLegal (h ++ Sched boxed ∷ []) → IsRecovered (placement_of placement.now) h self.old → OnOk result (IsRecovered (placement_of placement.now) (h ++ Sched boxed ∷ []) self.new) }
    {
        let number = self.entries.len() as u64 + 1;
        let e = boxed.entry();
        let hosts = self.transactions.concerned(placement, e);
        self.transactions.reserve()?;
        self.transactions.follow(number, e, hosts);
        self.greatest = self.greatest.max(e.session);
        self.entries.push(boxed)?;
        Ok(())
    }

    /// Appends the next event to the board, and keeps what the book needs of it.
    /// An error leaves the event on the board.
    fn follow(
        &mut self,
        placement: &Placement,
        board: &Board,
        seat: &mut BookSeat,
        event: Event,
    ) -> Result<(), NoMemory>
        requires so_far { IsRecovered (placement_of placement.now) (history seat.old) self.old }
        requires board { book_board seat.old ≡ board_id board.now }
        requires legal { IsLegal (history seat.old ++ event ∷ []) }
        requires comes { CanCome (book_view seat.old) event }
        ensures board { book_board seat.new ≡ book_board seat.old }
        ensures view { book_view seat.new ≡ after_append event (book_view seat.old) }
        ensures kept { OnOk result (IsRecovered (placement_of placement.now) (history seat.new) self.new) }
    {
        board.append(seat, &event);
        match event {
            Event::Sched(boxed) => self.add_entry(placement, boxed),
            Event::Marker { name, b } => {
                let after = self.entries.len() as u64;
                self.markers.push(LogMarker { after, name, b })?;
                Ok(())
            }
            _ => Ok(()),
        }
    }
}

/// Appends the events of an opening history to the board, and returns what the book keeps of them.
/// An error leaves the board with some of the events.
fn gather(
    alloc: Global,
    placement: &Placement,
    events: Vec<Event>,
    board: &Board,
    seat: &mut BookSeat,
) -> Result<Recovered, NoMemory>
    requires legal { IsLegal events.items }
    requires opening { IsOpening events.items }
    requires board { book_board seat.old ≡ board_id board.now }
    requires none { (history seat.old ≡ []) × ((book_view seat.old).given ≡ []) }
    ensures board { book_board seat.new ≡ book_board seat.old }
    ensures view { OnOk result (book_view seat.new ≡ record (book_view seat.old) { front = history seat.new }) }
    ensures events { OnOk result (history seat.new ≡ events.items) }
    ensures kept { IfOk result (IsRecovered (placement_of placement.now) (history seat.new)) }
{
    let mut found = Recovered::new(alloc);
    for event in events {
        found.follow(placement, board, seat, event)?;
    }
    Ok(found)
}

/// Appends the history that the items of a log open with to the board, and returns what the book keeps of it.
/// `BadEntry`: the items open no history. `NoMemory` leaves the board with some of the events.
pub fn recover(
    alloc: Global,
    placement: &Placement,
    items: &[LogItem],
    board: &Board,
    seat: &mut BookSeat,
) -> Result<Recovered, OpeningError>
    requires each { AllByRecursion IsItem items.now }
    requires few { length items.now < 2 ^ 59 }
    requires board { book_board seat.old ≡ board_id board.now }
    requires none { (history seat.old ≡ []) × ((book_view seat.old).given ≡ []) }
    ensures board { book_board seat.new ≡ book_board seat.old }
    ensures view { OnOk result (book_view seat.new ≡ record (book_view seat.old) { front = history seat.new }) }
    ensures opens { OnOk result (OpensTo items.now (history seat.new)) }
    ensures kept { IfOk result (IsRecovered (placement_of placement.now) (history seat.new)) }
    ensures bad { (n : ℕ) → IsErrOf result (OpeningError.BadEntry n) → HasBadEntry items.now n }
{
    let events = opening(alloc, items)?;
    let found = gather(alloc, placement, events, board, seat)?;
    Ok(found)
}
