// Single steps of any seat, from which the public ones are made.
ghost use Rattle.std.specs.Prelude.{◌≡◌, ◌≢◌, ℕ, ◌+◌, ◌*◌, ◌<◌, ◌≤◌, [], Contains};
ghost use mathlib.Core.List.{IsPrefix};
ghost use Rattle.cj_model.specs.declared.limits.TheConstants.{EVENT_LIMIT};
ghost use Rattle.cj_cluster.specs.History.Legality.{IsLegal};
ghost use Rattle.cj_board.specs.Points.{max_word};
ghost use Rattle.cj_board.specs.Seats.{board_id};
ghost use Rattle.cj_board.specs.Steps.{after_fault, after_join, after_learning, after_looking, after_split};
ghost use Rattle.cj_board.specs.Views.{IsBook, IsCellOf, IsNotBook, pass_of, pass_without_tokens};

use crate::rule::{
    CompareFronts, JoinPass, JoinToBook, LoadFaults, LoadPosition, SplitPass, SplitWithoutTokens,
    StoreFaults,
};
use crate::seats::Board;
use crate::view::SeatView;
use atomic_table::Seat;
use cj_cluster::Event;

impl Board {
    // Splits off a pass that has seen what the seat has, with its notes and tokens.
    pub(crate) fn split_pass(&self, seat: &mut Seat<Event, SeatView>) -> Seat<Event, SeatView>
        requires { seat.old.table_id ≡ board_id self.now }
        ensures { (seat.new.table_id ≡ seat.old.table_id) × (seat.new.me ≡ (after_split seat.old.me.0, seat.old.me.1)) × (result.table_id ≡ seat.old.table_id) × (result.me ≡ (pass_of seat.old.me.0, [])) }
    {
        self.table.shared.split_seat::<SplitPass>(seat)
    }

    // Splits off a pass that has seen what the seat has, with its notes; the tokens stay.
    pub(crate) fn split_without_tokens(
        &self,
        seat: &mut Seat<Event, SeatView>,
    ) -> Seat<Event, SeatView>
        requires { seat.old.table_id ≡ board_id self.now }
        ensures { (seat.new.table_id ≡ seat.old.table_id) × (seat.new.me ≡ seat.old.me) × (result.table_id ≡ seat.old.table_id) × (result.me ≡ (pass_without_tokens seat.old.me.0, [])) }
    {
        self.table.shared.split_seat::<SplitWithoutTokens>(seat)
    }

    // Joins another seat: this one has then seen what either has, with the notes and tokens of both.
    pub(crate) fn join(&self, seat: &mut Seat<Event, SeatView>, other: Seat<Event, SeatView>)
        requires board { (seat.old.table_id ≡ board_id self.now) × (other.table_id ≡ board_id self.now) }
        requires roles { IsNotBook seat.old.me.0.role × (other.me.1 ≡ []) }
        ensures view { (seat.new.table_id ≡ seat.old.table_id) × (seat.new.me ≡ (after_join seat.old.me.0 other.me.0, seat.old.me.1)) }
        ensures fronts { IsPrefix seat.old.me.0.front seat.new.me.0.front × IsPrefix other.me.0.front seat.new.me.0.front }
        ensures legal { IsLegal seat.new.me.0.front }
    {
        self.table.shared.join_seat::<JoinPass>(seat, other);
        self.table.shared.load::<CompareFronts>(seat, 0);
    }

    // Joins another seat to the book's, which gets its notes and tokens. The book has seen what the other has,
    // and gave each session of a count that the other has noted.
    pub(crate) fn join_to_book(
        &self,
        seat: &mut Seat<Event, SeatView>,
        other: Seat<Event, SeatView>,
    )
        requires board { (seat.old.table_id ≡ board_id self.now) × (other.table_id ≡ board_id self.now) }
        requires roles { IsBook seat.old.me.0.role × (other.me.1 ≡ []) }
        ensures view { (seat.new.table_id ≡ seat.old.table_id) × (seat.new.me ≡ (after_learning seat.old.me.0 other.me.0, seat.old.me.1)) }
        ensures fronts { IsPrefix other.me.0.front seat.new.me.0.front }
        ensures given { (s n : ℕ) → Contains other.me.0.count_notes (s, n) → s ≤ seat.old.me.0.last_given }
    {
        self.table.shared.join_seat::<JoinToBook>(seat, other);
        self.table.shared.load::<CompareFronts>(seat, 0);
    }

    // Loads the position word of b.
    pub(crate) fn load_position(&self, seat: &mut Seat<Event, SeatView>, b: u8) -> u64
        requires board { seat.old.table_id ≡ board_id self.now }
        requires backend { b < self.now.backends }
        ensures view { (seat.new.table_id ≡ seat.old.table_id) × (seat.new.me ≡ (after_looking b result seat.old.me.0, seat.old.me.1)) }
        ensures within { result ≢ max_word → result ≤ EVENT_LIMIT }
    {
        let word = 2 * usize::from(b) + 1;
        self.table.shared.load::<LoadPosition>(seat, word)
    }

    // Counts a fault of the cell's backend. The cell alone writes the word, so a load and a store are one step.
    pub(crate) fn add_fault(&self, seat: &mut Seat<Event, SeatView>, b: u8)
        requires board { seat.old.table_id ≡ board_id self.now }
        requires cell { IsCellOf b seat.old.me.0.role × (2 * b + 1 < seat.old.table_id.words) }
        ensures { (seat.new.table_id ≡ seat.old.table_id) × (seat.new.me ≡ (after_fault b seat.old.me.0, seat.old.me.1)) }
    {
        let word = 2 * usize::from(b) + 2;
        let known = self.table.shared.load::<LoadFaults>(seat, word);
        let next = known.saturating_add(1);
        self.table.shared.store::<StoreFaults>(seat, word, next);
    }
}
