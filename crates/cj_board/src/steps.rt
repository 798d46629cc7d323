// The steps of a board. Each contract says the whole view of each seat after the step.
ghost use Rattle.std.specs.Prelude.{◌≡◌, ℕ, ◌+◌, ◌<◌, ◌≤◌, [], ◌∷◌, ◌++◌, length, Contains, IfSome};
ghost use mathlib.Core.List.{IsPrefix};
ghost use Rattle.cj_model.specs.declared.limits.TheConstants.{EVENT_LIMIT};
ghost use Rattle.cj_cluster.specs.History.Histories.{log};
ghost use Rattle.cj_cluster.specs.History.Legality.{IsLegal};
ghost use Rattle.cj_board.specs.Counting.{event_count_of};
ghost use Rattle.cj_board.specs.Points.{max_word, IsInLog, StandsAtEnd};
ghost use Rattle.cj_board.specs.Seats.{board_id, book_board, cell_board, pass_board, book_view, cell_view, pass_view, history, seen, front, position};
ghost use Rattle.cj_board.specs.Steps.{HasPositionNotes, HasFaultTokens, HasCountNotes, after_append, at_position, after_fault, after_looking, word_of_position, after_count, after_split, after_join, after_learning, after_opening, after_closing};
ghost use Rattle.cj_board.specs.Views.{role_position, pass_of, pass_without_tokens, own_pass_of, next_session};

use crate::rule::{
    AdvancePosition, AppendEvent, CheckCell, CheckCount, CompareFronts, CountUp, JoinOwnPass,
    LoadEvents, SplitOwnPass, StorePosition,
};
use crate::seats::{Board, BookSeat, CellSeat, Pass};
use cj_cluster::Event;

// The book's seat.
impl Board {
    /// Appends an event to the history, which the board's length word then counts.
    ///
    /// The event must be allowed next. The book must have a fault token for each failure that the event notes.
    /// The token is spent. The book must also have notes of each position and count that the event relies on.
    pub fn append(&self, s: &mut BookSeat, e: &Event)
        requires board { book_board s.old ≡ board_id self.now }
        requires legal { IsLegal (history s.old ++ e.now ∷ []) }
        requires positions { HasPositionNotes (history s.old) (book_view s.old).position_notes e.now }
        requires faults { HasFaultTokens (book_view s.old).fault_tokens e.now }
        requires counts { HasCountNotes (book_view s.old).given (history s.old) (book_view s.old).count_notes e.now }
        ensures board { book_board s.new ≡ book_board s.old }
        ensures book { book_view s.new ≡ after_append e.now (book_view s.old) }
    {
        let events = s.events;
        self.table
            .shared
            .compare_exchange_with::<AppendEvent>(&mut s.seat, 0, events, events + 1, e);
        s.events = events + 1;
    }

    /// Tells a pass the whole history, and exchanges the notes of both. The fault tokens stay where they are.
    /// The session of an own pass is one that the book gave.
    pub fn tell(&self, s: &mut BookSeat, p: &mut Pass)
        requires board { (book_board s.old ≡ board_id self.now) × (pass_board p.old ≡ board_id self.now) }
        ensures board { (book_board s.new ≡ book_board s.old) × (pass_board p.new ≡ pass_board p.old) }
        ensures book { book_view s.new ≡ after_learning (book_view s.old) (pass_without_tokens (pass_view p.old)) }
        ensures pass { pass_view p.new ≡ after_join (pass_view p.old) (pass_without_tokens (book_view s.new)) }
        ensures told { front p.new ≡ history s.old }
        ensures longer { IsPrefix (front p.old) (front p.new) }
        ensures given { (pass_view p.old).own_session ≤ (book_view s.old).last_given }
    {
        let before = self.split_without_tokens(&mut p.seat);
        self.join_to_book(&mut s.seat, before);
        let told = self.split_without_tokens(&mut s.seat);
        self.join(&mut p.seat, told);
    }

    /// Gives the book the notes of a pass, and moves its fault tokens to the book.
    /// The session of an own pass is one that the book gave.
    pub fn learn(&self, s: &mut BookSeat, p: &mut Pass)
        requires board { (book_board s.old ≡ board_id self.now) × (pass_board p.old ≡ board_id self.now) }
        ensures board { (book_board s.new ≡ book_board s.old) × (pass_board p.new ≡ pass_board p.old) }
        ensures book { book_view s.new ≡ after_learning (book_view s.old) (pass_of (pass_view p.old)) }
        ensures pass { pass_view p.new ≡ after_split (pass_view p.old) }
        ensures seen { IsPrefix (front p.old) (history s.new) }
        ensures given { (pass_view p.old).own_session ≤ (book_view s.old).last_given }
    {
        let copy = self.split_pass(&mut p.seat);
        self.join_to_book(&mut s.seat, copy);
    }

    /// Makes a session's own pass, with count 0.
    /// The session is the next after those that were given an own pass, and after those in the history.
    pub fn open_own(&self, s: &mut BookSeat, session: u64) -> Pass
        requires board { book_board s.old ≡ board_id self.now }
        requires next { session ≡ next_session (book_view s.old) }
        ensures board { (book_board s.new ≡ book_board s.old) × (pass_board result ≡ book_board s.old) }
        ensures book { book_view s.new ≡ after_opening (book_view s.old) }
        ensures pass { pass_view result ≡ own_pass_of (book_view s.old) }
        ensures session { (pass_view result).own_session ≡ session }
    {
        let seat = self.table.shared.split_seat::<SplitOwnPass>(&mut s.seat);
        Pass { seat }
    }

    /// Takes an own pass back, with its notes and fault tokens. The events of its session are counted no longer.
    pub fn close_own(&self, s: &mut BookSeat, p: Pass)
        requires board { (book_board s.old ≡ board_id self.now) × (pass_board p ≡ board_id self.now) }
        requires own { 0 < (pass_view p).own_session }
        ensures board { book_board s.new ≡ book_board s.old }
        ensures book { book_view s.new ≡ after_closing (book_view s.old) (pass_view p) }
        ensures seen { IsPrefix (front p) (history s.new) }
    {
        let Pass { seat } = p;
        self.table
            .shared
            .join_seat::<JoinOwnPass>(&mut s.seat, seat);
        self.table.shared.load::<CompareFronts>(&mut s.seat, 0);
    }
}

// The cells' seats.
impl Board {
    /// Raises the position of the cell's backend by one. It must be below the end of the log that the cell has seen.
    pub fn advance(&self, c: &mut CellSeat)
        requires board { cell_board c.old ≡ board_id self.now }
        requires below { position c.old < length (log (seen c.old)) }
        ensures board { (cell_board c.new ≡ cell_board c.old) × (c.new.b ≡ c.old.b) }
        ensures cell { cell_view c.new ≡ at_position (position c.old + 1) (cell_view c.old) }
        ensures within { position c.new ≤ EVENT_LIMIT }
    {
        let word = 2 * usize::from(c.b) + 1;
        self.table
            .shared
            .fetch_add::<AdvancePosition>(&mut c.seat, word, 1);
    }

    /// Marks the cell's backend as out. Its position must be below the end of the log that the cell has seen.
    pub fn out(&self, c: &mut CellSeat)
        requires board { cell_board c.old ≡ board_id self.now }
        requires below { position c.old < length (log (seen c.old)) }
        ensures board { (cell_board c.new ≡ cell_board c.old) × (c.new.b ≡ c.old.b) }
        ensures cell { cell_view c.new ≡ at_position max_word (cell_view c.old) }
    {
        let word = 2 * usize::from(c.b) + 1;
        self.table
            .shared
            .store::<StorePosition>(&mut c.seat, word, u64::MAX);
    }

    /// Gives a backend that is out this position, which is within the log that the cell has seen.
    pub fn settle(&self, c: &mut CellSeat, position: u64)
        requires board { cell_board c.old ≡ board_id self.now }
        requires out { role_position (cell_view c.old).role ≡ max_word }
        requires within { position ≤ length (log (seen c.old)) }
        ensures board { (cell_board c.new ≡ cell_board c.old) × (c.new.b ≡ c.old.b) }
        ensures cell { cell_view c.new ≡ at_position position (cell_view c.old) }
    {
        let word = 2 * usize::from(c.b) + 1;
        self.table
            .shared
            .store::<StorePosition>(&mut c.seat, word, position);
    }

    /// Counts a failure of the cell's backend. The cell gets a fault token; the fault word rises if it isn't full.
    pub fn note_fault(&self, c: &mut CellSeat)
        requires board { cell_board c.old ≡ board_id self.now }
        ensures board { (cell_board c.new ≡ cell_board c.old) × (c.new.b ≡ c.old.b) }
        ensures cell { cell_view c.new ≡ after_fault c.old.b (cell_view c.old) }
    {
        let b = c.b;
        self.add_fault(&mut c.seat, b);
    }

    /// Shows what the rule says of the cell's backend; no view changes.
    ///
    /// The backend has at least the faults that its cell has noted, and a position in the log that the cell has seen.
    /// Wherever the history seen was idle with the backend enabled, the position is the end of the log there,
    /// or the cell saw a longer one.
    pub fn check_cell(&self, c: &mut CellSeat)
        requires board { cell_board c.old ≡ board_id self.now }
        ensures board { (cell_board c.new ≡ cell_board c.old) × (c.new.b ≡ c.old.b) }
        ensures cell { cell_view c.new ≡ cell_view c.old }
        ensures faults { (n : ℕ) → Contains (cell_view c.old).fault_notes (c.old.b, n) → n ≤ (cell_view c.old).faults }
        ensures within { IsInLog (position c.old) (seen c.old) }
        ensures stands { StandsAtEnd c.old.b (position c.old) (seen c.old) (seen c.old) }
    {
        self.table.shared.load::<CheckCell>(&mut c.seat, 0);
    }

    /// Tells a cell the history that a pass has seen, and the pass's notes. The pass is unchanged.
    ///
    /// That history is legal. The backend has at least the faults that the pass noted, and its position is as
    /// `check_cell` says.
    pub fn brief(&self, c: &mut CellSeat, p: &mut Pass)
        requires board { (cell_board c.old ≡ board_id self.now) × (pass_board p.old ≡ board_id self.now) }
        ensures board { (cell_board c.new ≡ cell_board c.old) × (c.new.b ≡ c.old.b) × (pass_board p.new ≡ pass_board p.old) }
        ensures cell { cell_view c.new ≡ after_join (cell_view c.old) (pass_without_tokens (pass_view p.old)) }
        ensures pass { pass_view p.new ≡ pass_view p.old }
        ensures seen { IsPrefix (front p.old) (seen c.new) × IsPrefix (seen c.old) (seen c.new) }
        ensures legal { IsLegal (seen c.new) }
        ensures faults { (n : ℕ) → Contains (pass_view p.old).fault_notes (c.old.b, n) → n ≤ (cell_view c.new).faults }
        ensures stands { StandsAtEnd c.old.b (position c.new) (seen c.new) (seen c.new) }
    {
        let copy = self.split_without_tokens(&mut p.seat);
        self.join(&mut c.seat, copy);
        self.check_cell(c);
    }

    /// Tells a pass the history that a cell has seen, with the cell's notes, and moves its fault tokens to the pass.
    ///
    /// The pass also gets a note of the backend's faults and, unless it is out, of its position. That position is as
    /// `check_cell` says.
    pub fn report(&self, c: &mut CellSeat, p: &mut Pass)
        requires board { (cell_board c.old ≡ board_id self.now) × (pass_board p.old ≡ board_id self.now) }
        ensures board { (cell_board c.new ≡ cell_board c.old) × (c.new.b ≡ c.old.b) × (pass_board p.new ≡ pass_board p.old) }
        ensures cell { cell_view c.new ≡ after_split (cell_view c.old) }
        ensures pass { pass_view p.new ≡ after_join (pass_view p.old) (pass_of (cell_view c.old)) }
        ensures position { position c.old < max_word → Contains (pass_view p.new).position_notes (c.old.b, position c.old) }
        ensures faults { Contains (pass_view p.new).fault_notes (c.old.b, (cell_view c.old).faults) }
        ensures seen { IsPrefix (seen c.old) (front p.new) }
        ensures longer { IsPrefix (front p.old) (front p.new) }
        ensures legal { IsLegal (front p.new) }
        ensures stands { StandsAtEnd c.old.b (position c.old) (seen c.old) (seen c.old) }
    {
        let copy = self.split_pass(&mut c.seat);
        self.join(&mut p.seat, copy);
        self.check_cell(c);
    }
}

// Passes.
impl Board {
    /// Makes another pass that has seen the same, with the same notes. The fault tokens stay with the first.
    pub fn split(&self, p: &mut Pass) -> Pass
        requires board { pass_board p.old ≡ board_id self.now }
        ensures board { (pass_board p.new ≡ pass_board p.old) × (pass_board result ≡ pass_board p.old) }
        ensures pass { pass_view p.new ≡ pass_view p.old }
        ensures other { pass_view result ≡ pass_without_tokens (pass_view p.old) }
    {
        let seat = self.split_without_tokens(&mut p.seat);
        Pass { seat }
    }

    /// Joins another pass: this one has then seen what either has, with the notes and fault tokens of both.
    pub fn rejoin(&self, p: &mut Pass, q: Pass)
        requires board { (pass_board p.old ≡ board_id self.now) × (pass_board q ≡ board_id self.now) }
        ensures board { pass_board p.new ≡ pass_board p.old }
        ensures pass { pass_view p.new ≡ after_join (pass_view p.old) (pass_view q) }
        ensures longer { IsPrefix (front p.old) (front p.new) × IsPrefix (front q) (front p.new) }
    {
        let Pass { seat } = q;
        self.join(&mut p.seat, seat);
    }

    /// Looks up the position of backend `b` at a moment of the call; `None` if the backend was out then.
    pub fn look(&self, p: &mut Pass, b: u8) -> Option<u64>
        requires board { pass_board p.old ≡ board_id self.now }
        requires backend { b < self.now.backends }
        ensures board { pass_board p.new ≡ pass_board p.old }
        ensures pass { pass_view p.new ≡ after_looking b (word_of_position result) (pass_view p.old) }
        ensures within { IfSome result (λ position. position ≤ EVENT_LIMIT) }
    {
        let found = self.load_position(&mut p.seat, b);
        if found == u64::MAX { None } else { Some(found) }
    }

    /// Looks up how many events the history has at a moment of the call, none of which need be in front of the pass.
    /// What the pass has seen is no longer. No view changes.
    pub fn events(&self, p: &mut Pass) -> u64
        requires board { pass_board p.old ≡ board_id self.now }
        ensures board { pass_board p.new ≡ pass_board p.old }
        ensures pass { pass_view p.new ≡ pass_view p.old }
        ensures within { length (front p.old) ≤ result }
    {
        self.table.shared.load::<LoadEvents>(&mut p.seat, 0)
    }

    /// Raises the count of an own pass by one.
    pub fn count(&self, p: &mut Pass)
        requires board { pass_board p.old ≡ board_id self.now }
        requires own { 0 < (pass_view p.old).own_session }
        ensures board { pass_board p.new ≡ pass_board p.old }
        ensures pass { pass_view p.new ≡ after_count (pass_view p.old) }
    {
        self.table.shared.load::<CountUp>(&mut p.seat, 0);
    }

    /// Shows that the session of an own pass has no more events, in what the pass has seen, than it has counted.
    /// No view changes.
    pub fn check_count(&self, p: &mut Pass)
        requires board { pass_board p.old ≡ board_id self.now }
        ensures board { pass_board p.new ≡ pass_board p.old }
        ensures pass { pass_view p.new ≡ pass_view p.old }
        ensures counted { 0 < (pass_view p.old).own_session → event_count_of (pass_view p.old).own_session (front p.old) ≤ (pass_view p.old).count }
    {
        self.table.shared.load::<CheckCount>(&mut p.seat, 0);
    }
}
