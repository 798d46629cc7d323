//! A replica at its seat at a board.

ghost use Rattle.std.specs.Prelude.{◌≡◌, ℕ, ◌+◌, ◌-◌, ◌<◌, ◌≤◌, [], true, length, slice_get, Some, None, Contains};
ghost use mathlib.Core.List.{IsPrefix};
ghost use Rattle.cj_model.specs.declared.request.Request.TheVariants as request;
ghost use Rattle.cj_model.specs.Cluster.Placements.{part};
ghost use Rattle.cj_model.specs.Database.Storable.{IsStorable};
ghost use Rattle.cj_model.specs.declared.limits.TheConstants.{BACKEND_LIMIT};
ghost use Rattle.cj_model.specs.Sql.WrittenRequests.{IsWritten};
ghost use Rattle.cj_cluster.specs.History.Histories.{database_after, log};
ghost use Rattle.cj_cluster.specs.History.Legality.{IsLegal};
ghost use Rattle.cj_board.specs.declared.view.Role.TheVariants as role;
ghost use Rattle.cj_board.specs.Points.{max_word};
ghost use Rattle.cj_board.specs.Seats.{board_id, cell_board, cell_view, front, pass_board, pass_view, position, seen};
ghost use Rattle.cj_board.specs.Steps.{after_join, after_split};
ghost use Rattle.cj_board.specs.Views.{new_view, pass_of, pass_without_tokens, role_position};
ghost use Rattle.cj_backend.specs.Backends as backends;
ghost use Rattle.cj_replica.specs.Seated.{view_after_call, view_after_entry, view_after_load, view_after_read};

use crate::replica::{Caught, CellError, CellReadError, Replica};
use cj_backend::Backend;
use cj_board::{Board, CellSeat, Pass};
use cj_model::{Asked, Db, Entry, Select, Text};
use cj_outside::{MemStore, Store};
use cj_place::Placement;
use std::alloc::Global;
use std::marker::{Model, PhantomData};

/// A replica at its seat at a board. The board knows the replica's position, and each fault of its
/// backend since the seat was taken. `D` is the kind of store that loaded dumps come from.
/// Contracts speak of contents only if the backend and `D` both tell theirs.
#[derive(Drop)]
pub struct Cell<B: Backend, D: Store = MemStore> {
    replica: Replica<B>,
    seat: CellSeat,
    /// How many faults the backend had counted when the seat was taken.
    faults_before: u64,
    dumps: PhantomData<D>,
}

impl<B: Backend, D: Store> Model for Cell<B, D> {
    ghost use Rattle.std.specs.Prelude.{◌&&◌};
    ghost use Rattle.cj_board.specs.Seats.{cell_board, cell_view};
    ghost use Rattle.cj_replica.specs.Seated.{IsSeated, SeatedCell};

    ghost Value = { SeatedCell };

    ghost use Rattle.std.specs.Coded.{codes};
    ghost use Rattle.cj_model.specs.Proving.ConditionCode.{coded_condition};

    ghost coded = { Prim.hlevel (codes, coded_condition) };

    ghost view = { λ c. record { state = c.replica; board = cell_board c.seat; view = cell_view c.seat; faults_before = c.faults_before } };

    ghost invariant = { λ c. IsSeated (D.tells && B.tells) (record { state = c.replica; board = cell_board c.seat; view = cell_view c.seat; faults_before = c.faults_before }) };
}

// The seat's steps, apart from the replica.

/// Notes on the board that the backend took the next entry, or that it is out.
fn note_entry(board: &Board, seat: &mut CellSeat, caught: &Result<Caught, CellError>)
    requires board { cell_board seat.old ≡ board_id board.now }
    requires below { position seat.old < length (log (seen seat.old)) }
    ensures same { (cell_board seat.new ≡ cell_board seat.old) × (seat.new.b ≡ seat.old.b) }
    ensures view { cell_view seat.new ≡ view_after_entry seat.old.b (position seat.old + 1) (cell_view seat.old) caught.now }
{
    match caught {
        Ok(_) => board.advance(seat),
        Err(CellError::Starved) => board.out(seat),
        Err(CellError::Failed) => {
            board.out(seat);
            board.note_fault(seat);
        }
    }
}

/// Notes on the board what a load did: the backend is at the position, or still out and maybe
/// failed once more.
fn note_load(board: &Board, seat: &mut CellSeat, position: u64, loaded: &Result<(), CellError>)
    requires board { cell_board seat.old ≡ board_id board.now }
    requires out { role_position (cell_view seat.old).role ≡ max_word }
    requires within { position ≤ length (log (seen seat.old)) }
    ensures same { (cell_board seat.new ≡ cell_board seat.old) × (seat.new.b ≡ seat.old.b) }
    ensures view { cell_view seat.new ≡ view_after_load seat.old.b position (cell_view seat.old) loaded.now }
{
    match loaded {
        Ok(()) => board.settle(seat, position),
        Err(CellError::Starved) => {}
        Err(CellError::Failed) => board.note_fault(seat),
    }
}

/// Notes on the board that the backend failed once more, if it did.
fn note_contents(board: &Board, seat: &mut CellSeat, contents: &Result<Db, CellError>)
    requires board { cell_board seat.old ≡ board_id board.now }
    ensures same { (cell_board seat.new ≡ cell_board seat.old) × (seat.new.b ≡ seat.old.b) }
    ensures view { cell_view seat.new ≡ view_after_call seat.old.b (cell_view seat.old) contents.now }
{
    match contents {
        Err(CellError::Failed) => board.note_fault(seat),
        Ok(_) | Err(CellError::Starved) => {}
    }
}

/// Notes on the board that the backend failed in a query or at a snapshot, if it did.
fn note_read<A>(board: &Board, seat: &mut CellSeat, answer: &Result<(A, u64), CellReadError>)
    requires board { cell_board seat.old ≡ board_id board.now }
    ensures same { (cell_board seat.new ≡ cell_board seat.old) × (seat.new.b ≡ seat.old.b) }
    ensures view { cell_view seat.new ≡ view_after_read seat.old.b (cell_view seat.old) answer.now }
{
    match answer {
        Err(CellReadError::Failed) => board.note_fault(seat),
        Ok(_) | Err(CellReadError::Out | CellReadError::Behind(_) | CellReadError::NoMemory) => {}
    }
}

impl<B: Backend, D: Store> Cell<B, D> {
    ghost use Rattle.std.specs.Prelude.{◌&&◌};
    ghost use Rattle.cj_place.specs.Layouts.{placement_of};
    ghost use Rattle.cj_replica.specs.Cells.{CatchesUp, GivesContents, IsEntryAfter, KeepsBegun, LoadsDatabase, ReadsAnswer, TakesSnapshot};
    ghost use Rattle.cj_replica.specs.Logged.{IsLoggedAnswer, IsLoggedOutcome, IsLoggedPart, IsLoggedSnapshot};
    ghost use Rattle.cj_replica.specs.Seated.{HasBackend, IsSameSeat, IsSeated, StandsWhereEnabled};

    /// Makes the cell of backend `b` of the placement, at position 0. The backend has taken no
    /// entry and begun no transaction, and the seat is new.
    pub fn new(alloc: Global, b: u8, placement: Placement, backend: B, seat: CellSeat) -> Cell<B, D>
        requires begun { B.begun backend ≡ [] }
        requires empty { (D.tells && B.tells) ≡ true → B.told backend ≡ Some [] }
        requires seat { cell_view seat ≡ new_view (role.Cell b 0) }
        ensures { result ≡ record { state = record { b = b; placement = placement_of placement; position = Some 0; begun = []; login = B.login backend; told = B.told backend; faults = B.faults backend; asks = B.asks backend; arming = B.arming backend }; board = cell_board seat; view = cell_view seat; faults_before = B.faults backend } }
    {
        let faults_before = backend.counts().faults;
        let replica = Replica::new(alloc, b, placement, backend);
        Cell {
            replica,
            seat,
            faults_before,
            dumps: PhantomData,
        }
    }

    /// Carries out entry `n` at the backend, under this login. `n` is the cell's position plus 1,
    /// and the seat has seen the entry. An entry in which the backend has no part is skipped, which
    /// takes no memory. After an error the cell is out. `Failed` counts a fault, `Starved` counts
    /// none.
    pub fn catch_up(
        &mut self,
        board: &Board,
        n: u64,
        e: &Entry,
        login: &Text,
    ) -> Result<Caught, CellError>
        requires board { self.old.board ≡ board_id board.now }
        requires next { IsEntryAfter self.old.state.position n }
        requires entry { slice_get (log self.old.view.front) (n - 1) ≡ Some e.now }
        ensures state { CatchesUp self.old.state n e.now login.now result self.new.state }
        ensures logged { (D.tells && B.tells) ≡ true → IsLoggedOutcome (log self.old.view.front) n result }
        ensures seat { self.new.view ≡ view_after_entry self.old.state.b n self.old.view result }
        ensures same { IsSameSeat self.old self.new }
    {
        let caught = self.replica.catch_up(n, e, login);
        note_entry(board, &mut self.seat, &caught);
        caught
    }

    /// Asks the backend for its whole contents, drafts included. The contents and the position
    /// stay. `Failed` counts a fault, `Starved` counts none.
    pub fn contents(&mut self, board: &Board) -> Result<Db, CellError>
        requires board { self.old.board ≡ board_id board.now }
        ensures state { GivesContents self.old.state result self.new.state }
        ensures logged { (D.tells && B.tells) ≡ true → IsLoggedPart self.old.state.placement self.old.state.b (log self.old.view.front) self.old.state.position result }
        ensures seat { self.new.view ≡ view_after_call self.old.state.b self.old.view result }
        ensures same { IsSameSeat self.old self.new }
    {
        let contents = self.replica.contents();
        note_contents(board, &mut self.seat, &contents);
        contents
    }

    /// Replaces the contents of the backend, which is out, by its part of the database after
    /// `position` entries. The seat has seen that many. Then the cell is at that position, and the
    /// transactions with a draft in `db` are begun there. After an error the cell is still out.
    /// `Failed` counts a fault, `Starved` counts none.
    pub fn load(&mut self, board: &Board, db: Db, position: u64) -> Result<(), CellError>
        requires board { self.old.board ≡ board_id board.now }
        requires out { self.old.state.position ≡ None }
        requires storable { IsStorable db }
        requires within { position ≤ length (log self.old.view.front) }
        requires right { (D.tells && B.tells) ≡ true → db ≡ part self.old.state.placement self.old.state.b (database_after (log self.old.view.front) position) }
        ensures state { LoadsDatabase B.tells self.old.state db position result self.new.state }
        ensures seat { self.new.view ≡ view_after_load self.old.state.b position self.old.view result }
        ensures same { IsSameSeat self.old self.new }
    {
        let loaded = self.replica.load(db, position);
        note_load(board, &mut self.seat, position, &loaded);
        loaded
    }

    /// Answers a query in transaction `tx`, 0 for none, under this login, and says at which
    /// position. `Out` and `Behind` come before the backend is asked: the cell has missed an entry,
    /// or is below `least`. `Failed` counts a fault. The contents and the position stay in any
    /// case.
    pub fn read(
        &mut self,
        board: &Board,
        login: &Text,
        tx: u64,
        select: &Select,
        least: u64,
    ) -> Result<(Asked, u64), CellReadError>
        requires board { self.old.board ≡ board_id board.now }
        requires written { IsWritten (request.Select select.now) }
        ensures state { ReadsAnswer self.old.state login.now tx select.now least result self.new.state }
        ensures logged { (D.tells && B.tells) ≡ true → IsLoggedAnswer self.old.state.placement self.old.state.b (log self.old.view.front) tx select.now result }
        ensures seat { self.new.view ≡ view_after_read self.old.state.b self.old.view result }
        ensures same { IsSameSeat self.old self.new }
    {
        let answer = self.replica.read(login, tx, select, least);
        note_read(board, &mut self.seat, &answer);
        answer
    }

    /// Takes a snapshot of what the backend holds, under this login, and says at which position. It
    /// is `None` from a backend that gives none. `Out` and `Behind` come before the backend is
    /// asked: the cell has missed an entry, or is below `least`. `Failed` counts a fault. The
    /// contents and the position stay in any case.
    pub fn snapshot(
        &mut self,
        board: &Board,
        login: &Text,
        least: u64,
    ) -> Result<(Option<B::Snap>, u64), CellReadError>
        requires board { self.old.board ≡ board_id board.now }
        ensures state { TakesSnapshot B.Snap.shows self.old.state login.now least result self.new.state }
        ensures logged { (D.tells && B.tells) ≡ true → IsLoggedSnapshot B.Snap.shows self.old.state.placement self.old.state.b (log self.old.view.front) result }
        ensures seat { self.new.view ≡ view_after_read self.old.state.b self.old.view result }
        ensures same { IsSameSeat self.old self.new }
    {
        let snap = self.replica.snapshot(login, least);
        note_read(board, &mut self.seat, &snap);
        snap
    }

    /// Lets the seat see what the pass knows: its history, and how many faults it noted. The pass
    /// stays as it was. If a history seen was idle with the backend enabled, the cell is at the end
    /// of the log of then, or has seen a longer log.
    pub fn brief(&mut self, board: &Board, pass: &mut Pass)
        requires board { (self.old.board ≡ board_id board.now) × (pass_board pass.old ≡ board_id board.now) }
        ensures board { pass_board pass.new ≡ pass_board pass.old }
        ensures seat { self.new.view ≡ after_join self.old.view (pass_without_tokens (pass_view pass.old)) }
        ensures pass { pass_view pass.new ≡ pass_view pass.old }
        ensures seen { IsPrefix (front pass.old) self.new.view.front × IsPrefix self.old.view.front self.new.view.front }
        ensures faults { (n : ℕ) → Contains (pass_view pass.old).fault_notes (self.old.state.b, n) → n ≤ self.new.view.faults }
        ensures stands { StandsWhereEnabled self.new }
        ensures state { self.new.state ≡ self.old.state }
        ensures same { IsSameSeat self.old self.new }
    {
        board.brief(&mut self.seat, pass);
    }

    /// Lets the pass see what the seat knows: its history, its notes, the number of faults and,
    /// unless the cell is out, its position. The seat's fault tokens go to the pass.
    pub fn report(&mut self, board: &Board, pass: &mut Pass)
        requires board { (self.old.board ≡ board_id board.now) × (pass_board pass.old ≡ board_id board.now) }
        ensures board { pass_board pass.new ≡ pass_board pass.old }
        ensures seat { self.new.view ≡ after_split self.old.view }
        ensures pass { pass_view pass.new ≡ after_join (pass_view pass.old) (pass_of self.old.view) }
        ensures position { (p : ℕ) → self.old.state.position ≡ Some p → Contains (pass_view pass.new).position_notes (self.old.state.b, p) }
        ensures faults { Contains (pass_view pass.new).fault_notes (self.old.state.b, self.old.view.faults) }
        ensures seen { IsPrefix self.old.view.front (front pass.new) }
        ensures longer { IsPrefix (front pass.old) (front pass.new) }
        ensures legal { IsLegal (front pass.new) }
        ensures state { self.new.state ≡ self.old.state }
        ensures same { IsSameSeat self.old self.new }
    {
        board.report(&mut self.seat, pass);
    }

    /// Returns the backend's number, counted from 0. It is below the number of backends of its
    /// board, and below `BACKEND_LIMIT`.
    pub fn number(&self) -> u8
        ensures number { result ≡ self.now.state.b }
        ensures known { HasBackend self.now.board result × (result < BACKEND_LIMIT) }
    {
        self.seat.backend()
    }

    /// Returns how many entries the cell has taken, or `None` if it is out.
    pub fn position(&self) -> Option<u64>
        ensures { result ≡ self.now.state.position }
    {
        self.replica.position()
    }

    /// Returns the backend, as it is.
    pub fn backend(&self) -> &B
        ensures told { B.told result.now ≡ self.now.state.told }
        ensures faults { B.faults result.now ≡ self.now.state.faults }
        ensures asks { B.asks result.now ≡ self.now.state.asks }
        ensures arming { B.arming result.now ≡ self.now.state.arming }
        ensures login { B.login result.now ≡ self.now.state.login }
        ensures begun { KeepsBegun self.now.state.position self.now.state.begun (B.begun result.now) }
    {
        self.replica.backend()
    }

    /// Makes the backend's next call fail. A backend that can't be armed ignores this.
    pub fn arm(&mut self)
        ensures state { self.new.state ≡ record self.old.state { arming = backends.arming_after B.can_be_armed self.old.state.arming } }
        ensures seat { self.new.view ≡ self.old.view }
        ensures same { IsSameSeat self.old self.new }
    {
        self.replica.arm();
    }

    /// Takes the cell apart and returns the backend, as it is.
    pub fn into_backend(self) -> B
        ensures told { B.told result ≡ self.state.told }
        ensures faults { B.faults result ≡ self.state.faults }
        ensures asks { B.asks result ≡ self.state.asks }
        ensures arming { B.arming result ≡ self.state.arming }
        ensures login { B.login result ≡ self.state.login }
        ensures begun { KeepsBegun self.state.position self.state.begun (B.begun result) }
    {
        let Cell { replica, .. } = self;
        replica.into_backend()
    }

    /// Shows what holds of every cell: the seat has the replica's position, and the replica holds
    /// its part of the log that the seat has seen.
    pub fn legal(&self)
        ensures { IsSeated (D.tells && B.tells) self.now }
    {
        let _ = &self.seat;
    }
}
