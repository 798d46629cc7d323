//! A cell behind its lock.

ghost use Rattle.std.specs.Prelude.{◌≡◌, ◌≢◌, ◌-◌, ◌<◌, ◌≤◌, ℕ, List, true, length, Some, None, Err, slice_get, Contains, IfSome};
ghost use mathlib.Core.List.{IsPrefix};
ghost use Rattle.cj_model.specs.declared.request.Request.TheVariants as request;
ghost use Rattle.cj_model.specs.Sql.WrittenRequests.{IsWritten};
ghost use Rattle.cj_model.specs.Cluster.Placements.{part};
ghost use Rattle.cj_model.specs.Database.Storable.{IsStorable};
ghost use Rattle.cj_cluster.specs.declared.event.Event.{Event};
ghost use Rattle.cj_cluster.specs.History.Histories.{database_after, is_enabled, is_free, log};
ghost use Rattle.cj_cluster.specs.History.Legality.{IsLegal};
ghost use Rattle.cj_board.specs.Seats.{front, pass_view};
ghost use Rattle.cj_place.specs.Layouts.{placement_of};
ghost use Rattle.cj_replica.specs.Cells.{GivesContents};
ghost use Rattle.cj_locked_cell.specs.Asking.{GivesPart, NotesFault};
ghost use Rattle.cj_locked_cell.specs.Loading.{IsLoaded, IsStandOf, LoadsOut, Stands};
ghost use Rattle.cj_pass.specs.Passes.{HasNotedMore};
ghost use Rattle.cj_locked_cell.specs.Answering.{AnswersQuery, BeginsRead, IsReading};
ghost use Rattle.cj_locked_cell.specs.Taking.{report_of, CarriesOutEntry, ReportsEntry};

use crate::reading::Reading;
use crate::stand::{SeenOut, Stand};
use cj_backend::Backend;
use cj_cluster::Did;
use cj_model::{Db, Entry, Select, Text};
use cj_pass::{NamedBoard, Naming, Pass};
use cj_replica::{Caught, Cell, CellError, CellReadError};
use std::marker::PhantomData;

/// A cell of the board and the layout that `J` names.
#[derive(Drop)]
pub struct LockedCell<J: Naming, B: Backend> {
    cell: Cell<B>,
    of: PhantomData<J>,
    ghost on: { cell.board ≡ J.board },
    ghost placed: { cell.state.placement ≡ placement_of J.layout },
}

/// What a cell's answer is as a report.
fn report_of(caught: &Result<Caught, CellError>) -> Did
    ensures { result ≡ report_of caught.now }
{
    match caught {
        Ok(Caught::Skipped) => Did::Skipped,
        Ok(Caught::Did(outcome)) => Did::Done(*outcome),
        Err(CellError::Failed) => Did::Failed,
        Err(CellError::Starved) => Did::Starved,
    }
}

impl<J: Naming, B: Backend> LockedCell<J, B> {
    /// Takes the cell, which is of the board and the layout that are named.
    pub fn new(cell: Cell<B>) -> LockedCell<J, B>
        requires board { cell.board ≡ J.board }
        requires placement { cell.state.placement ≡ placement_of J.layout }
        ensures { result.cell ≡ cell }
    {
        LockedCell {
            cell,
            of: PhantomData,
        }
    }

    /// Has backend `b` carry out or skip entry `n`, under this login, if this is its cell, and says what it did. The
    /// pass has seen the entry, and has noted the rest then.
    ///
    /// A cell that stands elsewhere than before the entry reports that it ran out of memory. So does the cell of
    /// another backend, in a branch that never runs.
    pub fn take(
        &mut self,
        board: &NamedBoard<J>,
        pass: &mut Pass<J>,
        b: u8,
        n: u64,
        e: &Entry,
        login: &Text,
    ) -> Did
        requires number { 0 < n }
        requires entry { slice_get (log (front pass.old.seat)) (n - 1) ≡ Some e.now }
        ensures more { HasNotedMore (pass_view pass.old.seat) (pass_view pass.new.seat) }
        ensures legal { IsLegal (front pass.new.seat) }
        ensures reports { ReportsEntry B.tells (placement_of J.layout) n e.now (pass_view pass.new.seat) b result }
        ensures fault { result ≡ Did.Failed → NotesFault b (pass_view pass.old.seat) (pass_view pass.new.seat) }
        ensures carried { self.old.cell.state.b ≡ b → self.old.cell.state.position ≡ Some (n - 1) → CarriesOutEntry self.old.cell.state n e.now login.now result self.new.cell.state }
        ensures elsewhere { self.old.cell.state.position ≢ Some (n - 1) → (result ≡ Did.Starved) × (self.new.cell.state ≡ self.old.cell.state) }
        ensures other { self.old.cell.state.b ≢ b → (result ≡ Did.Starved) × (self.new.cell.state ≡ self.old.cell.state) }
    {
        if self.cell.number() != b {
            self.cell.report(&board.board, &mut pass.seat);
            return Did::Starved;
        }
        self.cell.brief(&board.board, &mut pass.seat);
        match self.cell.position() {
            Some(position) if position == n - 1 => self.take_next(board, pass, n, e, login),
            _ => {
                self.cell.report(&board.board, &mut pass.seat);
                Did::Starved
            }
        }
    }

    /// Has the backend carry out or skip entry `n`, of which the cell was told, and before which it stands.
    fn take_next(
        &mut self,
        board: &NamedBoard<J>,
        pass: &mut Pass<J>,
        n: u64,
        e: &Entry,
        login: &Text,
    ) -> Did
        requires number { 0 < n }
        requires stands { self.old.cell.state.position ≡ Some (n - 1) }
        requires entry { slice_get (log self.old.cell.view.front) (n - 1) ≡ Some e.now }
        requires heard { (k : ℕ) → Contains (pass_view pass.old.seat).fault_notes (self.old.cell.state.b, k) → k ≤ self.old.cell.view.faults }
        ensures more { HasNotedMore (pass_view pass.old.seat) (pass_view pass.new.seat) }
        ensures legal { IsLegal (front pass.new.seat) }
        ensures reports { ReportsEntry B.tells (placement_of J.layout) n e.now (pass_view pass.new.seat) self.old.cell.state.b result }
        ensures fault { result ≡ Did.Failed → NotesFault self.old.cell.state.b (pass_view pass.old.seat) (pass_view pass.new.seat) }
        ensures carried { CarriesOutEntry self.old.cell.state n e.now login.now result self.new.cell.state }
    {
        let caught = self.cell.catch_up(&board.board, n, e, login);
        self.cell.report(&board.board, &mut pass.seat);
        report_of(&caught)
    }

    /// Begins a query of transaction `tx`, 0 for none, at a position not below `least`, if it is the cell of backend
    /// `b`: gives a snapshot that answers it, or its answer where the backend gives no snapshots. The cell of another
    /// backend answers `Out`. The pass has heard of it then.
    pub fn begin_read(
        &mut self,
        board: &NamedBoard<J>,
        pass: &mut Pass<J>,
        b: u8,
        login: &Text,
        tx: u64,
        select: &Select,
        least: u64,
    ) -> Result<(Reading<B::Snap>, u64), CellReadError>
        requires written { IsWritten (request.Select select.now) }
        ensures more { HasNotedMore (pass_view pass.old.seat) (pass_view pass.new.seat) }
        ensures legal { IsLegal (front pass.new.seat) }
        ensures reading { IsReading B.Snap.shows B.tells (placement_of J.layout) b tx select.now least (pass_view pass.new.seat) result }
        ensures begun { self.old.cell.state.b ≡ b → BeginsRead B.Snap.shows self.old.cell.state login.now tx select.now least result self.new.cell.state }
        ensures other { self.old.cell.state.b ≢ b → (result ≡ Err CellReadError.Out) × (self.new.cell.state ≡ self.old.cell.state) }
    {
        if self.cell.number() != b {
            self.cell.report(&board.board, &mut pass.seat);
            return Err(CellReadError::Out);
        }
        self.cell.legal();
        let (snap, position) = match self.cell.snapshot(&board.board, login, least) {
            Ok(taken) => taken,
            Err(error) => {
                self.cell.report(&board.board, &mut pass.seat);
                return Err(error);
            }
        };
        let Some(snap) = snap else {
            return self.answer(board, pass, login, tx, select, least);
        };
        self.cell.report(&board.board, &mut pass.seat);
        Ok((Reading::Snapshot(snap), position))
    }

    /// Has the backend answer a query of transaction `tx`, 0 for none, at a position not below `least`.
    fn answer(
        &mut self,
        board: &NamedBoard<J>,
        pass: &mut Pass<J>,
        login: &Text,
        tx: u64,
        select: &Select,
        least: u64,
    ) -> Result<(Reading<B::Snap>, u64), CellReadError>
        requires written { IsWritten (request.Select select.now) }
        ensures more { HasNotedMore (pass_view pass.old.seat) (pass_view pass.new.seat) }
        ensures legal { IsLegal (front pass.new.seat) }
        ensures reading { IsReading B.Snap.shows B.tells (placement_of J.layout) self.old.cell.state.b tx select.now least (pass_view pass.new.seat) result }
        ensures answers { AnswersQuery self.old.cell.state login.now tx select.now least result self.new.cell.state }
    {
        self.cell.legal();
        let answer = self.cell.read(&board.board, login, tx, select, least);
        self.cell.report(&board.board, &mut pass.seat);
        match answer {
            Ok((answer, position)) => Ok((Reading::Answer(answer), position)),
            Err(error) => Err(error),
        }
    }

    /// Asks backend `b` for all that it holds, drafts included, if this is its cell and stands at position `n`. The
    /// pass has heard of it then.
    ///
    /// `Failed` counts a fault. A cell that is of another backend, or stands elsewhere, answers that it ran out of
    /// memory. An enabled one stands at position `n` while the log has `n` entries, none of them open.
    pub fn contents(
        &mut self,
        board: &NamedBoard<J>,
        pass: &mut Pass<J>,
        b: u8,
        n: u64,
    ) -> Result<Db, CellError>
        ensures more { HasNotedMore (pass_view pass.old.seat) (pass_view pass.new.seat) }
        ensures legal { IsLegal (front pass.new.seat) }
        ensures gives { GivesPart B.tells (placement_of J.layout) b n (pass_view pass.old.seat) (pass_view pass.new.seat) result }
        ensures asked { (self.old.cell.state.b ≡ b) × (self.old.cell.state.position ≡ Some n) → GivesContents self.old.cell.state result self.new.cell.state }
        ensures other { self.old.cell.state.b ≢ b → (result ≡ Err CellError.Starved) × (self.new.cell.state ≡ self.old.cell.state) }
        ensures elsewhere { self.old.cell.state.position ≢ Some n → (result ≡ Err CellError.Starved) × (self.new.cell.state ≡ self.old.cell.state) }
        ensures stands { self.old.cell.state.b ≡ b → is_free (front pass.old.seat) ≡ true → is_enabled (front pass.old.seat) b ≡ true → length (log (front pass.old.seat)) ≡ n → length (log (front pass.new.seat)) ≡ n → self.old.cell.state.position ≡ Some n }
    {
        if self.cell.number() != b {
            self.cell.report(&board.board, &mut pass.seat);
            return Err(CellError::Starved);
        }
        match self.cell.position() {
            Some(position) if position == n => self.contents_there(board, pass),
            _ => {
                self.cell.brief(&board.board, &mut pass.seat);
                self.cell.report(&board.board, &mut pass.seat);
                Err(CellError::Starved)
            }
        }
    }

    /// Asks the backend for all that it holds, where it stands.
    fn contents_there(&mut self, board: &NamedBoard<J>, pass: &mut Pass<J>) -> Result<Db, CellError>
        ensures more { HasNotedMore (pass_view pass.old.seat) (pass_view pass.new.seat) }
        ensures legal { IsLegal (front pass.new.seat) }
        ensures gives { (n : ℕ) → self.old.cell.state.position ≡ Some n → GivesPart B.tells (placement_of J.layout) self.old.cell.state.b n (pass_view pass.old.seat) (pass_view pass.new.seat) result }
        ensures asked { GivesContents self.old.cell.state result self.new.cell.state }
    {
        self.cell.brief(&board.board, &mut pass.seat);
        self.cell.legal();
        let contents = self.cell.contents(&board.board);
        self.cell.report(&board.board, &mut pass.seat);
        contents
    }

    /// Looks where the backend stands: its number, and its position or none if it is out. The pass has heard of it
    /// then. A backend that was enabled while no entry was open stands at the end of the log, if no entry came since.
    pub fn look(&mut self, board: &NamedBoard<J>, pass: &mut Pass<J>) -> (u8, Option<u64>)
        ensures more { HasNotedMore (pass_view pass.old.seat) (pass_view pass.new.seat) }
        ensures legal { IsLegal (front pass.new.seat) }
        ensures is { (result.0 ≡ self.old.cell.state.b) × (result.1 ≡ self.old.cell.state.position) }
        ensures noted { IfSome result.1 (λ n. Contains (pass_view pass.new.seat).position_notes (result.0, n)) }
        ensures within { IfSome result.1 (λ n. n ≤ length (log (front pass.new.seat))) }
        ensures seen { IsPrefix self.new.cell.view.front (front pass.new.seat) }
        ensures stands { (m : List Event) → IsPrefix m (front pass.old.seat) → is_free m ≡ true → is_enabled m result.0 ≡ true → length (log (front pass.new.seat)) ≡ length (log m) → result.1 ≡ Some (length (log m)) }
        ensures state { self.new.cell.state ≡ self.old.cell.state }
    {
        self.cell.brief(&board.board, &mut pass.seat);
        self.cell.legal();
        let b = self.cell.number();
        let position = self.cell.position();
        self.cell.report(&board.board, &mut pass.seat);
        (b, position)
    }

    /// Looks where backend `b` stands, if this is its cell. The pass has heard of it then.
    pub fn stand(&mut self, board: &NamedBoard<J>, pass: &mut Pass<J>, b: u8) -> Stand
        ensures more { HasNotedMore (pass_view pass.old.seat) (pass_view pass.new.seat) }
        ensures legal { IsLegal (front pass.new.seat) }
        ensures stands { Stands b (pass_view pass.new.seat) result }
        ensures is { IsStandOf self.old.cell.state b result }
        ensures state { self.new.cell.state ≡ self.old.cell.state }
    {
        let (number, position) = self.look(board, pass);
        if number != b {
            return Stand::Elsewhere;
        }
        match position {
            Some(n) => Stand::At(n),
            None => Stand::Out(SeenOut { b }),
        }
    }

    /// Has backend `b`, if this is its cell and it is out, hold its part of the database after the first `position`
    /// entries of the log. False if it is not out. The pass has heard of it then.
    ///
    /// `Failed` counts a fault. After an error the backend is still out. A cell of another backend answers that it ran
    /// out of memory, in a branch that never runs.
    pub fn load(
        &mut self,
        board: &NamedBoard<J>,
        pass: &mut Pass<J>,
        b: u8,
        db: Db,
        position: u64,
    ) -> Result<bool, CellError>
        requires storable { IsStorable db }
        requires within { position ≤ length (log (front pass.old.seat)) }
        requires right { B.tells ≡ true → db ≡ part (placement_of J.layout) b (database_after (log (front pass.old.seat)) position) }
        ensures more { HasNotedMore (pass_view pass.old.seat) (pass_view pass.new.seat) }
        ensures legal { IsLegal (front pass.new.seat) }
        ensures loaded { IsLoaded b position (pass_view pass.old.seat) (pass_view pass.new.seat) result }
        ensures loads { self.old.cell.state.b ≡ b → self.old.cell.state.position ≡ None → LoadsOut B.tells self.old.cell.state db position result self.new.cell.state }
        ensures stays { (self.old.cell.state.b ≡ b → self.old.cell.state.position ≢ None) → self.new.cell.state ≡ self.old.cell.state }
    {
        match self.stand(board, pass, b) {
            Stand::Out(_) => self.load_out(board, pass, db, position),
            Stand::At(_) => Ok(false),
            Stand::Elsewhere => Err(CellError::Starved),
        }
    }

    /// Has the backend, which is out, hold this part of the database. True if it does then.
    fn load_out(
        &mut self,
        board: &NamedBoard<J>,
        pass: &mut Pass<J>,
        db: Db,
        position: u64,
    ) -> Result<bool, CellError>
        requires out { self.old.cell.state.position ≡ None }
        requires storable { IsStorable db }
        requires within { position ≤ length (log (front pass.old.seat)) }
        requires right { B.tells ≡ true → db ≡ part (placement_of J.layout) self.old.cell.state.b (database_after (log (front pass.old.seat)) position) }
        ensures more { HasNotedMore (pass_view pass.old.seat) (pass_view pass.new.seat) }
        ensures legal { IsLegal (front pass.new.seat) }
        ensures loaded { IsLoaded self.old.cell.state.b position (pass_view pass.old.seat) (pass_view pass.new.seat) result }
        ensures loads { LoadsOut B.tells self.old.cell.state db position result self.new.cell.state }
    {
        self.cell.brief(&board.board, &mut pass.seat);
        let loaded = self.cell.load(&board.board, db, position);
        self.cell.report(&board.board, &mut pass.seat);
        match loaded {
            Ok(()) => Ok(true),
            Err(error) => Err(error),
        }
    }

    /// Lends the backend.
    pub fn backend(&self) -> &B
        ensures told { B.told result.now ≡ self.now.cell.state.told }
        ensures login { B.login result.now ≡ self.now.cell.state.login }
    {
        self.cell.backend()
    }

    /// Takes the cell apart, and gives the backend.
    pub fn into_backend(self) -> B
        ensures told { B.told result ≡ self.cell.state.told }
        ensures login { B.login result ≡ self.cell.state.login }
    {
        let LockedCell { cell, .. } = self;
        cell.into_backend()
    }

    /// Takes the cell apart, and gives the backend. The pass has seen what the cell has. Where no entry is open in that
    /// history and the backend is enabled there, it holds its part of the database at the end of the log.
    pub fn into_backend_at(self, board: &NamedBoard<J>, pass: &mut Pass<J>) -> B
        requires seen { IsPrefix self.cell.view.front (front pass.old.seat) }
        ensures told { B.told result ≡ self.cell.state.told }
        ensures login { B.login result ≡ self.cell.state.login }
        ensures same { pass_view pass.new.seat ≡ pass_view pass.old.seat }
        ensures held { B.tells ≡ true → is_free (front pass.old.seat) ≡ true → is_enabled (front pass.old.seat) self.cell.state.b ≡ true → B.told result ≡ Some (part (placement_of J.layout) self.cell.state.b (database_after (log (front pass.old.seat)) (length (log (front pass.old.seat))))) }
    {
        let LockedCell { mut cell, .. } = self;
        cell.brief(&board.board, &mut pass.seat);
        cell.legal();
        cell.into_backend()
    }
}
