//! A world: its state, and the moves that change it.

ghost use Rattle.std.specs.Prelude.{◌≡◌, ◌↔◌, ℕ, length, map, true, All, IsNone, IfSome, IfOk, IsErrOf, MatchResult, OnErr, None, Ok};
ghost use mathlib.Core.List.{IsPrefix};
ghost use Rattle.cj_cluster.specs.History.Legality.{IsLegal};
ghost use Rattle.cj_cluster.specs.Moves.Moves.{MovesTo};
ghost use Rattle.cj_cluster.specs.Moves.Runs.{IsMoveOfCluster, CanCountRequests};
ghost use Rattle.cj_moves.specs.Armings.{ArmsCell, HasArmings};
ghost use Rattle.cj_moves.specs.Caches.{HasCacheAfter};
ghost use Rattle.cj_moves.specs.Counting.{HasCauses, HasLogCauses};
ghost use Rattle.cj_moves.specs.Logins.{HasLogins};
ghost use Rattle.cj_moves.specs.Steps.{IsMet};
ghost use Rattle.cj_world_audit.specs.Audits.{audit_text, failed_audit};
ghost use Rattle.cj_core.specs.Played.{given_of, HasRun, HasRunInPart};
ghost use Rattle.cj_state.specs.ArmedCells.{armings_of};
ghost use Rattle.cj_state.specs.CalledLogins.{logins_of};
ghost use Rattle.cj_state.specs.Faults.{faults_after, faults_of};
ghost use Rattle.cj_model.specs.Cluster.Masks.{in_mask};
ghost use Rattle.cj_cluster.specs.History.Histories as histories;
ghost use Rattle.cj_cluster.specs.History.Histories.{is_free};
ghost use Rattle.cj_cluster.specs.Moves.Cores.{position_at};
ghost use Rattle.cj_cluster.specs.Moves.Moves as moves;
ghost use Rattle.cj_place.specs.Layouts.{placement_of};
ghost use Rattle.cj_state.specs.Worlds.{IsFresh, IsSameWorldButLog, IsWorld, KeepsHistory};

use crate::emptied::Emptied;
use crate::runs::{make, run};
use cj_backend::Backend;
use cj_cluster::{Made, Move, MoveError, Moved, MovedList, Moves};
use cj_model::{NoMemory, Text};
use cj_moves::step;
use cj_outside::Store;
use cj_place::Placement;
use cj_state::State;
use cj_world_audit::{AuditError, audit};
use std::marker::Model;

/// The controller over these backends, with its history, sessions, accounts and dumps.
#[derive(Drop)]
pub struct World<B: Backend, S: Store> {
    pub(crate) state: State<B, S>,
    /// The list in which the backends came and are given up.
    pub(crate) emptied: Emptied<B>,
}

impl<B: Backend, S: Store> Model for World<B, S> {
    ghost use Rattle.cj_state.specs.Worlds.{WorldState};

    ghost Value = { WorldState };

    ghost use Rattle.std.specs.Coded.{codes};
    ghost use Rattle.cj_model.specs.Proving.ConditionCode.{coded_condition};

    ghost coded = { Prim.hlevel (codes, coded_condition) };

    ghost view = { λ w. w.state };
}

impl<B: Backend, S: Store> World<B, S> {
    /// Shows what holds of every world. The log's bytes keep its history, and its cache has fresh
    /// answers alone.
    pub fn legal(&self)
        ensures world { IsWorld B.tells self.now }
        ensures logged { S.tells ≡ true → KeepsHistory self.now }
        ensures fresh { IsFresh B.tells self.now }
    {
        self.state.legal();
    }

    /// Returns how many entries there are, which is the number of the last one.
    pub fn length(&self) -> u64
        ensures { result ≡ moves.last_number self.now.core }
    {
        self.state.length()
    }

    /// Returns the number of the open entry, or `None` if no entry is open.
    pub fn open_entry(&self) -> Option<u64>
        ensures none { IsNone result ↔ (is_free self.now.core.history ≡ true) }
        ensures number { IfSome result (λ n. n ≡ moves.last_number self.now.core) }
    {
        self.state.open_entry()
    }

    /// Returns the mask of the enabled backends.
    pub fn enabled(&self) -> u32
        ensures { (b : ℕ) → in_mask result b ≡ histories.is_enabled self.now.core.history b }
    {
        self.state.enabled()
    }

    /// Returns how many entries backend `b` has taken, or `None` if it is out.
    pub fn position(&self, b: u8) -> Option<u64>
        ensures { result ≡ position_at self.now.core b }
    {
        self.state.position(b)
    }

    /// Returns the placement: which backends host which tables, and what the backends are called.
    pub fn placement(&self) -> &Placement
        ensures placement { placement_of result.now ≡ self.now.core.placement }
        ensures names { result.now.names ≡ self.now.setup.names }
    {
        self.state.placement()
    }

    /// Makes a move and gives what came of it, or says why the move can't be made now.
    ///
    /// `NotNow` leaves the history, the positions and the sessions as they were. `NoMemory` leaves
    /// all but maybe the log's bytes. A backend that runs out of memory in an entry is out; the
    /// move then gives `Starved` and no error.
    pub fn step(&mut self, m: Move) -> Result<Moved, MoveError>
        requires { IsMet self.old.core m }
        ensures moves { MovesTo B.tells self.old.core m result self.new.core }
        ensures causes { HasCauses self.old self.new m result }
        ensures log_causes { HasLogCauses self.old self.new m result }
        ensures armings { HasArmings B.can_be_armed self.old self.new m result }
        ensures logins { HasLogins self.old self.new m result }
        ensures armed { result ≡ Ok Moved.Armed → ArmsCell B.can_be_armed self.old.cells m self.new.cells }
        ensures want { IsErrOf result MoveError.NoMemory → IsSameWorldButLog self.old self.new }
        ensures setup { self.new.setup ≡ self.old.setup }
        ensures cache { HasCacheAfter self.old self.new m }
    {
        step(&mut self.state, m)
    }

    /// Makes a move, and gives what came of it or why it can't be made now. `NoMemory` leaves all
    /// but maybe the log's bytes as it was.
    pub fn make(&mut self, m: Move) -> Result<Made, NoMemory>
        requires { IsMet self.old.core m }
        ensures made { IfOk result (λ made. MovesTo B.tells self.old.core m (given_of made) self.new.core) }
        ensures causes { IfOk result (λ made. HasCauses self.old self.new m (given_of made)) }
        ensures log_causes { IfOk result (λ made. HasLogCauses self.old self.new m (given_of made)) }
        ensures armings { IfOk result (λ made. HasArmings B.can_be_armed self.old self.new m (given_of made)) }
        ensures logins { IfOk result (λ made. HasLogins self.old self.new m (given_of made)) }
        ensures want { OnErr result (IsSameWorldButLog self.old self.new) }
        ensures log_want { OnErr result (self.new.recovery_log.faults ≡ self.old.recovery_log.faults) }
        ensures setup { self.new.setup ≡ self.old.setup }
        ensures cache { HasCacheAfter self.old self.new m }
    {
        make(&mut self.state, m)
    }

    /// Makes the moves in order, and gives for each what came of it or why it couldn't be made. A
    /// move that can't be made leaves history, positions and sessions. After `NoMemory` the first
    /// moves were made, and no more.
    pub fn run(&mut self, moves: &Moves) -> Result<MovedList, NoMemory>
        requires are { All (IsMoveOfCluster self.old.core.placement.backends) moves.now }
        requires count { CanCountRequests self.old.core (length moves.now) }
        ensures runs { MatchResult result (λ made. HasRun B.tells B.can_be_armed self.old moves.now (map given_of made) self.new) (λ _. HasRunInPart B.tells B.can_be_armed self.old moves.now self.new) }
        ensures longer { IsPrefix self.old.core.history self.new.core.history }
        ensures legal { IsLegal self.new.core.history }
        ensures setup { self.new.setup ≡ self.old.setup }
    {
        run(&mut self.state, moves)
    }

    /// Asks each enabled backend for its contents and returns them as lines, in the order of
    /// numbers. A table has a line with its number of rows, and each row has one. No entry is open.
    ///
    /// The first backend that fails ends the audit; that counts a fault. The history, the positions
    /// and the sessions stay in any case.
    pub fn audit(&mut self) -> Result<Text, AuditError>
        requires { is_free self.old.core.history ≡ true }
        ensures text { IfOk result (λ text. B.tells ≡ true → text ≡ audit_text self.old.setup.names self.old.core) }
        ensures same { failed_audit result ≡ None → self.new ≡ self.old }
        ensures faults { faults_of self.new.cells ≡ faults_after (faults_of self.old.cells) (failed_audit result) }
        ensures enabled { (b : ℕ) → IsErrOf result (AuditError.Fault b) → histories.is_enabled self.old.core.history b ≡ true }
        ensures core { self.new.core ≡ self.old.core }
        ensures setup { self.new.setup ≡ self.old.setup }
        ensures logins { logins_of self.new.cells ≡ logins_of self.old.cells }
        ensures recovery_log { self.new.recovery_log ≡ self.old.recovery_log }
        ensures armings { armings_of self.new.cells ≡ armings_of self.old.cells }
    {
        audit(&mut self.state)
    }
}
