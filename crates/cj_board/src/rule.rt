// The rule of the board, and the kinds of step.
ghost use Rattle.cj_board.specs.Points.{IsKeptBoard};
ghost use Rattle.cj_board.specs.Proving.Told.{ToldAppend, ToldAdvance, ToldStoredPosition, ToldStoredFaults, ToldFaults, ToldPosition, ToldFronts, ToldCell, ToldCountUp, ToldCount, ToldEvents};
ghost use Rattle.cj_board.specs.Views.{book_with_cells, empty_pass, pass_of, pass_without_tokens, own_pass_of, next_cell_of};
ghost use Rattle.cj_board.specs.Steps.{after_split, after_making_cell, after_join, after_learning, after_opening, after_closing};

use crate::view::SeatView;
use atomic_table::{Join, Play, Split, TableRule};
use cj_cluster::Event;

pub struct BoardRule;

impl TableRule<Event, SeatView, u64> for BoardRule {
    ghost holds = { IsKeptBoard };

    ghost first = { λ _. book_with_cells 0 };
}

pub struct AppendEvent;

impl Play<Event, SeatView> for AppendEvent {
    ghost then = { ToldAppend };
}

pub struct AdvancePosition;

impl Play<Event, SeatView> for AdvancePosition {
    ghost then = { ToldAdvance };
}

pub struct StorePosition;

impl Play<Event, SeatView> for StorePosition {
    ghost then = { ToldStoredPosition };
}

pub struct LoadPosition;

impl Play<Event, SeatView> for LoadPosition {
    ghost then = { ToldPosition };
}

pub struct StoreFaults;

impl Play<Event, SeatView> for StoreFaults {
    ghost then = { ToldStoredFaults };
}

pub struct LoadFaults;

impl Play<Event, SeatView> for LoadFaults {
    ghost then = { ToldFaults };
}

pub struct CompareFronts;

impl Play<Event, SeatView> for CompareFronts {
    ghost then = { ToldFronts };
}

pub struct CheckCell;

impl Play<Event, SeatView> for CheckCell {
    ghost then = { ToldCell };
}

pub struct CountUp;

impl Play<Event, SeatView> for CountUp {
    ghost then = { ToldCountUp };
}

pub struct CheckCount;

impl Play<Event, SeatView> for CheckCount {
    ghost then = { ToldCount };
}

pub struct LoadEvents;

impl Play<Event, SeatView> for LoadEvents {
    ghost then = { ToldEvents };
}

/// Splits a pass off a seat, with its front, notes and tokens.
pub struct SplitPass;

impl Split<SeatView> for SplitPass {
    ghost left = { after_split };

    ghost right = { pass_of };
}

/// Splits a pass off a seat, with its front and notes; the tokens stay.
pub struct SplitWithoutTokens;

impl Split<SeatView> for SplitWithoutTokens {
    ghost left = { λ v. v };

    ghost right = { pass_without_tokens };
}

/// Splits the seat of the next cell off the book's seat.
pub struct SplitCell;

impl Split<SeatView> for SplitCell {
    ghost left = { after_making_cell };

    ghost right = { next_cell_of };
}

/// Splits the own pass of the next session off the book's seat.
pub struct SplitOwnPass;

impl Split<SeatView> for SplitOwnPass {
    ghost left = { after_opening };

    ghost right = { own_pass_of };
}

pub struct JoinPass;

impl Join<SeatView> for JoinPass {
    ghost both = { after_join };

    ghost spent = { empty_pass };
}

/// Joins a pass to the book's seat, which has the whole history already.
pub struct JoinToBook;

impl Join<SeatView> for JoinToBook {
    ghost both = { after_learning };

    ghost spent = { empty_pass };
}

pub struct JoinOwnPass;

impl Join<SeatView> for JoinOwnPass {
    ghost both = { after_closing };

    ghost spent = { empty_pass };
}
