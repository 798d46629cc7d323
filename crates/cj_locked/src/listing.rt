//! The part of the recovery log that is shown.

ghost use Rattle.std.specs.Prelude.{◌≡◌, ◌++◌, nat_lt, ◌≤◌, length, IfOk, map};
ghost use Rattle.std.specs.List.{prefix_len};
ghost use Rattle.cj_cluster.specs.History.Legality.{IsLegal};
ghost use Rattle.cj_board.specs.Seats.{front, pass_view};
ghost use Rattle.cj_log.specs.declared.item.LogItem.TheVariants as items;
ghost use Rattle.cj_locked.specs.Listing.{item_of, items_between, markers_after, markers_before};
ghost use Rattle.cj_pass.specs.Passes.{HasNotedMore};

use crate::book::LockedBook;
use cj_book::Book;
use cj_log::LogMarker;
use cj_model::{Duplicate, Entry, NoMemory};
use cj_outside::Store;
use cj_pass::{NamedBoard, Naming, Pass};
use std::alloc::Global;

/// A copy of what an item of the recovery log says. Its text is made of it with no lock held.
#[derive(Drop)]
pub enum ShownItem {
    /// The entry of this number.
    Entry(u64, Entry),
    Marker(LogMarker),
}

/// Returns how many markers stand before the first that has `n` entries before it.
fn count_before(markers: &[LogMarker], n: u64) -> usize
    ensures count { result ≡ prefix_len (λ marker. nat_lt marker.after n) markers.now }
    ensures within { result ≤ length markers.now }
{
    markers.iter().take_while(|marker| marker.after < n).count()
}

/// Splits markers in order where the first stands that has `n` entries before it.
fn split_at_entry(markers: &[LogMarker], n: u64) -> (&[LogMarker], &[LogMarker])
    ensures before { result.0.now ≡ markers_before n markers.now }
    ensures after { result.1.now ≡ markers_after n markers.now }
{
    markers.split_at(count_before(markers, n))
}

/// Copies these markers to the end of what is shown.
fn show_markers(shown: &mut Vec<ShownItem>, markers: &[LogMarker]) -> Result<(), NoMemory>
    ensures { IfOk result (λ done. map item_of shown.new.items ≡ map item_of shown.old.items ++ map items.Marker markers.now) }
{
    for marker in markers {
        shown.push(ShownItem::Marker(LogMarker {
            after: marker.after,
            name: marker.name.copy(),
            b: marker.b,
        }))?;
    }
    Ok(())
}

/// Copies entries and markers of the book, from entry `first` to entry `last`.
fn shown_of(book: &Book, alloc: Global, first: u64, last: u64) -> Result<Vec<ShownItem>, NoMemory>
    ensures { IfOk result (λ shown. map item_of shown.items ≡ items_between first last book.now.state.history) }
{
    let mut shown = Vec::new(alloc);
    let (_, mut markers) = split_at_entry(book.markers(), first);
    for index in first.saturating_sub(1)..last.min(book.length()) {
        let (before, after) = split_at_entry(markers, index + 1);
        show_markers(&mut shown, before)?;
        let Some(entry) = book.entry(index + 1) else {
            unreachable!()
        };
        shown.push(ShownItem::Entry(index + 1, entry.copy(alloc)?))?;
        markers = after;
    }
    let (rest, _) = split_at_entry(markers, last);
    show_markers(&mut shown, rest)?;
    Ok(shown)
}

impl<J: Naming, S: Store + Drop> LockedBook<J, S> {
    /// Shows the pass the whole history, and copies its entries from `first` to `last`, counted from 1. Among them are
    /// the markers that have at least `first` and fewer than `last` entries before them. A `last` above the number of
    /// entries shows the markers behind the last entry too. A `first` above `last` shows nothing.
    ///
    /// The copies are made under one hold of the book, so a long part keeps others waiting. `NoMemory` is the only
    /// error, and the pass has seen the history then too.
    pub fn shown(
        &mut self,
        alloc: Global,
        board: &NamedBoard<J>,
        pass: &mut Pass<J>,
        first: u64,
        last: u64,
    ) -> Result<Vec<ShownItem>, NoMemory>
        ensures shown { IfOk result (λ shown. map item_of shown.items ≡ items_between first last (front pass.new.seat)) }
        ensures more { HasNotedMore (pass_view pass.old.seat) (pass_view pass.new.seat) }
        ensures legal { IsLegal (front pass.new.seat) }
        ensures told { front pass.new.seat ≡ self.new.book.state.history }
        ensures state { self.new.book.state ≡ self.old.book.state }
        ensures log { self.new.log ≡ self.old.log }
        ensures pending { self.new.book.pending ≡ self.old.book.pending }
    {
        self.tell(board, pass);
        shown_of(&self.book, alloc, first, last)
    }
}
