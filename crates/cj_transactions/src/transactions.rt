//! The list of open transactions, and which backends each of them wrote at.

ghost use Rattle.std.specs.Prelude.{◌≡◌, ◌<◌, ℕ, List, [], ◌∷◌, ◌++◌, All, MatchOption, None, OnOk};
ghost use Rattle.cj_model.specs.declared.request.Entry.{Entry};
ghost use Rattle.cj_model.specs.Cluster.Masks.{in_mask};
ghost use Rattle.cj_model.specs.Cluster.Placements.{concerns};
ghost use Rattle.cj_cluster.specs.History.Legality.{IsFitEntry};
ghost use Rattle.cj_place.specs.Layouts.{placement_of};
ghost use Rattle.cj_transactions.specs.Kept.{KeepsTransactions};
ghost use Rattle.cj_transactions.specs.Lists.{IsIndexOf, new_tx, numbered, tx_number, with_wrote, without, wrote_of};
ghost use Rattle.cj_transactions.specs.Lists as lists;

use cj_model::{Act, Entry, NoMemory};
use cj_place::Placement;
use cj_usage::written;
use std::alloc::Global;
use std::marker::Model;

/// An open transaction. Its session may be closed.
#[derive(Clone, Copy)]
pub struct OpenTransaction {
    /// The number of the transaction's BEGIN entry.
    pub number: u64,
    pub session: u64,
    /// The mask of the backends that host a table which the transaction wrote.
    pub wrote: u32,
}

/// The open transactions in rising number, which contracts see as a list.
#[derive(Drop)]
pub struct OpenTransactions {
    open: Vec<OpenTransaction>,
}

impl Model for OpenTransactions {
    ghost use Rattle.std.specs.Prelude.{◌-◌, length, vec_capacity};
    ghost use Rattle.cj_model.specs.Database.Tables.{Rises};
    ghost use Rattle.cj_transactions.specs.Lists.{by_number, tx_number, TransactionList};

    ghost Value = { TransactionList };

    ghost view = { λ transactions. record { list = transactions.open.items; places = vec_capacity transactions.open - length transactions.open.items } };

    ghost invariant = { λ transactions. Rises (by_number tx_number) transactions.open.items };
}

impl OpenTransactions {
    /// Returns an empty list, which takes no memory.
    pub fn new(alloc: Global) -> Self
        ensures { result.list ≡ [] }
    {
        OpenTransactions {
            open: Vec::new(alloc),
        }
    }

    fn place_of(&self, number: u64) -> Option<usize>
        ensures { MatchOption result (numbered tx_number self.now.list number ≡ None) (IsIndexOf tx_number self.now.list number) }
    {
        match self.open.binary_search_by_key(&number, |t| t.number) {
            Ok(place) => Some(place),
            Err(_) => None,
        }
    }

    /// Returns the open transaction of a number. None if no open transaction has the number.
    pub fn find(&self, number: u64) -> Option<OpenTransaction>
        ensures { result ≡ numbered tx_number self.now.list number }
    {
        match self.place_of(number) {
            Some(place) => Some(self.open[place]),
            None => None,
        }
    }

    /// Returns the mask of the backends at which the open transaction of a number wrote. 0 if there is none.
    pub fn wrote(&self, number: u64) -> u32
        ensures { result ≡ wrote_of (numbered tx_number self.now.list number) }
    {
        match self.find(number) {
            Some(transaction) => transaction.wrote,
            None => 0,
        }
    }

    /// Makes a place for one more.
    pub fn reserve(&mut self) -> Result<(), NoMemory>
        ensures list { self.new.list ≡ self.old.list }
        ensures place { OnOk result (0 < self.new.places) }
    {
        self.open.reserve(1)?;
        Ok(())
    }

    fn begin(&mut self, number: u64, session: u64)
        requires above { All (λ t. tx_number t < number) self.old.list }
        requires place { 0 < self.old.places }
        ensures { self.new.list ≡ self.old.list ++ new_tx number session ∷ [] }
    {
        self.open.push_reserved(OpenTransaction {
            number,
            session,
            wrote: 0,
        });
    }

    fn add_hosts(&mut self, number: u64, hosts: u32)
        ensures { self.new.list ≡ with_wrote number hosts self.old.list }
    {
        if let Some(place) = self.place_of(number) {
            self.open[place].wrote |= hosts;
        }
    }

    /// Lets the transaction of a number go.
    fn end(&mut self, number: u64)
        ensures { self.new.list ≡ without tx_number number self.old.list }
    {
        if let Some(place) = self.place_of(number) {
            self.open.remove(place);
        }
    }

    /// Returns the mask of the backends that an entry concerns.
    /// The entry must be one that may follow the entries that opened these transactions.
    pub fn concerned(&self, placement: &Placement, e: &Entry) -> u32
        ensures { (entries : List Entry) → KeepsTransactions (placement_of placement.now) entries self.now.list → IsFitEntry entries e.now
            → (b : ℕ) → in_mask result b ≡ concerns (placement_of placement.now) b entries e.now.tx e.now.act }
    {
        match written(&e.act) {
            Some(table) => placement.hosts(table),
            None => self.wrote(e.tx),
        }
    }

    /// Entry `number` of the log is scheduled, which concerns these backends. It takes no memory.
    pub fn follow(&mut self, number: u64, e: &Entry, hosts: u32)
        requires above { All (λ t. tx_number t < number) self.old.list }
        requires place { 0 < self.old.places }
        ensures { self.new.list ≡ lists.transactions_after self.old.list number hosts e.now e.now.act }
    {
        match &e.act {
            Act::Begin => self.begin(number, e.session),
            Act::Write(_) => self.add_hosts(e.tx, hosts),
            Act::Create(_) | Act::Drop(_) => {}
            Act::Commit | Act::Abort => self.end(e.tx),
        }
    }
}
