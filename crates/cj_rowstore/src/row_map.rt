//! Changes of rows, by their keys.

ghost use Rattle.std.specs.Prelude.{◌≡◌, ◌↔◌, ◌∷◌, [], Some, length, IsTrue, MatchOption, OnOk, OnErr};
ghost use Rattle.std.specs.BTreeMap.{insert_entry, is_at};
ghost use Rattle.std.specs.Map.{remove_entry};
ghost use Rattle.cj_model.specs.Database.Values.{value_cmp};
ghost use Rattle.cj_ptree.specs.Pairs.{PairsRise};
ghost use Rattle.cj_rowstore.specs.Entries.{at};
ghost use Rattle.cj_rowstore.specs.RowEntries as entries;

use crate::stored_row::StoredRow;
use cj_model::{NoMemory, Row, Value, are_same};
use std::alloc::Global;
use std::collections::BTreeMap;
use std::marker::Model;

/// Changes of a table: keys in rising order, each with its new row, or with none where its row goes.
#[derive(Drop)]
pub struct RowMap {
    pub(crate) rows: BTreeMap<Value, Option<StoredRow>>,
}

impl Model for RowMap {
    ghost use Rattle.cj_model.specs.Database.Values.{value_cmp};
    ghost use Rattle.cj_ptree.specs.Pairs.{PairsRise};
    ghost use Rattle.cj_rowstore.specs.RowEntries.{RowEntries};

    ghost Value = { RowEntries };

    ghost view = { λ map. map.rows.entries };

    ghost invariant = { λ map. PairsRise value_cmp map.rows.entries };
}

fn stored(row: Option<Row>) -> Option<StoredRow>
    ensures { result ≡ row }
{
    match row {
        Some(row) => Some(StoredRow::of(row)),
        None => None,
    }
}

/// Whether the stored row is there and equals `row`.
fn holds(kept: &Option<StoredRow>, row: &[Value]) -> bool
    ensures { IsTrue result ↔ (kept.now ≡ Some row.now) }
{
    match kept {
        Some(kept) => are_same(kept.values(), row),
        None => false,
    }
}

impl RowMap {
    /// No changes, without allocation.
    pub fn new(alloc: Global) -> RowMap
        ensures { result ≡ [] }
    {
        RowMap {
            rows: BTreeMap::new(alloc),
        }
    }

    /// The law that the keys rise.
    pub fn rises(&self)
        ensures { PairsRise value_cmp self.now }
    {
        let _ = &self.rows;
    }

    /// The number of changes.
    pub(crate) fn len(&self) -> usize
        ensures { result ≡ length self.now }
    {
        self.rows.len()
    }

    /// Whether there is a change at the key.
    pub fn knows(&self, key: &Value) -> bool
        ensures { result ≡ entries.knows self.now key.now }
    {
        self.rows.contains_key(key)
    }

    /// Puts a row or none at a key, in place of what was there. `NoMemory` leaves the changes as they were.
    #[tactic(auto, using(crate::proofs::EntryLaws::rise_from))]
    pub fn insert(&mut self, key: Value, row: Option<Row>) -> Result<(), NoMemory>
        ensures ok { OnOk result (self.new ≡ insert_entry value_cmp self.old key row) }
        ensures err { OnErr result (self.new ≡ self.old) }
        ensures rises { PairsRise value_cmp self.new }
        ensures rose { PairsRise value_cmp self.old }
    {
        self.rows.insert(key, stored(row))?;
        Ok(())
    }

    #[tactic(auto, using(crate::proofs::EntryLaws::rise_from))]
    fn remove(&mut self, key: &Value)
        ensures entries { self.new ≡ remove_entry (is_at (value_cmp key.now)) self.old }
        ensures rises { PairsRise value_cmp self.new }
    {
        self.rows.remove(key);
    }

    /// Takes the first change out; none if there is none.
    #[tactic(auto, using(crate::proofs::EntryLaws::rise_from))]
    pub(crate) fn take_first(&mut self) -> Option<(Value, Option<StoredRow>)>
        ensures { MatchOption result (self.old ≡ []) (λ change. self.old ≡ change ∷ self.new) }
    {
        self.rows.pop_first()
    }

    fn has(&self, key: &Value, row: &[Value]) -> bool
        ensures { IsTrue result ↔ (at value_cmp key.now self.now ≡ Some (Some row.now)) }
    {
        match self.rows.get(key) {
            Some(found) => holds(found, row),
            None => false,
        }
    }

    /// Adapts the change at a row's key to the row, which is in the table. The change goes if it puts this very row.
    /// Where there was no change, one is made that removes the row. After `NoMemory` the contract says nothing of the
    /// changes.
    pub fn settle(&mut self, key: Value, row: &[Value]) -> Result<(), NoMemory>
        ensures settles { OnOk result (entries.SettlesRow key row.now self.old self.new) }
        ensures rises { OnOk result (PairsRise value_cmp self.new) }
    {
        self.rises();
        if self.has(&key, row) {
            self.remove(&key);
            return Ok(());
        }
        if self.knows(&key) {
            return Ok(());
        }
        self.insert(key, None)?;
        Ok(())
    }
}
