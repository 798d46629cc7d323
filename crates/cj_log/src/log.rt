//! The log over its store.

ghost use Rattle.std.specs.Prelude.{◌≡◌, ◌+◌, ◌<◌, true, false, IfOk, OnOk, IsErrOf};
ghost use Rattle.std.specs.List.{AllByRecursion};
ghost use Rattle.cj_outside.specs.Causes.{CountsFault};
ghost use Rattle.cj_outside.specs.Stores.{Only, LeavesOnly};
ghost use Rattle.cj_records.specs.Records.{SameRecords};
ghost use Rattle.cj_log.specs.declared.item.LogItem.{LogItem};
ghost use Rattle.cj_log.specs.Items.{IsItem, CanAppend};
ghost use Rattle.cj_log.specs.Logs.{log_magic, Adds, KeepsAtLeast, KeepsItems};
ghost use Rattle.cj_log.specs.Logs as log;
ghost use Rattle.cj_log.specs.Proving.Keeping.{ItemsOf, log_error_of};

use crate::decode::item_of;
use crate::encode::{bytes_of, legal_item};
use crate::error::{ItemError, LogError};
use crate::item::{LogItem, LogItems};
use cj_outside::Store;
use cj_records::{Records, RecordsError};
use std::alloc::Global;
use std::marker::Model;

/// The first bytes of a log.
const MAGIC: [u8; 4] = *b"CJL1";

/// Reads the items of all records, in order.
fn read_items<S: Store>(
    alloc: Global,
    records: &mut Records<S>,
) -> Result<Vec<LogItem>, RecordsError>
    requires { records.old.magic ≡ log_magic }
    ensures items { S.tells ≡ true → ItemsOf records.old.list result }
    ensures each { IfOk result (λ items. AllByRecursion IsItem items.items) }
    ensures same { SameRecords S.tells S.held records.old records.new }
    ensures cause { CountsFault (IsErrOf result RecordsError.Failed) (S.faults records.old.store) (S.faults records.new.store) }
{
    records.legal();
    let mut items = Vec::new(alloc);
    let mut at: u64 = 4;
    for n in 0..records.count() {
        let body = records.read(n)?;
        match item_of(alloc, &body) {
            Ok(item) => items.push(item)?,
            Err(ItemError::NoItem) => return Err(RecordsError::BadRecord(at)),
            Err(ItemError::NoMemory) => return Err(RecordsError::NoMemory),
        }
        at = at.saturating_add(9 + body.len() as u64);
    }
    Ok(items)
}

/// The refusal of an append, as the log tells it.
fn log_error(error: RecordsError) -> LogError
    ensures { result ≡ log_error_of error }
{
    match error {
        RecordsError::NoMemory => LogError::NoMemory,
        RecordsError::Failed | RecordsError::BadRecord(_) => LogError::Failed,
    }
}

/// The recovery log: entries and markers in the order in which they were appended. It holds none of them in memory.
#[derive(Drop)]
pub struct Log<S: Store> {
    alloc: Global,
    records: Records<S>,
}

impl<S: Store> Model for Log<S> {
    ghost use Rattle.cj_log.specs.Logs.{LogState};
    ghost use Rattle.cj_log.specs.Proving.ItemFormats.{items_in};
    ghost use Rattle.cj_log.specs.Proving.Keeping.{AgreesWithRecords};

    ghost Value = { LogState S };

    ghost view = { λ log. record { store = log.records.store; items = items_in log.records.list; torn = log.records.torn; refused = log.records.refused } };

    ghost invariant = { λ log. AgreesWithRecords S.tells log.records (items_in log.records.list) };
}

impl<S: Store> Log<S> {
    /// Opens the log of a store, and answers the items found. A new store, of at most five bytes, gets an empty log.
    ///
    /// All gates are read first, and then the bodies in order. `BadRecord` comes exactly if the bytes are no log;
    /// it has the offset of what is bad. An error gives the store back. Only a new one may have been written to,
    /// and still has at most five bytes.
    pub fn open(alloc: Global, store: S) -> Result<(Log<S>, LogItems), (RecordsError, S)>
        requires { S.tells ≡ true → Only (S.held store) (S.may store) }
        ensures bytes { S.tells ≡ true → log.Opens S.held (S.held store) result }
        ensures each { IfOk result (λ opened. AllByRecursion IsItem opened.1) }
        ensures shut { IfOk result (λ opened. opened.0.torn ≡ false) }
        ensures cause { log.CountsOpenFault S.faults (S.faults store) result }
    {
        let mut records = match Records::open(alloc, store, MAGIC) {
            Ok(records) => records,
            Err(refused) => return Err(refused),
        };
        match read_items(alloc, &mut records) {
            Ok(items) => Ok((Log { alloc, records }, LogItems::from_vec(items))),
            Err(error) => Err((error, records.into_store())),
        }
    }

    /// Appends an item and makes it safe.
    ///
    /// An error leaves the items as they were. `NoMemory` comes only before the gate of the item is opened. After
    /// `Failed` a stop may leave the refused item too.
    pub fn append(&mut self, item: LogItem) -> Result<(), LogError>
        requires { CanAppend item }
        ensures items { S.tells ≡ true → Adds self.old.items item self.new.items result }
        ensures memory { S.tells ≡ true → IsErrOf result LogError.NoMemory → self.new.torn ≡ true → self.old.torn ≡ true }
        ensures cause { CountsFault (IsErrOf result LogError.Failed) (S.faults self.old.store) (S.faults self.new.store) }

        // A stop at any moment of the call leaves the old items, or one more. After `Ok` it leaves the new list.
        ensures any_moment { S.tells ≡ true → LeavesOnly S.moment S.since self.old.store self.new.store (log.IsBeforeOrAfter self.old item) }
        ensures refused { S.tells ≡ true → log.Refuses self.old item self.new result }
        ensures safe { S.tells ≡ true → OnOk result (log.LeavesItems (S.may self.new.store) self.new.items) }
    {
        self.records.legal();
        legal_item(&item);
        let Ok(body) = bytes_of(self.alloc, &item) else {
            return Err(LogError::NoMemory);
        };
        match self.records.append(&body) {
            Ok(_) => Ok(()),
            Err(error) => Err(log_error(error)),
        }
    }

    /// Shows for proofs what holds of all logs: the bytes, and what a stop leaves of them, keep these items.
    /// Where an append was refused while it opened a gate, they may keep that item too.
    pub fn legal(&self)
        ensures each { S.tells ≡ true → AllByRecursion IsItem self.now.items }
        ensures items { S.tells ≡ true → self.now.torn ≡ false → KeepsItems (S.held self.now.store) self.now.items }
        ensures at_least { S.tells ≡ true → KeepsAtLeast (S.held self.now.store) self.now.items self.now.torn }
        ensures safe { S.tells ≡ true → self.now.torn ≡ false → log.LeavesItems (S.may self.now.store) self.now.items }

        // Between two calls a stop leaves these items, or these and the one that was refused while a gate
        // was opened.
        ensures now { S.tells ≡ true → (item : LogItem) → LeavesOnly S.moment S.since self.now.store self.now.store (log.IsBeforeOrAfter self.now item) }
    {
        self.records.legal();
    }

    /// Gives the store back, as it is.
    pub fn into_store(self) -> S
        ensures { result ≡ self.store }
    {
        let Log { records, .. } = self;
        records.into_store()
    }
}
