//! The dumps of records.

ghost use Rattle.std.specs.Prelude.{◌≡◌, true, length, IfOk, IsErrOf};
ghost use Rattle.cj_outside.specs.Causes.{CountsFault};
ghost use Rattle.cj_records.specs.Records.{SameRecords};
ghost use Rattle.cj_shelf.specs.Shelves.{shelf_magic};
ghost use Rattle.cj_shelf.specs.Proving.{FindsDump, LabelsOf};
ghost use Rattle.cj_shelf.specs.Proving as proving;

use crate::error::ShelfError;
use crate::label::Label;
use cj_dump::{Dump, DumpError, decode};
use cj_outside::Store;
use cj_records::Records;
use std::alloc::Global;

/// Returns the refusal of a record whose body was not decoded. `at` is the offset of the record's
/// gate.
fn refusal_at(at: u64, error: DumpError) -> ShelfError
    ensures { result ≡ proving.refusal_at at error }
{
    match error {
        DumpError::Cut(_) | DumpError::BadField(_) | DumpError::Order(_) => {
            ShelfError::BadRecord(at)
        }
        DumpError::NoMemory => ShelfError::NoMemory,
    }
}

/// Decodes the body of a record as a dump. A body that is no dump's is `BadRecord(at)`, where `at`
/// is the offset of the record's gate.
#[tactic(auto, using(crate::proofs::Bodies::dump_refused))]
pub fn dump_of(alloc: Global, body: &[u8], at: u64) -> Result<Dump, ShelfError>
    ensures { FindsDump body.now at result }
{
    match decode(alloc, body) {
        Ok(d) => Ok(d),
        Err(error) => Err(refusal_at(at, error)),
    }
}

/// Reads all records in order and returns a label for each. Only the names of the dumps stay in
/// memory. The first body that is no dump's is `BadRecord`, with the offset of its gate.
pub fn read_labels<D: Store>(
    alloc: Global,
    records: &mut Records<D>,
) -> Result<Vec<Label>, ShelfError>
    requires { records.old.magic ≡ shelf_magic }
    ensures labels { D.tells ≡ true → LabelsOf records.old.list result }
    ensures count { IfOk result (λ labels. length labels.items ≡ length records.old.list) }
    ensures same { SameRecords D.tells D.held records.old records.new }
    ensures cause { CountsFault (IsErrOf result ShelfError.Failed) (D.faults records.old.store) (D.faults records.new.store) }
{
    records.legal();
    let mut labels = Vec::new(alloc);
    let mut at: u64 = 4;
    for n in 0..records.count() {
        let body = records.read(n)?;
        let d = dump_of(alloc, &body, at)?;
        let name = d.name.copy();
        let Ok(_) = labels.push(Label { name, at }) else {
            return Err(ShelfError::NoMemory);
        };
        at = at.saturating_add(9 + body.len() as u64);
    }
    Ok(labels)
}
