//! The bytes of a dump.

ghost use Rattle.std.specs.Prelude.{◌≡◌, ◌++◌, ◌<◌, ◌^◌, All, IfOk, OnOk};
ghost use Rattle.std.specs.List.{flat_map};
ghost use Rattle.cj_model.specs.Wire.Fields.{str16};
ghost use Rattle.cj_dump.specs.Dumps.{dump_bytes, names_bytes, db_bytes, CanEncode, HasSmallTransaction, IsDump};
ghost use Rattle.cj_dump.specs.Writable.{IsWritableSlot};

use crate::dump::Dump;
use crate::writing::Written;
use cj_codec::{put_u8, put_u64};
use cj_model::{Db, Draft, Name, NoMemory, Slot, TableSet};
use std::alloc::Global;

fn put_each(out: &mut Vec<u8>, names: &[Name]) -> Result<(), NoMemory>
    ensures { OnOk result (out.new.items ≡ out.old.items ++ flat_map str16 names.now) }
{
    for name in names {
        name.put(out)?;
    }
    Ok(())
}

fn put_names(out: &mut Vec<u8>, names: &TableSet) -> Result<(), NoMemory>
    ensures { OnOk result (out.new.items ≡ out.old.items ++ names_bytes names.now) }
{
    put_u64(out, names.len() as u64)?;
    put_each(out, names.as_slice())
}

fn put_slots(out: &mut Vec<u8>, db: &Db) -> Result<(), NoMemory>
    requires { All IsWritableSlot db.now }
    ensures { OnOk result (out.new.items ≡ out.old.items ++ db_bytes db.now) }
{
    put_u64(out, db.len() as u64)?;
    db.put(out)
}

fn bytes_of(alloc: Global, d: &Dump) -> Result<Vec<u8>, NoMemory>
    requires { All IsWritableSlot d.now.db }
    ensures { IfOk result (λ bytes. bytes.items ≡ dump_bytes d.now) }
{
    let mut out = Vec::new(alloc);
    put_u64(&mut out, d.position)?;
    put_u8(&mut out, d.source)?;
    d.name.put(&mut out)?;
    put_u8(&mut out, u8::from(d.all))?;
    put_names(&mut out, &d.covers)?;
    put_slots(&mut out, &d.db)?;
    Ok(out)
}

/// Shows that the transaction of a draft has 64 bits.
fn legal_draft(draft: &Draft)
    ensures { draft.now.tx < 2 ^ 64 }
{
    let _tx = draft.tx;
}

fn legal_slot(slot: &Slot)
    ensures { HasSmallTransaction slot.now }
{
    if let Some(draft) = &slot.draft {
        legal_draft(draft);
    }
}

/// Shows that the transactions of these slots' drafts have 64 bits.
fn legal_slots(mut slots: &[Slot])
    ensures { All HasSmallTransaction slots.entry.now }
{
    while let [slot, rest @ ..] = slots {
        legal_slot(slot);
        slots = rest;
    }
}

/// Shows that what may be encoded is a dump.
fn legal(d: &Dump)
    requires { CanEncode d.now }
    ensures { IsDump d.now }
{
    let _position = d.position;
    let _source = d.source;
    let _name = d.name.as_slice();
    let _covers = d.covers.as_slice();
    let _covered = d.covers.len();
    let _tables = d.db.len();
    legal_slots(d.db.as_slice());
}

/// Returns the bytes of a dump (docs/FORMATS.md), which `decode` reads as this dump. `NoMemory` is
/// the only error.
#[tactic(auto, using(crate::proofs::Writable::storable_writable))]
pub fn encode(alloc: Global, d: &Dump) -> Result<Vec<u8>, NoMemory>
    requires { CanEncode d.now }
    ensures bytes { IfOk result (λ bytes. bytes.items ≡ dump_bytes d.now) }
    ensures legal { IsDump d.now }
{
    legal(d);
    bytes_of(alloc, d)
}
