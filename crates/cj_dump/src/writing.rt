//! Appending the parts of a dump to bytes.

ghost use Rattle.std.specs.Prelude.{◌≡◌, ◌++◌, ℕ, List, All, OnOk};
ghost use Rattle.std.specs.List.{flat_map};
ghost use Rattle.cj_model.specs.Wire.Fields.{str16};
ghost use Rattle.cj_model.specs.Wire.Replies.{value_bytes};
ghost use Rattle.cj_codec.specs.Writings.{HasShortText};
ghost use Rattle.cj_dump.specs.Dumps.{column_bytes, draft_bytes, rows_bytes, schema_bytes, slot_bytes};
ghost use Rattle.cj_dump.specs.Writable.{HasFewColumns, IsWritableDraft, IsWritableSlot};

use cj_codec::{put_str16, put_u8, put_u16, put_u64, put_value};
use cj_model::{Column, Draft, Kind, ListOf, Name, NoMemory, Rows, Schema, Slot, Value};

/// A value that a dump has several times, one after another.
pub trait Written {
    ghost bytes: { Self → List ℕ };

    /// Whether the lengths in the value fit their fields.
    ghost writable: { Self → Type 0 };

    /// Appends the bytes of the value. Out of memory, `out` may have some of them.
    fn put(&self, out: &mut Vec<u8>) -> Result<(), NoMemory>
        requires { writable self.now }
        ensures { OnOk result (out.new.items ≡ out.old.items ++ bytes self.now) };
}

impl<T: Written> Written for ListOf<T> {
    ghost bytes = { flat_map T.bytes };

    ghost writable = { All T.writable };

    fn put(&self, out: &mut Vec<u8>) -> Result<(), NoMemory> {
        for item in self.as_slice() {
            item.put(out)?;
        }
        Ok(())
    }
}

impl Written for Name {
    ghost bytes = { str16 };

    ghost writable = { λ _. Unit {0} };

    fn put(&self, out: &mut Vec<u8>) -> Result<(), NoMemory> {
        put_str16(out, self.as_slice())
    }
}

impl Written for Value {
    ghost bytes = { value_bytes };

    ghost writable = { HasShortText };

    fn put(&self, out: &mut Vec<u8>) -> Result<(), NoMemory> {
        put_value(out, self)
    }
}

impl Written for Column {
    ghost bytes = { column_bytes };

    ghost writable = { λ _. Unit {0} };

    fn put(&self, out: &mut Vec<u8>) -> Result<(), NoMemory> {
        self.name.put(out)?;
        match self.kind {
            Kind::Integer => put_u8(out, 1),
            Kind::Text => put_u8(out, 2),
        }
    }
}

fn put_schema(out: &mut Vec<u8>, schema: &Schema) -> Result<(), NoMemory>
    requires { HasFewColumns schema.now }
    ensures { OnOk result (out.new.items ≡ out.old.items ++ schema_bytes schema.now) }
{
    schema.table.put(out)?;
    put_u16(out, schema.columns.len() as u16)?;
    schema.columns.put(out)?;
    put_u16(out, schema.key)
}

fn put_rows(out: &mut Vec<u8>, rows: &Rows) -> Result<(), NoMemory>
    requires { All (All HasShortText) rows.now }
    ensures { OnOk result (out.new.items ≡ out.old.items ++ rows_bytes rows.now) }
{
    put_u64(out, rows.len() as u64)?;
    rows.put(out)
}

fn put_draft(out: &mut Vec<u8>, draft: &Option<Draft>) -> Result<(), NoMemory>
    requires { IsWritableDraft draft.now }
    ensures { OnOk result (out.new.items ≡ out.old.items ++ draft_bytes draft.now) }
{
    match draft {
        None => put_u8(out, 0),
        Some(draft) => {
            put_u8(out, 1)?;
            put_u64(out, draft.tx)?;
            put_rows(out, &draft.table.rows)
        }
    }
}

impl Written for Slot {
    ghost bytes = { slot_bytes };

    ghost writable = { IsWritableSlot };

    fn put(&self, out: &mut Vec<u8>) -> Result<(), NoMemory> {
        put_schema(out, &self.base.schema)?;
        put_rows(out, &self.base.rows)?;
        put_draft(out, &self.draft)
    }
}
