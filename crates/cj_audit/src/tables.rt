//! The lines of tables and of their drafts.

ghost use Rattle.std.specs.Prelude.{◌≡◌, ◌++◌, OnOk, IfOk, string_bytes};
ghost use Rattle.cj_model.specs.Sql.Names.{IsText};
ghost use Rattle.cj_audit.specs.Audits.{StaysText, draft_lines, slot_lines, table_head, table_lines};
ghost use Rattle.cj_audit.specs.Audits as audits;

use crate::pieces::{append_ascii, append_count, append_name, append_text};
use crate::rows::append_rows;
use cj_model::{Draft, Name, NoMemory, Slot, Table};
use std::alloc::Global;

/// Appends the head line of a table, without its line feed.
fn append_head(text: &mut Vec<u8>, name: &Name, state: &[u8], table: &Table) -> Result<(), NoMemory>
    requires { IsText state.now }
    ensures ok { OnOk result (text.new.items ≡ text.old.items ++ table_head name.now state.now table.now) }
    ensures text { OnOk result (StaysText text.old.items text.new.items) }
{
    append_name(text, name)?;
    append_ascii(text, b" ")?;
    append_name(text, &table.schema.table)?;
    append_ascii(text, b" ")?;
    append_text(text, state)?;
    append_ascii(text, b" ")?;
    append_count(text, table.rows.len() as u64)
}

/// Appends the lines of a table in this state at the backend of this name.
fn append_table(
    text: &mut Vec<u8>,
    name: &Name,
    state: &[u8],
    table: &Table,
) -> Result<(), NoMemory>
    requires { IsText state.now }
    ensures ok { OnOk result (text.new.items ≡ text.old.items ++ table_lines name.now state.now table.now) }
    ensures text { OnOk result (StaysText text.old.items text.new.items) }
{
    append_head(text, name, state, table)?;
    append_ascii(text, b"\n")?;
    append_rows(text, table.rows.as_slice())
}

fn draft_state(alloc: Global, tx: u64) -> Result<String, NoMemory>
    ensures state { IfOk result (λ state. string_bytes state ≡ audits.draft_state tx) }
    ensures text { IfOk result (λ state. IsText (string_bytes state)) }
{
    Ok(format!(in alloc; "draft {tx}")?)
}

fn append_draft(text: &mut Vec<u8>, name: &Name, draft: &Option<Draft>) -> Result<(), NoMemory>
    ensures ok { OnOk result (text.new.items ≡ text.old.items ++ draft_lines name.now draft.now) }
    ensures text { OnOk result (StaysText text.old.items text.new.items) }
{
    match draft {
        None => Ok(()),
        Some(draft) => {
            let state = draft_state(*text.allocator(), draft.tx)?;
            append_table(text, name, state.as_bytes(), &draft.table)
        }
    }
}

/// Appends the lines of a table as committed, and of its draft. After `NoMemory` the contract says nothing
/// of the text.
pub fn append_slot(text: &mut Vec<u8>, name: &Name, slot: &Slot) -> Result<(), NoMemory>
    ensures ok { OnOk result (text.new.items ≡ text.old.items ++ slot_lines name.now slot.now) }
    ensures text { OnOk result (StaysText text.old.items text.new.items) }
{
    append_table(text, name, b"base", &slot.base)?;
    append_draft(text, name, &slot.draft)
}
