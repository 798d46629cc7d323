//! The lines of what a backend holds.

ghost use Rattle.std.specs.Prelude.{◌≡◌, ◌++◌, OnOk};
ghost use Rattle.cj_model.specs.Sql.Names.{IsText};
ghost use Rattle.cj_audit.specs.Audits.{StaysText, backend_lines};

use crate::tables::append_slot;
use cj_model::{Db, Name, NoMemory, Text};

/// Appends the lines of a database that the backend of this name holds. After `NoMemory` the contract says
/// nothing of the text.
pub fn append_backend(text: &mut Vec<u8>, name: &Name, database: &Db) -> Result<(), NoMemory>
    ensures ok { OnOk result (text.new.items ≡ text.old.items ++ backend_lines name.now database.now) }
    ensures text { OnOk result (StaysText text.old.items text.new.items) }
{
    for slot in database.as_slice() {
        append_slot(text, name, slot)?;
    }
    Ok(())
}

/// The text that the bytes are, without allocation.
pub fn into_text(bytes: Vec<u8>) -> Text
    requires { IsText bytes.items }
    ensures { result ≡ bytes.items }
{
    Text::of(bytes).unwrap()
}
