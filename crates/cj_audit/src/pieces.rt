//! The pieces of lines. Each piece is a text, so appending it to a text gives a text.

ghost use Rattle.std.specs.Prelude.{◌≡◌, ◌++◌, OnOk};
ghost use Rattle.std.specs.Fmt.{decimal};
ghost use Rattle.cj_model.specs.Sql.Literals.{literal};
ghost use Rattle.cj_model.specs.Sql.Names.{IsText};
ghost use Rattle.cj_print.specs.Ascii.{IsAsciiText};
ghost use Rattle.cj_audit.specs.Audits.{StaysText};

use cj_model::{Name, NoMemory, Value};
use cj_print::write_value;

/// Appends bytes that are a text. After `NoMemory` the contract says nothing of the text.
pub fn append_text(text: &mut Vec<u8>, bytes: &[u8]) -> Result<(), NoMemory>
    requires { IsText bytes.now }
    ensures ok { OnOk result (text.new.items ≡ text.old.items ++ bytes.now) }
    ensures text { OnOk result (StaysText text.old.items text.new.items) }
{
    text.extend_from_slice(bytes)?;
    Ok(())
}

/// Appends bytes of ASCII. After `NoMemory` the contract says nothing of the text.
pub fn append_ascii(text: &mut Vec<u8>, words: &[u8]) -> Result<(), NoMemory>
    requires { IsAsciiText words.now }
    ensures ok { OnOk result (text.new.items ≡ text.old.items ++ words.now) }
    ensures text { OnOk result (StaysText text.old.items text.new.items) }
{
    append_text(text, words)
}

/// Appends a name. After `NoMemory` the contract says nothing of the text.
pub fn append_name(text: &mut Vec<u8>, name: &Name) -> Result<(), NoMemory>
    ensures ok { OnOk result (text.new.items ≡ text.old.items ++ name.now) }
    ensures text { OnOk result (StaysText text.old.items text.new.items) }
{
    append_text(text, name.as_slice())
}

/// Appends a count in decimal. After `NoMemory` the contract says nothing of the text.
pub fn append_count(text: &mut Vec<u8>, count: u64) -> Result<(), NoMemory>
    ensures ok { OnOk result (text.new.items ≡ text.old.items ++ decimal count) }
    ensures text { OnOk result (StaysText text.old.items text.new.items) }
{
    let alloc = *text.allocator();
    let digits = format!(in alloc; "{count}")?;
    append_text(text, digits.as_bytes())
}

/// Appends the literal of a value. After `NoMemory` the contract says nothing of the text.
pub fn append_value(text: &mut Vec<u8>, value: &Value) -> Result<(), NoMemory>
    ensures ok { OnOk result (text.new.items ≡ text.old.items ++ literal value.now) }
    ensures text { OnOk result (StaysText text.old.items text.new.items) }
{
    let alloc = *text.allocator();
    append_text(text, write_value(alloc, value)?.as_slice())
}
