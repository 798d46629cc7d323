//! The lines of rows.

ghost use Rattle.std.specs.Prelude.{◌≡◌, ◌++◌, OnOk};
ghost use Rattle.cj_model.specs.Sql.Literals.{literal};
ghost use Rattle.cj_print.specs.Canonical.{behind_commas};
ghost use Rattle.cj_audit.specs.Audits.{StaysText, row_lines, table_row_text};

use crate::pieces::{append_ascii, append_value};
use cj_model::{NoMemory, Row, Value};

/// Appends the literals of values, each after a comma and a space.
fn append_behind_commas(text: &mut Vec<u8>, values: &[Value]) -> Result<(), NoMemory>
    ensures ok { OnOk result (text.new.items ≡ text.old.items ++ behind_commas literal values.now) }
    ensures text { OnOk result (StaysText text.old.items text.new.items) }
{
    for value in values {
        append_ascii(text, b", ")?;
        append_value(text, value)?;
    }
    Ok(())
}

/// Appends the literals of values, with a comma and a space between each two.
fn append_row(text: &mut Vec<u8>, values: &[Value]) -> Result<(), NoMemory>
    ensures ok { OnOk result (text.new.items ≡ text.old.items ++ table_row_text values.now) }
    ensures text { OnOk result (StaysText text.old.items text.new.items) }
{
    match values {
        [] => Ok(()),
        [first, rest @ ..] => {
            append_value(text, first)?;
            append_behind_commas(text, rest)
        }
    }
}

/// Appends one line for each row. After `NoMemory` the contract says nothing of the text.
pub fn append_rows(text: &mut Vec<u8>, rows: &[Row]) -> Result<(), NoMemory>
    ensures ok { OnOk result (text.new.items ≡ text.old.items ++ row_lines rows.now) }
    ensures text { OnOk result (StaysText text.old.items text.new.items) }
{
    for row in rows {
        append_row(text, row.as_slice())?;
        append_ascii(text, b"\n")?;
    }
    Ok(())
}
