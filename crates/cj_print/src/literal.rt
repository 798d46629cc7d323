//! The literals of values.

ghost use Rattle.std.specs.Prelude.{◌≡◌, [], ◌∷◌, ◌++◌, IfOk, OnOk};
ghost use Rattle.std.specs.Fmt.{decimal, signed_decimal};
ghost use Rattle.cj_model.specs.Sql.Lexical.{doubled};
ghost use Rattle.cj_model.specs.Sql.Literals.{literal};

use cj_model::{NoMemory, Text, Value};
use std::alloc::Global;

/// The number in decimal, with `-` if it is negative. Fails only with `NoMemory`.
pub fn write_number(alloc: Global, number: i64) -> Result<Text, NoMemory>
    ensures { IfOk result (λ text. text ≡ signed_decimal number) }
{
    let digits = format!(in alloc; "{number}")?;
    Ok(Text::of(digits.into_bytes()).unwrap())
}

/// The count in decimal. Fails only with `NoMemory`.
pub fn write_count(alloc: Global, count: u64) -> Result<Text, NoMemory>
    ensures { IfOk result (λ text. text ≡ decimal count) }
{
    let digits = format!(in alloc; "{count}")?;
    Ok(Text::of(digits.into_bytes()).unwrap())
}

/// Appends the byte, twice if it is a quote.
fn push_doubled(bytes: &mut Vec<u8>, b: u8) -> Result<(), NoMemory>
    ensures { OnOk result (bytes.new.items ≡ bytes.old.items ++ doubled (b ∷ [])) }
{
    if b == b'\'' {
        bytes.push(b'\'')?;
    }
    bytes.push(b)?;
    Ok(())
}

/// The bytes in quotes, with each quote in them doubled.
fn quoted(alloc: Global, bytes: &[u8]) -> Result<Vec<u8>, NoMemory>
    ensures { IfOk result (λ quoted. quoted.items ≡ 39 ∷ doubled bytes.now ++ 39 ∷ []) }
{
    let mut quoted = Vec::new(alloc);
    quoted.push(b'\'')?;
    for b in bytes {
        push_doubled(&mut quoted, *b)?;
    }
    quoted.push(b'\'')?;
    Ok(quoted)
}

fn write_text(alloc: Global, text: &Text) -> Result<Text, NoMemory>
    ensures { IfOk result (λ literal. literal ≡ 39 ∷ doubled text.now ++ 39 ∷ []) }
{
    let quoted = quoted(alloc, text.as_slice())?;
    Ok(Text::of(quoted).unwrap())
}

/// The literal of a value, as statements have it. Fails only with `NoMemory`.
pub fn write_value(alloc: Global, value: &Value) -> Result<Text, NoMemory>
    ensures { IfOk result (λ text. text ≡ literal value.now) }
{
    match value {
        Value::Int(number) => write_number(alloc, *number),
        Value::Text(text) => write_text(alloc, text.as_text()),
    }
}
