//! Fields written at the end of bytes.

ghost use Rattle.std.specs.Prelude.{◌<◌, ◌^◌, ◌∷◌, [], length};
ghost use Rattle.std.specs.Int.{w16, w32, w64, to_be_bytes};
ghost use Rattle.cj_model.specs.Wire.Fields.{str16, str32};
ghost use Rattle.cj_model.specs.Wire.Replies.{value_bytes};
ghost use Rattle.cj_codec.specs.Fields.{str64};
ghost use Rattle.cj_codec.specs.Writings.{Appends, HasShortText};

use cj_model::{NoMemory, Value};

/// Appends a byte. Out of memory leaves the bytes as they were, or with a front of the field.
pub fn put_u8(out: &mut Vec<u8>, number: u8) -> Result<(), NoMemory>
    ensures { Appends (number ∷ []) out.old.items out.new.items result }
{
    out.push(number)?;
    Ok(())
}

/// Appends a number as two bytes, the most significant first. Out of memory may leave a front of them.
pub fn put_u16(out: &mut Vec<u8>, number: u16) -> Result<(), NoMemory>
    ensures { Appends (to_be_bytes w16 number) out.old.items out.new.items result }
{
    out.extend_from_slice(&number.to_be_bytes())?;
    Ok(())
}

/// Appends a number as four bytes, the most significant first. Out of memory may leave a front of them.
pub fn put_u32(out: &mut Vec<u8>, number: u32) -> Result<(), NoMemory>
    ensures { Appends (to_be_bytes w32 number) out.old.items out.new.items result }
{
    out.extend_from_slice(&number.to_be_bytes())?;
    Ok(())
}

/// Appends a number as eight bytes, the most significant first. Out of memory may leave a front of them.
pub fn put_u64(out: &mut Vec<u8>, number: u64) -> Result<(), NoMemory>
    ensures { Appends (to_be_bytes w64 number) out.old.items out.new.items result }
{
    out.extend_from_slice(&number.to_be_bytes())?;
    Ok(())
}

/// Appends bytes as they are. Out of memory may leave a front of them.
fn put_block(out: &mut Vec<u8>, bytes: &[u8]) -> Result<(), NoMemory>
    ensures { Appends bytes.now out.old.items out.new.items result }
{
    out.extend_from_slice(bytes)?;
    Ok(())
}

/// Appends a length of two bytes, and then the bytes, at most 65,535. Out of memory may leave a front of the field.
pub fn put_str16(out: &mut Vec<u8>, bytes: &[u8]) -> Result<(), NoMemory>
    requires { length bytes.now < 2 ^ 16 }
    ensures { Appends (str16 bytes.now) out.old.items out.new.items result }
{
    put_u16(out, bytes.len() as u16)?;
    put_block(out, bytes)
}

/// Appends a length of four bytes, and then the bytes, fewer than 2^32. Out of memory may leave a front of the field.
pub fn put_str32(out: &mut Vec<u8>, bytes: &[u8]) -> Result<(), NoMemory>
    requires { length bytes.now < 2 ^ 32 }
    ensures { Appends (str32 bytes.now) out.old.items out.new.items result }
{
    put_u32(out, bytes.len() as u32)?;
    put_block(out, bytes)
}

/// Appends a length of eight bytes, and then the bytes. Out of memory may leave a front of the field.
pub fn put_str64(out: &mut Vec<u8>, bytes: &[u8]) -> Result<(), NoMemory>
    ensures { Appends (str64 bytes.now) out.old.items out.new.items result }
{
    put_u64(out, bytes.len() as u64)?;
    put_block(out, bytes)
}

/// Appends a value: 01 and eight bytes of two's complement, or 02, four bytes of length and the text.
///
/// A text has fewer than 2^32 bytes; with more than `TEXT_LIMIT` it isn't read back.
/// Out of memory may leave a front of the field.
pub fn put_value(out: &mut Vec<u8>, value: &Value) -> Result<(), NoMemory>
    requires { HasShortText value.now }
    ensures { Appends (value_bytes value.now) out.old.items out.new.items result }
{
    match value {
        Value::Int(number) => {
            put_u8(out, 1)?;
            put_block(out, &number.to_be_bytes())
        }
        Value::Text(text) => {
            put_u8(out, 2)?;
            put_str32(out, text.as_slice())
        }
    }
}
