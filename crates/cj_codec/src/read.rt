//! Fields read from the front of bytes: each function answers the field, and the bytes after it.

ghost use Rattle.cj_codec.specs.Fields.{byte, number16, number32, number64, block, string16, string32, string64, name, integer, stored_text, value};
ghost use Rattle.cj_codec.specs.Readings.{GivesReading};

use crate::error::{Fault, Stop};
use cj_model::{Name, TEXT_LIMIT, Text, Value};
use std::alloc::Global;

/// Reads `count` bytes.
fn block_of(bytes: &[u8], count: u64) -> Result<(&[u8], &[u8]), Stop>
    ensures { GivesReading (λ x. (x.0.now, x.1.now)) result ((block count).reads bytes.now) }
{
    if (bytes.len() as u64) < count {
        return Err(Stop::Fault(Fault::Cut));
    }
    Ok(bytes.split_at(count as usize))
}

/// Reads a byte.
pub fn u8_of(bytes: &[u8]) -> Result<(u8, &[u8]), Stop>
    ensures { GivesReading (λ x. (x.0, x.1.now)) result (byte.reads bytes.now) }
{
    match bytes {
        [] => Err(Stop::Fault(Fault::Cut)),
        [byte, rest @ ..] => Ok((*byte, rest)),
    }
}

/// Reads a number of two bytes, the most significant first.
pub fn u16_of(bytes: &[u8]) -> Result<(u16, &[u8]), Stop>
    ensures { GivesReading (λ x. (x.0, x.1.now)) result (number16.reads bytes.now) }
{
    let (front, rest) = block_of(bytes, 2)?;
    Ok((u16::from_be_bytes([front[0], front[1]]), rest))
}

/// Reads a number of four bytes, the most significant first.
pub fn u32_of(bytes: &[u8]) -> Result<(u32, &[u8]), Stop>
    ensures { GivesReading (λ x. (x.0, x.1.now)) result (number32.reads bytes.now) }
{
    if bytes.len() < 4 {
        return Err(Stop::Fault(Fault::Cut));
    }
    let (front, rest) = bytes.split_at(4);
    let number = u32::from_be_bytes([front[0], front[1], front[2], front[3]]);
    Ok((number, rest))
}

/// Reads a number of eight bytes, the most significant first.
pub fn u64_of(bytes: &[u8]) -> Result<(u64, &[u8]), Stop>
    ensures { GivesReading (λ x. (x.0, x.1.now)) result (number64.reads bytes.now) }
{
    if bytes.len() < 8 {
        return Err(Stop::Fault(Fault::Cut));
    }
    let (front, rest) = bytes.split_at(8);
    let number = u64::from_be_bytes([
        front[0], front[1], front[2], front[3], front[4], front[5], front[6], front[7],
    ]);
    Ok((number, rest))
}

/// Reads bytes, after their length of two bytes.
pub fn str16_of(bytes: &[u8]) -> Result<(&[u8], &[u8]), Stop>
    ensures { GivesReading (λ x. (x.0.now, x.1.now)) result (string16.reads bytes.now) }
{
    let (count, rest) = u16_of(bytes)?;
    block_of(rest, u64::from(count))
}

/// Reads bytes, after their length of four bytes.
pub fn str32_of(bytes: &[u8]) -> Result<(&[u8], &[u8]), Stop>
    ensures { GivesReading (λ x. (x.0.now, x.1.now)) result (string32.reads bytes.now) }
{
    let (count, rest) = u32_of(bytes)?;
    block_of(rest, u64::from(count))
}

/// Reads bytes, after their length of eight bytes.
pub fn str64_of(bytes: &[u8]) -> Result<(&[u8], &[u8]), Stop>
    ensures { GivesReading (λ x. (x.0.now, x.1.now)) result (string64.reads bytes.now) }
{
    let (count, rest) = u64_of(bytes)?;
    block_of(rest, count)
}

/// Reads a name, after its length of two bytes.
pub fn name_of(bytes: &[u8]) -> Result<(Name, &[u8]), Stop>
    ensures { GivesReading (λ x. (x.0, x.1.now)) result (name.reads bytes.now) }
{
    let (word, rest) = str16_of(bytes)?;
    match Name::of(word) {
        Some(name) => Ok((name, rest)),
        None => Err(Stop::Fault(Fault::BadField)),
    }
}

/// Reads a signed number: two's complement in eight bytes.
pub fn i64_of(bytes: &[u8]) -> Result<(i64, &[u8]), Stop>
    ensures { GivesReading (λ x. (x.0, x.1.now)) result (integer.reads bytes.now) }
{
    let (number, rest) = u64_of(bytes)?;
    Ok((number.cast_signed(), rest))
}

/// Reads a text, after its length of four bytes, and copies it.
pub fn text_of(alloc: Global, bytes: &[u8]) -> Result<(Text, &[u8]), Stop>
    ensures { GivesReading (λ x. (x.0, x.1.now)) result (stored_text.reads bytes.now) }
{
    let (text, rest) = str32_of(bytes)?;
    if text.len() > TEXT_LIMIT {
        return Err(Stop::Fault(Fault::BadField));
    }
    match Text::of(Vec::from_slice(alloc, text)?) {
        Some(text) => Ok((text, rest)),
        None => Err(Stop::Fault(Fault::BadField)),
    }
}

/// Reads a value, after its tag of one byte; a text is copied.
pub fn value_of(alloc: Global, bytes: &[u8]) -> Result<(Value, &[u8]), Stop>
    ensures { GivesReading (λ x. (x.0, x.1.now)) result (value.reads bytes.now) }
{
    match bytes {
        [] => Err(Stop::Fault(Fault::Cut)),
        [1, rest @ ..] => {
            let (number, rest) = i64_of(rest)?;
            Ok((Value::Int(number), rest))
        }
        [2, rest @ ..] => {
            let (text, rest) = text_of(alloc, rest)?;
            Ok((Value::of_text(alloc, text)?, rest))
        }
        _ => Err(Stop::Fault(Fault::BadField)),
    }
}
