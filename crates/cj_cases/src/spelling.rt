//! Texts that spell bytes, and bytes as texts.

ghost use Rattle.std.specs.Prelude.{◌≡◌, ◌++◌, ◌<◌, true, IfOk, OnOk};
ghost use Rattle.cj_cases.specs.Lines.{items_of};
ghost use Rattle.cj_cases.specs.Spellings as spec;
ghost use Rattle.cj_cases.specs.Spellings.{IsDigitAt, StepsToPlace};

use cj_model::NoMemory;
use std::alloc::Global;

/// Where a reader is in a text.
#[derive(Clone, Copy)]
pub(crate) enum Place {
    /// Between the spellings of two bytes.
    Between,
    /// After a backslash.
    BehindBackslash,
    /// After `\x`.
    BehindX,
    /// After the first of two digits, which is this one.
    BehindDigit(u8),
}

/// What the next byte of the text does.
#[derive(Clone, Copy)]
pub(crate) enum Step {
    Goes(Place),
    Gives(u8),
    Wrong,
}

fn is_digit(b: u8) -> bool
    ensures { result ≡ spec.is_digit b }
{
    (b >= b'0' && b <= b'9') || (b >= b'a' && b <= b'f')
}

fn digit_value(b: u8) -> u8
    requires { spec.is_digit b ≡ true }
    ensures value { result ≡ spec.digit_value b }
    ensures small { result < 16 }
{
    if b <= b'9' { b - b'0' } else { b - 87 }
}

fn digit_byte(n: u8) -> u8
    requires { n < 16 }
    ensures { result ≡ spec.digit_byte n }
{
    if n < 10 { n + 48 } else { n + 87 }
}

fn next_step(place: Place, b: u8) -> Step
    requires { IsDigitAt place }
    ensures step { result ≡ spec.next_step place b }
    ensures place { StepsToPlace result }
{
    match place {
        Place::Between if b == b'\\' => Step::Goes(Place::BehindBackslash),
        Place::Between => Step::Gives(b),
        Place::BehindBackslash if b == b'\\' => Step::Gives(b'\\'),
        Place::BehindBackslash if b == b'n' => Step::Gives(b'\n'),
        Place::BehindBackslash if b == b'x' => Step::Goes(Place::BehindX),
        Place::BehindX if is_digit(b) => Step::Goes(Place::BehindDigit(digit_value(b))),
        Place::BehindDigit(high) if is_digit(b) => Step::Gives(16 * high + digit_value(b)),
        _ => Step::Wrong,
    }
}

/// Returns the bytes that a text spells, or `None` if it spells none.
pub(crate) fn spelled(alloc: Global, text: &[u8]) -> Result<Option<Vec<u8>>, NoMemory>
    ensures { IfOk result (λ bytes. items_of bytes ≡ spec.spelled text.now) }
{
    let mut bytes = Vec::new(alloc);
    let mut place = Place::Between;
    for b in text {
        match next_step(place, *b) {
            Step::Goes(next) => place = next,
            Step::Gives(byte) => {
                bytes.push(byte)?;
                place = Place::Between;
            }
            Step::Wrong => return Ok(None),
        }
    }
    match place {
        Place::Between => Ok(Some(bytes)),
        _ => Ok(None),
    }
}

fn append_byte(text: &mut Vec<u8>, b: u8) -> Result<(), NoMemory>
    ensures { OnOk result (text.new.items ≡ text.old.items ++ spec.shown_byte b) }
{
    if b == b'\\' {
        text.extend_from_slice(b"\\\\")?;
    } else if b == b'\n' {
        text.extend_from_slice(b"\\n")?;
    } else if b >= b' ' && b <= b'~' {
        text.push(b)?;
    } else {
        text.extend_from_slice(&[b'\\', b'x', digit_byte(b / 16), digit_byte(b % 16)])?;
    }
    Ok(())
}

/// Appends the one text of printable characters that is shown for the bytes.
pub(crate) fn append_text(text: &mut Vec<u8>, bytes: &[u8]) -> Result<(), NoMemory>
    ensures { OnOk result (text.new.items ≡ text.old.items ++ spec.shown_text bytes.now) }
{
    for b in bytes {
        append_byte(text, *b)?;
    }
    Ok(())
}
