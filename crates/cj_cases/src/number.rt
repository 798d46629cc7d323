//! Numbers as words.

ghost use Rattle.std.specs.Prelude.{◌≡◌};
ghost use Rattle.cj_cases.specs.Lines as spec;

/// Returns the number with one more digit after it, if the byte is a digit and the result a `u64`.
fn with_digit(number: u64, b: u8) -> Option<u64>
    ensures { result ≡ spec.with_digit number b }
{
    if !b.is_ascii_digit() {
        return None;
    }
    let digit = u64::from(b - b'0');
    match number.checked_mul(10) {
        Some(tens) => tens.checked_add(digit),
        None => None,
    }
}

/// Returns the number that the digits write, if it is a `u64`.
fn read_digits(digits: &[u8]) -> Option<u64>
    ensures { result ≡ spec.number_from 0 digits.now }
{
    let mut number = 0;
    for b in digits {
        match with_digit(number, *b) {
            Some(more) => number = more,
            None => return None,
        }
    }
    Some(number)
}

/// Returns the number that a word is. A number has no leading 0 unless it is 0.
pub(crate) fn number_of(word: &[u8]) -> Option<u64>
    ensures { result ≡ spec.number_of word.now }
{
    match word {
        [] | [b'0', _, ..] => None,
        _ => read_digits(word),
    }
}
