//! The words of a line: what is between spaces.

ghost use Rattle.std.specs.Prelude.{◌≡◌, ◌↔◌, ◌≤◌, ℕ, List, length, position, IsTrue, MatchOption};
ghost use Rattle.std.specs.Char.{is_ascii_digit};
ghost use Rattle.std.specs.List.{list_all};
ghost use Rattle.std.specs.Str.{bytes_eq};
ghost use Rattle.std.specs.Option.{option_copied};
ghost use Rattle.cj_cluster.specs.Script.Lines.{IsBackend, IsNumber, HasNoSpace};
ghost use Rattle.cj_words.specs.Words.{CutsWord, FindsValue, IsFirstSpace, IsNamed, IsNumbered};
ghost use Rattle.cj_words.specs.Words as spec;

use cj_model::{BACKEND_LIMIT, Name, Names};

/// Returns the index of the first space, if there is one.
fn first_space(bytes: &[u8]) -> Option<usize>
    ensures { MatchOption result (HasNoSpace bytes.now) (λ at. IsFirstSpace bytes.now at) }
{
    for (i, b) in bytes.iter().enumerate() {
        if *b == b' ' {
            return Some(i);
        }
    }
    None
}

/// Whether the bytes have no space.
pub fn is_word(bytes: &[u8]) -> bool
    ensures { IsTrue result ↔ HasNoSpace bytes.now }
{
    first_space(bytes).is_none()
}

/// Returns the first word of a line, and what follows the space after it, if there is a space.
pub fn cut(line: &[u8]) -> (&[u8], Option<&[u8]>)
    ensures { CutsWord line.now result.0.now (option_copied result.1) }
{
    match first_space(line) {
        Some(at) => {
            let (word, rest) = line.split_at(at);
            let (_, rest) = rest.split_at(1);
            (word, Some(rest))
        }
        None => (line, None),
    }
}

fn begins_number(word: &[u8]) -> bool
    ensures { result ≡ spec.begins_number word.now }
{
    match word {
        [] => false,
        [first, rest @ ..] => *first != b'0' || rest.is_empty(),
    }
}

fn are_digits(word: &[u8]) -> bool
    ensures { result ≡ list_all is_ascii_digit word.now }
{
    word.iter().all(|b| b.is_ascii_digit())
}

/// Whether the word is how a number is written: decimal digits, without a leading zero.
fn is_numeral(word: &[u8]) -> bool
    ensures { result ≡ spec.is_numeral word.now }
{
    begins_number(word) && are_digits(word)
}

/// Returns the number that the word is, if it is one and a `u64`.
pub fn number(word: &[u8]) -> Option<u64>
    ensures { FindsValue (IsNumber word.now) result }
{
    if !is_numeral(word) {
        return None;
    }
    match std::str::from_utf8(word) {
        Ok(text) => match text.parse::<u64>() {
            Ok(number) => Some(number),
            Err(_) => None,
        },
        Err(_) => None,
    }
}

/// Returns the number that the first word is, and what follows the space after it.
pub fn numbered(rest: &[u8]) -> Option<(u64, &[u8])>
    ensures { MatchOption result ((n : ℕ) → (more : List ℕ) → IsNumbered rest.now n more → ⊥) (λ found. IsNumbered rest.now found.0 found.1.now) }
{
    match cut(rest) {
        (word, Some(more)) => match number(word) {
            Some(number) => Some((number, more)),
            None => None,
        },
        (_, None) => None,
    }
}

/// Returns the index of the first name that is the word.
fn place_of(names: &[Name], word: &[u8]) -> Option<usize>
    ensures { result ≡ position (bytes_eq word.now) names.now }
{
    names.iter().position(|name| word == name.as_slice())
}

/// Returns the number of the first backend of this name, if there is one.
pub fn backend(names: &Names, word: &[u8]) -> Option<u8>
    requires { length names.now ≤ BACKEND_LIMIT }
    ensures { FindsValue (IsBackend names.now word.now) result }
{
    if !is_word(word) {
        return None;
    }
    match place_of(names.as_slice(), word) {
        Some(place) => Some(place as u8),
        None => None,
    }
}

/// Returns the number of the backend that the first word names, and what follows the space after
/// it.
pub fn named<'a>(names: &Names, rest: &'a [u8]) -> Option<(u8, &'a [u8])>
    requires { length names.now ≤ BACKEND_LIMIT }
    ensures { MatchOption result ((b : ℕ) → (more : List ℕ) → IsNamed names.now rest.now b more → ⊥) (λ found. IsNamed names.now rest.now found.0 found.1.now) }
{
    match cut(rest) {
        (word, Some(more)) => match backend(names, word) {
            Some(b) => Some((b, more)),
            None => None,
        },
        (_, None) => None,
    }
}
