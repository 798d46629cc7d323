//! Numbers as words.

ghost use Rattle.std.specs.Prelude.{◌≡◌};
ghost use Rattle.std.specs.Char.{is_ascii_digit};
ghost use Rattle.std.specs.List.{list_all};
ghost use Rattle.cj_args.specs.Words as words;
ghost use Rattle.cj_args.specs.Proving as reading;

/// The most digits of a number. Each number of so many digits is a `u64`.
pub const DIGIT_LIMIT: usize = 19;

fn are_digits(word: &[u8]) -> bool
    ensures { result ≡ list_all is_ascii_digit word.now }
{
    word.iter().all(|b| b.is_ascii_digit())
}

fn is_numeral(word: &[u8]) -> bool
    ensures { result ≡ words.is_numeral word.now }
{
    1 <= word.len() && word.len() <= DIGIT_LIMIT && are_digits(word)
}

/// Returns the number that the word writes, if the word is a numeral.
pub(crate) fn number(word: &[u8]) -> Option<u64>
    ensures { result ≡ reading.number_of word.now }
{
    if !is_numeral(word) {
        return None;
    }
    match std::str::from_utf8(word) {
        Ok(text) => match text.parse::<u64>() {
            Ok(number) => Some(number),
            Err(_) => None,
        },
        Err(_) => None,
    }
}
