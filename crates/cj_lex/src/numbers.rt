//! Numbers.

ghost use Rattle.std.specs.Prelude.{◌≡◌, ◌^◌, ◌-◌, ◌+◌, ◌*◌, min};
ghost use Rattle.cj_model.specs.Sql.Lexical as lexical;
ghost use Rattle.cj_lex.specs.Proving.Cut as cut;
ghost use Rattle.cj_lex.specs.Proving.Cut.{CutsOne};

use crate::bytes::{Class, begins, count};
use crate::error::SqlError;
use cj_model::Token;

/// The largest number that a text can hold: a minus before it makes it the least `i64`.
const NUMBER_LIMIT: u64 = 1 << 63;

fn with_digit(n: u64, digit: u8) -> u64
    ensures { result ≡ min (10 * n + (digit - 48)) (2 ^ 64 - 1) }
{
    n.saturating_mul(10)
        .saturating_add(u64::from(digit.saturating_sub(b'0')))
}

/// The number that the digits spell, or the largest `u64` if that is smaller.
fn value(digits: &[u8]) -> u64
    ensures { result ≡ min (lexical.number_spelled digits.now) (2 ^ 64 - 1) }
{
    let mut n = 0;
    for digit in digits {
        n = with_digit(n, *digit);
    }
    n
}

/// Reads the number at the front of the text, which begins with a digit.
#[tactic(auto, unfolding(crate::specs::Proving::Cut::cut_number))]
pub fn cut_number(text: &[u8]) -> Result<(Token, &[u8]), SqlError>
    ensures { CutsOne (cut.cut_number text.now) result }
{
    let n = count(Class::Digit, text);
    if begins(Class::Word, &text[n..]) {
        return Err(SqlError::Syntax);
    }
    let number = value(&text[..n]);
    if number > NUMBER_LIMIT {
        return Err(SqlError::Syntax);
    }
    Ok((Token::Number(number), &text[n..]))
}
