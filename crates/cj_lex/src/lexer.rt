//! The token at the front of a text.

ghost use Rattle.cj_lex.specs.Proving.Cut as cut;
ghost use Rattle.cj_lex.specs.Proving.Cut.{AnswersCut};

use crate::bytes::{Class, count, is_in};
use crate::error::SqlError;
use crate::numbers::cut_number;
use crate::quoted::cut_string;
use crate::symbols::cut_symbol;
use crate::words::cut_word;
use cj_model::Token;
use std::alloc::Global;

/// The token at the front of a text without leading white space, and the text after it; none for an empty
/// text.
#[tactic(auto, unfolding(crate::specs::Proving::Cut::cut_at))]
fn cut_at(alloc: Global, text: &[u8]) -> Result<Option<(Token, &[u8])>, SqlError>
    ensures { AnswersCut (cut.cut_at text.now) result }
{
    let [b, rest @ ..] = text else {
        return Ok(None);
    };
    if is_in(Class::Letter, *b) {
        let found = cut_word(text)?;
        Ok(Some(found))
    } else if b.is_ascii_digit() {
        let found = cut_number(text)?;
        Ok(Some(found))
    } else if *b == b'\'' {
        let found = cut_string(alloc, rest)?;
        Ok(Some(found))
    } else {
        match cut_symbol(*b, rest) {
            Some((symbol, rest)) => Ok(Some((Token::Symbol(symbol), rest))),
            None => Err(SqlError::Syntax),
        }
    }
}

/// The first token of a text and the text after it; none if the text is white space only.
#[tactic(auto, unfolding(crate::specs::Proving::Cut::first_token))]
pub fn first(alloc: Global, text: &[u8]) -> Result<Option<(Token, &[u8])>, SqlError>
    ensures { AnswersCut (cut.first_token text.now) result }
{
    let n = count(Class::Blank, text);
    cut_at(alloc, &text[n..])
}
