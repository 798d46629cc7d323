//! Strings.

ghost use Rattle.std.specs.Prelude.{IfOk, false};
ghost use Rattle.cj_lex.specs.Proving.Cut as cut;
ghost use Rattle.cj_lex.specs.Proving.Cut.{AnswersClosed, CutsOne};

use crate::error::SqlError;
use cj_model::{TEXT_LIMIT, Text, Token};
use std::alloc::{AllocError, Global};

/// The string's bytes, each doubled quote once, and the text after the closing quote.
type Closed<'a> = Option<(Vec<u8>, &'a [u8])>;

#[tactic(auto, using(crate::proofs::Steps::behind_more))]
fn closing(alloc: Global, mut text: &[u8]) -> Result<Closed<'_>, AllocError>
    ensures { IfOk result (AnswersClosed (cut.close_string false text.entry.now)) }
{
    let mut found = Vec::new(alloc);
    let mut after_quote = false;
    while let [b, rest @ ..] = text {
        if after_quote && *b != b'\'' {
            return Ok(Some((found, text)));
        }
        if !after_quote && *b == b'\'' {
            after_quote = true;
        } else {
            found.push(*b)?;
            after_quote = false;
        }
        text = rest;
    }
    if after_quote {
        Ok(Some((found, text)))
    } else {
        Ok(None)
    }
}

/// Reads a string whose opening quote was just before this text.
#[tactic(auto, unfolding(crate::specs::Proving::Cut::cut_string))]
pub fn cut_string(alloc: Global, text: &[u8]) -> Result<(Token, &[u8]), SqlError>
    ensures { CutsOne (cut.cut_string text.now) result }
{
    let Some((bytes, rest)) = closing(alloc, text)? else {
        return Err(SqlError::Syntax);
    };
    if bytes.len() > TEXT_LIMIT {
        return Err(SqlError::Syntax);
    }
    match Text::of(bytes) {
        Some(text) => Ok((Token::Text(text), rest)),
        None => Err(SqlError::Syntax),
    }
}
