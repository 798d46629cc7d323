//! All tokens of a text.

ghost use Rattle.cj_lex.specs.Read.{TokensRead};

use crate::error::SqlError;
use crate::lexer::first;
use cj_model::Token;
use std::alloc::Global;
use std::collections::VecDeque;

/// Gives the tokens of a text. Fails with `Syntax` if the text has no tokens of the language, and with
/// `NoMemory` if an allocation fails. Each byte is read a bounded number of times.
pub fn read_tokens(alloc: Global, text: &[u8]) -> Result<VecDeque<Token>, SqlError>
    ensures { TokensRead text.now result }
{
    let mut found = VecDeque::new(alloc);
    let mut left = text;
    while let Some((token, rest)) = first(alloc, left)? {
        found.push_back(token)?;
        left = rest;
    }
    Ok(found)
}
