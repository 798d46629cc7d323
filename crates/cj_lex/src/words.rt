//! Words: names and reserved words.

ghost use Rattle.std.specs.Prelude.{◌≡◌};
ghost use Rattle.cj_lex.specs.Proving.Cut as cut;
ghost use Rattle.cj_lex.specs.Proving.Cut.{CutsOne};

use crate::bytes::{Class, count};
use crate::error::SqlError;
use crate::keywords::keyword;
use cj_model::{Name, Token};

fn word_token(name: Name) -> Token
    ensures { result ≡ cut.word_token name }
{
    match keyword(name.as_slice()) {
        Some(keyword) => Token::Word(keyword),
        None => Token::Name(name),
    }
}

/// Reads the word at the front of the text, which begins with a letter. The word is put into lower case in
/// place.
#[tactic(auto, unfolding(crate::specs::Proving::Cut::cut_word))]
pub fn cut_word(text: &[u8]) -> Result<(Token, &[u8]), SqlError>
    ensures { CutsOne (cut.cut_word text.now) result }
{
    let n = count(Class::Word, text);
    match Name::lower(&text[..n]) {
        Some(name) => Ok((word_token(name), &text[n..])),
        None => Err(SqlError::Syntax),
    }
}
