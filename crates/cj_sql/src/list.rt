//! Lists with commas.

ghost use Rattle.cj_sql.specs.Proving.Cursor.{ReadsAs};
ghost use Rattle.cj_sql.specs.Proving.Reader as spec;

use crate::tokens::Tokens;
use cj_lex::SqlError;
use cj_model::{ListOf, Name, Symbol};
use std::alloc::Global;

/// An element of a list with commas.
pub trait Element: Drop {
    ghost use Rattle.std.specs.Prelude.{List};
    ghost use Rattle.cj_model.specs.declared.token.Token.{Token};
    ghost use Rattle.cj_sql.specs.Proving.Reader.{ReadResult};

    /// The reading function of one element.
    ghost reader: { List Token → ReadResult Self (List Token) };

    fn read(alloc: Global, tokens: &mut Tokens) -> Result<Self, SqlError>
        ensures { ReadsAs reader tokens.old result tokens.new };
}

impl Element for Name {
    ghost use Rattle.cj_sql.specs.Proving.Reader.{expect_name};

    ghost reader = { expect_name };

    fn read(_alloc: Global, tokens: &mut Tokens) -> Result<Name, SqlError> {
        tokens.name()
    }
}

/// Reads one element or more with commas between them. Fails with `Syntax` for more than `limit`.
#[tactic(auto, unfolding(crate::specs::Proving::Reader::items))]
pub fn items<T: Element>(
    alloc: Global,
    tokens: &mut Tokens,
    limit: usize,
) -> Result<ListOf<T>, SqlError>
    ensures { ReadsAs (spec.items T.reader limit) tokens.old result tokens.new }
{
    let mut found = ListOf::new(alloc);
    for _turn in 0..limit {
        found.push(T::read(alloc, tokens)?)?;
        if !tokens.eat_symbol(Symbol::Comma) {
            return Ok(found);
        }
    }
    Err(SqlError::Syntax)
}
