//! INSERT.

ghost use Rattle.cj_sql.specs.Proving.Cursor.{ReadsAs};
ghost use Rattle.cj_sql.specs.Proving.StatementReader as spec;

use crate::list::{Element, items};
use crate::tokens::Tokens;
use cj_lex::SqlError;
use cj_model::{
    COLUMN_LIMIT, Keyword, Name, Names, Request, Symbol, TUPLE_LIMIT, Term, Tuple, Write,
};
use std::alloc::Global;

impl Element for Tuple {
    ghost use Rattle.cj_sql.specs.Proving.StatementReader.{tuple};

    ghost reader = { tuple };

    #[tactic(auto, unfolding(crate::specs::Proving::StatementReader::tuple))]
    fn read(alloc: Global, tokens: &mut Tokens) -> Result<Tuple, SqlError> {
        tokens.expect_symbol(Symbol::Open)?;
        let constants = items::<Term>(alloc, tokens, COLUMN_LIMIT)?;
        tokens.expect_symbol(Symbol::Close)?;
        Ok(constants)
    }
}

/// Reads the list of columns in parentheses, if one is next.
#[tactic(auto, unfolding(crate::specs::Proving::StatementReader::columns))]
fn columns(alloc: Global, tokens: &mut Tokens) -> Result<Option<Names>, SqlError>
    ensures { ReadsAs spec.columns tokens.old result tokens.new }
{
    if !tokens.eat_symbol(Symbol::Open) {
        return Ok(None);
    }
    let names = items::<Name>(alloc, tokens, COLUMN_LIMIT)?;
    tokens.expect_symbol(Symbol::Close)?;
    Ok(Some(names))
}

/// Reads the rest of an INSERT, after that word.
#[tactic(auto, unfolding(crate::specs::Proving::StatementReader::insert))]
pub fn insert(alloc: Global, tokens: &mut Tokens) -> Result<Request, SqlError>
    ensures { ReadsAs spec.insert tokens.old result tokens.new }
{
    tokens.expect_word(Keyword::Into)?;
    let table = tokens.name()?;
    let columns = columns(alloc, tokens)?;
    tokens.expect_word(Keyword::Values)?;
    let rows = items::<Tuple>(alloc, tokens, TUPLE_LIMIT)?;
    Ok(Request::Write(Write::Insert {
        table,
        columns,
        rows,
    }))
}
