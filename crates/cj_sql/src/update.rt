//! UPDATE and DELETE.

ghost use Rattle.cj_sql.specs.Proving.Cursor.{ReadsAs};
ghost use Rattle.cj_sql.specs.Proving.StatementReader as spec;

use crate::conditions::filter;
use crate::list::{Element, items};
use crate::terms::expr;
use crate::tokens::Tokens;
use cj_lex::SqlError;
use cj_model::{COLUMN_LIMIT, Keyword, Request, Set, Symbol, Write};
use std::alloc::Global;

impl Element for Set {
    ghost use Rattle.cj_sql.specs.Proving.StatementReader.{set_clause};

    ghost reader = { set_clause };

    #[tactic(auto, unfolding(crate::specs::Proving::StatementReader::set_clause))]
    fn read(alloc: Global, tokens: &mut Tokens) -> Result<Set, SqlError> {
        let column = tokens.name()?;
        tokens.expect_symbol(Symbol::Eq)?;
        let value = expr(alloc, tokens)?;
        Ok(Set { column, value })
    }
}

/// Reads the rest of an UPDATE, after that word.
#[tactic(auto, unfolding(crate::specs::Proving::StatementReader::update))]
pub fn update(alloc: Global, tokens: &mut Tokens) -> Result<Request, SqlError>
    ensures { ReadsAs spec.update tokens.old result tokens.new }
{
    let table = tokens.name()?;
    tokens.expect_word(Keyword::Set)?;
    let sets = items::<Set>(alloc, tokens, COLUMN_LIMIT)?;
    let cond = filter(alloc, tokens)?;
    Ok(Request::Write(Write::Update { table, sets, cond }))
}

/// Reads the rest of a DELETE, after that word.
#[tactic(auto, unfolding(crate::specs::Proving::StatementReader::delete))]
pub fn delete(alloc: Global, tokens: &mut Tokens) -> Result<Request, SqlError>
    ensures { ReadsAs spec.delete tokens.old result tokens.new }
{
    tokens.expect_word(Keyword::From)?;
    let table = tokens.name()?;
    let cond = filter(alloc, tokens)?;
    Ok(Request::Write(Write::Delete { table, cond }))
}
