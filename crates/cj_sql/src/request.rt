//! Whole requests.

ghost use Rattle.cj_sql.specs.Proving.Cursor.{ReadsAs};
ghost use Rattle.cj_sql.specs.Read.{IsRead};
ghost use Rattle.cj_sql.specs.Proving.StatementReader as spec;

use crate::create::{create, drop_table};
use crate::insert::insert;
use crate::select::select;
use crate::tokens::Tokens;
use crate::update::{delete, update};
use cj_lex::{SqlError, read_tokens};
use cj_model::{Keyword, Request, Symbol};
use std::alloc::Global;

#[tactic(auto, unfolding(crate::specs::Proving::StatementReader::statement))]
fn statement(alloc: Global, tokens: &mut Tokens) -> Result<Request, SqlError>
    ensures { ReadsAs spec.statement tokens.old result tokens.new }
{
    if tokens.eat_word(Keyword::Create) {
        return create(alloc, tokens);
    }
    if tokens.eat_word(Keyword::Drop) {
        return drop_table(tokens);
    }
    if tokens.eat_word(Keyword::Insert) {
        return insert(alloc, tokens);
    }
    if tokens.eat_word(Keyword::Update) {
        return update(alloc, tokens);
    }
    if tokens.eat_word(Keyword::Delete) {
        return delete(alloc, tokens);
    }
    if tokens.eat_word(Keyword::Begin) {
        return Ok(Request::Begin);
    }
    if tokens.eat_word(Keyword::Commit) {
        return Ok(Request::Commit);
    }
    if tokens.eat_word(Keyword::Rollback) {
        return Ok(Request::Rollback);
    }
    tokens.expect_word(Keyword::Select)?;
    select(alloc, tokens)
}

/// Reads a statement and a semicolon, if there is one. Fails with `Syntax` if anything follows.
#[tactic(auto, unfolding(crate::specs::Proving::StatementReader::whole))]
fn whole(alloc: Global, tokens: &mut Tokens) -> Result<Request, SqlError>
    ensures { ReadsAs spec.whole tokens.old result tokens.new }
{
    let request = statement(alloc, tokens)?;
    tokens.eat_symbol(Symbol::Semi);
    if tokens.sees_end() {
        Ok(request)
    } else {
        Err(SqlError::Syntax)
    }
}

/// Reads the text of a request. Fails with `Syntax` if the text reads as no request of the grammar, or
/// exceeds one of its limits. Fails with `NoMemory` if an allocation fails.
pub fn read(alloc: Global, text: &[u8]) -> Result<Request, SqlError>
    ensures { IsRead text.now result }
{
    let found = read_tokens(alloc, text)?;
    let mut tokens = Tokens::new(found);
    whole(alloc, &mut tokens)
}
