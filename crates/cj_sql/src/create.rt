//! CREATE TABLE and DROP TABLE.

ghost use Rattle.cj_sql.specs.Proving.Cursor.{ReadsAs};
ghost use Rattle.cj_sql.specs.Proving.StatementReader as spec;

use crate::list::{Element, items};
use crate::tokens::Tokens;
use cj_lex::SqlError;
use cj_model::{COLUMN_LIMIT, ColDef, Create, Keyword, Kind, Request, Symbol};
use std::alloc::Global;

#[tactic(auto, unfolding(crate::specs::Proving::StatementReader::column_kind))]
fn kind(tokens: &mut Tokens) -> Result<Kind, SqlError>
    ensures { ReadsAs spec.column_kind tokens.old result tokens.new }
{
    if tokens.eat_word(Keyword::Integer) {
        return Ok(Kind::Integer);
    }
    tokens.expect_word(Keyword::Text)?;
    Ok(Kind::Text)
}

/// Reads PRIMARY KEY, if it is next, and says whether it was.
#[tactic(auto, unfolding(crate::specs::Proving::StatementReader::primary))]
fn primary(tokens: &mut Tokens) -> Result<bool, SqlError>
    ensures { ReadsAs spec.primary tokens.old result tokens.new }
{
    if !tokens.eat_word(Keyword::Primary) {
        return Ok(false);
    }
    tokens.expect_word(Keyword::Key)?;
    Ok(true)
}

impl Element for ColDef {
    ghost use Rattle.cj_sql.specs.Proving.StatementReader.{coldef};

    ghost reader = { coldef };

    #[tactic(auto, unfolding(crate::specs::Proving::StatementReader::coldef))]
    fn read(_alloc: Global, tokens: &mut Tokens) -> Result<ColDef, SqlError> {
        let name = tokens.name()?;
        let kind = kind(tokens)?;
        let key = primary(tokens)?;
        Ok(ColDef { name, kind, key })
    }
}

/// Reads the rest of a CREATE TABLE, after CREATE.
#[tactic(auto, unfolding(crate::specs::Proving::StatementReader::create))]
pub fn create(alloc: Global, tokens: &mut Tokens) -> Result<Request, SqlError>
    ensures { ReadsAs spec.create tokens.old result tokens.new }
{
    tokens.expect_word(Keyword::Table)?;
    let table = tokens.name()?;
    tokens.expect_symbol(Symbol::Open)?;
    let columns = items::<ColDef>(alloc, tokens, COLUMN_LIMIT)?;
    tokens.expect_symbol(Symbol::Close)?;
    Ok(Request::Create(Create { table, columns }))
}

/// Reads the rest of a DROP TABLE, after DROP.
#[tactic(auto, unfolding(crate::specs::Proving::StatementReader::drop_table))]
pub fn drop_table(tokens: &mut Tokens) -> Result<Request, SqlError>
    ensures { ReadsAs spec.drop_table tokens.old result tokens.new }
{
    tokens.expect_word(Keyword::Table)?;
    let table = tokens.name()?;
    Ok(Request::Drop(table))
}
