//! Constants, columns, terms and expressions.

ghost use Rattle.cj_sql.specs.Proving.Cursor.{ReadsAs};
ghost use Rattle.cj_sql.specs.Proving.TermReader as spec;

use crate::list::Element;
use crate::tokens::Tokens;
use cj_lex::SqlError;
use cj_model::{ColRef, Expr, Keyword, Name, Symbol, Term, Value};
use std::alloc::Global;

#[tactic(auto, unfolding(crate::specs::Proving::TermReader::positive))]
fn positive(tokens: &mut Tokens) -> Result<Term, SqlError>
    ensures { ReadsAs spec.positive tokens.old result tokens.new }
{
    let number = tokens.number()?;
    match i64::try_from(number) {
        Ok(number) => Ok(Term::Lit(Value::Int(number))),
        Err(_) => Err(SqlError::Syntax),
    }
}

/// Reads a number after a minus.
#[tactic(auto, unfolding(crate::specs::Proving::TermReader::negative))]
fn negative(tokens: &mut Tokens) -> Result<Term, SqlError>
    ensures { ReadsAs spec.negative tokens.old result tokens.new }
{
    let number = tokens.number()?;
    if number < 1 << 63 {
        Ok(Term::Lit(Value::Int(-(number as i64))))
    } else if number == 1 << 63 {
        Ok(Term::Lit(Value::Int(i64::MIN)))
    } else {
        Err(SqlError::Syntax)
    }
}

#[tactic(auto, unfolding(crate::specs::Proving::TermReader::string))]
fn string(alloc: Global, tokens: &mut Tokens) -> Result<Term, SqlError>
    ensures { ReadsAs spec.string tokens.old result tokens.new }
{
    let text = tokens.text()?;
    Ok(Term::Lit(Value::of_text(alloc, text)?))
}

/// Reads the rest of a NOW call, after that word.
#[tactic(auto, unfolding(crate::specs::Proving::TermReader::now))]
fn now(tokens: &mut Tokens) -> Result<Term, SqlError>
    ensures { ReadsAs spec.now tokens.old result tokens.new }
{
    tokens.expect_symbol(Symbol::Open)?;
    tokens.expect_symbol(Symbol::Close)?;
    Ok(Term::Now)
}

/// Reads the rest of a RAND call, after that word.
#[tactic(auto, unfolding(crate::specs::Proving::TermReader::rand))]
fn rand(tokens: &mut Tokens) -> Result<Term, SqlError>
    ensures { ReadsAs spec.rand tokens.old result tokens.new }
{
    tokens.expect_symbol(Symbol::Open)?;
    let bound = tokens.number()?;
    tokens.expect_symbol(Symbol::Close)?;
    if 0 < bound && bound < 1 << 63 {
        Ok(Term::Rand(bound as i64))
    } else {
        Err(SqlError::Syntax)
    }
}

#[tactic(auto, unfolding(crate::specs::Proving::TermReader::const_term))]
fn constant(alloc: Global, tokens: &mut Tokens) -> Result<Term, SqlError>
    ensures { ReadsAs spec.const_term tokens.old result tokens.new }
{
    if tokens.eat_symbol(Symbol::Minus) {
        return negative(tokens);
    }
    if tokens.sees_number() {
        return positive(tokens);
    }
    if tokens.eat_word(Keyword::Now) {
        return now(tokens);
    }
    if tokens.eat_word(Keyword::Rand) {
        return rand(tokens);
    }
    string(alloc, tokens)
}

/// A list of terms is a tuple, whose terms are constants.
impl Element for Term {
    ghost use Rattle.cj_sql.specs.Proving.TermReader.{const_term};

    ghost reader = { const_term };

    fn read(alloc: Global, tokens: &mut Tokens) -> Result<Term, SqlError> {
        constant(alloc, tokens)
    }
}

/// Reads the rest of a column, after its first name.
#[tactic(auto, unfolding(crate::specs::Proving::TermReader::qualified))]
fn qualified(tokens: &mut Tokens, first: Name) -> Result<ColRef, SqlError>
    ensures { ReadsAs (spec.qualified first) tokens.old result tokens.new }
{
    if !tokens.eat_symbol(Symbol::Dot) {
        return Ok(ColRef {
            table: None,
            column: first,
        });
    }
    let column = tokens.name()?;
    Ok(ColRef {
        table: Some(first),
        column,
    })
}

/// Reads a column, with or without its table's name.
#[tactic(auto, unfolding(crate::specs::Proving::TermReader::column))]
pub fn column(tokens: &mut Tokens) -> Result<ColRef, SqlError>
    ensures { ReadsAs spec.column tokens.old result tokens.new }
{
    let first = tokens.name()?;
    qualified(tokens, first)
}

/// Reads a constant or a column.
#[tactic(auto, unfolding(crate::specs::Proving::TermReader::term))]
pub fn term(alloc: Global, tokens: &mut Tokens) -> Result<Term, SqlError>
    ensures { ReadsAs spec.term tokens.old result tokens.new }
{
    if tokens.sees_name() {
        let column = column(tokens)?;
        Ok(Term::Col(column))
    } else {
        constant(alloc, tokens)
    }
}

/// Reads the rest of an expression, after its first term.
#[tactic(auto, unfolding(crate::specs::Proving::TermReader::combined))]
fn combined(alloc: Global, tokens: &mut Tokens, left: Term) -> Result<Expr, SqlError>
    ensures { ReadsAs (spec.combined left) tokens.old result tokens.new }
{
    if tokens.eat_symbol(Symbol::Plus) {
        let right = term(alloc, tokens)?;
        return Ok(Expr::Plus(left, right));
    }
    if tokens.eat_symbol(Symbol::Minus) {
        let right = term(alloc, tokens)?;
        return Ok(Expr::Minus(left, right));
    }
    Ok(Expr::One(left))
}

/// Reads a term, or two with a plus or a minus between them.
#[tactic(auto, unfolding(crate::specs::Proving::TermReader::expr))]
pub fn expr(alloc: Global, tokens: &mut Tokens) -> Result<Expr, SqlError>
    ensures { ReadsAs spec.expr tokens.old result tokens.new }
{
    let left = term(alloc, tokens)?;
    combined(alloc, tokens, left)
}
