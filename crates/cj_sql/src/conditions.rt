//! Conditions. A condition has at most `TEST_LIMIT` comparisons, each within at most `DEPTH_LIMIT` NOTs and
//! parentheses. So neither reading nor dropping a condition recurses deeply. Each function hands its part
//! on in a box, so that each level of the recursion needs little stack.

ghost use Rattle.std.specs.Prelude.{◌≡◌, IfOk};
ghost use Rattle.cj_model.specs.Proving.ConditionNodes.{condition_of_node};
ghost use Rattle.cj_model.specs.Database.Conditions as tree;
ghost use Rattle.cj_sql.specs.Proving.Cursor.{ReadsAs, ReadsNode};
ghost use Rattle.cj_sql.specs.Proving.ConditionReader as spec;
ghost use Rattle.cj_sql.specs.Proving.ConditionReader.{input_at};

use crate::terms::term;
use crate::tokens::Tokens;
use cj_lex::SqlError;
use cj_model::{Cmp, Cond, CondNode, DEPTH_LIMIT, Keyword, Symbol, TEST_LIMIT};
use std::alloc::{AllocError, Global};

fn not(alloc: Global, inner: Box<CondNode>) -> Result<Box<CondNode>, AllocError>
    ensures { IfOk result (λ node. condition_of_node node.value ≡ tree.Not (condition_of_node inner.value)) }
{
    Ok(Box::new(alloc, CondNode::Not(inner))?)
}

/// What joins conditions.
#[derive(Clone, Copy)]
enum Connective {
    And,
    Or,
}

impl Connective {
    fn keyword(self) -> Keyword
        ensures { result ≡ spec.keyword_of self }
    {
        match self {
            Connective::And => Keyword::And,
            Connective::Or => Keyword::Or,
        }
    }

    /// Joins two conditions by this connective. Fails only if an allocation does.
    fn connect(
        self,
        alloc: Global,
        left: Box<CondNode>,
        right: Box<CondNode>,
    ) -> Result<Box<CondNode>, AllocError>
        ensures { IfOk result (λ node. condition_of_node node.value ≡ spec.compound self (condition_of_node left.value) (condition_of_node right.value)) }
    {
        let node = match self {
            Connective::And => CondNode::And(left, right),
            Connective::Or => CondNode::Or(left, right),
        };
        Ok(Box::new(alloc, node)?)
    }
}

fn cmp_of(symbol: Symbol) -> Option<Cmp>
    ensures { result ≡ spec.cmp_of symbol }
{
    match symbol {
        Symbol::Eq => Some(Cmp::Eq),
        Symbol::Ne => Some(Cmp::Ne),
        Symbol::Lt => Some(Cmp::Lt),
        Symbol::Le => Some(Cmp::Le),
        Symbol::Gt => Some(Cmp::Gt),
        Symbol::Ge => Some(Cmp::Ge),
        _ => None,
    }
}

#[tactic(auto, unfolding(crate::specs::Proving::ConditionReader::comparison))]
fn comparison(tokens: &mut Tokens) -> Result<Cmp, SqlError>
    ensures { ReadsAs spec.comparison tokens.old result tokens.new }
{
    let symbol = tokens.symbol()?;
    match cmp_of(symbol) {
        Some(cmp) => Ok(cmp),
        None => Err(SqlError::Syntax),
    }
}

/// Reads two terms with a comparison between them, and counts it in `tests`, which says how many may still
/// come.
#[tactic(auto, unfolding(crate::specs::Proving::ConditionReader::compared))]
fn test(alloc: Global, tokens: &mut Tokens, tests: &mut usize) -> Result<Box<CondNode>, SqlError>
    ensures { ReadsNode spec.compared (input_at tokens.old tests.old) result (input_at tokens.new tests.new) }
{
    if *tests == 0 {
        return Err(SqlError::Syntax);
    }
    let left = term(alloc, tokens)?;
    let cmp = comparison(tokens)?;
    let right = term(alloc, tokens)?;
    *tests -= 1;
    Ok(Box::new(alloc, CondNode::Test(cmp, left, right))?)
}

/// Reads a comparison, or a condition after NOT or in parentheses, at most `depth` of them deep.
#[cycle(cond)]
#[tactic(auto, unfolding(crate::specs::Proving::ConditionReader::prim))]
fn prim(
    alloc: Global,
    tokens: &mut Tokens,
    tests: &mut usize,
    depth: usize,
) -> Result<Box<CondNode>, SqlError>
    ensures { ReadsNode (spec.prim depth) (input_at tokens.old tests.old) result (input_at tokens.new tests.new) }
{
    if depth == 0 {
        return test(alloc, tokens, tests);
    }
    if tokens.eat_word(Keyword::Not) {
        let inner = prim(alloc, tokens, tests, depth - 1)?;
        return Ok(not(alloc, inner)?);
    }
    if tokens.eat_symbol(Symbol::Open) {
        return parens(alloc, tokens, tests, depth - 1);
    }
    test(alloc, tokens, tests)
}

/// Reads one side of a connective. AND binds tighter than OR.
#[cycle(cond)]
fn side(
    alloc: Global,
    tokens: &mut Tokens,
    tests: &mut usize,
    depth: usize,
    by: Connective,
) -> Result<Box<CondNode>, SqlError>
    ensures { ReadsNode (spec.side (spec.prim depth) by) (input_at tokens.old tests.old) result (input_at tokens.new tests.new) }
{
    match by {
        Connective::And => prim(alloc, tokens, tests, depth),
        Connective::Or => connected(alloc, tokens, tests, depth, Connective::And),
    }
}

/// Reads conditions joined by one connective. Each has a comparison, so `tests` limits their number.
#[cycle(cond)]
#[tactic(auto, unfolding(crate::specs::Proving::ConditionReader::connected))]
fn connected(
    alloc: Global,
    tokens: &mut Tokens,
    tests: &mut usize,
    depth: usize,
    by: Connective,
) -> Result<Box<CondNode>, SqlError>
    ensures { ReadsNode (spec.connected by (spec.side (spec.prim depth) by)) (input_at tokens.old tests.old) result (input_at tokens.new tests.new) }
{
    let mut left = side(alloc, tokens, tests, depth, by)?;
    let turns = *tests;
    for _turn in 0..turns {
        if !tokens.eat_word(by.keyword()) {
            return Ok(left);
        }
        let right = side(alloc, tokens, tests, depth, by)?;
        left = by.connect(alloc, left, right)?;
    }
    if tokens.sees_word(by.keyword()) {
        return Err(SqlError::Syntax);
    }
    Ok(left)
}

/// Reads the rest of a condition in parentheses, after the opening one.
#[cycle(cond)]
#[tactic(auto, unfolding(crate::specs::Proving::ConditionReader::parens))]
fn parens(
    alloc: Global,
    tokens: &mut Tokens,
    tests: &mut usize,
    depth: usize,
) -> Result<Box<CondNode>, SqlError>
    ensures { ReadsNode (spec.parens (spec.prim depth)) (input_at tokens.old tests.old) result (input_at tokens.new tests.new) }
{
    let inner = connected(alloc, tokens, tests, depth, Connective::Or)?;
    tokens.expect_symbol(Symbol::Close)?;
    Ok(inner)
}

#[tactic(auto, unfolding(crate::specs::Proving::ConditionReader::condition))]
fn condition(alloc: Global, tokens: &mut Tokens) -> Result<Cond, SqlError>
    ensures { ReadsAs spec.condition tokens.old result tokens.new }
{
    let mut tests = TEST_LIMIT;
    let root = connected(alloc, tokens, &mut tests, DEPTH_LIMIT, Connective::Or)?;
    Ok(Cond::of(Box::into_inner(root)))
}

/// Reads the WHERE clause, if one is next.
#[tactic(auto, unfolding(crate::specs::Proving::ConditionReader::filter))]
pub fn filter(alloc: Global, tokens: &mut Tokens) -> Result<Option<Cond>, SqlError>
    ensures { ReadsAs spec.filter tokens.old result tokens.new }
{
    if !tokens.eat_word(Keyword::Where) {
        return Ok(None);
    }
    let condition = condition(alloc, tokens)?;
    Ok(Some(condition))
}
