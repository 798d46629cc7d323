//! Names bound to column indexes.

ghost use Rattle.std.specs.Prelude.{◌≡◌, IfOk};
ghost use Rattle.cj_model.specs.Proving.ConditionNodes as conditions;
ghost use Rattle.cj_model.specs.Database.Conditions as tree;
ghost use Rattle.cj_model.specs.Database.Scopes as scopes;
ghost use Rattle.cj_expr.specs.Shapes as shapes;
ghost use Rattle.cj_expr.specs.Results.{GivesPredicate, GivesFormula, bound_condition, bound_expr};

use crate::formula::Formula;
use crate::operand::Operand;
use crate::predicate::{Predicate, PredicateNode};
use crate::scope::Scope;
use cj_model::{
    Cmp, Cond, CondNode, Duplicate, Expr, NO_COLUMN, NoMemory, Refusal, Term, Value, WRONG_TYPE,
};
use std::alloc::Global;
use thiserror::Error;

/// Why a condition or an expression can't be bound.
#[derive(Clone, Copy, Debug, PartialEq, Eq, Error)]
pub enum BindError {
    /// 23 for an unknown column, 28 for kinds that do not agree.
    #[error("refused with code {}", .0.code)]
    Refused(Refusal),
    #[error("out of memory")]
    NoMemory,
}

impl From<NoMemory> for BindError {
    ghost use Rattle.std.specs.Prelude.{◌≡◌};
    ghost use Rattle.cj_expr.specs.declared.binding.BindError.TheVariants as errors;

    ghost from_gives = { λ _error e. e ≡ errors.NoMemory };

    fn from(_error: NoMemory) -> BindError {
        BindError::NoMemory
    }
}

fn refused(code: u16) -> BindError
    ensures { result ≡ BindError.Refused (record { code = code; a = 0; b = 0 }) }
{
    BindError::Refused(Refusal::of_code(code))
}

fn operand_of(alloc: Global, term: &Term, scope: &Scope) -> Result<Operand, NoMemory>
    ensures { IfOk result (λ operand. shapes.operand operand ≡ scopes.operand_of scope.now term.now) }
{
    match term {
        Term::Lit(value) => Ok(Operand::Constant(value.copy(alloc)?)),
        Term::Col(reference) => Ok(Operand::Cell(scope.place(reference).unwrap_or(0))),
        Term::Now => Ok(Operand::Constant(Value::Int(0))),
        Term::Rand(_) => Ok(Operand::Constant(Value::Int(0))),
    }
}

/// Binds an expression, each column to its index in `scope`. An unknown column becomes the first one;
/// `bind_expr` refuses it instead. Fails only with `NoMemory`.
pub fn formula_of(alloc: Global, expr: &Expr, scope: &Scope) -> Result<Formula, NoMemory>
    ensures { IfOk result (λ formula. shapes.formula formula ≡ scopes.formula_of scope.now expr.now) }
{
    match expr {
        Expr::One(term) => Ok(Formula::Just(operand_of(alloc, term, scope)?)),
        Expr::Plus(left, right) => Ok(Formula::Sum(
            operand_of(alloc, left, scope)?,
            operand_of(alloc, right, scope)?,
        )),
        Expr::Minus(left, right) => Ok(Formula::Difference(
            operand_of(alloc, left, scope)?,
            operand_of(alloc, right, scope)?,
        )),
    }
}

fn boxed(alloc: Global, node: PredicateNode) -> Result<Box<PredicateNode>, NoMemory>
    ensures { IfOk result (λ boxed. boxed.value ≡ node) }
{
    Ok(Box::new(alloc, node)?)
}

fn compare_of(
    alloc: Global,
    cmp: Cmp,
    left: &Term,
    right: &Term,
    scope: &Scope,
) -> Result<Box<PredicateNode>, NoMemory>
    ensures { IfOk result (λ node. shapes.predicate_of_node node.value ≡ scopes.predicate_of scope.now (tree.Test cmp left.now right.now)) }
{
    let left = operand_of(alloc, left, scope)?;
    let right = operand_of(alloc, right, scope)?;
    boxed(alloc, PredicateNode::Compare(cmp, left, right))
}

/// Binds a node of a condition, in a box, so that each level of the recursion needs little stack.
fn node_of(alloc: Global, cond: &CondNode, scope: &Scope) -> Result<Box<PredicateNode>, NoMemory>
    ensures { IfOk result (λ node. shapes.predicate_of_node node.value ≡ scopes.predicate_of scope.now (conditions.condition_of_node cond.now)) }
{
    match cond {
        CondNode::Test(cmp, left, right) => compare_of(alloc, *cmp, left, right, scope),
        CondNode::Not(inner) => {
            let inner = node_of(alloc, inner, scope)?;
            boxed(alloc, PredicateNode::Not(inner))
        }
        CondNode::And(left, right) => {
            let left = node_of(alloc, left, scope)?;
            let right = node_of(alloc, right, scope)?;
            boxed(alloc, PredicateNode::And(left, right))
        }
        CondNode::Or(left, right) => {
            let left = node_of(alloc, left, scope)?;
            let right = node_of(alloc, right, scope)?;
            boxed(alloc, PredicateNode::Or(left, right))
        }
    }
}

/// Binds a condition, each column to its index in `scope`. An unknown column becomes the first one; `bind`
/// refuses it instead. Fails only with `NoMemory`.
pub fn predicate_of(alloc: Global, cond: &Cond, scope: &Scope) -> Result<Predicate, NoMemory>
    ensures { IfOk result (λ predicate. predicate ≡ scopes.predicate_of scope.now cond.now) }
{
    let root = node_of(alloc, cond.root(), scope)?;
    Ok(Predicate::of(Box::into_inner(root)))
}

/// Binds a condition to the columns of `scope`. Refuses with 23 if a column is unknown, else with 28 if the
/// sides of a comparison differ in kind. `NoMemory` is answered only where nothing is refused.
pub fn bind(alloc: Global, cond: &Cond, scope: &Scope) -> Result<Predicate, BindError>
    ensures { GivesPredicate (bound_condition scope.now cond.now) result }
{
    if scope.has_unknown_column(cond) {
        return Err(refused(NO_COLUMN));
    }
    if scope.mixes_kinds(cond) {
        return Err(refused(WRONG_TYPE));
    }
    Ok(predicate_of(alloc, cond, scope)?)
}

/// Binds an expression to the columns of `scope`. Refuses with 23 if a column is unknown, else with 28 if a
/// TEXT is under `+` or `-`. `NoMemory` is answered only where nothing is refused.
pub fn bind_expr(alloc: Global, expr: &Expr, scope: &Scope) -> Result<Formula, BindError>
    ensures { GivesFormula (bound_expr scope.now expr.now) result }
{
    if scope.expr_has_unknown_column(expr) {
        return Err(refused(NO_COLUMN));
    }
    if scope.adds_text(expr) {
        return Err(refused(WRONG_TYPE));
    }
    Ok(formula_of(alloc, expr, scope)?)
}
