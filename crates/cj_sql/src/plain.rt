//! Requests without calls of the clock and of random numbers.

ghost use Rattle.std.specs.Prelude.{◌≡◌};
ghost use Rattle.std.specs.List.{list_all};
ghost use Rattle.cj_model.specs.Sql.PlainRequests as plain;
ghost use Rattle.cj_model.specs.Proving.ConditionNodes.{condition_of_node};

use cj_model::{Cond, CondNode, Expr, Request, Sets, Term, Tuple, Tuples, Write};

fn is_plain_term(term: &Term) -> bool
    ensures { result ≡ plain.is_plain_term term.now }
{
    match term {
        Term::Lit(_) => true,
        Term::Col(_) => true,
        Term::Now => false,
        Term::Rand(_) => false,
    }
}

fn is_plain_expr(expr: &Expr) -> bool
    ensures { result ≡ plain.is_plain_expr expr.now }
{
    match expr {
        Expr::One(term) => is_plain_term(term),
        Expr::Plus(left, right) => is_plain_term(left) && is_plain_term(right),
        Expr::Minus(left, right) => is_plain_term(left) && is_plain_term(right),
    }
}

fn is_plain_node(node: &CondNode) -> bool
    ensures { result ≡ plain.is_plain_condition (condition_of_node node.now) }
{
    match node {
        CondNode::Test(_, left, right) => is_plain_term(left) && is_plain_term(right),
        CondNode::Not(inner) => is_plain_node(inner),
        CondNode::And(left, right) => is_plain_node(left) && is_plain_node(right),
        CondNode::Or(left, right) => is_plain_node(left) && is_plain_node(right),
    }
}

fn is_plain_where(cond: &Option<Cond>) -> bool
    ensures { result ≡ plain.is_plain_where cond.now }
{
    match cond {
        None => true,
        Some(cond) => is_plain_node(cond.root()),
    }
}

fn are_plain(row: &Tuple) -> bool
    ensures { result ≡ list_all plain.is_plain_term row.now }
{
    row.as_slice().iter().all(is_plain_term)
}

fn are_plain_rows(rows: &Tuples) -> bool
    ensures { result ≡ list_all (λ row. list_all plain.is_plain_term row) rows.now }
{
    rows.as_slice().iter().all(are_plain)
}

fn are_plain_sets(sets: &Sets) -> bool
    ensures { result ≡ list_all (λ set. plain.is_plain_expr set.value) sets.now }
{
    sets.as_slice().iter().all(|set| is_plain_expr(&set.value))
}

fn is_plain_write(write: &Write) -> bool
    ensures { result ≡ plain.is_plain_write write.now }
{
    match write {
        Write::Insert { rows, .. } => are_plain_rows(rows),
        Write::Update { sets, cond, .. } => are_plain_sets(sets) && is_plain_where(cond),
        Write::Delete { cond, .. } => is_plain_where(cond),
    }
}

/// Whether the request calls neither the clock nor random numbers.
pub fn is_plain(request: &Request) -> bool
    ensures { result ≡ plain.is_plain request.now }
{
    match request {
        Request::Select(select) => is_plain_where(&select.cond),
        Request::Write(write) => is_plain_write(write),
        Request::Create(_) => true,
        Request::Drop(_) => true,
        Request::Begin => true,
        Request::Commit => true,
        Request::Rollback => true,
    }
}
