//! Which entries a backend mostly carries out before a thread would have woken: each backend takes them in the
//! session's thread. No contract depends on this. It decides who carries an entry out, and nothing of what comes of it.

use cj_model::{Act, Cmp, CondNode, Term, Write};

/// So many rows are inserted sooner than a thread wakes.
const ROWS: usize = 64;

/// Whether a comparison is one of a column and a constant.
fn is_column_and_constant(left: &Term, right: &Term) -> bool {
    match (left, right) {
        (Term::Col(_), Term::Lit(_)) | (Term::Lit(_), Term::Col(_)) => true,
        _ => false,
    }
}

/// Whether each row that matches has a value in a column that is given, as where that is a key.
fn gives_value(node: &CondNode) -> bool {
    match node {
        CondNode::Test(Cmp::Eq, left, right) => is_column_and_constant(left, right),
        CondNode::And(left, right) => gives_value(left) || gives_value(right),
        _ => false,
    }
}

/// Whether a change of rows concerns few of them, as far as its text tells.
fn concerns_few(write: &Write) -> bool {
    let cond = match write {
        Write::Insert { rows, .. } => return rows.len() <= ROWS,
        Write::Update { cond, .. } => cond,
        Write::Delete { cond, .. } => cond,
    };
    match cond {
        Some(cond) => gives_value(cond.root()),
        None => false,
    }
}

/// Whether an entry is carried out sooner than a thread wakes, as far as its text tells.
pub(crate) fn is_brief(act: &Act) -> bool {
    match act {
        Act::Begin | Act::Commit | Act::Abort => true,
        Act::Create(_) | Act::Drop(_) => false,
        Act::Write(write) => concerns_few(write),
    }
}
