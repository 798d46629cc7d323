//! Statements as keys of a map, by the equality that contracts see.

ghost use Rattle.std.specs.Prelude.{◌≡◌, ◌++◌, fold};
ghost use Rattle.std.specs.Cmp.{partial_equiv_from_equiv};
ghost use Rattle.cj_model.specs.Proving.ConditionNodes.{condition_of_node};
ghost use Rattle.cj_model.specs.Proving.SameStatements.{fed_condition, fed_limit, fed_term, fed_value, fed_where};

use crate::condition::{Cond, CondNode};
use crate::name::Name;
use crate::same::Same;
use crate::select::Select;
use crate::term::Term;
use crate::value::Value;
use std::hash::{Hash, Hasher};

fn feed_value<H: Hasher>(value: &Value, state: &mut H)
    ensures { state.new ≡ fold H.write state.old (fed_value value.now) }
{
    match value {
        Value::Int(number) => number.hash(state),
        Value::Text(text) => text.as_slice().hash(state),
    }
}

fn feed_term<H: Hasher>(term: &Term, state: &mut H)
    ensures { state.new ≡ fold H.write state.old (fed_term term.now) }
{
    match term {
        Term::Lit(value) => feed_value(value, state),
        Term::Col(column) => column.column.hash(state),
        Term::Now => {}
        Term::Rand(_) => {}
    }
}

fn feed_terms<H: Hasher>(left: &Term, right: &Term, state: &mut H)
    ensures { state.new ≡ fold H.write state.old (fed_term left.now ++ fed_term right.now) }
{
    feed_term(left, state);
    feed_term(right, state);
}

/// Feeds the columns and literals of a condition to a hash.
fn feed_node<H: Hasher>(node: &CondNode, state: &mut H)
    ensures { state.new ≡ fold H.write state.old (fed_condition (condition_of_node node.now)) }
{
    match node {
        CondNode::Test(_, left, right) => feed_terms(left, right, state),
        CondNode::Not(inner) => feed_node(inner, state),
        CondNode::And(left, right) => {
            feed_node(left, state);
            feed_node(right, state);
        }
        CondNode::Or(left, right) => {
            feed_node(left, state);
            feed_node(right, state);
        }
    }
}

fn feed_where<H: Hasher>(cond: &Option<Cond>, state: &mut H)
    ensures { state.new ≡ fold H.write state.old (fed_where cond.now) }
{
    match cond {
        None => {}
        Some(cond) => feed_node(cond.root(), state),
    }
}

fn feed_limit<H: Hasher>(limit: Option<u64>, state: &mut H)
    ensures { state.new ≡ fold H.write state.old (fed_limit limit) }
{
    match limit {
        None => {}
        Some(rows) => rows.hash(state),
    }
}

impl PartialEq for Name {
    ghost use Rattle.std.specs.Str.{bytes_eq};
    ghost use Rattle.std.specs.Cmp.Lexicographic.{nat_list_eq_equiv};

    ghost eq = { bytes_eq };

    ghost laws = { partial_equiv_from_equiv nat_list_eq_equiv };

    fn eq(&self, other: &Name) -> bool {
        self.as_slice() == other.as_slice()
    }
}

impl Eq for Name {
    ghost use Rattle.std.specs.Cmp.Lexicographic.{nat_list_eq_equiv};

    ghost laws = { nat_list_eq_equiv };
}

impl Hash for Name {
    ghost use Rattle.cj_model.specs.Proving.SameStatements.{fed_name, names_alike};

    ghost hash_input = { fed_name };

    ghost respects_eq = { names_alike };

    fn hash<H: Hasher>(&self, state: &mut H) {
        self.as_slice().hash(state);
    }
}

impl PartialEq for Select {
    ghost use Rattle.cj_model.specs.Proving.SameStatements.{same_statement, statement_equiv};

    ghost eq = { same_statement };

    ghost laws = { partial_equiv_from_equiv statement_equiv };

    fn eq(&self, other: &Select) -> bool {
        self.is_same(other)
    }
}

impl Eq for Select {
    ghost use Rattle.cj_model.specs.Proving.SameStatements.{statement_equiv};

    ghost laws = { statement_equiv };
}

impl Hash for Select {
    ghost use Rattle.cj_model.specs.Proving.SameStatements.{fed_statement, statements_alike};

    ghost hash_input = { fed_statement };

    ghost respects_eq = { statements_alike };

    fn hash<H: Hasher>(&self, state: &mut H) {
        self.tables.as_slice().hash(state);
        feed_where(&self.cond, state);
        feed_limit(self.limit, state);
    }
}
