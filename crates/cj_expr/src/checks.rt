//! Whether the columns that a statement names exist, and whether its kinds agree.

ghost use Rattle.std.specs.Prelude.{◌≡◌};
ghost use Rattle.cj_model.specs.Proving.ConditionNodes.{condition_of_node};
ghost use Rattle.cj_model.specs.Database.Scopes as scopes;
ghost use Rattle.cj_model.specs.Database.Tables as tables;

use crate::scope::Scope;
use cj_model::{ColRef, Cond, CondNode, Expr, Kind, Term};

/// Whether two kinds are equal.
pub fn same_kind(one: Kind, two: Kind) -> bool
    ensures { result ≡ tables.same_kind one two }
{
    match (one, two) {
        (Kind::Integer, Kind::Integer) => true,
        (Kind::Integer, Kind::Text) => false,
        (Kind::Text, Kind::Integer) => false,
        (Kind::Text, Kind::Text) => true,
    }
}

impl Scope {
    /// Whether the reference determines no column of the scope.
    pub fn is_unknown_column(&self, reference: &ColRef) -> bool
        ensures { result ≡ scopes.is_unknown_column self.now reference.now }
    {
        self.place(reference).is_none()
    }

    fn term_has_unknown_column(&self, term: &Term) -> bool
        ensures { result ≡ scopes.term_has_unknown_column self.now term.now }
    {
        match term {
            Term::Lit(_) => false,
            Term::Col(reference) => self.is_unknown_column(reference),
            Term::Now => false,
            Term::Rand(_) => false,
        }
    }

    /// Whether the expression names an unknown column.
    pub fn expr_has_unknown_column(&self, expr: &Expr) -> bool
        ensures { result ≡ scopes.expr_has_unknown_column self.now expr.now }
    {
        match expr {
            Expr::One(term) => self.term_has_unknown_column(term),
            Expr::Plus(left, right) => self.term_has_unknown_column(left)
                || self.term_has_unknown_column(right),
            Expr::Minus(left, right) => self.term_has_unknown_column(left)
                || self.term_has_unknown_column(right),
        }
    }

    fn node_has_unknown_column(&self, node: &CondNode) -> bool
        ensures { result ≡ scopes.has_unknown_column self.now (condition_of_node node.now) }
    {
        match node {
            CondNode::Test(_, left, right) => self.term_has_unknown_column(left)
                || self.term_has_unknown_column(right),
            CondNode::Not(inner) => self.node_has_unknown_column(inner),
            CondNode::And(left, right) => self.node_has_unknown_column(left)
                || self.node_has_unknown_column(right),
            CondNode::Or(left, right) => self.node_has_unknown_column(left)
                || self.node_has_unknown_column(right),
        }
    }

    /// Whether the condition names an unknown column.
    pub fn has_unknown_column(&self, cond: &Cond) -> bool
        ensures { result ≡ scopes.has_unknown_column self.now cond.now }
    {
        self.node_has_unknown_column(cond.root())
    }

    fn kind_of_term(&self, term: &Term) -> Kind
        ensures { result ≡ scopes.kind_of_term self.now term.now }
    {
        match term {
            Term::Lit(value) => value.kind(),
            Term::Col(reference) => self.kind(self.place(reference).unwrap_or(0)),
            Term::Now => Kind::Integer,
            Term::Rand(_) => Kind::Integer,
        }
    }

    /// The kind of an expression's values.
    pub fn kind_of_expr(&self, expr: &Expr) -> Kind
        ensures { result ≡ scopes.kind_of_expr self.now expr.now }
    {
        match expr {
            Expr::One(term) => self.kind_of_term(term),
            Expr::Plus(_, _) => Kind::Integer,
            Expr::Minus(_, _) => Kind::Integer,
        }
    }

    fn is_text(&self, term: &Term) -> bool
        ensures { result ≡ scopes.is_text_term self.now term.now }
    {
        same_kind(self.kind_of_term(term), Kind::Text)
    }

    /// Whether the expression has a TEXT under `+` or `-`.
    pub fn adds_text(&self, expr: &Expr) -> bool
        ensures { result ≡ scopes.adds_text self.now expr.now }
    {
        match expr {
            Expr::One(_) => false,
            Expr::Plus(left, right) => self.is_text(left) || self.is_text(right),
            Expr::Minus(left, right) => self.is_text(left) || self.is_text(right),
        }
    }

    fn node_mixes_kinds(&self, node: &CondNode) -> bool
        ensures { result ≡ scopes.mixes_kinds self.now (condition_of_node node.now) }
    {
        match node {
            CondNode::Test(_, left, right) => !same_kind(
                self.kind_of_term(left),
                self.kind_of_term(right),
            ),
            CondNode::Not(inner) => self.node_mixes_kinds(inner),
            CondNode::And(left, right) => self.node_mixes_kinds(left)
                || self.node_mixes_kinds(right),
            CondNode::Or(left, right) => self.node_mixes_kinds(left)
                || self.node_mixes_kinds(right),
        }
    }

    /// Whether the sides of some comparison in the condition differ in kind.
    pub fn mixes_kinds(&self, cond: &Cond) -> bool
        ensures { result ≡ scopes.mixes_kinds self.now cond.now }
    {
        self.node_mixes_kinds(cond.root())
    }
}
