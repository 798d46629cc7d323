//! Terms, expressions and comparisons.

use crate::memory::{Duplicate, NoMemory};
use crate::name::Name;
use crate::value::Value;
use std::alloc::Global;

/// A column, qualified by its table or not.
#[derive(Drop)]
pub struct ColRef {
    pub table: Option<Name>,
    pub column: Name,
}

/// A term: a literal, a column, or a call of the clock or of random numbers.
#[derive(Drop)]
pub enum Term {
    Lit(Value),
    Col(ColRef),
    /// `NOW()`: the clock's Unix seconds.
    Now,
    /// `RAND(n)`: a draw from 0 to n - 1.
    Rand(i64),
}

/// The expression that a column is set to: a term, or the sum or difference of two.
#[derive(Drop)]
pub enum Expr {
    One(Term),
    Plus(Term, Term),
    Minus(Term, Term),
}

/// A comparison.
#[derive(Clone, Copy, PartialEq, Eq)]
pub enum Cmp {
    Eq,
    Ne,
    Lt,
    Le,
    Gt,
    Ge,
}

impl Duplicate for ColRef {
    fn copy(&self, alloc: Global) -> Result<ColRef, NoMemory> {
        Ok(ColRef {
            table: self.table.copy(alloc)?,
            column: self.column.copy(),
        })
    }
}

impl Duplicate for Term {
    fn copy(&self, alloc: Global) -> Result<Term, NoMemory> {
        match self {
            Term::Lit(value) => Ok(Term::Lit(value.copy(alloc)?)),
            Term::Col(column) => Ok(Term::Col(column.copy(alloc)?)),
            Term::Now => Ok(Term::Now),
            Term::Rand(bound) => Ok(Term::Rand(*bound)),
        }
    }
}

impl Duplicate for Expr {
    fn copy(&self, alloc: Global) -> Result<Expr, NoMemory> {
        match self {
            Expr::One(term) => Ok(Expr::One(term.copy(alloc)?)),
            Expr::Plus(left, right) => Ok(Expr::Plus(left.copy(alloc)?, right.copy(alloc)?)),
            Expr::Minus(left, right) => Ok(Expr::Minus(left.copy(alloc)?, right.copy(alloc)?)),
        }
    }
}
