//! Expressions with columns by index.

ghost use Rattle.std.specs.Prelude.{◌≡◌, pos};
ghost use Rattle.cj_model.specs.Database.Evaluation.{value_of};
ghost use Rattle.cj_expr.specs.Shapes.{formula};
ghost use Rattle.cj_expr.specs.Results.{IsValueOf, integer_within};

use crate::operand::Operand;
use cj_model::{NoMemory, Value};
use std::alloc::Global;
use thiserror::Error;

/// An operand, or a sum or difference of two.
#[derive(Drop)]
pub enum Formula {
    Just(Operand),
    Sum(Operand, Operand),
    Difference(Operand, Operand),
}

/// Why an expression has no value.
#[derive(Clone, Copy, Debug, PartialEq, Eq, Error)]
pub enum ValueError {
    /// The value is an INTEGER outside 64 bits.
    #[error("a number lies outside 64 bits")]
    Overflow,
    #[error("out of memory")]
    NoMemory,
}

impl From<NoMemory> for ValueError {
    ghost use Rattle.std.specs.Prelude.{◌≡◌};
    ghost use Rattle.cj_expr.specs.declared.formula.ValueError.TheVariants as errors;

    ghost from_gives = { λ _error e. e ≡ errors.NoMemory };

    fn from(_error: NoMemory) -> ValueError {
        ValueError::NoMemory
    }
}

/// The number as an `i64`; none outside 64 bits.
fn within(number: i128) -> Option<i64>
    ensures { result ≡ integer_within (Value.Int number) }
{
    if number < -9_223_372_036_854_775_808 || 9_223_372_036_854_775_807 < number {
        return None;
    }
    Some(number as i64)
}

/// The number as an INTEGER. Fails with `Overflow` if it is outside 64 bits.
pub fn narrowed(number: i128) -> Result<Value, ValueError>
    ensures { IsValueOf (Value.Int number) result }
{
    match within(number) {
        Some(number) => Ok(Value::Int(number)),
        None => Err(ValueError::Overflow),
    }
}

fn sum(left: &Operand, right: &Operand, row: &[Value]) -> i128
    ensures { Value.Int result ≡ value_of row.now (formula (Formula.Sum left.now right.now)) }
{
    i128::from(left.number_in(row)) + i128::from(right.number_in(row))
}

fn difference(left: &Operand, right: &Operand, row: &[Value]) -> i128
    ensures { Value.Int result ≡ value_of row.now (formula (Formula.Difference left.now right.now)) }
{
    i128::from(left.number_in(row)) - i128::from(right.number_in(row))
}

impl Formula {
    /// The expression's value in a row. Fails with `Overflow` if that is an INTEGER outside 64 bits, and
    /// with `NoMemory` if a copy can't be allocated.
    pub fn value_in(&self, alloc: Global, row: &[Value]) -> Result<Value, ValueError>
        ensures { IsValueOf (value_of row.now (formula self.now)) result }
    {
        match self {
            Formula::Just(operand) => Ok(operand.value_in(alloc, row)?),
            Formula::Sum(left, right) => narrowed(sum(left, right, row)),
            Formula::Difference(left, right) => narrowed(difference(left, right, row)),
        }
    }

    /// The expression's INTEGER in a row, without allocation; none for a TEXT and outside 64 bits.
    pub fn integer_in(&self, row: &[Value]) -> Option<i64>
        ensures { result ≡ integer_within (value_of row.now (formula self.now)) }
    {
        match self {
            Formula::Just(operand) => operand.integer_in(row),
            Formula::Sum(left, right) => within(sum(left, right, row)),
            Formula::Difference(left, right) => within(difference(left, right, row)),
        }
    }
}
