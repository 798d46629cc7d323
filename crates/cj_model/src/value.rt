//! Values of columns, and their kinds.

use crate::memory::{Duplicate, NoMemory};
use crate::text::{BoxedText, Text};
use std::alloc::Global;
use std::cmp::Ordering;

/// The kind of a column's values.
#[derive(Clone, Copy, PartialEq, Eq)]
pub enum Kind {
    Integer,
    Text,
}

/// A value: a number of 64 bits with a sign, or a text. In order, numbers come before texts.
#[derive(Drop)]
pub enum Value {
    Int(i64),
    Text(BoxedText),
}

impl Value {
    ghost use Rattle.std.specs.Prelude.{◌≡◌, IfOk};
    ghost use Rattle.cj_model.specs.declared.value.Value.TheVariants as value;
    ghost use Rattle.cj_model.specs.Database.Values.{kind_of};

    /// The text as a value. If memory runs out, the text is lost.
    pub fn of_text(alloc: Global, text: Text) -> Result<Value, NoMemory>
        ensures { IfOk result (λ made. made ≡ value.Text text) }
    {
        Ok(Value::Text(BoxedText::of(alloc, text)?))
    }

    /// Whether the value is an INTEGER or a TEXT.
    pub fn kind(&self) -> Kind
        ensures { result ≡ kind_of self.now }
    {
        match self {
            Value::Int(_) => Kind::Integer,
            Value::Text(_) => Kind::Text,
        }
    }
}

impl Duplicate for Value {
    fn copy(&self, alloc: Global) -> Result<Value, NoMemory> {
        match self {
            Value::Int(number) => Ok(Value::Int(*number)),
            Value::Text(text) => Ok(Value::Text(text.copy(alloc)?)),
        }
    }
}

impl PartialEq for Value {
    ghost use Rattle.std.specs.Ordering.{eq_by_cmp};
    ghost use Rattle.std.specs.Cmp.{partial_equiv_from_equiv, eq_by_cmp_equiv};
    ghost use Rattle.cj_model.specs.Database.Values.{value_cmp, value_total};

    ghost eq = { λ x y. eq_by_cmp value_cmp x y };

    ghost laws = { partial_equiv_from_equiv (eq_by_cmp_equiv value_total) };

    fn eq(&self, other: &Value) -> bool {
        matches!(self.cmp(other), Ordering::Equal)
    }
}

impl Eq for Value {
    ghost use Rattle.std.specs.Cmp.{eq_by_cmp_equiv};
    ghost use Rattle.cj_model.specs.Database.Values.{value_total};

    ghost laws = { eq_by_cmp_equiv value_total };
}

impl PartialOrd for Value {
    ghost use Rattle.std.specs.Prelude.{Some, refl};
    ghost use Rattle.std.specs.Cmp.{partial_order_from_agreeing_total};
    ghost use Rattle.cj_model.specs.Database.Values.{value_cmp, value_total};

    ghost partial_cmp = { λ x y. Some (value_cmp x y) };

    ghost laws = { partial_order_from_agreeing_total (λ x y. value_cmp x y) value_total (λ x y. refl) (λ x y. refl) };

    fn partial_cmp(&self, other: &Value) -> Option<Ordering> {
        Some(self.cmp(other))
    }
}

impl Ord for Value {
    ghost use Rattle.std.specs.Prelude.{refl};
    ghost use Rattle.cj_model.specs.Database.Values.{value_cmp, value_total};

    ghost cmp = { value_cmp };

    ghost total = { value_total };

    ghost matches_partial_cmp = { λ x y. refl };

    ghost matches_eq = { λ x y. refl };

    fn cmp(&self, other: &Value) -> Ordering {
        match (self, other) {
            (Value::Int(a), Value::Int(b)) => a.cmp(b),
            (Value::Int(_), Value::Text(_)) => Ordering::Less,
            (Value::Text(_), Value::Int(_)) => Ordering::Greater,
            (Value::Text(a), Value::Text(b)) => a.as_slice().cmp(b.as_slice()),
        }
    }
}
