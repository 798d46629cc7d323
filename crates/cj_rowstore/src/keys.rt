//! Keys of rows.

ghost use Rattle.std.specs.Prelude.{◌≡◌, pos, IfOk};
ghost use Rattle.cj_model.specs.Database.Tables.{cell};

use cj_model::{Duplicate, NoMemory, Value};
use std::alloc::Global;

/// The value at index `place` of the row. Past the row's end it is `zero`, which must be the INTEGER 0.
pub fn key_in<'a>(row: &'a [Value], place: usize, zero: &'a Value) -> &'a Value
    requires { zero.now ≡ Value.Int (pos 0) }
    ensures { result.now ≡ cell row.now place }
{
    row.get(place).unwrap_or(zero)
}

/// A copy of the value at index `place` of the row; the INTEGER 0 past its end. Fails only with `NoMemory`.
pub fn key_of(alloc: Global, row: &[Value], place: usize) -> Result<Value, NoMemory>
    ensures { IfOk result (λ key. key ≡ cell row.now place) }
{
    match row.get(place) {
        Some(value) => value.copy(alloc),
        None => Ok(Value::Int(0)),
    }
}
