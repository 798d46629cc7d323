//! Conversion of values to SQLite and back.

use crate::error::LiteError;
use cj_model::{Row, Text, Value};
use sqlite::types::ValueRef;
use std::alloc::Global;

/// The value as a parameter of a statement.
pub fn parameter(value: &Value) -> ValueRef<'_> {
    match value {
        Value::Int(number) => ValueRef::Int(*number),
        Value::Text(text) => ValueRef::Text(text.as_slice()),
    }
}

/// The values of a row as parameters.
pub fn parameters<'a>(alloc: Global, row: &'a Row) -> Result<Vec<ValueRef<'a>>, LiteError> {
    let mut out = Vec::with_capacity(alloc, row.len())?;
    for value in row.as_slice() {
        out.push(parameter(value))?;
    }
    Ok(out)
}

/// The value that SQLite gives; a fault if it is neither an INTEGER nor a TEXT of ours.
fn value_of(alloc: Global, given: ValueRef<'_>) -> Result<Value, LiteError> {
    match given {
        ValueRef::Int(number) => Ok(Value::Int(number)),
        ValueRef::Text(bytes) => {
            let bytes = Vec::from_slice(alloc, bytes)?;
            match Text::of(bytes) {
                Some(text) => Ok(Value::of_text(alloc, text)?),
                None => Err(LiteError::Fault),
            }
        }
        _ => Err(LiteError::Fault),
    }
}

/// The row that SQLite gives; a fault if one of its values was never stored.
pub fn row_of(alloc: Global, given: &sqlite::Row) -> Result<Row, LiteError> {
    let count = given.column_count();
    let mut values = Vec::with_capacity(alloc, count)?;
    for at in 0..count {
        let value = given.get_ref(at)?;
        values.push(value_of(alloc, value)?)?;
    }
    Ok(Row::from_vec(values))
}
