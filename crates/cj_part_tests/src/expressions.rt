//! Conditions and expressions, bound to the columns of a table.

use crate::given::{condition, name, request};
use cj_expr::{BindError, Scope, bind, bind_expr};
use cj_model::{Column, Kind, ListOf, NO_COLUMN, Request, Schema, Value, Write};
use std::alloc::Global;
use std::process::Abort;
use std::test::Fail;

/// Table `t` of the INTEGERs `k`, the key, and `v`.
fn schema(rt: &impl Abort, alloc: Global) -> Result<Schema, Fail> {
    let mut columns = Vec::new(alloc);
    for word in ["k", "v"] {
        columns.push(Column {
            name: name(rt, word),
            kind: Kind::Integer,
        })?;
    }
    Ok(Schema {
        table: name(rt, "t"),
        columns: ListOf::from_vec(columns),
        key: 0,
    })
}

#[test]
fn a_condition_is_bound(rt: HostRuntime) -> Result<(), Fail> {
    let alloc = rt.alloc();
    let Ok(scope) = Scope::of(alloc, &[&schema(&rt, alloc)?]) else {
        panic!(&rt; "scope")
    };
    let cond = condition(&rt, alloc, "SELECT * FROM t WHERE v > k AND t.k <> 4");
    let Ok(predicate) = bind(alloc, &cond, &scope) else {
        panic!(&rt; "bind")
    };
    for (k, v, holds) in [(3, 5, true), (4, 5, false), (5, 5, false)] {
        assert_eq!(rt; predicate.holds(&[Value::Int(k), Value::Int(v)]), holds);
    }
    let cond = condition(&rt, alloc, "SELECT * FROM t WHERE w = 1");
    match bind(alloc, &cond, &scope) {
        Err(BindError::Refused(refusal)) => assert_eq!(rt; refusal.code, NO_COLUMN),
        _ => panic!(&rt; "bind"),
    }
    Ok(())
}

#[test]
fn an_expression_is_bound(rt: HostRuntime) -> Result<(), Fail> {
    let alloc = rt.alloc();
    let Ok(scope) = Scope::of(alloc, &[&schema(&rt, alloc)?]) else {
        panic!(&rt; "scope")
    };
    let Request::Write(Write::Update { sets, .. }) = request(&rt, alloc, "UPDATE t SET v = v - 7")
    else {
        panic!(&rt; "update")
    };
    for set in sets.as_slice() {
        let Ok(formula) = bind_expr(alloc, &set.value, &scope) else {
            panic!(&rt; "bind_expr")
        };
        match formula.value_in(alloc, &[Value::Int(3), Value::Int(5)]) {
            Ok(value) => assert!(rt; value == Value::Int(-2)),
            Err(_) => panic!(&rt; "value_in"),
        }
    }
    Ok(())
}
