//! The cache of answers.

use crate::given::{name, select};
use cj_cache::{Cache, SharedAnswer};
use cj_model::{Answer, AnswerRows, ListOf, Select, TableSet, Value};
use std::alloc::Global;
use std::process::Abort;
use std::test::Fail;

/// The row of one value.
fn answer(rt: &impl Abort, alloc: Global, value: i64) -> Result<Answer, Fail> {
    let mut rows = AnswerRows::new(alloc);
    let row = ListOf::from_vec(Vec::from_array(alloc, [Value::Int(value)])?);
    assert!(rt; rows.push(row).is_ok());
    Ok(Answer {
        columns: ListOf::from_vec(Vec::from_array(alloc, [name(rt, "v")])?),
        rows,
    })
}

/// A SELECT of a table.
fn of_table(rt: &impl Abort, alloc: Global, table: &str) -> Result<Select, Fail> {
    let text = format!(in alloc; "SELECT v FROM {table}")?;
    Ok(select(rt, alloc, &text))
}

fn keep(rt: &impl Abort, alloc: Global, cache: &mut Cache, table: &str) -> Result<(), Fail> {
    let given = answer(rt, alloc, 5)?;
    let asked = of_table(rt, alloc, table)?;
    assert!(rt; cache.keep(asked, given, 1).is_ok());
    Ok(())
}

/// The least recently used answer makes room, and a table's answers are dropped with it.
#[test]
fn answers_are_kept(rt: HostRuntime) -> Result<(), Fail> {
    let alloc = rt.alloc();
    let Ok(mut cache) = Cache::new(alloc, 2) else {
        panic!(&rt; "cache")
    };
    keep(&rt, alloc, &mut cache, "a")?;
    keep(&rt, alloc, &mut cache, "b")?;
    assert!(rt; cache.touch(&of_table(&rt, alloc, "a")?));
    keep(&rt, alloc, &mut cache, "c")?;
    assert!(rt; cache.kept(&of_table(&rt, alloc, "b")?).is_none());
    let mut set = TableSet::new(alloc);
    assert!(rt; set.insert(&name(&rt, "a")).is_ok());
    cache.drop_needing(&set);
    assert!(rt; !cache.touch(&of_table(&rt, alloc, "a")?));
    assert!(rt; cache.kept(&of_table(&rt, alloc, "c")?).is_some());
    assert_eq!(rt; cache.counts(), (1, 1));
    Ok(())
}

/// Whether the share is of the row of this value, answered at position 1.
fn is_share_of(shared: &SharedAnswer, value: i64) -> bool {
    let rows = &shared.answer.rows;
    let is_row = match rows.items().first() {
        Some(Value::Int(n)) => *n == value,
        _ => false,
    };
    is_row && rows.len() == 1 && shared.at == 1
}

/// A share stays readable after the cache drops its answer.
#[test]
fn a_share_outlives_its_entry(rt: HostRuntime) -> Result<(), Fail> {
    let alloc = rt.alloc();
    let Ok(mut cache) = Cache::new(alloc, 2) else {
        panic!(&rt; "cache")
    };
    keep(&rt, alloc, &mut cache, "a")?;
    let asked = of_table(&rt, alloc, "a")?;
    let Ok(Some(shared)) = cache.look_up(&asked) else {
        panic!(&rt; "share")
    };
    let mut set = TableSet::new(alloc);
    assert!(rt; set.insert(&name(&rt, "a")).is_ok());
    cache.drop_needing(&set);
    assert!(rt; cache.kept(&asked).is_none());
    assert!(rt; is_share_of(&shared, 5));
    assert!(rt; matches!(cache.look_up(&asked), Ok(None)));
    assert_eq!(rt; cache.counts(), (1, 1));
    Ok(())
}
