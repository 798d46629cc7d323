//! The statements of a workload, over one table of a key and a number.

ghost use Rattle.std.specs.Prelude.{◌≡◌, ◌∷◌, ◌<◌, ◌≤◌, ◌^◌, [], None, IfOk};
ghost use Rattle.cj_workload.specs.Statements as spec;
ghost use Rattle.cj_workload.specs.Statements.{generator_after_step, request_of_statement, statement_of, table_name};

use cj_model::{
    Cmp, ColDef, ColRef, Cond, CondNode, Create, Expr, Item, Items, Kind, ListOf, Name, NoMemory,
    Select, Set, Term, Value, Write,
};
use cj_outside::{Draw, PcgDraw};
use std::alloc::Global;

/// A statement of a workload.
#[derive(Drop)]
pub enum Statement {
    Change(Write),
    Query(Select),
}

/// The name that is one letter, `a` to `z`.
pub fn letter(b: u8) -> Name
    requires { (97 ≤ b) × (b ≤ 122) }
    ensures { result ≡ b ∷ [] }
{
    match Name::of(&[b]) {
        Some(name) => name,
        None => Name::empty(),
    }
}

/// The name of the workload's table: `g`.
pub fn table() -> Name
    ensures { result ≡ table_name }
{
    letter(b'g')
}

fn column(name: u8) -> ColRef
    requires { (97 ≤ name) × (name ≤ 122) }
    ensures { result ≡ record { table = None; column = name ∷ [] } }
{
    ColRef {
        table: None,
        column: letter(name),
    }
}

fn number(n: u64) -> Term
    requires { n < 2 ^ 63 }
    ensures { result ≡ spec.number n }
{
    Term::Lit(Value::Int(n as i64))
}

fn one<T: Drop>(alloc: Global, item: T) -> Result<ListOf<T>, NoMemory>
    ensures { IfOk result (λ list. list ≡ item ∷ []) }
{
    let mut list = ListOf::new(alloc);
    list.push(item)?;
    Ok(list)
}

fn two<T: Drop>(alloc: Global, first: T, second: T) -> Result<ListOf<T>, NoMemory>
    ensures { IfOk result (λ list. list ≡ first ∷ second ∷ []) }
{
    let mut list = one(alloc, first)?;
    list.push(second)?;
    Ok(list)
}

/// CREATE TABLE g (k INTEGER PRIMARY KEY, v INTEGER)
pub fn creation(alloc: Global) -> Result<Create, NoMemory>
    ensures { IfOk result (λ create. create ≡ spec.creation) }
{
    let key = ColDef {
        name: letter(b'k'),
        kind: Kind::Integer,
        key: true,
    };
    let value = ColDef {
        name: letter(b'v'),
        kind: Kind::Integer,
        key: false,
    };
    Ok(Create {
        table: table(),
        columns: two(alloc, key, value)?,
    })
}

/// INSERT INTO g VALUES (key, value)
fn insertion(alloc: Global, key: u64, value: u64) -> Result<Write, NoMemory>
    requires key { key < 2 ^ 63 }
    requires value { value < 2 ^ 63 }
    ensures { IfOk result (λ write. write ≡ spec.insertion key value) }
{
    let row = two(alloc, number(key), number(value))?;
    Ok(Write::Insert {
        table: table(),
        columns: None,
        rows: one(alloc, row)?,
    })
}

/// k = key
fn has_key(key: u64) -> Cond
    requires { key < 2 ^ 63 }
    ensures { result ≡ spec.key_equals key }
{
    Cond::of(CondNode::Test(Cmp::Eq, Term::Col(column(b'k')), number(key)))
}

/// UPDATE g SET v = v + 1 WHERE k = key
fn increment(alloc: Global, key: u64) -> Result<Write, NoMemory>
    requires { key < 2 ^ 63 }
    ensures { IfOk result (λ write. write ≡ spec.increment key) }
{
    let set = Set {
        column: letter(b'v'),
        value: Expr::Plus(Term::Col(column(b'v')), number(1)),
    };
    Ok(Write::Update {
        table: table(),
        sets: one(alloc, set)?,
        cond: Some(has_key(key)),
    })
}

fn query(alloc: Global, item: Item, cond: Option<Cond>) -> Result<Select, NoMemory>
    ensures { IfOk result (λ select. select ≡ spec.query item cond) }
{
    Ok(Select {
        items: Items::Listed(one(alloc, item)?),
        tables: one(alloc, table())?,
        cond,
        group: None,
        order: ListOf::new(alloc),
        limit: None,
    })
}

/// Makes statement `i`, from 1 on: an INSERT, an UPDATE, a look-up by key and a count of the rows, in turn. It draws
/// one number, and for the count none.
pub fn next_statement(alloc: Global, i: u64, draw: &mut PcgDraw) -> Result<Statement, NoMemory>
    requires some { 0 < i }
    requires few { i < 2 ^ 32 }
    ensures drawn { IfOk result (λ statement. request_of_statement statement ≡ statement_of draw.old i) }
    ensures later { IfOk result (λ _. draw.new ≡ generator_after_step draw.old i) }
{
    match i % 4 {
        1 => Ok(Statement::Change(insertion(alloc, i, draw.below(1000))?)),
        2 => Ok(Statement::Change(increment(alloc, 1 + draw.below(i))?)),
        3 => {
            let key = has_key(1 + draw.below(i));
            let value = Item::Col(column(b'v'));
            Ok(Statement::Query(query(alloc, value, Some(key))?))
        }
        _ => Ok(Statement::Query(query(alloc, Item::Count, None)?)),
    }
}
