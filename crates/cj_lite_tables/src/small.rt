//! Small databases of the engine, with the rows that one statement may concern.

ghost use Rattle.std.specs.Prelude.{◌≤◌, IfOk, length};
ghost use Rattle.cj_model.specs.declared.limits.TheConstants.{COLUMN_LIMIT};
ghost use Rattle.cj_model.specs.declared.request.Request.TheVariants as request;
ghost use Rattle.cj_model.specs.Sql.WrittenRequests.{IsWritten};
ghost use Rattle.cj_model.specs.Database.Outcomes.{IsOutcome, IsAsked};

use crate::error::LiteError;
use cj_model::{
    Asked, Create, Duplicate, Name, NoMemory, Outcome, Row, Rows, Schema, Select, Term, Tuple,
    Tuples, Write, copies,
};
use cj_query::select;
use cj_table::Tables;
use std::alloc::Global;

fn tuple_of(alloc: Global, row: Row) -> Result<Tuple, NoMemory> {
    let mut tuple = Tuple::new(alloc);
    for value in row.into_vec() {
        tuple.push(Term::Lit(value))?;
    }
    Ok(tuple)
}

fn tuples_of(alloc: Global, rows: Vec<Row>) -> Result<Tuples, NoMemory> {
    let mut tuples = Tuples::new(alloc);
    for row in rows {
        tuples.push(tuple_of(alloc, row)?)?;
    }
    Ok(tuples)
}

/// Rows that SQLite gives fit their table; a refusal is therefore a fault.
fn done(outcome: Outcome) -> Result<(), LiteError> {
    match outcome {
        Outcome::Done(_) => Ok(()),
        Outcome::Refused(_) => Err(LiteError::Fault),
    }
}

/// Adds a table with these rows, in any order, to a small database.
pub fn add_table(
    alloc: Global,
    small: &mut Tables,
    schema: &Schema,
    rows: Vec<Row>,
) -> Result<(), LiteError> {
    let schema = schema.copy(alloc)?;
    if !small.put_table(schema, Rows::from_vec(rows))? {
        return Err(LiteError::Fault);
    }
    Ok(())
}

/// Makes these rows the contents of a transaction's draft of a table.
pub fn add_draft(
    alloc: Global,
    small: &mut Tables,
    tx: u64,
    table: &Name,
    rows: Vec<Row>,
) -> Result<(), LiteError> {
    let delete = Write::Delete {
        table: table.copy(),
        cond: None,
    };
    done(small.write(tx, &delete)?)?;
    let insert = Write::Insert {
        table: table.copy(),
        columns: None,
        rows: tuples_of(alloc, rows)?,
    };
    done(small.write(tx, &insert)?)
}

/// Copies of the rows that transaction `tx`, 0 for none, sees of a table.
pub fn rows_seen(
    alloc: Global,
    small: &Tables,
    tx: u64,
    table: &Name,
) -> Result<Vec<Row>, LiteError> {
    let Some(view) = small.view(table, tx) else {
        return Err(LiteError::Fault);
    };
    let mut rows = Vec::new(alloc);
    for row in view.scan() {
        rows.push(Row::from_vec(copies(alloc, row)?))?;
    }
    Ok(rows)
}

/// The schema of the table that a CREATE TABLE makes; none where its columns do not fit each other. Fails
/// only with `NoMemory`.
pub fn schema_made(alloc: Global, create: &Create) -> Result<Option<Schema>, NoMemory>
    requires { length create.now.columns ≤ COLUMN_LIMIT }
{
    let mut small = Tables::new(alloc);
    small.create(create)?;
    match small.view(&create.table, 0) {
        Some(view) => Ok(Some(view.schema().copy(alloc)?)),
        None => Ok(None),
    }
}

/// Carries out a write in a small database, or refuses it. Fails only with `NoMemory`.
pub fn written(small: &mut Tables, write: &Write) -> Result<Outcome, NoMemory>
    ensures { IfOk result IsOutcome }
{
    small.write(0, write)
}

/// Answers a query from a small database, or refuses it. Fails only with `NoMemory`.
pub fn asked(alloc: Global, small: &Tables, query: &Select) -> Result<Asked, NoMemory>
    requires { IsWritten (request.Select query.now) }
    ensures { IfOk result IsAsked }
{
    small.legal();
    let asked = select(alloc, query, small, 0)?;
    Ok(asked)
}
