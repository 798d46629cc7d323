//! The tables of requests and of entries.

ghost use Rattle.std.specs.Prelude.{◌≡◌, [], fold, option_copied, IfOk};
ghost use Rattle.cj_model.specs.Cluster.Placements as placements;
ghost use Rattle.cj_model.specs.Database.Steps as steps;
ghost use Rattle.cj_model.specs.Database.Tables.{name_cmp, put_by};
ghost use Rattle.cj_usage.specs.Changed.{table_changed};

use cj_model::{Act, Name, NoMemory, Request, TableSet, Write};
use std::alloc::Global;

fn table_written(write: &Write) -> &Name
    ensures { result.now ≡ steps.table_written write.now }
{
    match write {
        Write::Insert { table, .. } | Write::Update { table, .. } | Write::Delete { table, .. } =>
            table,
    }
}

fn set_of(alloc: Global, names: &[Name]) -> Result<TableSet, NoMemory>
    ensures { IfOk result (λ set. set ≡ fold (put_by name_cmp) [] names.now) }
{
    let mut set = TableSet::new(alloc);
    for name in names {
        set.insert(name)?;
    }
    Ok(set)
}

/// The set of this one table; fails if memory runs out.
pub fn lone(alloc: Global, name: &Name) -> Result<TableSet, NoMemory>
    ensures { IfOk result (λ set. set ≡ put_by name_cmp [] name.now) }
{
    let mut set = TableSet::new(alloc);
    set.insert(name)?;
    Ok(set)
}

/// The set of tables that a request names, empty for BEGIN, COMMIT and ROLLBACK. Fails if memory runs out.
pub fn needs(alloc: Global, r: &Request) -> Result<TableSet, NoMemory>
    ensures { IfOk result (λ set. set ≡ fold (put_by name_cmp) [] (placements.needs r.now)) }
{
    match r {
        Request::Select(select) => set_of(alloc, select.tables.as_slice()),
        Request::Write(write) => lone(alloc, table_written(write)),
        Request::Create(create) => lone(alloc, &create.table),
        Request::Drop(table) => lone(alloc, table),
        Request::Begin => Ok(TableSet::new(alloc)),
        Request::Commit => Ok(TableSet::new(alloc)),
        Request::Rollback => Ok(TableSet::new(alloc)),
    }
}

/// The table that an act changes: a write, CREATE or DROP. `None` for the other acts.
pub fn written(a: &Act) -> Option<&Name>
    ensures { option_copied result ≡ table_changed a.now }
{
    match a {
        Act::Write(write) => Some(table_written(write)),
        Act::Create(create) => Some(&create.table),
        Act::Drop(table) => Some(table),
        Act::Begin => None,
        Act::Commit => None,
        Act::Abort => None,
    }
}
