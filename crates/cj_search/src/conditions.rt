//! The WHERE clauses of statements.

ghost use Rattle.std.specs.Prelude.{◌≡◌, option_map, IfOk};
ghost use Rattle.cj_model.specs.Database.Scopes as scopes;

use cj_expr::{Predicate, Scope, predicate_of};
use cj_model::{Cond, NoMemory};
use std::alloc::Global;

/// Whether a WHERE condition names an unknown column; false without one.
pub fn where_has_unknown_column(scope: &Scope, cond: &Option<Cond>) -> bool
    ensures { result ≡ scopes.where_has_unknown_column scope.now cond.now }
{
    match cond {
        None => false,
        Some(cond) => scope.has_unknown_column(cond),
    }
}

/// Whether the sides of some comparison in a WHERE condition differ in kind; false without one.
pub fn where_mixes_kinds(scope: &Scope, cond: &Option<Cond>) -> bool
    ensures { result ≡ scopes.where_mixes_kinds scope.now cond.now }
{
    match cond {
        None => false,
        Some(cond) => scope.mixes_kinds(cond),
    }
}

/// Binds a WHERE condition, if there is one, to the columns of `scope`. Fails only with `NoMemory`.
pub fn bound_where(
    alloc: Global,
    scope: &Scope,
    cond: &Option<Cond>,
) -> Result<Option<Predicate>, NoMemory>
    ensures { IfOk result (λ predicate. predicate ≡ option_map (scopes.predicate_of scope.now) cond.now) }
{
    match cond {
        None => Ok(None),
        Some(cond) => {
            let predicate = predicate_of(alloc, cond, scope)?;
            Ok(Some(predicate))
        }
    }
}
