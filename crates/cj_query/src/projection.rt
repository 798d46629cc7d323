//! A query's items with their columns by index, which are found once and not for each row.

ghost use Rattle.std.specs.Prelude.{◌≡◌, map, IfOk};
ghost use Rattle.cj_query.specs.Projections as projections;

use crate::checks::place_in;
use cj_expr::Scope;
use cj_model::{Item, Items, NoMemory};
use std::alloc::Global;

/// An item with its column by index.
#[derive(Drop)]
pub enum BoundItem {
    /// The value at this index of a group's first row.
    Value(usize),
    Count,
    Sum(usize),
}

/// The values that the answer has of each group.
#[derive(Drop)]
pub enum Projection {
    /// The whole first row.
    All,
    Items(Vec<BoundItem>),
}

/// An item with its column by index. An unknown column has index 0.
fn bound(scope: &Scope, item: &Item) -> BoundItem
    ensures { result ≡ projections.bound_item_of scope.now item.now }
{
    match item {
        Item::Col(column) => BoundItem::Value(place_in(scope, column)),
        Item::Count => BoundItem::Count,
        Item::Sum(column) => BoundItem::Sum(place_in(scope, column)),
    }
}

fn bound_each(alloc: Global, scope: &Scope, items: &[Item]) -> Result<Vec<BoundItem>, NoMemory>
    ensures { IfOk result (λ out. out.items ≡ map (projections.bound_item_of scope.now) items.now) }
{
    let mut out = Vec::new(alloc);
    for item in items {
        out.push(bound(scope, item))?;
    }
    Ok(out)
}

/// Binds the items of a query, each column to its index in the scope. Fails only with `NoMemory`.
pub fn projection_of(alloc: Global, scope: &Scope, items: &Items) -> Result<Projection, NoMemory>
    ensures { IfOk result (λ projection. projections.items_of projection ≡ projections.bound_items scope.now items.now) }
{
    match items {
        Items::All => Ok(Projection::All),
        Items::Listed(items) => {
            let items = bound_each(alloc, scope, items.as_slice())?;
            Ok(Projection::Items(items))
        }
    }
}
