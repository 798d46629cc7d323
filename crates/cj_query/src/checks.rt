//! Whether a query's columns exist and fit each other, and whether its kinds agree.

ghost use Rattle.std.specs.Prelude.{◌≡◌, ◌||◌, not, option_to_list};
ghost use Rattle.std.specs.List.{list_any};
ghost use Rattle.cj_model.specs.declared.select.Key.{Key};
ghost use Rattle.cj_model.specs.Database.Queries as queries;
ghost use Rattle.cj_model.specs.Database.Scopes as scopes;
ghost use Rattle.cj_query.specs.Refused as refused;

use cj_expr::{Scope, same_kind};
use cj_model::{BAD_COLUMNS, ColRef, Item, Items, Key, Kind, NO_COLUMN, Select, WRONG_TYPE};
use cj_search::{where_has_unknown_column, where_mixes_kinds};

/// The index of a column in the scope. An unknown column has index 0.
pub fn place_in(scope: &Scope, column: &ColRef) -> usize
    ensures { result ≡ scopes.column_place scope.now column.now }
{
    scope.place(column).unwrap_or(0)
}

/// The items that the query lists; none for `*`.
pub fn listed(items: &Items) -> &[Item]
    ensures { result.now ≡ queries.items_listed items.now }
{
    match items {
        Items::All => &[],
        Items::Listed(items) => items.as_slice(),
    }
}

// ---- unknown columns

fn item_has_unknown_column(scope: &Scope, item: &Item) -> bool
    ensures { result ≡ list_any (scopes.is_unknown_column scope.now) (queries.columns_of_item item.now) }
{
    match item {
        Item::Col(column) => scope.is_unknown_column(column),
        Item::Count => false,
        Item::Sum(column) => scope.is_unknown_column(column),
    }
}

fn items_have_unknown_column(scope: &Scope, items: &[Item]) -> bool
    ensures { result ≡ list_any (λ item. list_any (scopes.is_unknown_column scope.now) (queries.columns_of_item item)) items.now }
{
    items
        .iter()
        .any(|item| item_has_unknown_column(scope, item))
}

fn keys_have_unknown_column(scope: &Scope, keys: &[Key]) -> bool
    ensures { result ≡ list_any (λ (key : Key). scopes.is_unknown_column scope.now key.col) keys.now }
{
    keys.iter().any(|key| scope.is_unknown_column(&key.col))
}

fn group_has_unknown_column(scope: &Scope, group: &Option<ColRef>) -> bool
    ensures { result ≡ list_any (scopes.is_unknown_column scope.now) (option_to_list group.now) }
{
    match group {
        Some(column) => scope.is_unknown_column(column),
        None => false,
    }
}

fn keys_or_group_have_unknown_column(scope: &Scope, select: &Select) -> bool
    ensures { result ≡ (list_any (scopes.is_unknown_column scope.now) (option_to_list select.now.group) || list_any (λ (key : Key). scopes.is_unknown_column scope.now key.col) select.now.order) }
{
    group_has_unknown_column(scope, &select.group)
        || keys_have_unknown_column(scope, select.order.as_slice())
}

/// Whether the query names an unknown column outside its condition.
fn columns_have_unknown_column(scope: &Scope, select: &Select) -> bool
    ensures { result ≡ list_any (scopes.is_unknown_column scope.now) (queries.columns_named select.now) }
{
    items_have_unknown_column(scope, listed(&select.items))
        || keys_or_group_have_unknown_column(scope, select)
}

// ---- columns that do not fit each other

fn is_plain(item: &Item) -> bool
    ensures { result ≡ queries.is_plain_item item.now }
{
    matches!(item, Item::Col(_))
}

/// Whether an item is COUNT or SUM.
pub fn aggregates(items: &Items) -> bool
    ensures { result ≡ queries.has_aggregate items.now }
{
    listed(items).iter().any(|item| !is_plain(item))
}

fn is_same_column(scope: &Scope, one: &ColRef, two: &ColRef) -> bool
    ensures { result ≡ queries.is_same_column scope.now one.now two.now }
{
    place_in(scope, one) == place_in(scope, two)
}

fn is_outside_group(scope: &Scope, group: &ColRef, item: &Item) -> bool
    ensures { result ≡ queries.is_outside_group scope.now group.now item.now }
{
    match item {
        Item::Col(column) => !is_same_column(scope, group, column),
        Item::Count => false,
        Item::Sum(_) => false,
    }
}

fn any_outside_group(scope: &Scope, group: &ColRef, items: &[Item]) -> bool
    ensures { result ≡ list_any (queries.is_outside_group scope.now group.now) items.now }
{
    items
        .iter()
        .any(|item| is_outside_group(scope, group, item))
}

fn leave_group(scope: &Scope, group: &ColRef, items: &Items) -> bool
    ensures { result ≡ queries.leave_group scope.now group.now items.now }
{
    match items {
        Items::All => true,
        Items::Listed(items) => any_outside_group(scope, group, items.as_slice()),
    }
}

fn keys_leave_group(scope: &Scope, group: &ColRef, keys: &[Key]) -> bool
    ensures { result ≡ list_any (λ (key : Key). not (queries.is_same_column scope.now group.now key.col)) keys.now }
{
    keys.iter()
        .any(|key| !is_same_column(scope, group, &key.col))
}

fn any_plain(items: &[Item]) -> bool
    ensures { result ≡ list_any queries.is_plain_item items.now }
{
    items.iter().any(|item| is_plain(item))
}

fn has_bad_columns(scope: &Scope, select: &Select) -> bool
    ensures { result ≡ queries.has_bad_columns scope.now select.now.items select.now.order select.now.group }
{
    match &select.group {
        Some(group) => leave_group(scope, group, &select.items)
            || keys_leave_group(scope, group, select.order.as_slice()),
        None => aggregates(&select.items)
            && (any_plain(listed(&select.items)) || select.order.len() != 0),
    }
}

// ---- kinds that do not agree

fn sums_text(scope: &Scope, item: &Item) -> bool
    ensures { result ≡ queries.sums_text scope.now item.now }
{
    match item {
        Item::Col(_) => false,
        Item::Count => false,
        Item::Sum(column) => same_kind(scope.kind(place_in(scope, column)), Kind::Text),
    }
}

fn any_sums_text(scope: &Scope, items: &[Item]) -> bool
    ensures { result ≡ list_any (queries.sums_text scope.now) items.now }
{
    items.iter().any(|item| sums_text(scope, item))
}

fn mixes_kinds(scope: &Scope, select: &Select) -> bool
    ensures { result ≡ (scopes.where_mixes_kinds scope.now select.now.cond || list_any (queries.sums_text scope.now) (queries.items_listed select.now.items)) }
{
    where_mixes_kinds(scope, &select.cond) || any_sums_text(scope, listed(&select.items))
}

// ---- the first refusal

/// The code of the query's first refusal that does not depend on rows, or none. Unknown columns come first,
/// then columns that do not fit each other, then kinds.
pub fn refusal(scope: &Scope, select: &Select) -> Option<u16>
    ensures { result ≡ refused.code_of scope.now select.now }
{
    if columns_have_unknown_column(scope, select) || where_has_unknown_column(scope, &select.cond) {
        return Some(NO_COLUMN);
    }
    if has_bad_columns(scope, select) {
        return Some(BAD_COLUMNS);
    }
    if mixes_kinds(scope, select) {
        return Some(WRONG_TYPE);
    }
    None
}
