//! The order of rows and of groups.

ghost use Rattle.std.specs.Prelude.{◌≡◌, false, map, IfOk, OnOk};
ghost use Rattle.std.specs.Map.Iter.{deref};
ghost use Rattle.cj_model.specs.Database.Order.{sorts_before, by_sort_key, by_sort_keys, sorted_by};
ghost use Rattle.cj_model.specs.Database.Queries.{first_row};
ghost use Rattle.cj_model.specs.Database.Queries as queries;
ghost use Rattle.cj_model.specs.Database.Tables.{by_key};
ghost use Rattle.cj_query.specs.Groups.{rows_in};

use cj_expr::Scope;
use cj_model::{Key, NoMemory, Value};
use std::alloc::Global;
use std::cmp::Ordering;
use std::marker::Model;

/// The index of a column by which rows rise or fall.
#[derive(Drop)]
pub struct SortKey {
    place: usize,
    desc: bool,
}

impl Model for SortKey {
    ghost use Rattle.cj_model.specs.Database.Order as order;

    ghost Value = { order.SortKey };

    ghost view = { λ key. record { place = key.place; desc = key.desc } };
}

impl SortKey {
    /// The key by which rows rise at index `place`.
    pub fn rising(place: usize) -> SortKey
        ensures { result ≡ record { place = place; desc = false } }
    {
        SortKey { place, desc: false }
    }

    /// The index of the key's column.
    pub fn place(&self) -> usize
        ensures { result ≡ self.now.place }
    {
        self.place
    }

    /// Whether rows fall by this key.
    pub fn falls(&self) -> bool
        ensures { result ≡ self.now.desc }
    {
        self.desc
    }
}

fn sort_key_of(key: &Key, scope: &Scope) -> SortKey
    ensures { result ≡ queries.sort_key_of scope.now key.now }
{
    SortKey {
        place: scope.place(&key.col).unwrap_or(0),
        desc: key.desc,
    }
}

/// Binds the keys of ORDER BY, each column to its index in the scope. An unknown column has index 0. Fails
/// only with `NoMemory`.
pub fn sort_keys(alloc: Global, keys: &[Key], scope: &Scope) -> Result<Vec<SortKey>, NoMemory>
    ensures { IfOk result (λ out. out.items ≡ map (queries.sort_key_of scope.now) keys.now) }
{
    let mut out = Vec::new(alloc);
    for key in keys {
        out.push(sort_key_of(key, scope))?;
    }
    Ok(out)
}

/// The order of two rows by their values at index `place`. Past a row's end the value is 0.
pub fn compare_at(place: usize, left: &[Value], right: &[Value]) -> Ordering
    ensures { result ≡ by_key place left.now right.now }
{
    match (left.get(place), right.get(place)) {
        (Some(left), Some(right)) => left.cmp(right),
        (Some(left), None) => left.cmp(&Value::Int(0)),
        (None, Some(right)) => Value::Int(0).cmp(right),
        (None, None) => Ordering::Equal,
    }
}

fn compare_by(key: &SortKey, left: &[Value], right: &[Value]) -> Ordering
    ensures { result ≡ by_sort_key key.now left.now right.now }
{
    if key.desc {
        compare_at(key.place, right, left)
    } else {
        compare_at(key.place, left, right)
    }
}

/// The order of two rows by the first key, then by the second, and so on.
pub fn compare(keys: &[SortKey], left: &[Value], right: &[Value]) -> Ordering
    ensures { result ≡ by_sort_keys keys.now left.now right.now }
{
    for key in keys {
        let order = compare_by(key, left, right);
        if order.is_ne() {
            return order;
        }
    }
    Ordering::Equal
}

/// The values of a group's first row; none for an empty group.
pub fn first_values<'a>(group: &[&'a [Value]]) -> &'a [Value]
    ensures { result.now ≡ first_row (map deref group.now) }
{
    match group.first() {
        Some(row) => *row,
        None => &[],
    }
}

/// Sorts groups by their first rows in the order of the keys. Groups that tie keep their order. After
/// `NoMemory` the contract says nothing of the groups.
pub fn sort_groups(groups: &mut Vec<&[&[Value]]>, keys: &[SortKey]) -> Result<(), NoMemory>
    ensures { OnOk result (rows_in groups.new.items ≡ sorted_by (λ g h. sorts_before keys.now (first_row g) (first_row h)) (rows_in groups.old.items)) }
{
    if keys.is_empty() {
        return Ok(());
    }
    groups.sort_by(|left, right| compare(keys, first_values(left), first_values(right)))?;
    Ok(())
}
