//! Which tables of a backend a dump covers, and what of it the backend takes.

ghost use Rattle.std.specs.Prelude.{◌≡◌, ◌<◌, length};
ghost use Rattle.cj_model.specs.Cluster.Placements as placements;
ghost use Rattle.cj_model.specs.Database.Tables.{table_of};
ghost use Rattle.cj_place.specs.Layouts.{placement_of};
ghost use Rattle.cj_dump.specs.Coverage as coverage;

use crate::dump::Dump;
use cj_model::{Db, Name, Slot, has_bit};
use cj_place::Placement;

/// Returns the first table, by name, that the placement gives to backend `b` and the dump doesn't
/// cover. `None` means that the dump covers them all. If the backend hosts every table and the dump
/// doesn't cover every table, the result is the empty name.
pub fn lacks(d: &Dump, p: &Placement, b: u8) -> Option<Name>
    requires { b < length p.now.names }
    ensures { result ≡ coverage.lacks d.now p.now b }
{
    if d.all {
        return None;
    }
    if p.all() {
        return Some(Name::empty());
    }
    match p.first_outside(b, &d.covers) {
        Some(table) => Some(table.copy()),
        None => None,
    }
}

fn is_hosted(p: &Placement, b: u8, slot: &Slot) -> bool
    ensures { result ≡ placements.hosts (placement_of p.now) b (table_of slot.now) }
{
    b < p.count() && has_bit(p.hosts(&slot.base.schema.table), b)
}

fn part(db: Db, p: &Placement, b: u8) -> Db
    ensures { result ≡ placements.part (placement_of p.now) b db }
{
    let mut slots = db.into_vec();
    slots.retain(|slot| is_hosted(p, b, slot));
    Db::from_vec(slots)
}

/// Returns the dump with only those of its tables that backend `b` hosts. This takes no memory.
pub fn cut(d: Dump, p: &Placement, b: u8) -> Dump
    ensures { result ≡ coverage.cut d p.now b }
{
    let Dump {
        position,
        source,
        name,
        all,
        covers,
        db,
    } = d;
    Dump {
        position,
        source,
        name,
        all,
        covers,
        db: part(db, p, b),
    }
}
