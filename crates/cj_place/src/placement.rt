//! Placements of tables on backends.

ghost use Rattle.std.specs.Prelude.{◌≡◌, ◌<◌, ◌≤◌, ◌&&◌, [], ◌∷◌, ℕ, All, Some, filter, find, fold, length, map, option_copied, position, slice_get, true, IfOk, OnOk};
ghost use Rattle.std.specs.Str.{bytes_eq};
ghost use Rattle.cj_model.specs.Cluster.Masks.{in_mask};
ghost use Rattle.cj_model.specs.Cluster.Placements as placements;
ghost use Rattle.cj_model.specs.Cluster.Placements.{hosts_all};
ghost use Rattle.cj_model.specs.Database.Tables.{name_cmp, put_by};
ghost use Rattle.cj_model.specs.Sql.Names.{is_name};
ghost use Rattle.cj_place.specs.Layouts as layouts;
ghost use Rattle.cj_place.specs.Layouts.{MakesLayout, is_full, layout_of, placement_of, hosted_tables};
ghost use Rattle.cj_place.specs.Refusals.{has_count, refusal_of_placement};

use crate::error::PlaceError;
use crate::masks::{first_bits, is_lone_bit};
use crate::refusals::refusal;
use crate::rows::{HostRow, has_beyond, host_rows, mask_at, number_of};
use cj_model::{
    BACKEND_LIMIT, Duplicate, Level, ListOf, Name, Names, NoMemory, PlaceRows, TableSet, has_bit,
};
use std::alloc::Global;
use std::marker::Model;

/// Which backends host which tables. Backends go by their number, from 0.
#[derive(Drop)]
pub struct Placement {
    names: Names,
    /// Whether each backend hosts every table.
    full: bool,
    /// The rows in rising name of their table.
    rows: ListOf<HostRow>,
    /// The empty name, which is lent if no table is meant.
    empty: Name,
}

impl Model for Placement {
    ghost use Rattle.std.specs.Prelude.{map};
    ghost use Rattle.cj_place.specs.Layouts.{Layout};

    ghost Value = { Layout };

    ghost use Rattle.cj_place.specs.Kept.{IsKeptPlacement, given_rows};

    ghost view = { λ p. record { names = p.names; full = p.full; rows = given_rows p.rows } };

    ghost invariant = { λ p. IsKeptPlacement p.names p.rows p.empty };
}

fn replicates_in_full(level: Level) -> bool
    ensures { result ≡ is_full level }
{
    match level {
        Level::Raidb0 => false,
        Level::Raidb1 => true,
        Level::Raidb2 => false,
    }
}

/// Whether the table's name isn't the empty one.
#[tactic(auto, unfolding(cj_model::specs::Sql::Names::is_name))]
fn is_named(table: &Name) -> bool
    ensures { result ≡ is_name table.now }
{
    !table.as_slice().is_empty()
}

impl Placement {
    /// The placement of tables on backends, by rows of a table and its hosts.
    ///
    /// The error is the first thing that is wrong with the rows, or `NoMemory`.
    pub fn new(
        alloc: Global,
        level: Level,
        backends: Names,
        rows: PlaceRows,
    ) -> Result<Placement, PlaceError>
        ensures { MakesLayout (refusal_of_placement level backends rows) (layout_of level backends rows) result }
    {
        if let Some(refusal) = refusal(alloc, level, backends.as_slice(), rows.as_slice()) {
            return Err(refusal);
        }
        match Placement::build(alloc, level, backends, rows) {
            Ok(placement) => Ok(placement),
            Err(_) => Err(PlaceError::NoMemory),
        }
    }

    fn build(
        alloc: Global,
        level: Level,
        names: Names,
        rows: PlaceRows,
    ) -> Result<Placement, NoMemory>
        requires { has_count names ≡ true }
        ensures { IfOk result (λ placement. placement ≡ layout_of level names rows) }
    {
        let rows = host_rows(alloc, names.as_slice(), rows)?;
        Ok(Placement {
            names,
            full: replicates_in_full(level),
            rows: ListOf::from_vec(rows),
            empty: Name::empty(),
        })
    }

    /// How many backends there are.
    pub fn count(&self) -> u8
        ensures count { result ≡ length self.now.names }
        ensures some { 0 < result }
        ensures most { result ≤ BACKEND_LIMIT }
    {
        self.names.len() as u8
    }

    /// The names of the backends.
    pub fn names(&self) -> &Names
        ensures { result.now ≡ self.now.names }
    {
        &self.names
    }

    /// The name of backend `b`.
    pub fn name(&self, b: u8) -> &Name
        requires { b < length self.now.names }
        ensures { slice_get self.now.names b ≡ Some result.now }
    {
        &self.names.as_slice()[b as usize]
    }

    /// The number of the backend with this name; `None` exactly if no backend has it.
    pub fn find(&self, name: &Name) -> Option<u8>
        ensures { result ≡ position (λ n. bytes_eq n name.now) self.now.names }
    {
        number_of(self.names.as_slice(), name)
    }

    /// Whether each backend hosts every table.
    pub fn all(&self) -> bool
        ensures { result ≡ self.now.full }
    {
        self.full
    }

    /// The mask of the backends that host the table.
    pub fn hosts(&self, table: &Name) -> u32
        ensures { (b : ℕ) → in_mask result b ≡ placements.hosts (placement_of self.now) b table.now }
    {
        if self.full {
            return first_bits(self.names.len());
        }
        mask_at(self.rows.as_slice(), table)
    }

    /// The backends of a mask that host each of the tables.
    pub fn hosting(&self, mask: u32, tables: &[Name]) -> u32
        ensures { (b : ℕ) → in_mask result b ≡ (in_mask mask b && hosts_all (placement_of self.now) b tables.now) }
    {
        let mut left = mask;
        for table in tables {
            left &= self.hosts(table);
        }
        left
    }

    fn is_host(&self, b: u8, table: &Name) -> bool
        requires { b < length self.now.names }
        ensures { result ≡ placements.hosts (placement_of self.now) b table.now }
    {
        let _ = &self.names;
        has_bit(self.hosts(table), b)
    }

    /// Whether backend `b` hosts each table of the set.
    pub fn serves(&self, b: u8, set: &TableSet) -> bool
        requires { b < length self.now.names }
        ensures { result ≡ hosts_all (placement_of self.now) b set.now }
    {
        set.as_slice().iter().all(|table| self.is_host(b, table))
    }

    fn add_hosted(&self, set: &mut TableSet, b: u8, table: &Name) -> Result<(), NoMemory>
        requires { b < length self.now.names }
        ensures { OnOk result (set.new ≡ fold (put_by name_cmp) set.old (filter (placements.hosts (placement_of self.now) b) (table.now ∷ []))) }
    {
        if self.is_host(b, table) {
            set.insert(table)?;
        }
        Ok(())
    }

    fn hosted_of(&self, alloc: Global, b: u8, rows: &[HostRow]) -> Result<TableSet, NoMemory>
        requires { b < length self.now.names }
        ensures { IfOk result (λ set. set ≡ fold (put_by name_cmp) [] (filter (placements.hosts (placement_of self.now) b) (map (λ row. row.given.table) rows.now))) }
    {
        let mut set = TableSet::new(alloc);
        for row in rows {
            self.add_hosted(&mut set, b, &row.given.table)?;
        }
        Ok(set)
    }

    /// The tables of the rows that backend `b` hosts. Fails if memory runs out.
    pub fn hosted(&self, alloc: Global, b: u8) -> Result<TableSet, NoMemory>
        requires { b < length self.now.names }
        ensures { IfOk result (λ set. set ≡ fold (put_by name_cmp) [] (hosted_tables self.now b)) }
    {
        self.hosted_of(alloc, b, self.rows.as_slice())
    }

    fn add_covered(&self, set: &mut TableSet, b: u8, table: &Name) -> Result<(), NoMemory>
        requires { b < length self.now.names }
        ensures { OnOk result (set.new ≡ fold (put_by name_cmp) set.old (filter is_name (filter (placements.hosts (placement_of self.now) b) (table.now ∷ [])))) }
    {
        if is_named(table) {
            self.add_hosted(set, b, table)?;
        }
        Ok(())
    }

    fn covered_of(&self, alloc: Global, b: u8, rows: &[HostRow]) -> Result<TableSet, NoMemory>
        requires { b < length self.now.names }
        ensures { IfOk result (λ set. set ≡ fold (put_by name_cmp) [] (filter is_name (filter (placements.hosts (placement_of self.now) b) (map (λ row. row.given.table) rows.now)))) }
    {
        let mut set = TableSet::new(alloc);
        for row in rows {
            self.add_covered(&mut set, b, &row.given.table)?;
        }
        Ok(set)
    }

    /// The tables that a dump of backend `b` covers: those that the rows name for it, or none if each backend hosts
    /// every table. Fails if memory runs out.
    pub fn covered(&self, alloc: Global, b: u8) -> Result<TableSet, NoMemory>
        requires { b < length self.now.names }
        ensures tables { IfOk result (λ set. set ≡ layouts.covered self.now b) }
        ensures names { IfOk result (All (λ name. is_name name ≡ true)) }
    {
        if self.full {
            return Ok(TableSet::new(alloc));
        }
        self.covered_of(alloc, b, self.rows.as_slice())
    }

    fn is_last_host(&self, b: u8, enabled: u32, table: &Name) -> bool
        requires { b < length self.now.names }
        ensures { result ≡ layouts.is_last_host (placement_of self.now) b enabled table.now }
    {
        let _ = &self.names;
        is_lone_bit(self.hosts(table) & enabled, b)
    }

    fn last_of<'a>(&self, b: u8, enabled: u32, rows: &'a [HostRow]) -> Option<&'a Name>
        requires { b < length self.now.names }
        ensures { option_copied result ≡ find (layouts.is_last_host (placement_of self.now) b enabled) (map (λ row. row.given.table) rows.now) }
    {
        for row in rows {
            if self.is_last_host(b, enabled, &row.given.table) {
                return Some(&row.given.table);
            }
        }
        None
    }

    /// The first table, in the order of names, whose only enabled host is backend `b`; `None` if there is none.
    ///
    /// If each backend hosts every table, this is the empty name exactly if backend `b` alone is enabled.
    pub fn last_host(&self, b: u8, enabled: u32) -> Option<&Name>
        requires { b < length self.now.names }
        ensures { option_copied result ≡ layouts.last_host self.now b enabled }
    {
        if self.full {
            if self.is_last_host(b, enabled, &self.empty) {
                return Some(&self.empty);
            }
            return None;
        }
        self.last_of(b, enabled, self.rows.as_slice())
    }

    fn is_outside(&self, b: u8, set: &TableSet, table: &Name) -> bool
        requires { b < length self.now.names }
        ensures { result ≡ layouts.is_outside (placement_of self.now) b set.now table.now }
    {
        self.is_host(b, table) && !set.contains(table)
    }

    fn outside_of<'a>(&self, b: u8, set: &TableSet, rows: &'a [HostRow]) -> Option<&'a Name>
        requires { b < length self.now.names }
        ensures { option_copied result ≡ find (layouts.is_outside (placement_of self.now) b set.now) (map (λ row. row.given.table) rows.now) }
    {
        for row in rows {
            if self.is_outside(b, set, &row.given.table) {
                return Some(&row.given.table);
            }
        }
        None
    }

    /// The first table of the rows, in the order of names, that backend `b` hosts and that isn't in the set.
    pub fn first_outside(&self, b: u8, set: &TableSet) -> Option<&Name>
        requires { b < length self.now.names }
        ensures { option_copied result ≡ layouts.first_outside self.now b set.now }
    {
        self.outside_of(b, set, self.rows.as_slice())
    }

    /// Whether backend `b` hosts a table of the rows that backend `other` doesn't.
    pub fn hosts_beyond(&self, b: u8, other: u8) -> bool
        requires backend { b < length self.now.names }
        requires other { other < length self.now.names }
        ensures { result ≡ layouts.hosts_beyond (placement_of self.now) b other }
    {
        if self.full {
            return false;
        }
        has_beyond(self.rows.as_slice(), b, other)
    }
}

impl Duplicate for Placement {
    fn copy(&self, alloc: Global) -> Result<Placement, NoMemory> {
        Ok(Placement {
            names: self.names.copy(alloc)?,
            full: self.full,
            rows: self.rows.copy(alloc)?,
            empty: self.empty.copy(),
        })
    }
}
