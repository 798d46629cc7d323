//! Which backends host which tables.

use crate::given::{name, spelled};
use cj_model::{Level, ListOf, Names, PlaceRow, PlaceRows};
use cj_place::{PlaceError, Placement};
use std::alloc::Global;
use std::process::Abort;
use std::test::Fail;

/// Table `t` is on backend `b1`, and `a` on both.
fn layout(rt: &impl Abort, alloc: Global) -> Result<Vec<PlaceRow>, Fail> {
    let both = Vec::from_array(alloc, [name(rt, "b1"), name(rt, "b0")])?;
    let one = Vec::from_array(alloc, [name(rt, "b1")])?;
    let rows = [
        PlaceRow {
            table: name(rt, "t"),
            hosts: ListOf::from_vec(one),
        },
        PlaceRow {
            table: name(rt, "a"),
            hosts: ListOf::from_vec(both),
        },
    ];
    Ok(Vec::from_array(alloc, rows)?)
}

#[test]
fn tables_are_placed(rt: HostRuntime) -> Result<(), Fail> {
    let alloc = rt.alloc();
    let backends = Vec::from_array(alloc, [name(&rt, "b0"), name(&rt, "b1")])?;
    let Ok(placement) = Placement::new(
        alloc,
        Level::Raidb2,
        ListOf::from_vec(backends),
        ListOf::from_vec(layout(&rt, alloc)?),
    ) else {
        panic!(&rt; "placement")
    };
    assert_eq!(rt; placement.count(), 2);
    for (b, tables) in [(0, "a "), (1, "a t ")] {
        if b < placement.count() {
            let Ok(set) = placement.hosted(alloc, b) else {
                panic!(&rt; "hosted")
            };
            assert!(rt; spelled(alloc, set.as_slice())?.as_slice() == tables.as_bytes());
        }
    }
    Ok(())
}

/// These names.
fn names(rt: &impl Abort, alloc: Global, words: &[&str]) -> Result<Names, Fail> {
    let mut names = ListOf::new(alloc);
    for word in words {
        names.push(name(rt, word))?;
    }
    Ok(names)
}

/// Table `t`, on these backends.
fn row(rt: &impl Abort, alloc: Global, hosts: &[&str]) -> Result<PlaceRows, Fail> {
    let row = PlaceRow {
        table: name(rt, "t"),
        hosts: names(rt, alloc, hosts)?,
    };
    Ok(ListOf::from_vec(Vec::from_array(alloc, [row])?))
}

#[test]
fn a_table_of_no_host_or_of_several_is_in_no_partition(rt: HostRuntime) -> Result<(), Fail> {
    let alloc = rt.alloc();
    let table = name(&rt, "t");
    let backends = ["b0", "b1"];
    let on_both = row(&rt, alloc, &backends)?;
    match Placement::new(alloc, Level::Raidb0, names(&rt, alloc, &backends)?, on_both) {
        Err(PlaceError::ManyHosts(refused)) => assert!(rt; refused.is(&table)),
        _ => panic!(&rt; "two hosts"),
    }
    let on_none = row(&rt, alloc, &[])?;
    match Placement::new(alloc, Level::Raidb0, names(&rt, alloc, &backends)?, on_none) {
        Err(PlaceError::NoHost(refused)) => assert!(rt; refused.is(&table)),
        _ => panic!(&rt; "no host"),
    }
    Ok(())
}

#[test]
fn there_is_no_placement_on_no_backends(rt: HostRuntime) -> Result<(), Fail> {
    let alloc = rt.alloc();
    let none = ListOf::new(alloc);
    let refused = Placement::new(alloc, Level::Raidb0, none, ListOf::new(alloc));
    assert!(rt; matches!(&refused, Err(PlaceError::BackendCount)));
    Ok(())
}
