//! Trees of numbers, and of values that are counted.

ghost use Rattle.std.specs.Prelude.{nat_eq, not};

use crate::counted::Counted;
use cj_model::NoMemory;
use cj_ptree::{Edit, PIter, PTree};
use std::alloc::Global;
use std::sync::Arc;
use std::test::Fail;

/// How many keys the large trees have: enough for several twigs.
const KEYS: u64 = 5000;

/// Edits values to 0, and leaves one out.
struct ZeroAllBut {
    gone: u64,
}

impl Edit<u64> for ZeroAllBut {
    ghost stays = { λ by value. not (nat_eq value by.gone) };

    ghost edited = { λ by value. 0 };

    fn edit(&self, value: &mut u64) -> bool {
        let stays = *value != self.gone;
        *value = 0;
        stays
    }
}

/// The keys that a walk gives.
fn keys_of(alloc: Global, walk: PIter<'_, u64, u64>) -> Result<Vec<u64>, NoMemory> {
    let mut keys = Vec::new(alloc);
    for (key, _) in walk {
        keys.push(*key)?;
    }
    Ok(keys)
}

/// The tree with the keys 1, 2 and 3, each with ten times itself.
fn tree_of_three(alloc: Global) -> Result<PTree<u64, u64>, NoMemory> {
    let mut tree = PTree::new(alloc);
    for (key, value) in [(3, 30), (1, 10), (2, 20)] {
        tree.insert(key, value)?;
    }
    Ok(tree)
}

/// The tree with the keys below a number, put in falling order, each with itself.
fn large_tree(alloc: Global) -> Result<PTree<u64, u64>, NoMemory> {
    let mut tree = PTree::new(alloc);
    for key in (0..KEYS).rev() {
        tree.insert(key, key)?;
    }
    Ok(tree)
}

/// A value that threads can share.
fn shared<T: Send + Sync>(value: &T) -> &T {
    value
}

#[test]
fn a_snapshot_keeps_what_a_remove_takes(rt: HostRuntime) -> Result<(), Fail> {
    let mut tree = tree_of_three(rt.alloc())?;
    let snapshot = tree.snapshot()?;
    assert!(rt; tree.remove(&2)? == Some(20));
    assert!(rt; tree.get(&2) == None && snapshot.get(&2) == Some(&20));
    assert!(rt; keys_of(rt.alloc(), shared(&snapshot).iter())?.as_slice() == [1, 2, 3].as_slice());
    assert!(rt; keys_of(rt.alloc(), tree.iter())?.as_slice() == [1, 3].as_slice());
    assert!(rt; tree.remove(&2)? == None);
    Ok(())
}

#[test]
fn an_edit_leaves_a_snapshot(rt: HostRuntime) -> Result<(), Fail> {
    let mut tree = tree_of_three(rt.alloc())?;
    let snapshot = tree.snapshot()?;
    tree.retain(&ZeroAllBut { gone: 30 })?;
    assert!(rt; tree.get(&1) == Some(&0) && tree.get(&3) == None);
    assert!(rt; snapshot.get(&1) == Some(&10) && snapshot.get(&3) == Some(&30));
    Ok(())
}

#[test]
fn a_change_puts_or_removes(rt: HostRuntime) -> Result<(), Fail> {
    let mut tree = tree_of_three(rt.alloc())?;
    for (key, value) in [(1, None), (4, Some(40)), (2, Some(21))] {
        tree.change(key, value)?;
    }
    assert!(rt; tree.get(&2) == Some(&21) && tree.get(&4) == Some(&40));
    assert!(rt; keys_of(rt.alloc(), tree.iter())?.as_slice() == [2, 3, 4].as_slice());
    Ok(())
}

#[test]
fn a_walk_gives_all_keys(rt: HostRuntime) -> Result<(), Fail> {
    let tree = large_tree(rt.alloc())?;
    let mut next: u64 = 0;
    for (key, _) in tree.iter() {
        assert!(rt; *key == next);
        next = next.wrapping_add(1);
    }
    assert!(rt; next == KEYS);
    Ok(())
}

#[test]
fn cursors_go_both_ways_from_a_key(rt: HostRuntime) -> Result<(), Fail> {
    let tree = large_tree(rt.alloc())?;
    let mut walk = tree.iter_from(&1234);
    assert!(rt; walk.next() == Some((&1234, &1234)));
    let mut last = KEYS;
    for (key, _) in walk.rev() {
        last = last.wrapping_sub(1);
        assert!(rt; *key == last);
    }
    assert!(rt; last == 1235);
    let mut down = tree.iter_before(&1234).rev();
    assert!(rt; down.next() == Some((&1233, &1233)));
    assert!(rt; down.next() == Some((&1232, &1232)));
    Ok(())
}

#[test]
fn a_dropped_snapshot_gives_its_memory_back(rt: HostRuntime) -> Result<(), Fail> {
    let arc = Arc::new(rt.alloc(), 7)?;
    let mut tree: PTree<u64, Counted> = PTree::new(rt.alloc());
    tree.insert(
        1,
        Counted {
            arc: Arc::try_clone(&arc)?,
        },
    )?;
    let snapshot = tree.snapshot()?;
    assert!(rt; Arc::strong_count(&arc) == 2, "a snapshot copies no leaf");
    tree.insert(
        2,
        Counted {
            arc: Arc::try_clone(&arc)?,
        },
    )?;
    assert!(rt;
        Arc::strong_count(&arc) == 4,
        "the first change copies the leaf"
    );
    drop(snapshot);
    assert!(rt; Arc::strong_count(&arc) == 3);
    drop(tree);
    assert!(rt; Arc::strong_count(&arc) == 1);
    Ok(())
}
