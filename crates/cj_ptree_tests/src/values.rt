//! Values that several owners share.

use crate::counted::Counted;
use cj_ptree::Shared;
use std::sync::Arc;
use std::test::Fail;

#[test]
fn a_change_leaves_what_another_owner_has(rt: HostRuntime) -> Result<(), Fail> {
    let mut value: Shared<u64> = Shared::of(rt.alloc(), 1);
    let other = value.again(rt.alloc())?;
    *value.edit(rt.alloc())? = 2;
    assert!(rt; *value.get() == 2 && *other.get() == 1);
    Ok(())
}

#[test]
fn a_value_is_copied_only_where_another_owner_has_it(rt: HostRuntime) -> Result<(), Fail> {
    let arc = Arc::new(rt.alloc(), 7)?;
    let counted = Counted {
        arc: Arc::try_clone(&arc)?,
    };
    let mut value = Shared::of(rt.alloc(), counted);
    let other = value.again(rt.alloc())?;
    assert!(rt;
        Arc::strong_count(&arc) == 2,
        "a further owner copies nothing"
    );
    value.edit(rt.alloc())?;
    assert!(rt;
        Arc::strong_count(&arc) == 3,
        "a change copies what another owner has"
    );
    value.edit(rt.alloc())?;
    assert!(rt;
        Arc::strong_count(&arc) == 3,
        "a second change is made in place"
    );
    drop(other);
    assert!(rt; Arc::strong_count(&arc) == 2);
    drop(value);
    assert!(rt; Arc::strong_count(&arc) == 1);
    Ok(())
}
