//! What a session asks for. All that it asks for is to be done.

ghost use Rattle.std.specs.Prelude.{◌≡◌};
ghost use Rattle.cj_desk.specs.DeskStates.{desk_tx};

use cj_desk::Desk;
use cj_model::NoMemory;
use cj_test_setup::request;
use std::alloc::Global;
use std::process::Abort;

/// Has a session that was just opened make these requests.
pub fn request_all<R: Abort, K: Desk<R>>(
    rt: &R,
    alloc: Global,
    desk: &mut K,
    texts: &[&str],
) -> Result<(), NoMemory>
    requires new { ((K.state_of desk.old).requests ≡ 0) × (desk_tx (K.state_of desk.old) ≡ 0) }
{
    assert!(rt; texts.len() < 100);
    let mut tx = 0;
    for text in texts {
        let Some(later) = request(rt, alloc, desk, tx, text) else {
            panic!(rt; "{text}")
        };
        tx = later;
    }
    Ok(())
}
