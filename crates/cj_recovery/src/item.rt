//! An entry as an item of the log.

ghost use Rattle.std.specs.Prelude.{◌≡◌, ◌≤◌, length, IfOk};
ghost use Rattle.cj_model.specs.Sql.PlainRequests.{request_of};
ghost use Rattle.cj_model.specs.Sql.WrittenRequests.{IsWritten};
ghost use Rattle.cj_log.specs.Items.{CanAppend};
ghost use Rattle.cj_recovery.specs.Openings as openings;

use crate::act::write_act;
use cj_log::{LogEntry, LogItem};
use cj_model::{Duplicate, Entry, NoMemory, USER_LIMIT};
use std::alloc::Global;

/// Writes entry `number` of the log as an item that may be appended; fails if memory runs out.
pub fn entry_item(alloc: Global, number: u64, entry: &Entry) -> Result<LogItem, NoMemory>
    requires written { IsWritten (request_of entry.now.act) }
    requires short { length entry.now.user ≤ USER_LIMIT }
    ensures item { IfOk result (λ item. (item ≡ openings.entry_item number entry.now) × CanAppend item) }
{
    let text = write_act(alloc, &entry.act)?;
    let user = entry.user.copy(alloc)?;
    Ok(LogItem::Entry(LogEntry {
        number,
        session: entry.session,
        seq: entry.seq,
        tx: entry.tx,
        user,
        text,
    }))
}
