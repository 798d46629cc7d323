//! What a command is answered.

use cj_administration::AdminError;
use cj_backup::BackupError;
use cj_model::Text;
use cj_replay::ReplayError;

/// The answer to a line of the console.
#[derive(Drop)]
pub enum Answer {
    /// Lines, each with its LF.
    Lines(Text),
    Done,
    Number(u64),
    /// The hits and the misses of the result cache.
    CacheCounts(u64, u64),
    /// The line is no command, or too long.
    NoCommand,
    /// The line names a backend that is not there.
    NoBackend,
    /// The shelf has no dump of the name.
    NoDump,
    /// The shelf's store failed, and counted a fault.
    StoreFault,
    /// At this offset the shelf's store has a record that is no dump of the name.
    BadRecord(u64),
    NoMemory,
    Refused(AdminError),
    NotReenabled(ReplayError),
    NotBackedUp(BackupError),
}
