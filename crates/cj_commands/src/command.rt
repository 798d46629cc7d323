//! What a line of the console may ask for.

use cj_model::Name;
use thiserror::Error;

/// What an administrator asks for. Backends go by their number, from 0.
#[derive(Drop)]
pub enum Command {
    ShowBackends,
    /// Shows the entries of the log from one number to another, and the markers between them.
    ShowLog { from: u64, to: u64 },
    ShowCache,
    Audit,
    /// Marks a checkpoint of this name in the log.
    Checkpoint(Name),
    Disable(u8),
    /// Brings the backend back, from the dump of this name if one is given.
    Enable(u8, Option<Name>),
    /// Takes a dump of the backend under this name, and brings the backend back.
    Backup(u8, Name),
    /// Ends an orphan: a transaction that is open while its session isn't.
    Abort(u64),
    /// Ends the console.
    Quit,
}

/// Why a line is no command.
#[derive(Clone, Copy, Debug, PartialEq, Eq, Error)]
pub enum Unread {
    /// No command has the form of the line.
    #[error("the line is no command")]
    NoCommand,
    /// The form is that of a command, but no backend has the name in the line.
    #[error("no backend has this name")]
    NoBackend,
}
