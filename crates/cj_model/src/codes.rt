//! The codes of refusals (docs/FORMATS.md has what each says and what its numbers mean).

/// A frame is faulty; `a` is the fault's number.
pub const BAD_FRAME: u16 = 1;
/// A Query or Stats before an accepted Login.
pub const NOT_LOGGED_IN: u16 = 2;
/// No account has this user and password.
pub const BAD_LOGIN: u16 = 3;
/// A Login after an accepted one.
pub const ALREADY_LOGGED_IN: u16 = 4;
/// The text is no statement.
pub const SYNTAX: u16 = 10;
/// BEGIN inside transaction `a`.
pub const IN_TRANSACTION: u16 = 11;
/// COMMIT or ROLLBACK outside a transaction.
pub const NO_TRANSACTION: u16 = 12;
/// CREATE or DROP inside transaction `a`.
pub const SCHEMA_IN_TRANSACTION: u16 = 13;
/// No enabled backend hosts every table named.
pub const NO_BACKEND: u16 = 20;
/// A table that isn't there.
pub const NO_TABLE: u16 = 21;
/// CREATE of a table that is there.
pub const TABLE_EXISTS: u16 = 22;
/// A column that isn't there.
pub const NO_COLUMN: u16 = 23;
/// Columns that don't fit each other or their table.
pub const BAD_COLUMNS: u16 = 24;
/// Another transaction, `a`, writes the table.
pub const LOCKED: u16 = 25;
/// A number outside 64 bits.
pub const OVERFLOW: u16 = 26;
/// A key that the table has already, or that the statement has twice.
pub const DUPLICATE: u16 = 27;
/// A value whose kind doesn't fit its column or operation.
pub const WRONG_TYPE: u16 = 28;
/// The table would have `a` rows, more than it may.
pub const ROWS_FULL: u16 = 29;
/// The answer's frame would have `a` bytes, more than it may.
pub const TOO_LARGE: u16 = 30;
/// No target finished the entry: those of mask `a` failed, those of mask `b` ran out of memory.
pub const UNFINISHED: u16 = 40;
/// Each backend of mask `a`, all that serve the read, failed in it.
pub const READ_FAULT: u16 = 41;
/// The log's store failed; nothing is scheduled.
pub const LOG_FAULT: u16 = 42;
/// The controller ran out of memory; nothing is scheduled.
pub const NO_MEMORY: u16 = 43;
/// The entry is scheduled, and each of its targets ran out of memory; mask `b` has them.
pub const STARVED_ALL: u16 = 44;
/// The history of `a` events has no room.
pub const HISTORY_FULL: u16 = 45;
/// No more sessions can be opened; `a` are open.
pub const SESSIONS_FULL: u16 = 46;
