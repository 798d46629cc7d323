//! How much there may be of each thing at most.

/// The most backends of a cluster; they are numbered from 0.
pub const BACKEND_LIMIT: u8 = 16;

/// The most sessions that are open at once.
pub const SESSION_LIMIT: usize = 1024;

/// The greatest number of a session.
pub const SESSION_NUMBER_LIMIT: u64 = 1 << 62;

/// The most requests of one session.
pub const REQUEST_LIMIT: u64 = 1 << 62;

/// The most events of a history.
pub const EVENT_LIMIT: u64 = 1 << 62;

/// The most bytes of a user's name.
pub const USER_LIMIT: usize = 64;

/// The most bytes of a frame's kind and payload together.
pub const FRAME_LIMIT: u32 = 1_048_576;

/// The most bytes of the name of a table, a column or a backend.
pub const NAME_LIMIT: usize = 32;

/// The most bytes of a string's value.
pub const TEXT_LIMIT: usize = 4096;

/// The most columns of a table, and so the most names, values and assignments that a statement lists.
pub const COLUMN_LIMIT: usize = 16;

/// The most rows of a table, as committed or as a draft.
pub const ROW_LIMIT: usize = 65_536;

/// The most rows of one INSERT.
pub const TUPLE_LIMIT: usize = 4096;

/// The most items that one SELECT lists.
pub const ITEM_LIMIT: usize = 16;

/// The most tables of one FROM.
pub const TABLE_LIMIT: usize = 4;

/// The most columns of an answer: all those of the tables of one FROM.
pub const ANSWER_LIMIT: usize = 64;

/// The most keys of one ORDER BY.
pub const KEY_LIMIT: usize = 4;

/// The most comparisons of a condition.
pub const TEST_LIMIT: usize = 256;

/// The most NOTs and parentheses that are open at one point of a condition.
pub const DEPTH_LIMIT: usize = 64;
