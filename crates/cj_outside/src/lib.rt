//! The outside as traits: `Source` and `Sink` for streams, `Store` for files, `Clock`, and `Draw` for random numbers.
//!
//! Contracts see the bytes of an object that tells them, and its count of faults. A call that answers `Failed`
//! counts one fault, and no other call counts any. A store may also tell what a stop would leave.
//! Clocks and draws can't fail.
//! `read_to_end`, `write_all`, `read_store` and `Lines` (a source line by line) work over every such object.
//! `MemSource`, `MemSink` and `MemStore` are in memory, and fail at chosen calls.
//! A change usually concerns `lines.rt` or the objects in memory; one of a trait also concerns `cj_edge`.
//! The definitions are in `specs/Streams`, `specs/Stores` and `specs/Lines`.
//! Proofs begin in `proofs/Joined` (bytes moved in several steps) and `proofs/Stopped` (what a stop leaves of calls).
#![tactic(auto)]

mod clock;
mod draw;
mod lines;
mod mem_store;
mod memory;
mod sink;
mod source;
mod store;
mod streams;

pub use clock::{Clock, FixedClock};
pub use draw::{Draw, ListDraw, PcgDraw};
pub use lines::{LINE_LIMIT, Line, LineError, Lines};
pub use mem_store::MemStore;
pub use memory::{MemSink, MemSource};
pub use sink::{OutError, Sink};
pub use source::{Failed, Source};
pub use store::{Store, StoreReadError, is_past_most, read_store};
pub use streams::{MOST, ReadError, read_to_end, write_all};
