//! Decodes the messages of a client from the bytes of its frames.
//!
//! A frame is a length of four bytes, most significant first, then a kind and a payload of that length together.
//! `next_message` gives the first message of some bytes, `read_frames` all whole ones, `Feed` those of bytes that
//! come in pieces. However the bytes were cut, the messages are the one reading of all bytes (`cj_model`).
//!
//! A new kind of message concerns `next` and `specs/Proving/Reading`. Read `specs/Next` and `specs/Feeding`
//! first, then `proofs/Taken`, `proofs/Faults` and `proofs/Readings`.
#![tactic(auto)]

mod error;
mod feed;
mod fields;
mod frames;
mod laws;
mod next;

pub use error::FrameError;
pub use feed::Feed;
pub use frames::{Framed, read_frames};
pub use laws::{bytes_have_readings, feeds_are_readings};
pub use next::next_message;
