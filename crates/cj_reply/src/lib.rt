//! Encodes replies as the bytes of their frames, and decodes them.
//!
//! `encode` gives the frame of a reply, or `TooLarge` if it exceeds the limit. `decode` gives the reply whose
//! frame the bytes are, and `Malformed` means that they are none. Bytes are the frame of at most one reply. An
//! encoded reply that fits the wire is decoded as itself, unless memory runs out.
//!
//! A new kind of reply concerns `reply`, `decoding` and `specs/Proving/ReplyFormats`, and the frames in
//! `cj_model`. Read `specs/Encode` and `specs/Decode` first, then `proofs/ReplyFormats`, `proofs/Frames` and
//! `proofs/Parts`.
#![tactic(auto)]

mod decoding;
mod laws;
mod part;
mod reply;

pub use decoding::decode;
pub use laws::{encoded_replies_are_decoded, frames_have_one_reply};
pub use reply::{ReplyError, encode, encode_done, encode_refused, encode_stats};
