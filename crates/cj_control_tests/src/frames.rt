//! What sessions send and are sent, worked out by hand from docs/FORMATS.md.

use cj_model::NoMemory;
use std::alloc::Global;

/// A message that a session sends.
#[derive(Drop)]
pub enum Sent<'a> {
    Query(&'a str),
    Stats,
}

/// What a session sends after its Login, and is to be sent after the reply to it.
#[derive(Drop)]
pub struct Talk<'a> {
    pub sent: &'a [Sent<'a>],
    pub replies: &'a [&'a [u8]],
}

/// The Login of the one user.
const LOGIN: &[u8] = b"\x00\x00\x00\x0e\x01\x00\x03ann\x00\x06secret";

const STATS: &[u8] = b"\x00\x00\x00\x01\x03";

/// The reply that no row was changed.
pub const DONE_0: &[u8] = b"\x00\x00\x00\x09\x81\x00\x00\x00\x00\x00\x00\x00\x00";

/// The reply that one row was changed.
pub const DONE_1: &[u8] = b"\x00\x00\x00\x09\x81\x00\x00\x00\x00\x00\x00\x00\x01";

/// The reply that two rows were changed.
pub const DONE_2: &[u8] = b"\x00\x00\x00\x09\x81\x00\x00\x00\x00\x00\x00\x00\x02";

/// Appends the frame of a message.
fn append(frames: &mut Vec<u8>, message: &Sent<'_>) -> Result<(), NoMemory> {
    match message {
        Sent::Query(text) => {
            let size = u32::try_from(text.len()).unwrap_or(0).wrapping_add(1);
            frames.extend_from_slice(&size.to_be_bytes())?;
            frames.push(2)?;
            frames.extend_from_slice(text.as_bytes())?;
        }
        Sent::Stats => frames.extend_from_slice(STATS)?,
    }
    Ok(())
}

impl Talk<'_> {
    /// The frames that the session sends.
    pub fn frames(&self, alloc: Global) -> Result<Vec<u8>, NoMemory> {
        let mut frames = LOGIN.to_vec(alloc)?;
        for message in self.sent {
            append(&mut frames, message)?;
        }
        Ok(frames)
    }

    /// The frames that it is to be sent.
    pub fn wanted(&self, alloc: Global) -> Result<Vec<u8>, NoMemory> {
        let mut wanted = DONE_0.to_vec(alloc)?;
        for reply in self.replies {
            wanted.extend_from_slice(reply)?;
        }
        Ok(wanted)
    }
}
