//! Messages from bytes that come in pieces.

ghost use Rattle.std.specs.Prelude.{◌≡◌, ◌≤◌, [], ◌++◌, drop, length, OnErr, OnOk};
ghost use Rattle.cj_frame.specs.Feeding.{TakesMessage};

use crate::error::FrameError;
use crate::next::next_message;
use cj_model::{Message, NoMemory};
use std::alloc::Global;
use std::marker::Model;

/// Bytes that came in pieces, without those of the messages that were taken off.
///
/// A feed holds no more than the current frame and the last piece.
#[derive(Drop)]
pub struct Feed {
    bytes: Vec<u8>,
    /// The number of bytes at the front that belong to messages already taken off.
    at: usize,
}

impl Model for Feed {
    ghost use Rattle.std.specs.Prelude.{◌≤◌, List, ℕ, drop, length};

    ghost Value = { List ℕ };

    ghost view = { λ feed. drop feed.at feed.bytes.items };

    ghost invariant = { λ feed. feed.at ≤ length feed.bytes.items };
}

fn drop_front(bytes: &mut Vec<u8>, count: usize)
    requires { count ≤ length bytes.old.items }
    ensures { bytes.new.items ≡ drop count bytes.old.items }
{
    bytes.drain(..count);
}

impl Feed {
    /// A feed that holds no bytes, without allocation.
    pub fn new(alloc: Global) -> Feed
        ensures { result ≡ [] }
    {
        Feed {
            bytes: Vec::new(alloc),
            at: 0,
        }
    }

    /// The number of bytes that the feed holds.
    pub fn rest(&self) -> u64
        ensures { result ≡ length self.now }
    {
        (self.bytes.len() - self.at) as u64
    }

    /// Adds a piece at the end. `NoMemory` leaves the bytes unchanged.
    pub fn feed(&mut self, piece: &[u8]) -> Result<(), NoMemory>
        ensures ok { OnOk result (self.new ≡ self.old ++ piece.now) }
        ensures err { OnErr result (self.new ≡ self.old) }
    {
        let taken = self.at;
        drop_front(&mut self.bytes, taken);
        self.at = 0;
        self.bytes.extend_from_slice(piece)?;
        Ok(())
    }

    /// Takes the first message off. `None` if the bytes begin with no whole frame and show no fault yet.
    ///
    /// A fault stays. Any error leaves the bytes unchanged.
    pub fn next(&mut self, alloc: Global) -> Result<Option<Message>, FrameError>
        ensures { TakesMessage self.old self.new result }
    {
        let (_, held) = self.bytes.split_at(self.at);
        match next_message(alloc, held) {
            Ok(Some((message, after))) => {
                self.at = self.bytes.len() - after.len();
                Ok(Some(message))
            }
            Ok(None) => Ok(None),
            Err(error) => Err(error),
        }
    }
}
