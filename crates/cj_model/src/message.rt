//! What a client sends.

use crate::list::ListOf;
use crate::memory::{Duplicate, NoMemory};
use std::alloc::Global;
use thiserror::Error;

pub type Bytes = ListOf<u8>;

/// A client's message.
#[derive(Drop)]
pub enum Message {
    Login { user: Bytes, password: Bytes },
    /// The text of a statement.
    Query(Bytes),
    Stats,
    Quit,
}

pub type Messages = ListOf<Message>;

/// What is wrong with a frame.
#[derive(Clone, Copy, Debug, PartialEq, Eq, Error)]
pub enum FrameFault {
    #[error("a frame of no bytes")]
    LengthZero,
    #[error("a frame over the limit")]
    LengthOver,
    #[error("a frame of an unknown kind")]
    Kind,
    #[error("a payload that its kind doesn't have")]
    Payload,
}

impl Duplicate for Message {
    fn copy(&self, alloc: Global) -> Result<Message, NoMemory> {
        match self {
            Message::Login { user, password } => Ok(Message::Login {
                user: user.copy(alloc)?,
                password: password.copy(alloc)?,
            }),
            Message::Query(text) => Ok(Message::Query(text.copy(alloc)?)),
            Message::Stats => Ok(Message::Stats),
            Message::Quit => Ok(Message::Quit),
        }
    }
}

impl FrameFault {
    ghost use Rattle.std.specs.Prelude.{◌≡◌};
    ghost use Rattle.cj_model.specs.Wire.Frames.{fault_number};

    /// The fault's number, which a client gets in the refusal `BAD_FRAME`.
    pub fn number(self) -> u64
        ensures { result ≡ fault_number self }
    {
        match self {
            FrameFault::LengthZero => 1,
            FrameFault::LengthOver => 2,
            FrameFault::Kind => 3,
            FrameFault::Payload => 4,
        }
    }
}
