//! The parts of an answer's payload: their sizes and their bytes.

ghost use Rattle.std.specs.Prelude.{◌≡◌, ◌≤◌, ◌++◌, ℕ, List, length, OnOk};
ghost use Rattle.std.specs.List.{flat_map};
ghost use Rattle.cj_model.specs.Wire.Fields.{str16};
ghost use Rattle.cj_model.specs.Wire.Replies.{value_bytes};
ghost use Rattle.cj_reply.specs.Encode.{capped};

use cj_codec::{put_str16, put_value};
use cj_model::{FRAME_LIMIT, ListOf, ListsOf, Name, NoMemory, Value};

/// A part of a payload: a name after its length, a value after its kind, a list of such parts, or a list of
/// lists.
pub trait Part {
    ghost bytes: { Self → List ℕ };

    /// The number of the part's bytes, at most 2^64 - 1.
    fn size(&self) -> u64
        ensures { result ≡ capped (length (bytes self.now)) };

    /// Appends the part's bytes to a frame. After `NoMemory` the contract says nothing of the frame.
    fn append(&self, frame: &mut Vec<u8>) -> Result<(), NoMemory>
        requires { length (bytes self.now) ≤ FRAME_LIMIT }
        ensures { OnOk result (frame.new.items ≡ frame.old.items ++ bytes self.now) };
}

impl Part for Name {
    ghost bytes = { str16 };

    fn size(&self) -> u64 {
        2 + self.as_slice().len() as u64
    }

    fn append(&self, frame: &mut Vec<u8>) -> Result<(), NoMemory> {
        put_str16(frame, self.as_slice())
    }
}

impl Part for Value {
    ghost bytes = { value_bytes };

    fn size(&self) -> u64 {
        match self {
            Value::Int(_) => 9,
            Value::Text(text) => (text.as_slice().len() as u64).saturating_add(5),
        }
    }

    fn append(&self, frame: &mut Vec<u8>) -> Result<(), NoMemory> {
        put_value(frame, self)
    }
}

/// The number of the parts' bytes together, at most 2^64 - 1.
fn parts_size<T: Part>(parts: &[T]) -> u64
    ensures { result ≡ capped (length (flat_map T.bytes parts.now)) }
{
    let mut total: u64 = 0;
    for part in parts {
        total = total.saturating_add(part.size());
    }
    total
}

fn append_parts<T: Part>(frame: &mut Vec<u8>, parts: &[T]) -> Result<(), NoMemory>
    requires { length (flat_map T.bytes parts.now) ≤ FRAME_LIMIT }
    ensures { OnOk result (frame.new.items ≡ frame.old.items ++ flat_map T.bytes parts.now) }
{
    for part in parts {
        part.append(frame)?;
    }
    Ok(())
}

impl<T: Part> Part for ListOf<T> {
    ghost bytes = { flat_map T.bytes };

    fn size(&self) -> u64 {
        parts_size(self.as_slice())
    }

    fn append(&self, frame: &mut Vec<u8>) -> Result<(), NoMemory> {
        append_parts(frame, self.as_slice())
    }
}

impl<T: Part> Part for ListsOf<T> {
    ghost bytes = { flat_map (flat_map T.bytes) };

    #[tactic(auto, using(crate::proofs::Parts::parts_together))]
    fn size(&self) -> u64 {
        parts_size(self.items())
    }

    #[tactic(auto, using(crate::proofs::Parts::parts_together))]
    fn append(&self, frame: &mut Vec<u8>) -> Result<(), NoMemory> {
        append_parts(frame, self.items())
    }
}
