//! The codec of all binary formats: numbers, byte strings, names, values and lists of fields, big-endian.
//! Fields are appended to bytes by `put_..`, and read from the front of bytes by a `Reader`.
//!
//! A format (`specs/Formats`) says the bytes of each value, which values a field may hold, and how it is read.
//! Contracts promise that what is written reads back, and that what is read was written (`IsFormat`, `laws.rt`).
//! They also say exactly when bytes end inside a field. A refused single field leaves the reader where it was.
//! A new kind of field concerns `specs/Fields`, `read.rt`, `reader.rt`, `write.rt` and `laws.rt`.
//! Formats of several fields implement `Field` in the crates that own them.
//! Proofs begin in `proofs/Formats` (laws of every format); `proofs/Fields` applies them to each field.
#![tactic(auto)]

mod error;
mod field;
mod laws;
mod read;
mod reader;
mod write;

pub use error::CodecError;
pub use field::{Field, NameField, Repeated, ValueField, read_whole};
pub use laws::{
    fields_are_formats, fields_are_spelled, fields_have_one_reading,
    fields_hold_names_and_constants,
};
pub use reader::Reader;
pub use write::{put_str16, put_str32, put_str64, put_u8, put_u16, put_u32, put_u64, put_value};
