//! Dumps: what one backend holds at a position of the log, as bytes (docs/FORMATS.md) and back.
//!
//! Promised: `encode` writes the bytes of its dump. Unless memory runs out, `decode` accepts the bytes of dumps and
//! no others, and refuses with the offset of the first field at fault. Bytes have one reading, and what is written
//! reads back (`laws`). `lacks` and `cut` say what of a dump another backend can take.
//! To change the format: `specs/DumpLayout` has the fields in order, and `specs/Dumps` has the bytes. `writing` and
//! `encoding` write them; `fields`, `schema`, `rows`, `slots` and `decoding` take them.
//! Proofs begin in `proofs/LayoutLaws` (laws of any layout), then `proofs/DumpLaws` and `proofs/Dumped`.
#![tactic(auto)]

mod coverage;
mod decoding;
mod dump;
mod encoding;
mod error;
mod fields;
mod laws;
mod part;
mod rows;
mod schema;
mod slots;
mod writing;

pub use coverage::{cut, lacks};
pub use decoding::decode;
pub use dump::Dump;
pub use encoding::encode;
pub use error::DumpError;
pub use laws::{bytes_have_one_reading, written_reads_back};
