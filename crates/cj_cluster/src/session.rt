//! How a session ends.

use cj_model::FrameFault;

/// How a session over a source and a sink ended.
#[derive(Clone, Copy, PartialEq, Eq)]
pub enum SessionEnd {
    /// The client sent a Quit.
    Quit,
    /// The input ended after a whole frame.
    Eof,
    /// The input ended inside a frame.
    Cut,
    /// A frame was faulty.
    BadFrame(FrameFault),
    /// The source failed.
    ReadFault,
    /// The sink failed.
    WriteFault,
    /// 2^62 bytes of input were taken, and no end had come.
    Spent,
    NoMemory,
}
