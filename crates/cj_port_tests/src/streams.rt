//! Jobs over a source and a sink.

use cj_outside::{Failed, Sink, Source, write_all};
use cj_port::Task;
use std::sync::Wait;

/// The most bytes that are taken at a call.
const PIECE: usize = 64;

/// Gives back what comes, to its end. Returns how many bytes that were, up to a fault.
pub fn give_back<I: Source, O: Sink>(input: &mut I, output: &mut O) -> Result<u64, Failed> {
    let mut buf = [0u8; PIECE];
    let mut total = 0u64;
    for _ in 0..u64::MAX {
        let count = input.take(&mut buf)?;
        if count == 0 {
            break;
        }
        if write_all(output, &buf[..count]).is_err() {
            return Err(Failed);
        }
        total = total.saturating_add(count as u64);
    }
    Ok(total)
}

/// A connection whose client is given back what it sends.
#[derive(Drop)]
pub struct Echo<I, O> {
    pub input: I,
    pub output: O,
}

impl<I: Source + Send + Drop + 'static, O: Sink + Send + Drop + 'static> Task for Echo<I, O> {
    fn go<R: Wait>(self, _rt: &R) {
        let Echo {
            mut input,
            mut output,
        } = self;
        drop(give_back(&mut input, &mut output));
    }
}
