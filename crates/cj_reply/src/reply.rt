//! Encoding: replies as bytes.

ghost use Rattle.std.specs.Prelude.{◌≡◌, ◌≤◌, ◌++◌, IfOk, OnOk};
ghost use Rattle.cj_model.specs.Wire.Replies.{reply_body, reply_bytes, reply_length, IsEven};
ghost use Rattle.cj_model.specs.declared.answer.Reply.TheVariants.{Done, Rows, Stats, Refused};
ghost use Rattle.cj_reply.specs.Encode.{capped, Encodes, IsSendable};

use crate::part::Part;
use cj_codec::{put_u8, put_u16, put_u32};
use cj_model::{Answer, FRAME_LIMIT, NoMemory, Refusal, Reply};
use std::alloc::Global;
use thiserror::Error;

/// Why a reply has no frame, or bytes are not the frame of a reply.
#[derive(Clone, Copy, Debug, PartialEq, Eq, Error)]
pub enum ReplyError {
    /// The reply exceeds the limit of a frame. The number is that of its bytes of kind and payload, at most
    /// 2^64 - 1.
    #[error("a reply of {0} bytes")]
    TooLarge(u64),
    /// The bytes are not the frame of a reply.
    #[error("no frame of a reply")]
    Malformed,
    #[error("out of memory")]
    NoMemory,
}

impl From<NoMemory> for ReplyError {
    ghost use Rattle.std.specs.Prelude.{◌≡◌};
    ghost use Rattle.cj_reply.specs.declared.reply.ReplyError.TheVariants as errors;

    ghost from_gives = { λ _ e. e ≡ errors.NoMemory };

    fn from(_error: NoMemory) -> ReplyError {
        ReplyError::NoMemory
    }
}

/// The frame of a `Done` reply with this count of rows, without allocation.
pub fn encode_done(count: u64) -> [u8; 13]
    ensures { result ≡ reply_bytes (Done count) }
{
    let c = count.to_be_bytes();
    [
        0, 0, 0, 9, 0x81, c[0], c[1], c[2], c[3], c[4], c[5], c[6], c[7],
    ]
}

/// The frame of a `Stats` reply with the result cache's hits and misses, without allocation.
pub fn encode_stats(hits: u64, misses: u64) -> [u8; 21]
    ensures { result ≡ reply_bytes (Stats hits misses) }
{
    let h = hits.to_be_bytes();
    let m = misses.to_be_bytes();
    [
        0, 0, 0, 17, 0x83, h[0], h[1], h[2], h[3], h[4], h[5], h[6], h[7], m[0], m[1], m[2], m[3],
        m[4], m[5], m[6], m[7],
    ]
}

/// The frame of a `Refused` reply, without allocation.
pub fn encode_refused(refusal: Refusal) -> [u8; 23]
    ensures { result ≡ reply_bytes (Refused refusal) }
{
    let c = refusal.code.to_be_bytes();
    let a = refusal.a.to_be_bytes();
    let b = refusal.b.to_be_bytes();
    [
        0, 0, 0, 19, 0x8f, c[0], c[1], a[0], a[1], a[2], a[3], a[4], a[5], a[6], a[7], b[0], b[1],
        b[2], b[3], b[4], b[5], b[6], b[7],
    ]
}

/// The number of bytes of an answer's kind and payload, at most 2^64 - 1.
fn answer_size(answer: &Answer) -> u64
    ensures { result ≡ capped (reply_length (Rows answer.now)) }
{
    // 7: the kind, the number of columns, and the number of rows
    answer
        .columns
        .size()
        .saturating_add(answer.rows.size())
        .saturating_add(7)
}

/// Appends an answer's kind and payload to a frame.
fn append_answer(frame: &mut Vec<u8>, answer: &Answer) -> Result<(), NoMemory>
    requires even { IsEven answer.now }
    requires size { reply_length (Rows answer.now) ≤ FRAME_LIMIT }
    ensures { OnOk result (frame.new.items ≡ frame.old.items ++ reply_body (Rows answer.now)) }
{
    put_u8(frame, 0x82)?;
    put_u16(frame, answer.columns.len() as u16)?;
    answer.columns.append(frame)?;
    put_u32(frame, answer.rows.len() as u32)?;
    answer.rows.append(frame)
}

/// The frame of an answer whose kind and payload have `size` bytes.
fn answer_frame(alloc: Global, answer: &Answer, size: u32) -> Result<Vec<u8>, NoMemory>
    requires even { IsEven answer.now }
    requires size { size ≡ reply_length (Rows answer.now) }
    requires limit { size ≤ FRAME_LIMIT }
    ensures { IfOk result (λ frame. frame.items ≡ reply_bytes (Rows answer.now)) }
{
    let mut frame = Vec::with_capacity(alloc, 4 + size as usize)?;
    put_u32(&mut frame, size)?;
    append_answer(&mut frame, answer)?;
    Ok(frame)
}

/// The frame of an answer, or its size if that exceeds the limit.
fn encode_rows(alloc: Global, answer: &Answer) -> Result<Vec<u8>, ReplyError>
    requires { IsEven answer.now }
    ensures { Encodes (Rows answer.now) result }
{
    let size = answer_size(answer);
    if size > u64::from(FRAME_LIMIT) {
        return Err(ReplyError::TooLarge(size));
    }
    Ok(answer_frame(alloc, answer, size as u32)?)
}

/// A copy of a frame in an allocation of its own.
fn owned(alloc: Global, frame: &[u8]) -> Result<Vec<u8>, NoMemory>
    ensures { IfOk result (λ copy. copy.items ≡ frame.now) }
{
    Ok(Vec::from_slice(alloc, frame)?)
}

/// Encodes a reply as its frame. Each row of an answer must have one value for each column. Fails with
/// `TooLarge` if kind and payload exceed the limit of a frame, and then allocates nothing. `NoMemory` is
/// answered only within the limit.
pub fn encode(alloc: Global, reply: &Reply) -> Result<Vec<u8>, ReplyError>
    requires { IsSendable reply.now }
    ensures { Encodes reply.now result }
{
    match reply {
        Reply::Done(count) => Ok(owned(alloc, &encode_done(*count))?),
        Reply::Rows(answer) => encode_rows(alloc, answer),
        Reply::Stats(hits, misses) => Ok(owned(alloc, &encode_stats(*hits, *misses))?),
        Reply::Refused(refusal) => Ok(owned(alloc, &encode_refused(*refusal))?),
    }
}
