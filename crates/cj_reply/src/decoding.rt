//! Decoding: bytes as replies.

ghost use Rattle.cj_codec.specs.Readings.{ReadsFields};
ghost use Rattle.cj_reply.specs.Decode.{Decodes};
ghost use Rattle.cj_reply.specs.Proving.Decoding.{FindsBody};
ghost use Rattle.cj_reply.specs.Proving.ReplyFormats as formats;

use crate::reply::ReplyError;
use cj_codec::{CodecError, Field, NameField, Reader, Repeated, ValueField, read_whole};
use cj_model::{Answer, AnswerRows, FRAME_LIMIT, Names, Refusal, Reply};
use std::alloc::Global;

impl From<CodecError> for ReplyError {
    ghost use Rattle.std.specs.Prelude.{◌≡◌};
    ghost use Rattle.cj_reply.specs.Proving.Decoding.{reply_error};

    ghost from_gives = { λ error e. e ≡ reply_error error };

    fn from(error: CodecError) -> ReplyError {
        match error {
            CodecError::Cut(_) | CodecError::BadField(_) => ReplyError::Malformed,
            CodecError::NoMemory => ReplyError::NoMemory,
        }
    }
}

fn take_columns(reader: &mut Reader<'_>, alloc: Global) -> Result<Names, CodecError>
    ensures { ReadsFields formats.columns reader.old reader.new result }
{
    let start = reader.offset();
    let columns = reader.list16(alloc, &NameField)?;
    if columns.is_empty() {
        return Err(CodecError::BadField(start));
    }
    Ok(columns)
}

fn take_answer(reader: &mut Reader<'_>, alloc: Global) -> Result<Answer, CodecError>
    ensures { ReadsFields formats.answer reader.old reader.new result }
{
    let columns = take_columns(reader, alloc)?;
    let row = Repeated {
        field: ValueField,
        count: columns.len() as u64,
    };
    let rows = reader.list32(alloc, &row)?;
    let rows = AnswerRows::of(alloc, rows)?;
    Ok(Answer { columns, rows })
}

fn take_done(reader: &mut Reader<'_>) -> Result<Reply, CodecError>
    ensures { ReadsFields formats.done_payload reader.old reader.new result }
{
    let count = reader.u64()?;
    Ok(Reply::Done(count))
}

fn take_rows(reader: &mut Reader<'_>, alloc: Global) -> Result<Reply, CodecError>
    ensures { ReadsFields formats.rows_payload reader.old reader.new result }
{
    let answer = take_answer(reader, alloc)?;
    Ok(Reply::Rows(answer))
}

fn take_stats(reader: &mut Reader<'_>) -> Result<Reply, CodecError>
    ensures { ReadsFields formats.stats_payload reader.old reader.new result }
{
    let hits = reader.u64()?;
    let misses = reader.u64()?;
    Ok(Reply::Stats(hits, misses))
}

fn take_refused(reader: &mut Reader<'_>) -> Result<Reply, CodecError>
    ensures { ReadsFields formats.refused_payload reader.old reader.new result }
{
    let code = reader.u16()?;
    let a = reader.u64()?;
    let b = reader.u64()?;
    Ok(Reply::Refused(Refusal { code, a, b }))
}

#[tactic(auto, unfolding(crate::specs::Proving::ReplyFormats::payload_of))]
fn take_payload(kind: u8, reader: &mut Reader<'_>, alloc: Global) -> Result<Reply, CodecError>
    ensures { ReadsFields (formats.payload_of kind) reader.old reader.new result }
{
    match kind {
        0x81 => take_done(reader),
        0x82 => take_rows(reader, alloc),
        0x83 => take_stats(reader),
        0x8f => take_refused(reader),
        _ => Err(CodecError::BadField(reader.offset())),
    }
}

/// The kind and the payload of a reply.
struct ReplyField;

impl Field for ReplyField {
    type Item = Reply;

    ghost format = { λ _. formats.reply_field };

    fn take(&self, reader: &mut Reader<'_>, alloc: Global) -> Result<Reply, CodecError> {
        let kind = reader.u8()?;
        take_payload(kind, reader, alloc)
    }
}

/// The kind and payload after their length, which must be all of the bytes.
fn body_of(bytes: &[u8]) -> Result<&[u8], ReplyError>
    ensures { FindsBody bytes.now result }
{
    let mut reader = Reader::new(bytes);
    let body = reader.str32()?;
    if body.len() > FRAME_LIMIT as usize || !reader.is_at_end() {
        return Err(ReplyError::Malformed);
    }
    Ok(body)
}

/// Decodes the reply whose frame the bytes are, from first to last. Fails with `Malformed` if they are the
/// frame of no reply with valid names and texts of at most `TEXT_LIMIT` bytes. Fails with `NoMemory` if an
/// allocation fails.
pub fn decode(alloc: Global, bytes: &[u8]) -> Result<Reply, ReplyError>
    ensures { Decodes bytes.now result }
{
    let body = body_of(bytes)?;
    let reply = read_whole(alloc, body, &ReplyField)?;
    Ok(reply)
}
