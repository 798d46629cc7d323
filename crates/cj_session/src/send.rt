//! Replies on their way to the client.

ghost use Rattle.std.specs.Prelude.{◌≡◌, IsErrOf};
ghost use Rattle.cj_model.specs.declared.answer.Answer.{Answer};
ghost use Rattle.cj_model.specs.declared.answer.Reply.TheVariants as replies;
ghost use Rattle.cj_model.specs.Wire.Frames.{fault_number};
ghost use Rattle.cj_model.specs.Wire.Replies.{reply_bytes};
ghost use Rattle.cj_outside.specs.Causes.{CountsFault};
ghost use Rattle.cj_outside.specs.Streams.{WritesAll};
ghost use Rattle.cj_reply.specs.Encode.{IsSendable};
ghost use Rattle.cj_session.specs.Proving.Points as points;
ghost use Rattle.cj_session.specs.Proving.Points.{RefusesFrame, SendsReplyTo};

use cj_cluster::SessionEnd;
use cj_model::{BAD_FRAME, FrameFault, NO_MEMORY, Refusal, Reply, TOO_LARGE};
use cj_outside::{OutError, Sink, write_all};
use cj_reply::{ReplyError, encode, encode_done, encode_refused, encode_stats};
use std::alloc::Global;

/// Returns the refusal that is sent instead of a reply without a frame.
fn refusal_in_place(error: ReplyError) -> Refusal
    ensures { result ≡ points.refusal_in_place error }
{
    match error {
        ReplyError::TooLarge(size) => Refusal {
            code: TOO_LARGE,
            a: size,
            b: 0,
        },
        // No reply is malformed: that error is one of decoding.
        ReplyError::Malformed | ReplyError::NoMemory => Refusal::of_code(NO_MEMORY),
    }
}

fn send_refusal<O: Sink>(output: &mut O, refusal: Refusal) -> Result<(), OutError>
    ensures bytes { WritesAll (O.held output.old) (O.held output.new) (reply_bytes (replies.Refused refusal)) result }
    ensures cause { CountsFault (IsErrOf result OutError.Failed) (O.faults output.old) (O.faults output.new) }
{
    write_all(output, &encode_refused(refusal))
}

fn send_rows<O: Sink>(alloc: Global, output: &mut O, reply: &Reply) -> Result<(), OutError>
    requires sendable { IsSendable reply.now }
    requires rows { (a : Answer) × (reply.now ≡ replies.Rows a) }
    ensures bytes { SendsReplyTo (O.held output.old) (O.held output.new) reply.now result }
    ensures cause { CountsFault (IsErrOf result OutError.Failed) (O.faults output.old) (O.faults output.new) }
{
    match encode(alloc, reply) {
        Ok(frame) => write_all(output, &frame),
        Err(error) => send_refusal(output, refusal_in_place(error)),
    }
}

/// Writes the frame of the reply. A reply that is too large, or for whose frame memory runs out, is
/// replaced by a refusal. After an error a part of the frame may be written. `Failed` is a fault
/// that the sink counted.
pub fn send<O: Sink>(alloc: Global, output: &mut O, reply: &Reply) -> Result<(), OutError>
    requires { IsSendable reply.now }
    ensures bytes { SendsReplyTo (O.held output.old) (O.held output.new) reply.now result }
    ensures cause { CountsFault (IsErrOf result OutError.Failed) (O.faults output.old) (O.faults output.new) }
{
    match reply {
        Reply::Done(count) => write_all(output, &encode_done(*count)),
        Reply::Rows(_) => send_rows(alloc, output, reply),
        Reply::Stats(hits, misses) => write_all(output, &encode_stats(*hits, *misses)),
        Reply::Refused(refusal) => send_refusal(output, *refusal),
    }
}

fn bad_frame(fault: FrameFault) -> Refusal
    ensures { result ≡ record { code = BAD_FRAME; a = fault_number fault; b = 0 } }
{
    Refusal {
        code: BAD_FRAME,
        a: fault.number(),
        b: 0,
    }
}

/// Writes the refusal of a faulty frame, which ends the session. Returns how it ends: with the
/// fault, or with the error of writing.
pub fn refuse<O: Sink>(output: &mut O, fault: FrameFault) -> SessionEnd
    ensures bytes { RefusesFrame (O.held output.old) (O.held output.new) fault result }
    ensures cause { CountsFault (result ≡ SessionEnd.WriteFault) (O.faults output.old) (O.faults output.new) }
{
    match send_refusal(output, bad_frame(fault)) {
        Ok(()) => SessionEnd::BadFrame(fault),
        Err(OutError::Failed) => SessionEnd::WriteFault,
        Err(OutError::NoMemory) => SessionEnd::NoMemory,
    }
}
