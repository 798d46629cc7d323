//! What a run gave, for a person to read.

ghost use Rattle.std.specs.Prelude.{◌≡◌, ◌++◌, ◌≤◌, ◌<◌, length, None, IfOk, OnOk, codes};
ghost use Rattle.std.specs.Option.{option_copied};
ghost use Rattle.cj_cases.specs.Shown.{shown_log, tagged_line, AppendsPiece, AppendsShown, ShowsOutcome};

use crate::case::Case;
use crate::runner::Outcome;
use crate::spelling::append_text;
use cj_model::NoMemory;
use std::alloc::Global;

/// Where bytes are split into the pieces that are shown.
#[derive(Clone, Copy)]
enum Form {
    /// After each LF.
    Lines,
    /// At frames: a length of four bytes, and as many more.
    Frames,
    /// After four bytes, and then at records: a byte, a length of eight bytes, and as many more.
    Records,
}

/// Returns the form of a program's output. Frames begin with a byte 0, since none is so long that
/// it doesn't.
fn form_of(bytes: &[u8]) -> Form {
    match bytes {
        [0, ..] => Form::Frames,
        _ => Form::Lines,
    }
}

fn line_size(bytes: &[u8]) -> usize {
    match bytes.iter().position(|b| *b == b'\n') {
        Some(at) => at.saturating_add(1),
        None => bytes.len(),
    }
}

fn frame_size(bytes: &[u8]) -> usize {
    match bytes {
        [a, b, c, d, ..] => {
            let length = u32::from_be_bytes([*a, *b, *c, *d]);
            (length as usize).saturating_add(4)
        }
        _ => bytes.len(),
    }
}

fn record_size(bytes: &[u8]) -> usize {
    match bytes {
        [_, a, b, c, d, e, f, g, h, ..] => {
            let length = u64::from_be_bytes([*a, *b, *c, *d, *e, *f, *g, *h]);
            (length as usize).saturating_add(9)
        }
        _ => bytes.len(),
    }
}

/// Returns how many of the bytes, which begin at this offset, are the next piece.
fn piece_size(form: Form, at: usize, bytes: &[u8]) -> usize
    requires { 0 < length bytes.now }
    ensures some { 0 < result }
    ensures within { result ≤ length bytes.now }
{
    let size = match form {
        Form::Lines => line_size(bytes),
        Form::Frames => frame_size(bytes),
        Form::Records if at == 0 => 4,
        Form::Records => record_size(bytes),
    };
    size.max(1).min(bytes.len())
}

/// Appends a tag, the text that is shown for the bytes, and LF.
fn append_tagged(text: &mut Vec<u8>, tag: &[u8], bytes: &[u8]) -> Result<(), NoMemory>
    ensures { OnOk result (text.new.items ≡ text.old.items ++ tagged_line tag.now bytes.now) }
{
    text.extend_from_slice(tag)?;
    append_text(text, bytes)?;
    text.push(b'\n')?;
    Ok(())
}

/// Appends the line that shows a piece. A line has the tag of lines before it, if there is one. Any
/// other piece has the tag of parts.
fn append_piece(
    text: &mut Vec<u8>,
    line_tag: Option<&[u8]>,
    part_tag: &[u8],
    form: Form,
    piece: &[u8],
) -> Result<(), NoMemory>
    ensures { OnOk result
        (AppendsPiece (option_copied line_tag.entry) part_tag.now piece.now text.old.items text.new.items) }
{
    let (Form::Lines, Some(tag)) = (form, line_tag) else {
        append_tagged(text, part_tag, piece)?;
        return Ok(());
    };
    match piece.split_last() {
        Some((b'\n', line)) => append_tagged(text, tag, line)?,
        _ => append_tagged(text, part_tag, piece)?,
    }
    Ok(())
}

/// Appends lines that show the bytes.
fn append_bytes(
    text: &mut Vec<u8>,
    line_tag: Option<&[u8]>,
    part_tag: &[u8],
    form: Form,
    bytes: &[u8],
) -> Result<(), NoMemory>
    ensures { OnOk result
        (AppendsShown (option_copied line_tag.entry) part_tag.now bytes.now text.old.items text.new.items) }
{
    let mut at = 0;
    while at < bytes.len() {
        let (_, rest) = bytes.split_at(at);
        let size = piece_size(form, at, rest);
        let (piece, _) = rest.split_at(size);
        append_piece(text, line_tag, part_tag, form, piece)?;
        at += size;
    }
    Ok(())
}

/// Appends lines that show the log, if the case asks for them.
fn append_log(text: &mut Vec<u8>, case: &Case, log: &[u8]) -> Result<(), NoMemory>
    ensures { OnOk result
        (AppendsShown None (codes "log ") (shown_log case.now log.now) text.old.items text.new.items) }
{
    if case.shows_log() {
        append_bytes(text, None, b"log ", Form::Records, log)?;
    }
    Ok(())
}

/// Returns the lines that show a run.
pub(crate) fn shown(alloc: Global, case: &Case, outcome: &Outcome) -> Result<Vec<u8>, NoMemory>
    ensures { IfOk result (λ text. ShowsOutcome case.now outcome.now text.items) }
{
    let status = outcome.status;
    let mut text = Vec::from_slice(alloc, b"case ")?;
    append_text(&mut text, case.name())?;
    text.push(b'\n')?;
    let status = format!(in alloc; "status {status}\n")?;
    text.extend_from_slice(status.as_bytes())?;
    let output = outcome.output.as_slice();
    append_bytes(&mut text, Some(b"> "), b"output ", form_of(output), output)?;
    let errors = outcome.errors.as_slice();
    append_bytes(&mut text, Some(b"! "), b"errors ", form_of(errors), errors)?;
    append_log(&mut text, case, outcome.log.as_slice())?;
    text.push(b'\n')?;
    Ok(text)
}
