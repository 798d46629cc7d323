//! The lines that a move gives.

ghost use Rattle.std.specs.Prelude.{◌≡◌, [], ◌∷◌, ◌++◌, IfOk, OnOk, string_bytes};
ghost use Rattle.std.specs.List.{flat_map};
ghost use Rattle.cj_cluster.specs.Script.Lines.{did_text, with_line_feed, moved_lines, moved_text, not_now_text, refusal_text, reply_text, row_text, rows_under};
ghost use Rattle.cj_cluster.specs.Script.Lines as lines;

use cj_cluster::{Did, Made, Moved, Why};
use cj_model::{AnswerRows, Names, NoMemory, Outcome, Refusal, Reply, Value};
use cj_print::write_value;
use std::alloc::Global;

fn refusal_words(alloc: Global, refusal: &Refusal) -> Result<String, NoMemory>
    ensures { IfOk result (λ text. string_bytes text ≡ refusal_text refusal.now) }
{
    let code = refusal.code;
    let a = refusal.a;
    let b = refusal.b;
    Ok(format!(in alloc; "refused {code} {a} {b}")?)
}

fn did_words(alloc: Global, did: &Did) -> Result<String, NoMemory>
    ensures { IfOk result (λ text. string_bytes text ≡ did_text did.now) }
{
    match did {
        Did::Done(Outcome::Done(count)) => Ok(format!(in alloc; "done {count}")?),
        Did::Done(Outcome::Refused(refusal)) => refusal_words(alloc, refusal),
        Did::Skipped => Ok(format!(in alloc; "skipped")?),
        Did::Failed => Ok(format!(in alloc; "failed")?),
        Did::Starved => Ok(format!(in alloc; "starved")?),
    }
}

fn reply_words(alloc: Global, reply: &Reply) -> Result<String, NoMemory>
    ensures { IfOk result (λ text. string_bytes text ≡ reply_text reply.now) }
{
    match reply {
        Reply::Done(count) => Ok(format!(in alloc; "done {count}")?),
        Reply::Rows(answer) => {
            let count = answer.rows.len();
            Ok(format!(in alloc; "rows {count}")?)
        }
        Reply::Stats(hits, misses) => Ok(format!(in alloc; "stats {hits} {misses}")?),
        Reply::Refused(refusal) => refusal_words(alloc, refusal),
    }
}

/// Returns the name of backend `b`, or nothing if there is no such backend.
fn name_at(names: &Names, b: u8) -> &[u8]
    ensures { result.now ≡ lines.name_at names.now b }
{
    match names.as_slice().get(b as usize) {
        Some(name) => name.as_slice(),
        None => &[],
    }
}

fn applied_words(alloc: Global, name: &[u8], did: &Did) -> Result<Vec<u8>, NoMemory>
    ensures { IfOk result (λ text. text.items ≡ name.now ++ (32 ∷ did_text did.now)) }
{
    let mut text = Vec::from_slice(alloc, name)?;
    let did = did_words(alloc, did)?;
    text.push(b' ')?;
    text.extend_from_slice(did.as_bytes())?;
    Ok(text)
}

fn moved_words(alloc: Global, names: &Names, moved: &Moved) -> Result<Vec<u8>, NoMemory>
    ensures { IfOk result (λ text. text.items ≡ moved_text names.now moved.now) }
{
    match moved {
        Moved::Session(number) => Ok(format!(in alloc; "session {number}")?.into_bytes()),
        Moved::Closed => Ok(format!(in alloc; "closed")?.into_bytes()),
        Moved::Entry(number) => Ok(format!(in alloc; "entry {number}")?.into_bytes()),
        Moved::Refused(refusal) => Ok(refusal_words(alloc, refusal)?.into_bytes()),
        Moved::Applied { b, did } => applied_words(alloc, name_at(names, *b), did),
        Moved::Replied { session, reply } => {
            let reply = reply_words(alloc, reply)?;
            Ok(format!(in alloc; "reply {session} {reply}")?.into_bytes())
        }
        Moved::Rows(answer) => {
            let count = answer.rows.len();
            Ok(format!(in alloc; "rows {count}")?.into_bytes())
        }
        Moved::Behind(position) => Ok(format!(in alloc; "behind {position}")?.into_bytes()),
        Moved::Out => Ok(format!(in alloc; "out")?.into_bytes()),
        Moved::Failed => Ok(format!(in alloc; "failed")?.into_bytes()),
        Moved::Starved => Ok(format!(in alloc; "starved")?.into_bytes()),
        Moved::Armed => Ok(format!(in alloc; "armed")?.into_bytes()),
        Moved::Disabled => Ok(format!(in alloc; "disabled")?.into_bytes()),
        Moved::Enabled => Ok(format!(in alloc; "enabled")?.into_bytes()),
        Moved::Marked(after) => Ok(format!(in alloc; "marked {after}")?.into_bytes()),
        Moved::Dumped(position) => Ok(format!(in alloc; "dumped {position}")?.into_bytes()),
        Moved::Loaded(position) => Ok(format!(in alloc; "loaded {position}")?.into_bytes()),
        Moved::Replayed { number, did } => {
            let did = did_words(alloc, did)?;
            Ok(format!(in alloc; "replayed {number} {did}")?.into_bytes())
        }
    }
}

/// Appends the values' literals, with a comma and a space between each two.
fn append_row(alloc: Global, lines: &mut Vec<u8>, mut values: &[Value]) -> Result<(), NoMemory>
    ensures { OnOk result (lines.new.items ≡ lines.old.items ++ row_text values.entry.now) }
{
    while let [value, rest @ ..] = values {
        lines.extend_from_slice(write_value(alloc, value)?.as_slice())?;
        if !rest.is_empty() {
            lines.extend_from_slice(b", ")?;
        }
        values = rest;
    }
    Ok(())
}

/// Appends a line for each of the rows.
fn append_rows(alloc: Global, lines: &mut Vec<u8>, rows: &AnswerRows) -> Result<(), NoMemory>
    ensures { OnOk result (lines.new.items ≡ lines.old.items ++ flat_map (λ row. with_line_feed (row_text row)) rows.now) }
{
    for row in rows.iter() {
        append_row(alloc, lines, row)?;
        lines.push(b'\n')?;
    }
    Ok(())
}

fn print_moved(alloc: Global, names: &Names, moved: &Moved) -> Result<Vec<u8>, NoMemory>
    ensures { IfOk result (λ lines. lines.items ≡ with_line_feed (moved_text names.now moved.now) ++ rows_under moved.now) }
{
    let mut lines = moved_words(alloc, names, moved)?;
    lines.push(b'\n')?;
    if let Moved::Rows(answer) = moved {
        append_rows(alloc, &mut lines, &answer.rows)?;
    }
    Ok(lines)
}

fn print_not_now(alloc: Global, why: &Why) -> Result<Vec<u8>, NoMemory>
    ensures { IfOk result (λ lines. lines.items ≡ with_line_feed (not_now_text why.now)) }
{
    let number = why.reason.number();
    let value = why.value;
    Ok(format!(in alloc; "not now {number} {value}\n")?.into_bytes())
}

/// Returns the lines that a move gives. `names` are those of the backends. `NoMemory` is the only
/// error.
pub fn print_made(alloc: Global, names: &Names, made: &Made) -> Result<Vec<u8>, NoMemory>
    ensures { IfOk result (λ lines. lines.items ≡ moved_lines names.now made.now) }
{
    match made {
        Made::Moved(moved) => print_moved(alloc, names, moved),
        Made::NotNow(why) => print_not_now(alloc, why),
    }
}
