//! How a command stops at a log that can't be opened.

ghost use Rattle.std.specs.Prelude.{◌≡◌, ◌≢◌, IfOk, IsErrOf, string_bytes};
ghost use Rattle.cj_outside.specs.Causes.{CountsFault};
ghost use Rattle.cj_outside.specs.Streams.{WritesAll};
ghost use Rattle.cj_top.specs.Logs.{TellsRefusal, bad_entry_line, bad_record_line, status_of_start};

use cj_book::StartError;
use cj_model::NoMemory;
use cj_outside::{OutError, Sink, write_all};
use std::alloc::Global;

fn record_words(alloc: Global, offset: u64) -> Result<String, NoMemory>
    ensures { IfOk result (λ text. string_bytes text ≡ bad_record_line offset) }
{
    Ok(format!(in alloc; "bad record: {offset}\n")?)
}

fn entry_words(alloc: Global, number: u64) -> Result<String, NoMemory>
    ensures { IfOk result (λ text. string_bytes text ≡ bad_entry_line number) }
{
    Ok(format!(in alloc; "bad entry: {number}\n")?)
}

/// Tells the errors that the record at this offset is bad.
pub fn write_bad_record<E: Sink>(alloc: Global, offset: u64, errors: &mut E) -> Result<(), OutError>
    ensures bytes { WritesAll (E.held errors.old) (E.held errors.new) (bad_record_line offset) result }
    ensures cause { CountsFault (IsErrOf result OutError.Failed) (E.faults errors.old) (E.faults errors.new) }
{
    match record_words(alloc, offset) {
        Ok(text) => write_all(errors, text.as_bytes()),
        Err(_) => Err(OutError::NoMemory),
    }
}

fn write_bad_entry<E: Sink>(alloc: Global, number: u64, errors: &mut E) -> Result<(), OutError>
    ensures bytes { WritesAll (E.held errors.old) (E.held errors.new) (bad_entry_line number) result }
    ensures cause { CountsFault (IsErrOf result OutError.Failed) (E.faults errors.old) (E.faults errors.new) }
{
    match entry_words(alloc, number) {
        Ok(text) => write_all(errors, text.as_bytes()),
        Err(_) => Err(OutError::NoMemory),
    }
}

/// Answers the exit status of a command whose log was not opened. Where the log's bytes are no log's, the errors are
/// told so. Where they fail in that, nothing else changes.
pub fn stop_at_log<E: Sink>(alloc: Global, error: StartError, errors: &mut E) -> u8
    ensures status { result ≡ status_of_start error }
    ensures told { TellsRefusal (E.held errors.old) (E.held errors.new) (E.faults errors.old) (E.faults errors.new) error }
    ensures quiet { result ≢ 8 → errors.new ≡ errors.old }
{
    match error {
        StartError::StoreFault => 7,
        StartError::BadRecord(offset) => {
            let _ = write_bad_record(alloc, offset, errors);
            8
        }
        StartError::BadEntry(number) => {
            let _ = write_bad_entry(alloc, number, errors);
            8
        }
        StartError::NoMemory => 1,
    }
}
