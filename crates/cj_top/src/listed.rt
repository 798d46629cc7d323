//! The command that lists the log.

ghost use Rattle.std.specs.Prelude.{◌≡◌, ◌↔◌, true, IfErr, IfOk, Err, OnErr};
ghost use Rattle.std.specs.Result.{IsOkAnd};
ghost use Rattle.cj_outside.specs.Causes.{CountsFault};
ghost use Rattle.cj_outside.specs.Stores.{Only};
ghost use Rattle.cj_outside.specs.declared.sink.OutError.TheVariants as out_errors;
ghost use Rattle.cj_top.specs.Listed.{ListsLog};
ghost use Rattle.cj_records.specs.Records.{WritesOnlyNew};
ghost use Rattle.cj_book.specs.Found.{start_error_of};
ghost use Rattle.cj_top.specs.Logs.{Found, ReadsLog, RefusesLog, status_of_start};
ghost use Rattle.cj_top.specs.Program as top;

use cj_book::StartError;
use cj_conf::Conf;
use cj_listing::write_listing;
use cj_log::{Log, LogItems};
use cj_outside::{OutError, Sink, Store};
use cj_records::RecordsError;
use std::alloc::Global;

/// Why the log wasn't opened, as commands tell it.
fn start_error(error: RecordsError) -> StartError
    ensures { result ≡ start_error_of error }
{
    match error {
        RecordsError::Failed => StartError::StoreFault,
        RecordsError::BadRecord(offset) => StartError::BadRecord(offset),
        RecordsError::NoMemory => StartError::NoMemory,
    }
}

/// The items of the store's log, which are not looked at as a history. Gives the store back, in which only a new file
/// is written.
fn items_found<S: Store + Drop>(alloc: Global, store: S) -> Result<(LogItems, S), (StartError, S)>
    requires { S.tells ≡ true → Only (S.held store) (S.may store) }
    ensures found { IfOk result (λ (items, _). Found S.tells (S.held store) items) }
    ensures counts { IfOk result (λ (_, left). S.faults left ≡ S.faults store) }
    ensures bytes { IfOk result (λ (_, left). S.tells ≡ true → WritesOnlyNew (S.held store) (S.held left)) }
    ensures refused { IfErr result (λ (error, left). RefusesLog S.faults S.held S.tells store left error) }
    ensures reads { IfErr result (λ (error, left). ReadsLog S.faults S.held S.tells store left (status_of_start error)) }
{
    match Log::open(alloc, store) {
        Ok((log, items)) => Ok((items, log.into_store())),
        Err((error, store)) => Err((start_error(error), store)),
    }
}

/// The exit status of a command that wrote a text with this answer.
pub fn status_of_listing(answer: Result<(), OutError>) -> u8
    ensures status { result ≡ top.status_of_listing answer }
    ensures write_fault { (result ≡ 6) ↔ (answer ≡ Err out_errors.Failed) }
{
    match answer {
        Ok(()) => 0,
        Err(OutError::Failed) => 6,
        Err(OutError::NoMemory) => 1,
    }
}

/// The command `log` with this configuration: lists the items that the log's store holds. Answers the exit status,
/// and gives the store back, in which at most the bytes of a new file were written. On an error nothing was listed.
pub fn run_log<S: Store + Drop, O: Sink>(
    alloc: Global,
    conf: Conf,
    log: S,
    output: &mut O,
) -> Result<(u8, S), (StartError, S)>
    requires { S.tells ≡ true → Only (S.held log) (S.may log) }
    ensures lists { IfOk result (λ (status, _). ListsLog conf.placement.names (Found S.tells (S.held log)) (O.held output.old) (O.held output.new) status) }
    ensures reads { IfOk result (λ (status, left). ReadsLog S.faults S.held S.tells log left status) }
    ensures refused { IfErr result (λ (error, left). RefusesLog S.faults S.held S.tells log left error) }
    ensures read_refused { IfErr result (λ (error, left). ReadsLog S.faults S.held S.tells log left (status_of_start error)) }
    ensures unlisted { OnErr result (output.new ≡ output.old) }
    ensures output { CountsFault (IsOkAnd result (λ (status, _). status ≡ 6)) (O.faults output.old) (O.faults output.new) }
{
    let (items, log) = items_found(alloc, log)?;
    let answer = write_listing(alloc, conf.placement.names(), items.as_slice(), output);
    Ok((status_of_listing(answer), log))
}
