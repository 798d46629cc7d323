//! What follows the first word of a line. Each function reads the arguments of one verb, without the verb.

ghost use Rattle.std.specs.Prelude.{◌≡◌, ◌≤◌, ◌<◌, ◌↔◌, length, IfOk, IsTrue, is_some};
ghost use Rattle.cj_model.specs.Sql.PlainRequests.{act_of};
ghost use Rattle.cj_cluster.specs.Script.Lines.{IsPlainSql, IsWrite};
ghost use Rattle.cj_script.specs.Reading.{Arguments, IsQuery, NamesBackendAndDump, OfDump, Queries, ReadsAbort, ReadsClose, ReadsMark, ReadsOpen, SaysWrite};
ghost use Rattle.cj_words.specs.Words.{FindsValue};

use crate::verb::Verb;
use cj_cluster::Move;
use cj_model::{BACKEND_LIMIT, Name, Names, NoMemory, Request, Select, Text, USER_LIMIT};
use cj_sql::{SqlError, is_plain, read};
use cj_words::{backend, is_word, named, number, numbered};
use std::alloc::Global;

fn is_short(word: &[u8]) -> bool
    ensures { IsTrue result ↔ ((0 < length word.now) × (length word.now ≤ USER_LIMIT)) }
{
    !word.is_empty() && word.len() <= USER_LIMIT
}

/// Reads `open USER`.
fn open(alloc: Global, rest: &[u8]) -> Result<Option<Move>, NoMemory>
    ensures { IfOk result (FindsValue (ReadsOpen rest.now)) }
{
    if !is_short(rest) || !is_word(rest) {
        return Ok(None);
    }
    match Text::of(Vec::from_slice(alloc, rest)?) {
        Some(user) => Ok(Some(Move::Open { user })),
        None => Ok(None),
    }
}

/// Reads `close S`.
fn close(rest: &[u8]) -> Option<Move>
    ensures { FindsValue (ReadsClose rest.now) result }
{
    match number(rest) {
        Some(session) => Some(Move::Close { session }),
        None => None,
    }
}

/// Reads a text as a request, which may call neither the clock nor random numbers.
fn plain_request(alloc: Global, sql: &[u8]) -> Result<Option<Request>, NoMemory>
    ensures { IfOk result (FindsValue (IsPlainSql sql.now)) }
{
    match read(alloc, sql) {
        Ok(request) => {
            if is_plain(&request) {
                Ok(Some(request))
            } else {
                Ok(None)
            }
        }
        Err(SqlError::Syntax) => Ok(None),
        Err(SqlError::NoMemory) => Err(NoMemory),
    }
}

/// Whether the request becomes an entry of the log, as any but a query does.
fn is_for_log(request: &Request) -> bool
    ensures { result ≡ is_some (act_of request.now) }
{
    match request {
        Request::Select(_) => false,
        Request::Write(_) | Request::Create(_) | Request::Drop(_) => true,
        Request::Begin | Request::Commit | Request::Rollback => true,
    }
}

fn plain_write(alloc: Global, sql: &[u8]) -> Result<Option<Request>, NoMemory>
    ensures { IfOk result (FindsValue (IsWrite sql.now)) }
{
    match plain_request(alloc, sql)? {
        Some(request) => {
            if is_for_log(&request) {
                Ok(Some(request))
            } else {
                Ok(None)
            }
        }
        None => Ok(None),
    }
}

/// Reads `write S SQL`.
fn write(alloc: Global, rest: &[u8]) -> Result<Option<Move>, NoMemory>
    ensures { IfOk result (FindsValue (SaysWrite rest.now)) }
{
    let Some((session, sql)) = numbered(rest) else {
        return Ok(None);
    };
    match plain_write(alloc, sql)? {
        Some(request) => Ok(Some(Move::Schedule { session, request })),
        None => Ok(None),
    }
}

/// Reads `abort TX`.
fn abort(rest: &[u8]) -> Option<Move>
    ensures { FindsValue (ReadsAbort rest.now) result }
{
    match number(rest) {
        Some(tx) => Some(Move::Abort { tx }),
        None => None,
    }
}

/// Returns the query that a request is, if it is one.
fn as_query(request: Request) -> Option<Select>
    ensures { IsQuery request result }
{
    match request {
        Request::Select(select) => Some(select),
        _ => None,
    }
}

fn plain_query(alloc: Global, sql: &[u8]) -> Result<Option<Select>, NoMemory>
    ensures { IfOk result (FindsValue (λ select. IsPlainSql sql.now (Request.Select select))) }
{
    match plain_request(alloc, sql)? {
        Some(request) => Ok(as_query(request)),
        None => Ok(None),
    }
}

/// Reads `read S B SQL`.
fn query(alloc: Global, names: &Names, rest: &[u8]) -> Result<Option<Move>, NoMemory>
    requires { length names.now ≤ BACKEND_LIMIT }
    ensures { IfOk result (FindsValue (Queries names.now rest.now)) }
{
    let Some((session, more)) = numbered(rest) else {
        return Ok(None);
    };
    let Some((b, sql)) = named(names, more) else {
        return Ok(None);
    };
    match plain_query(alloc, sql)? {
        Some(select) => Ok(Some(Move::Read { session, b, select })),
        None => Ok(None),
    }
}

/// Reads `mark NAME`.
fn mark(rest: &[u8]) -> Option<Move>
    ensures { FindsValue (ReadsMark rest.now) result }
{
    match Name::of(rest) {
        Some(name) => Some(Move::Mark { name }),
        None => None,
    }
}

/// Reads a backend's name and a dump's name, as in `dump B NAME` and `load B NAME`.
fn dump_named(names: &Names, rest: &[u8]) -> Option<(u8, Name)>
    requires { length names.now ≤ BACKEND_LIMIT }
    ensures { FindsValue (NamesBackendAndDump names.now rest.now) result }
{
    let Some((b, word)) = named(names, rest) else {
        return None;
    };
    match Name::of(word) {
        Some(name) => Some((b, name)),
        None => None,
    }
}

/// Reads `dump B NAME`.
fn dump(names: &Names, rest: &[u8]) -> Option<Move>
    requires { length names.now ≤ BACKEND_LIMIT }
    ensures { FindsValue (OfDump names.now Move.Dump rest.now) result }
{
    match dump_named(names, rest) {
        Some((b, name)) => Some(Move::Dump { b, name }),
        None => None,
    }
}

/// Reads `load B NAME`.
fn load(names: &Names, rest: &[u8]) -> Option<Move>
    requires { length names.now ≤ BACKEND_LIMIT }
    ensures { FindsValue (OfDump names.now Move.Load rest.now) result }
{
    match dump_named(names, rest) {
        Some((b, name)) => Some(Move::Load { b, name }),
        None => None,
    }
}

/// Reads what follows a verb and a space, and returns the move, or `None` if it is no move's.
/// `names` are those of the backends. `NoMemory` is the only error.
pub fn arguments(
    alloc: Global,
    names: &Names,
    verb: Verb,
    rest: &[u8],
) -> Result<Option<Move>, NoMemory>
    requires { length names.now ≤ BACKEND_LIMIT }
    ensures { IfOk result (FindsValue (Arguments names.now verb rest.now)) }
{
    match verb {
        Verb::Open => open(alloc, rest),
        Verb::Close => Ok(close(rest)),
        Verb::Write => write(alloc, rest),
        Verb::Abort => Ok(abort(rest)),
        Verb::Apply => Ok(backend(names, rest).map(|b| Move::Apply { b })),
        Verb::End => Ok(None),
        Verb::Read => query(alloc, names, rest),
        Verb::Arm => Ok(backend(names, rest).map(|b| Move::Arm { b })),
        Verb::Disable => Ok(backend(names, rest).map(|b| Move::Disable { b })),
        Verb::Replay => Ok(backend(names, rest).map(|b| Move::Replay { b })),
        Verb::Enable => Ok(backend(names, rest).map(|b| Move::Enable { b })),
        Verb::Mark => Ok(mark(rest)),
        Verb::Dump => Ok(dump(names, rest)),
        Verb::Load => Ok(load(names, rest)),
    }
}
