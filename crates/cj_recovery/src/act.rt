//! The act of a text, and the text of an act.

ghost use Rattle.std.specs.Prelude.{◌≡◌, ◌↔◌, IfOk, IsTrue};
ghost use Rattle.cj_model.specs.Sql.Grammar.{TextReadsAs};
ghost use Rattle.cj_model.specs.Sql.PlainRequests as plain;
ghost use Rattle.cj_print.specs.Canonical.{canonical};
ghost use Rattle.cj_recovery.specs.Proving.Steps.{FindsAct};

use cj_model::{Act, Duplicate, NoMemory, Request, Same, Text};
use cj_print::write_sql;
use cj_sql::{SqlError, is_plain, read};
use std::alloc::Global;

/// The request that an act comes from.
fn request_of(alloc: Global, act: &Act) -> Result<Request, NoMemory>
    ensures { IfOk result (λ request. request ≡ plain.request_of act.now) }
{
    Ok(match act {
        Act::Begin => Request::Begin,
        Act::Write(write) => Request::Write(write.copy(alloc)?),
        Act::Create(create) => Request::Create(create.copy(alloc)?),
        Act::Drop(table) => Request::Drop(table.copy()),
        Act::Commit => Request::Commit,
        Act::Abort => Request::Rollback,
    })
}

/// The act of a request that is no query.
fn act_of(request: Request) -> Option<Act>
    ensures { result ≡ plain.act_of request }
{
    match request {
        Request::Select(_) => None,
        Request::Write(write) => Some(Act::Write(write)),
        Request::Create(create) => Some(Act::Create(create)),
        Request::Drop(table) => Some(Act::Drop(table)),
        Request::Begin => Some(Act::Begin),
        Request::Commit => Some(Act::Commit),
        Request::Rollback => Some(Act::Abort),
    }
}

/// Writes the canonical text of an act; fails if memory runs out.
pub fn write_act(alloc: Global, act: &Act) -> Result<Text, NoMemory>
    ensures { IfOk result (λ text. text ≡ canonical (plain.request_of act.now)) }
{
    let request = request_of(alloc, act)?;
    write_sql(alloc, &request)
}

/// Whether the text is the canonical text of the request.
fn is_canonical(alloc: Global, text: &Text, request: &Request) -> Result<bool, NoMemory>
    ensures { IfOk result (λ is. IsTrue is ↔ (text.now ≡ canonical request.now)) }
{
    let written = write_sql(alloc, request)?;
    Ok(text.is_same(&written))
}

/// The act of a text that reads as this request; `None` if the text isn't the act's canonical one.
fn find_act(alloc: Global, text: &Text, request: Request) -> Result<Option<Act>, NoMemory>
    requires { TextReadsAs text.now request }
    ensures { IfOk result (FindsAct text.now) }
{
    if is_plain(&request) {
        if is_canonical(alloc, text, &request)? {
            return Ok(act_of(request));
        }
        return Ok(None);
    }
    Ok(None)
}

/// Reads the act whose canonical text this is; `None` exactly if it is that of no act.
pub fn read_act(alloc: Global, text: &Text) -> Result<Option<Act>, NoMemory>
    ensures { IfOk result (FindsAct text.now) }
{
    match read(alloc, text.as_slice()) {
        Ok(request) => find_act(alloc, text, request),
        Err(SqlError::Syntax) => Ok(None),
        Err(SqlError::NoMemory) => Err(NoMemory),
    }
}
