//! The requests for the engines, parsed from their texts.

ghost use Rattle.cj_model.specs.Sql.WrittenRequests.{IsWritten};

use cj_model::Request;
use cj_sql::{is_plain, read};
use std::alloc::Global;
use std::process::Abort;

/// The plain request that a text reads as.
pub fn plain_request(rt: &impl Abort, alloc: Global, text: &str) -> Request
    ensures { IsWritten result }
{
    match read(alloc, text.as_bytes()) {
        Ok(request) if is_plain(&request) => request,
        _ => panic!(rt; "{text}"),
    }
}
