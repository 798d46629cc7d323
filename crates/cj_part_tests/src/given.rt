//! What calls are given: requests, names and texts that are right as they are spelled.

use cj_model::{Cond, Name, Request, Select, Text};
use cj_sql::read;
use std::alloc::Global;
use std::process::Abort;
use std::test::Fail;

/// The request of a text.
pub fn request(rt: &impl Abort, alloc: Global, text: &str) -> Request {
    match read(alloc, text.as_bytes()) {
        Ok(request) => request,
        Err(_) => panic!(rt; "{text}"),
    }
}

/// The query of a SELECT.
pub fn select(rt: &impl Abort, alloc: Global, text: &str) -> Select {
    match request(rt, alloc, text) {
        Request::Select(select) => select,
        _ => panic!(rt; "{text}"),
    }
}

/// The condition of a SELECT.
pub fn condition(rt: &impl Abort, alloc: Global, text: &str) -> Cond {
    let Select { cond, .. } = select(rt, alloc, text);
    match cond {
        Some(cond) => cond,
        None => panic!(rt; "{text}"),
    }
}

/// The name that a word is.
pub fn name(rt: &impl Abort, word: &str) -> Name {
    match Name::of(word.as_bytes()) {
        Some(name) => name,
        None => panic!(rt; "{word}"),
    }
}

/// The text of a word.
pub fn text(rt: &impl Abort, alloc: Global, word: &str) -> Result<Text, Fail> {
    match Text::of(word.as_bytes().to_vec(alloc)?) {
        Some(text) => Ok(text),
        None => panic!(rt; "{word}"),
    }
}

/// The names, with a space after each.
pub fn spelled(alloc: Global, names: &[Name]) -> Result<Vec<u8>, Fail> {
    let mut bytes = Vec::new(alloc);
    for name in names {
        bytes.extend_from_slice(name.as_slice())?;
        bytes.push(b' ')?;
    }
    Ok(bytes)
}
