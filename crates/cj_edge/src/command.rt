//! The words of the command.

use std::alloc::AllocFailed;
use std::env;
use std::io::ErrorKind;
use std::rt::Env;
use thiserror::Error;

/// Why the words of the command could not be had.
#[derive(Clone, Copy, Debug, PartialEq, Eq, Error)]
pub enum WordsError {
    /// A word isn't UTF-8.
    #[error("a word is not UTF-8")]
    NotUtf8,
    /// The words did not fit into memory.
    #[error("out of memory")]
    NoMemory,
}

impl<T: Drop> From<AllocFailed<T>> for WordsError {
    fn from(_error: AllocFailed<T>) -> WordsError {
        WordsError::NoMemory
    }
}

/// Returns the words after the program's name. Each must be UTF-8.
pub fn words(rt: &(impl Env + AllocGlobal)) -> Result<Vec<String>, WordsError> {
    let args = match env::args(rt) {
        Ok(args) => args,
        Err(error) if error.kind() == ErrorKind::OutOfMemory => return Err(WordsError::NoMemory),
        // std tells no other failure: an argument is there or not.
        Err(_) => return Err(WordsError::NotUtf8),
    };
    let mut words = Vec::new(rt.alloc());
    for word in args.skip(1) {
        words.push(word)?;
    }
    Ok(words)
}
