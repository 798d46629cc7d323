//! Lines as moves.

ghost use Rattle.std.specs.Prelude.{◌≤◌, length, IfOk};
ghost use Rattle.cj_cluster.specs.Script.Lines.{MoveLine};
ghost use Rattle.cj_script.specs.Reading.{IsOneWordMove};
ghost use Rattle.cj_words.specs.Words.{FindsValue};

use crate::arguments::arguments;
use crate::verb::verb_of;
use cj_cluster::Move;
use cj_model::{BACKEND_LIMIT, Names, NoMemory};
use cj_words::cut;
use std::alloc::Global;

/// Returns the move of a line that is one word.
fn lone(word: &[u8]) -> Option<Move>
    ensures { FindsValue (IsOneWordMove word.now) result }
{
    if word == b"end".as_slice() {
        Some(Move::End)
    } else {
        None
    }
}

/// Returns the move of a line, which is given without its LF, or `None` exactly if the line is no
/// move's. `names` are those of the backends. `NoMemory` is the only error.
pub fn parse_move(alloc: Global, names: &Names, line: &[u8]) -> Result<Option<Move>, NoMemory>
    requires { length names.now ≤ BACKEND_LIMIT }
    ensures { IfOk result (FindsValue (MoveLine names.now line.now)) }
{
    match cut(line) {
        (word, Some(rest)) => match verb_of(word) {
            Some(verb) => arguments(alloc, names, verb, rest),
            None => Ok(None),
        },
        (word, None) => Ok(lone(word)),
    }
}
