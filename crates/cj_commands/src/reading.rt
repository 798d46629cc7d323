//! Lines as commands.

ghost use Rattle.std.specs.Prelude.{◌≡◌, ◌≤◌, ◌↔◌, length, Err, IfOk};
ghost use Rattle.cj_commands.specs.Commands.{CommandLine, IsNoCommand, NamesNoBackend};
ghost use Rattle.cj_commands.specs.Reading.{IsOneWordCommand, IsReadAs};

use crate::arguments::arguments;
use crate::command::{Command, Unread};
use crate::verb::verb_of;
use cj_model::{BACKEND_LIMIT, Names};
use cj_words::cut;

/// Returns the command of a line that is one word.
fn lone(word: &[u8]) -> Result<Command, Unread>
    ensures { IsReadAs (IsOneWordCommand word.now) ⊥ result }
{
    if word == b"audit".as_slice() {
        return Ok(Command::Audit);
    }
    if word == b"quit".as_slice() {
        return Ok(Command::Quit);
    }
    Err(Unread::NoCommand)
}

/// Returns the command that a line is, or why it is none, in one fact for both.
fn read(names: &Names, line: &[u8]) -> Result<Command, Unread>
    requires { length names.now ≤ BACKEND_LIMIT }
    ensures { IsReadAs (CommandLine names.now line.now) (NamesNoBackend names.now line.now) result }
{
    match cut(line) {
        (word, Some(rest)) => match verb_of(word) {
            Some(verb) => arguments(names, verb, rest),
            None => Err(Unread::NoCommand),
        },
        (word, None) => lone(word),
    }
}

/// Returns the command that a line is, which is given without its LF. `names` are those of the
/// backends. Takes no memory.
///
/// # Errors
///
/// `NoBackend` comes for a line of a command's form, in which the word in a backend's place is not
/// empty and no backend's name. `NoCommand` comes for every other line that is no command, also
/// for the empty line.
pub fn read_command(names: &Names, line: &[u8]) -> Result<Command, Unread>
    requires { length names.now ≤ BACKEND_LIMIT }
    ensures ok { IfOk result (CommandLine names.now line.now) }
    ensures no_backend { (result ≡ Err Unread.NoBackend) ↔ NamesNoBackend names.now line.now }
    ensures no_command { (result ≡ Err Unread.NoCommand) ↔ IsNoCommand names.now line.now }
{
    read(names, line)
}
