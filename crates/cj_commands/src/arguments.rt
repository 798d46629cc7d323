//! What follows the first word of a line. Each function reads the arguments of one verb, without the verb.

ghost use Rattle.std.specs.Prelude.{◌≤◌, length};
ghost use Rattle.cj_cluster.specs.Script.Lines.{IsBackend};
ghost use Rattle.cj_words.specs.Words.{FindsValue};
ghost use Rattle.cj_commands.specs.Commands.{IsNoBackend};
ghost use Rattle.cj_commands.specs.Reading.{AsksFor, AsksToAbort, AsksToBackup, AsksToCheckpoint, AsksToDisable, AsksToEnable, AsksToShow, HasBackendAndName, IsLogRange, IsRange, IsReadAs, LacksAmong, LacksNamed, LacksToEnable};

use crate::command::{Command, Unread};
use crate::verb::Verb;
use cj_model::{BACKEND_LIMIT, Name, Names};
use cj_words::{backend, cut, is_word, number, numbered};

/// Reads `A B`, the first and the last number of a range.
fn range(rest: &[u8]) -> Option<(u64, u64)>
    ensures { FindsValue (IsRange rest.now) result }
{
    let Some((from, last)) = numbered(rest) else {
        return None;
    };
    match number(last) {
        Some(to) => Some((from, to)),
        None => None,
    }
}

/// Reads `log A B`.
fn log_range(rest: &[u8]) -> Option<(u64, u64)>
    ensures { FindsValue (IsLogRange rest.now) result }
{
    match cut(rest) {
        (word, Some(numbers)) => {
            if word == b"log".as_slice() {
                range(numbers)
            } else {
                None
            }
        }
        (_, None) => None,
    }
}

fn show(rest: &[u8]) -> Result<Command, Unread>
    ensures { IsReadAs (AsksToShow rest.now) ⊥ result }
{
    if rest == b"backends".as_slice() {
        return Ok(Command::ShowBackends);
    }
    if rest == b"cache".as_slice() {
        return Ok(Command::ShowCache);
    }
    match log_range(rest) {
        Some((from, to)) => Ok(Command::ShowLog { from, to }),
        None => Err(Unread::NoCommand),
    }
}

fn checkpoint(rest: &[u8]) -> Result<Command, Unread>
    ensures { IsReadAs (AsksToCheckpoint rest.now) ⊥ result }
{
    match Name::of(rest) {
        Some(name) => Ok(Command::Checkpoint(name)),
        None => Err(Unread::NoCommand),
    }
}

/// Reads a backend's name.
fn backend_of(names: &Names, word: &[u8]) -> Result<u8, Unread>
    requires { length names.now ≤ BACKEND_LIMIT }
    ensures { IsReadAs (IsBackend names.now word.now) (IsNoBackend names.now word.now) result }
{
    match backend(names, word) {
        Some(b) => Ok(b),
        None => {
            if is_word(word) && !word.is_empty() {
                Err(Unread::NoBackend)
            } else {
                Err(Unread::NoCommand)
            }
        }
    }
}

/// Reads a backend's name and another name. The other is looked at first, since it belongs to the
/// form.
fn backend_and_name(names: &Names, rest: &[u8]) -> Result<(u8, Name), Unread>
    requires { length names.now ≤ BACKEND_LIMIT }
    ensures { IsReadAs (HasBackendAndName names.now rest.now) (LacksNamed names.now rest.now) result }
{
    let (word, Some(name)) = cut(rest) else {
        return Err(Unread::NoCommand);
    };
    let Some(name) = Name::of(name) else {
        return Err(Unread::NoCommand);
    };
    let b = backend_of(names, word)?;
    Ok((b, name))
}

fn disable(names: &Names, rest: &[u8]) -> Result<Command, Unread>
    requires { length names.now ≤ BACKEND_LIMIT }
    ensures { IsReadAs (AsksToDisable names.now rest.now) (IsNoBackend names.now rest.now) result }
{
    let b = backend_of(names, rest)?;
    Ok(Command::Disable(b))
}

fn enable(names: &Names, rest: &[u8]) -> Result<Command, Unread>
    requires { length names.now ≤ BACKEND_LIMIT }
    ensures { IsReadAs (AsksToEnable names.now rest.now) (LacksToEnable names.now rest.now) result }
{
    if is_word(rest) {
        let b = backend_of(names, rest)?;
        return Ok(Command::Enable(b, None));
    }
    let (b, name) = backend_and_name(names, rest)?;
    Ok(Command::Enable(b, Some(name)))
}

fn backup(names: &Names, rest: &[u8]) -> Result<Command, Unread>
    requires { length names.now ≤ BACKEND_LIMIT }
    ensures { IsReadAs (AsksToBackup names.now rest.now) (LacksNamed names.now rest.now) result }
{
    let (b, name) = backend_and_name(names, rest)?;
    Ok(Command::Backup(b, name))
}

fn abort(rest: &[u8]) -> Result<Command, Unread>
    ensures { IsReadAs (AsksToAbort rest.now) ⊥ result }
{
    match number(rest) {
        Some(tx) => Ok(Command::Abort(tx)),
        None => Err(Unread::NoCommand),
    }
}

/// Reads what follows a verb and a space. `names` are those of the backends.
pub(crate) fn arguments(names: &Names, verb: Verb, rest: &[u8]) -> Result<Command, Unread>
    requires { length names.now ≤ BACKEND_LIMIT }
    ensures { IsReadAs (AsksFor names.now verb rest.now) (LacksAmong names.now verb rest.now) result }
{
    match verb {
        Verb::Show => show(rest),
        Verb::Checkpoint => checkpoint(rest),
        Verb::Disable => disable(names, rest),
        Verb::Enable => enable(names, rest),
        Verb::Backup => backup(names, rest),
        Verb::Abort => abort(rest),
    }
}
