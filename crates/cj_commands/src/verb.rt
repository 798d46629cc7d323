//! The words that lines begin with, of commands that have more than one word.

ghost use Rattle.std.specs.Prelude.{◌≡◌};
ghost use Rattle.cj_commands.specs.Reading as spec;

/// What a line asks for, by its first word.
#[derive(Clone, Copy)]
pub(crate) enum Verb {
    Show,
    Checkpoint,
    Disable,
    Enable,
    Backup,
    Abort,
}

/// Returns the verb that the word is, if it is one.
pub(crate) fn verb_of(word: &[u8]) -> Option<Verb>
    ensures { result ≡ spec.verb_named word.now }
{
    if word == b"show".as_slice() {
        return Some(Verb::Show);
    }
    if word == b"checkpoint".as_slice() {
        return Some(Verb::Checkpoint);
    }
    if word == b"disable".as_slice() {
        return Some(Verb::Disable);
    }
    if word == b"enable".as_slice() {
        return Some(Verb::Enable);
    }
    if word == b"backup".as_slice() {
        return Some(Verb::Backup);
    }
    if word == b"abort".as_slice() {
        return Some(Verb::Abort);
    }
    None
}
