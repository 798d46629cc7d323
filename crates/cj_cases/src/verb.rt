//! The words that lines begin with.

ghost use Rattle.std.specs.Prelude.{◌≡◌, map};
ghost use Rattle.cj_cases.specs.Lines as spec;

/// What a line says something of.
#[derive(Clone, Copy)]
pub(crate) enum Verb {
    Configuration,
    Case,
    Words,
    Log,
    Input,
    /// A line of the input.
    InputLine,
    Query,
    Pieces,
    Fails,
    Show,
}

/// The words of the verbs.
pub(crate) const VERBS: [(&[u8], Verb); 10] = [
    (b"configuration", Verb::Configuration),
    (b"case", Verb::Case),
    (b"words", Verb::Words),
    (b"log", Verb::Log),
    (b"input", Verb::Input),
    (b"<", Verb::InputLine),
    (b"query", Verb::Query),
    (b"pieces", Verb::Pieces),
    (b"fails", Verb::Fails),
    (b"show", Verb::Show),
];

fn lookup(mut table: &[(&[u8], Verb)], word: &[u8]) -> Option<Verb>
    ensures { result ≡ spec.find_word (map (λ entry. (entry.0.now, entry.1)) table.entry.now) word.now }
{
    while let [entry, rest @ ..] = table {
        if entry.0 == word {
            return Some(entry.1);
        }
        table = rest;
    }
    None
}

/// Returns the verb that the word is, if it is one.
#[tactic(auto, unfolding(crate::specs::Lines::verb_of))]
pub(crate) fn verb_of(word: &[u8]) -> Option<Verb>
    ensures { result ≡ spec.verb_of word.now }
{
    lookup(&VERBS, word)
}

/// An object of a run.
#[derive(Clone, Copy)]
pub(crate) enum Object {
    Configuration,
    Log,
    Input,
    Output,
    Errors,
}

/// Returns the object that the word is, if it is one.
pub(crate) fn object_of(word: &[u8]) -> Option<Object>
    ensures { result ≡ spec.object_of word.now }
{
    if word == b"configuration".as_slice() {
        Some(Object::Configuration)
    } else if word == b"log".as_slice() {
        Some(Object::Log)
    } else if word == b"input".as_slice() {
        Some(Object::Input)
    } else if word == b"output".as_slice() {
        Some(Object::Output)
    } else if word == b"errors".as_slice() {
        Some(Object::Errors)
    } else {
        None
    }
}
