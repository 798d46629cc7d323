//! The words that lines begin with.

ghost use Rattle.std.specs.Prelude.{◌≡◌, map};
ghost use Rattle.cj_script.specs.Reading as spec;

/// What a line asks for.
#[derive(Clone, Copy)]
pub enum Verb {
    Open,
    Close,
    Write,
    Abort,
    Apply,
    End,
    Read,
    Arm,
    Disable,
    Replay,
    Enable,
    Mark,
    Dump,
    Load,
}

/// The words of the verbs.
pub const VERBS: [(&[u8], Verb); 14] = [
    (b"open", Verb::Open),
    (b"close", Verb::Close),
    (b"write", Verb::Write),
    (b"abort", Verb::Abort),
    (b"apply", Verb::Apply),
    (b"end", Verb::End),
    (b"read", Verb::Read),
    (b"arm", Verb::Arm),
    (b"disable", Verb::Disable),
    (b"replay", Verb::Replay),
    (b"enable", Verb::Enable),
    (b"mark", Verb::Mark),
    (b"dump", Verb::Dump),
    (b"load", Verb::Load),
];

fn lookup(mut table: &[(&[u8], Verb)], word: &[u8]) -> Option<Verb>
    ensures { result ≡ spec.find_verb (map (λ entry. (entry.0.now, entry.1)) table.entry.now) word.now }
{
    while let [entry, rest @ ..] = table {
        if entry.0 == word {
            return Some(entry.1);
        }
        table = rest;
    }
    None
}

/// Returns the verb that the word is, if it is one.
#[tactic(auto, unfolding(crate::specs::Reading::verb_of))]
pub fn verb_of(word: &[u8]) -> Option<Verb>
    ensures { result ≡ spec.verb_of word.now }
{
    lookup(&VERBS, word)
}
