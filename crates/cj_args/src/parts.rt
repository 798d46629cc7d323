//! The parts of a workload's words: CONF and two options.

ghost use Rattle.std.specs.Prelude.{◌≡◌, map, option_map, string_bytes};
ghost use Rattle.std.specs.Option.{option_copied};
ghost use Rattle.cj_args.specs.Words as words;
ghost use Rattle.cj_args.specs.Proving as reading;
ghost use Rattle.cj_args.specs.Proving.{part_view};

use crate::numbers::number;

/// The most statements of a workload.
pub const COUNT_LIMIT: u64 = 200_000;

/// A part of a workload's words.
#[derive(Clone, Copy)]
pub(crate) enum Part<'a> {
    Conf(&'a str),
    Seed(u64),
    Count(u64),
}

/// Whether the word names a configuration: it is not empty, and no option.
pub(crate) fn names_file(word: &str) -> bool
    ensures { result ≡ words.names_file word.now }
{
    match word.as_bytes() {
        [] => false,
        [first, ..] => *first != b'-',
    }
}

/// Returns the first word, and the words after it.
pub(crate) fn next_word(words: &[String]) -> Option<(&str, &[String])>
    ensures { option_map (λ r. (r.0.now, map string_bytes r.1.now)) result ≡ reading.next_word (map string_bytes words.now) }
{
    match words {
        [] => None,
        [word, rest @ ..] => Some((word.as_str(), rest)),
    }
}

/// Returns what follows this front in the word, if the word begins with it.
fn behind<'a>(front: &[u8], word: &'a [u8]) -> Option<&'a [u8]>
    ensures { option_copied result ≡ reading.behind front.now word.now }
{
    word.strip_prefix(front)
}

/// Returns the value of an option that the words begin with, in a word of its own or after `=`, and
/// the words after it.
fn value<'a>(name: &[u8], assigned: &[u8], words: &'a [String]) -> Option<(&'a [u8], &'a [String])>
    ensures { option_map (λ r. (r.0.now, map string_bytes r.1.now)) result ≡ reading.value name.now assigned.now (map string_bytes words.now) }
{
    let (word, rest) = next_word(words)?;
    if word.as_bytes() == name {
        let (value, rest) = next_word(rest)?;
        return Some((value.as_bytes(), rest));
    }
    match behind(assigned, word.as_bytes()) {
        Some(value) => Some((value, rest)),
        None => None,
    }
}

fn conf_part(words: &[String]) -> Option<(Part<'_>, &[String])>
    ensures { option_map (λ r. (part_view r.0, map string_bytes r.1.now)) result ≡ reading.conf (map string_bytes words.now) }
{
    let (word, rest) = next_word(words)?;
    if !names_file(word) {
        return None;
    }
    Some((Part::Conf(word), rest))
}

fn seed_part(words: &[String]) -> Option<(Part<'_>, &[String])>
    ensures { option_map (λ r. (part_view r.0, map string_bytes r.1.now)) result ≡ reading.seed (map string_bytes words.now) }
{
    let (value, rest) = value(b"--seed", b"--seed=", words)?;
    let seed = number(value)?;
    Some((Part::Seed(seed), rest))
}

fn count_part(words: &[String]) -> Option<(Part<'_>, &[String])>
    ensures { option_map (λ r. (part_view r.0, map string_bytes r.1.now)) result ≡ reading.count (map string_bytes words.now) }
{
    let (value, rest) = value(b"--count", b"--count=", words)?;
    let count = number(value)?;
    if count < 1 || COUNT_LIMIT < count {
        return None;
    }
    Some((Part::Count(count), rest))
}

/// Returns the part that the words begin with, and the words after it.
fn next_part(words: &[String]) -> Option<(Part<'_>, &[String])>
    ensures { option_map (λ r. (part_view r.0, map string_bytes r.1.now)) result ≡ reading.part (map string_bytes words.now) }
{
    if let Some(found) = conf_part(words) {
        return Some(found);
    }
    if let Some(found) = seed_part(words) {
        return Some(found);
    }
    count_part(words)
}

/// Returns configuration, seed and count, if the three parts are one of each.
fn each_once<'a>(a: Part<'a>, b: Part<'a>, c: Part<'a>) -> Option<(&'a str, u64, u64)>
    ensures { option_map (λ r. (r.0.now, r.1, r.2)) result ≡ reading.each_once (part_view a.entry) (part_view b.entry) (part_view c.entry) }
{
    match (a, b, c) {
        (Part::Conf(conf), Part::Seed(seed), Part::Count(count))
        | (Part::Conf(conf), Part::Count(count), Part::Seed(seed))
        | (Part::Seed(seed), Part::Conf(conf), Part::Count(count))
        | (Part::Count(count), Part::Conf(conf), Part::Seed(seed))
        | (Part::Seed(seed), Part::Count(count), Part::Conf(conf))
        | (Part::Count(count), Part::Seed(seed), Part::Conf(conf)) => Some((conf, seed, count)),
        _ => None,
    }
}

/// Returns the configuration, the seed and the count of a workload's words, if they are such.
pub(crate) fn workload(words: &[String]) -> Option<(&str, u64, u64)>
    ensures { option_map (λ r. (r.0.now, r.1, r.2)) result ≡ reading.workload (map string_bytes words.now) }
{
    let (first, rest) = next_part(words)?;
    let (second, rest) = next_part(rest)?;
    let (third, rest) = next_part(rest)?;
    match rest {
        [] => each_once(first, second, third),
        _ => None,
    }
}
