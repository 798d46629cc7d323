//! Reads the words after the program's name.

ghost use Rattle.std.specs.Prelude.{◌≡◌, ◌↔◌, ℕ, List, map, option_copied, option_map, string_bytes, IfErr, IfOk, IfSome, IsNone, IsSome};
ghost use Rattle.cj_args.specs.Words.{AsksCommand, AsksToServeAt, NamesConf, SaysWork};
ghost use Rattle.cj_args.specs.Proving as reading;
ghost use Rattle.cj_args.specs.declared.asked.Asked.{Asked};

use crate::asked::{Asked, Command, Topic, Verb};
use crate::conf::ConfPath;
use crate::parts::{names_file, next_word, workload};
use cj_model::NoMemory;
use std::alloc::Global;

fn verb_of(word: &str) -> Option<Verb>
    ensures { result ≡ reading.verb_of word.now }
{
    if word == "pipe" {
        return Some(Verb::Pipe);
    }
    if word == "script" {
        return Some(Verb::Script);
    }
    if word == "log" {
        return Some(Verb::Log);
    }
    if word == "gen" {
        return Some(Verb::Gen);
    }
    if word == "serve" {
        return Some(Verb::Serve);
    }
    None
}

/// Returns the word, if it is the only one and names a configuration.
fn only_conf(words: &[String]) -> Option<&str>
    ensures { option_copied result ≡ reading.only_conf (map string_bytes words.now) }
{
    match words {
        [word] if names_file(word.as_str()) => Some(word.as_str()),
        _ => None,
    }
}

fn workload_command(alloc: Global, words: &[String]) -> Result<Option<Command>, NoMemory>
    ensures found { IfOk result (λ command. command ≡ reading.workload_command (map string_bytes words.now)) }
    ensures memory { IfErr result (λ _. IsSome (reading.workload_command (map string_bytes words.now))) }
{
    match workload(words) {
        None => Ok(None),
        Some((conf, seed, count)) => {
            let conf = ConfPath::of(alloc, conf)?;
            Ok(Some(Command::Gen { conf, seed, count }))
        }
    }
}

/// Returns the command of a verb that has one file and nothing else.
fn file_command(alloc: Global, verb: Verb, conf: &str) -> Result<Option<Command>, NoMemory>
    ensures found { IfOk result (λ command. command ≡ reading.file_command verb conf.now) }
    ensures memory { IfErr result (λ _. IsSome (reading.file_command verb conf.now)) }
{
    match verb {
        Verb::Pipe => {
            let conf = ConfPath::of(alloc, conf)?;
            Ok(Some(Command::Pipe { conf }))
        }
        Verb::Script => {
            let conf = ConfPath::of(alloc, conf)?;
            Ok(Some(Command::Script { conf }))
        }
        Verb::Log => {
            let conf = ConfPath::of(alloc, conf)?;
            Ok(Some(Command::Log { conf }))
        }
        Verb::Gen | Verb::Serve => Ok(None),
    }
}

/// Returns the command that the verb is with these words after it.
fn command_of(alloc: Global, verb: Verb, words: &[String]) -> Result<Option<Command>, NoMemory>
    ensures found { IfOk result (λ command. command ≡ reading.command_of verb (map string_bytes words.now)) }
    ensures memory { IfErr result (λ _. IsSome (reading.command_of verb (map string_bytes words.now))) }
{
    if verb == Verb::Gen {
        return workload_command(alloc, words);
    }
    match only_conf(words) {
        Some(conf) => file_command(alloc, verb, conf),
        None => Ok(None),
    }
}

/// Returns the configuration and the address, if the words are these two.
fn serving_parts(words: &[String]) -> Option<(&str, &str)>
    ensures { option_map (λ r. (r.0.now, r.1.now)) result ≡ reading.serving_parts (map string_bytes words.now) }
{
    match words {
        [conf, address] if names_file(conf.as_str()) && names_file(address.as_str()) => {
            Some((conf.as_str(), address.as_str()))
        }
        _ => None,
    }
}

/// Returns what the words after `serve` ask for, if they are a configuration and an address.
fn serving(alloc: Global, words: &[String]) -> Result<Option<Asked>, NoMemory>
    ensures found { IfOk result (λ asked. asked ≡ reading.serving (map string_bytes words.now)) }
    ensures memory { IfErr result (λ _. IsSome (reading.serving (map string_bytes words.now))) }
{
    match serving_parts(words) {
        None => Ok(None),
        Some((conf, address)) => {
            let conf = ConfPath::of(alloc, conf)?;
            let address = ConfPath::of(alloc, address)?;
            Ok(Some(Asked::Serve { conf, address }))
        }
    }
}

/// Returns the work that the words after a verb ask for, if they ask for any.
fn work_of(alloc: Global, verb: Verb, words: &[String]) -> Result<Option<Asked>, NoMemory>
    ensures found { IfOk result (λ asked. asked ≡ reading.work_of verb (map string_bytes words.now)) }
    ensures memory { IfErr result (λ _. IsSome (reading.work_of verb (map string_bytes words.now))) }
{
    if verb == Verb::Serve {
        return serving(alloc, words);
    }
    match command_of(alloc, verb, words)? {
        Some(command) => Ok(Some(Asked::Command(command))),
        None => Ok(None),
    }
}

/// Whether the text is the only word.
fn is_only(text: &str, words: &[String]) -> bool
    ensures { result ≡ reading.is_only text.now (map string_bytes words.now) }
{
    match words {
        [word] => word.as_str() == text,
        _ => false,
    }
}

/// Returns what the words after a verb ask for: its work, or its help.
fn asked_of_verb(alloc: Global, verb: Verb, words: &[String]) -> Result<Option<Asked>, NoMemory>
    ensures found { IfOk result (λ asked. asked ≡ reading.asked_of_verb verb (map string_bytes words.now)) }
    ensures memory { IfErr result (λ _. IsSome (reading.work_of verb (map string_bytes words.now))) }
{
    if let Some(asked) = work_of(alloc, verb, words)? {
        return Ok(Some(asked));
    }
    if is_only("--help", words) {
        return Ok(Some(Asked::Help(Topic::Command(verb))));
    }
    Ok(None)
}

/// Returns what words that begin with no verb ask for.
fn asked_of_program(words: &[String]) -> Option<Asked>
    ensures { result ≡ reading.asked_of_program (map string_bytes words.now) }
{
    if is_only("--help", words) {
        return Some(Asked::Help(Topic::Program));
    }
    if is_only("--version", words) {
        return Some(Asked::Version);
    }
    None
}

fn asked_of(alloc: Global, words: &[String]) -> Result<Option<Asked>, NoMemory>
    ensures found { IfOk result (λ asked. asked ≡ reading.asked_of (map string_bytes words.now)) }
    ensures memory { IfErr result (λ _. SaysWork (map string_bytes words.now)) }
{
    match next_word(words) {
        None => Ok(None),
        Some((word, rest)) => match verb_of(word) {
            Some(verb) => asked_of_verb(alloc, verb, rest),
            None => Ok(asked_of_program(words)),
        },
    }
}

/// Returns what the words after the program's name ask for, or `None` if they ask for nothing.
/// `NoMemory` is the only error, and comes only for words that ask for work.
pub fn read(alloc: Global, words: &[String]) -> Result<Option<Asked>, NoMemory>
    ensures found { IfOk result (λ found. (asked : Asked) → (found ≡ Some asked) ↔ AsksCommand (map string_bytes words.now) asked) }
    ensures memory { IfErr result (λ _. SaysWork (map string_bytes words.now)) }
{
    asked_of(alloc, words)
}

/// Returns the configuration's file of what the verb asks for with these words after it.
fn file_of_verb(verb: Verb, words: &[String]) -> Option<&str>
    ensures { option_copied result ≡ reading.file_of_verb verb (map string_bytes words.now) }
{
    match verb {
        Verb::Gen => match workload(words) {
            Some((conf, _, _)) => Some(conf),
            None => None,
        },
        Verb::Serve => match serving_parts(words) {
            Some((conf, _)) => Some(conf),
            None => None,
        },
        Verb::Pipe | Verb::Script | Verb::Log => only_conf(words),
    }
}

fn file_in(words: &[String]) -> Option<&str>
    ensures { option_copied result ≡ reading.file_in (map string_bytes words.now) }
{
    match next_word(words) {
        None => None,
        Some((word, rest)) => match verb_of(word) {
            Some(verb) => file_of_verb(verb, rest),
            None => None,
        },
    }
}

fn address_in(words: &[String]) -> Option<&str>
    ensures { option_copied result ≡ reading.address_in (map string_bytes words.now) }
{
    match next_word(words) {
        None => None,
        Some((word, rest)) => {
            if word != "serve" {
                return None;
            }
            match serving_parts(rest) {
                Some((_, address)) => Some(address),
                None => None,
            }
        }
    }
}

/// Returns the configuration's file of what the words ask for, or `None` exactly if they ask for no work. This takes no
/// memory.
pub fn conf_word(words: &[String]) -> Option<&str>
    ensures some { IfSome result (λ conf. NamesConf (map string_bytes words.now) conf.now) }
    ensures none { IsNone result → (conf : List ℕ) → NamesConf (map string_bytes words.now) conf → ⊥ }
{
    file_in(words)
}

/// Returns the address at which the words ask to serve, or `None` exactly if they don't. This takes no memory.
pub fn address_word(words: &[String]) -> Option<&str>
    ensures some { IfSome result (λ address. (conf : List ℕ) × AsksToServeAt (map string_bytes words.now) conf address.now) }
    ensures none { IsNone result → (conf address : List ℕ) → AsksToServeAt (map string_bytes words.now) conf address → ⊥ }
{
    address_in(words)
}
