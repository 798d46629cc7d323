//! Lines that say something of a case.

ghost use Rattle.std.specs.Prelude.{◌≡◌, IfOk, OnOk};
ghost use Rattle.cj_cases.specs.Cases.{ran};
ghost use Rattle.cj_cases.specs.Lines.{begun, failing_in, said, said_of_case, SaysOfCase};
ghost use Rattle.cj_cases.specs.Lines.{with_configuration_line, with_pieces};
ghost use Rattle.cj_cases.specs.Lines as lines;
ghost use Rattle.cj_cases.specs.Failing.{calls_of};
ghost use Rattle.cj_cases.specs.Plays as plays;
ghost use Rattle.cj_cases.specs.Spellings as texts;
ghost use Rattle.std.specs.Option.{option_map};
ghost use Rattle.cj_cases.specs.declared.verb.Verb.TheVariants as verbs;

use crate::case::{Case, Fails};
use crate::cut::cut_word;
use crate::number::number_of;
use crate::spelling::spelled;
use crate::verb::{Object, Verb, object_of, verb_of};
use crate::words::words_of;
use cj_model::NoMemory;
use std::alloc::Global;

/// The kind of a client's message that asks to run a statement.
const QUERY: u8 = 2;

fn is_remark(line: &[u8]) -> bool
    ensures { result ≡ lines.is_remark line.now }
{
    match line {
        [] => true,
        [first, ..] => *first == b'#',
    }
}

impl Case {
    /// Takes a line that runs nothing, and returns whether the line was a directive. After
    /// `NoMemory` the case may have a part of what was said.
    pub(crate) fn say(&mut self, alloc: Global, line: &[u8]) -> Result<bool, NoMemory>
        ensures { IfOk result (SaysOfCase (said self.old line.now) self.old self.new) }
    {
        if is_remark(line) {
            return Ok(true);
        }
        if line == b"configuration".as_slice() {
            self.configuration.clear();
            return Ok(true);
        }
        let (word, text) = cut_word(line);
        match verb_of(word) {
            None => Ok(false),
            Some(Verb::Configuration) => self.configure(alloc, text),
            Some(Verb::Case) => self.begin(alloc, text),
            Some(verb) => {
                if self.number == 0 {
                    return Ok(false);
                }
                self.say_of_case(alloc, verb, text)
            }
        }
    }

    fn configure(&mut self, alloc: Global, text: &[u8]) -> Result<bool, NoMemory>
        ensures { IfOk result
            (SaysOfCase (option_map (with_configuration_line self.old) (texts.spelled text.now)) self.old self.new) }
    {
        let Some(bytes) = spelled(alloc, text)? else {
            return Ok(false);
        };
        self.configuration.extend_from_slice(&bytes)?;
        self.configuration.push(b'\n')?;
        Ok(true)
    }

    fn begin(&mut self, alloc: Global, text: &[u8]) -> Result<bool, NoMemory>
        ensures { IfOk result (SaysOfCase (option_map (begun self.old) (texts.spelled text.now)) self.old self.new) }
    {
        let Some(name) = spelled(alloc, text)? else {
            return Ok(false);
        };
        self.number = self.number.saturating_add(1);
        self.name = name;
        self.forget(alloc, Vec::new(alloc));
        Ok(true)
    }

    /// Returns the number of cases up to a line that is no directive. A line that was to begin
    /// another case counts as one.
    pub(crate) fn number_at(&self, line: &[u8]) -> u64
        ensures { result ≡ plays.number_at self.now line.now }
    {
        let (word, _) = cut_word(line);
        if word == b"case".as_slice() {
            self.number.saturating_add(1)
        } else {
            self.number
        }
    }

    /// Forgets what was said of the run. `log` has the bytes that the run left in the log.
    pub(crate) fn forget(&mut self, alloc: Global, log: Vec<u8>)
        ensures { self.new ≡ ran self.old log.items }
    {
        self.words = Vec::new(alloc);
        self.log = log;
        self.input = Vec::new(alloc);
        self.piece_limit = u64::MAX;
        self.fails = Fails::none(alloc);
        self.shows_log = false;
    }

    fn say_of_case(&mut self, alloc: Global, verb: Verb, text: &[u8]) -> Result<bool, NoMemory>
        ensures { IfOk result (SaysOfCase (said_of_case self.old verb text.now) self.old self.new) }
    {
        match verb {
            Verb::Configuration | Verb::Case => Ok(false),
            Verb::Words => self.say_words(alloc, text),
            Verb::Log => self.add_to_log(alloc, text),
            Verb::Input => self.add_input(alloc, text),
            Verb::InputLine => self.add_line(alloc, text),
            Verb::Query => self.add_query(alloc, text),
            Verb::Pieces => Ok(self.limit_pieces(number_of(text))),
            Verb::Fails => self.say_failing(text),
            Verb::Show => {
                if text == b"log".as_slice() {
                    self.shows_log = true;
                    return Ok(true);
                }
                Ok(false)
            }
        }
    }

    fn say_words(&mut self, alloc: Global, text: &[u8]) -> Result<bool, NoMemory>
        ensures { IfOk result (SaysOfCase (said_of_case self.old verbs.Words text.now) self.old self.new) }
    {
        let Some(words) = words_of(alloc, text)? else {
            return Ok(false);
        };
        self.words = words;
        Ok(true)
    }

    fn add_to_log(&mut self, alloc: Global, text: &[u8]) -> Result<bool, NoMemory>
        ensures { IfOk result (SaysOfCase (said_of_case self.old verbs.Log text.now) self.old self.new) }
    {
        let Some(bytes) = spelled(alloc, text)? else {
            return Ok(false);
        };
        self.log.extend_from_slice(&bytes)?;
        Ok(true)
    }

    fn add_input(&mut self, alloc: Global, text: &[u8]) -> Result<bool, NoMemory>
        ensures { IfOk result (SaysOfCase (said_of_case self.old verbs.Input text.now) self.old self.new) }
    {
        let Some(bytes) = spelled(alloc, text)? else {
            return Ok(false);
        };
        self.input.extend_from_slice(&bytes)?;
        Ok(true)
    }

    fn add_line(&mut self, alloc: Global, text: &[u8]) -> Result<bool, NoMemory>
        ensures { IfOk result (SaysOfCase (said_of_case self.old verbs.InputLine text.now) self.old self.new) }
    {
        let Some(bytes) = spelled(alloc, text)? else {
            return Ok(false);
        };
        self.input.extend_from_slice(&bytes)?;
        self.input.push(b'\n')?;
        Ok(true)
    }

    /// Adds the frame of a Query, if its length can be written in one.
    fn add_query(&mut self, alloc: Global, text: &[u8]) -> Result<bool, NoMemory>
        ensures { IfOk result (SaysOfCase (said_of_case self.old verbs.Query text.now) self.old self.new) }
    {
        let Some(bytes) = spelled(alloc, text)? else {
            return Ok(false);
        };
        if bytes.len() >= u32::MAX as usize {
            return Ok(false);
        }
        let length = bytes.len() as u32 + 1;
        self.input.extend_from_slice(&length.to_be_bytes())?;
        self.input.push(QUERY)?;
        self.input.extend_from_slice(&bytes)?;
        Ok(true)
    }

    fn limit_pieces(&mut self, limit: Option<u64>) -> bool
        ensures { SaysOfCase (with_pieces self.old limit) self.old self.new result }
    {
        match limit {
            Some(limit) if limit > 0 => {
                self.piece_limit = limit;
                true
            }
            _ => false,
        }
    }

    fn say_failing(&mut self, text: &[u8]) -> Result<bool, NoMemory>
        ensures { IfOk result (SaysOfCase (said_of_case self.old verbs.Fails text.now) self.old self.new) }
    {
        let (object, call) = cut_word(text);
        let (Some(object), Some(call)) = (object_of(object), number_of(call)) else {
            return Ok(false);
        };
        self.fails.add(object, call)?;
        Ok(true)
    }
}

impl Fails {
    /// Adds a call of this object to those that fail.
    fn add(&mut self, object: Object, call: u64) -> Result<(), NoMemory>
        ensures { OnOk result (calls_of self.new ≡ failing_in (calls_of self.old) object call) }
    {
        match object {
            Object::Configuration => self.configuration.push(call)?,
            Object::Log => self.log.push(call)?,
            Object::Input => self.input.push(call)?,
            Object::Output => self.output.push(call)?,
            Object::Errors => self.errors.push(call)?,
        }
        Ok(())
    }
}
