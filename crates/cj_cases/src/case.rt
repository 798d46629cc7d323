//! A case: what a run is handed.

ghost use Rattle.std.specs.Prelude.{◌≡◌, map, string_bytes};

use std::alloc::Global;
use std::marker::Model;

/// The numbers of the calls that are to fail, counted from 1, of each object of a run.
#[derive(Drop)]
pub(crate) struct Fails {
    pub(crate) configuration: Vec<u64>,
    pub(crate) log: Vec<u64>,
    pub(crate) input: Vec<u64>,
    pub(crate) output: Vec<u64>,
    pub(crate) errors: Vec<u64>,
}

impl Fails {
    ghost use Rattle.cj_cases.specs.Cases.{no_fails};
    ghost use Rattle.cj_cases.specs.Failing.{calls_of};

    /// No call fails.
    pub(crate) fn none(alloc: Global) -> Fails
        ensures { calls_of result ≡ no_fails }
    {
        Fails {
            configuration: Vec::new(alloc),
            log: Vec::new(alloc),
            input: Vec::new(alloc),
            output: Vec::new(alloc),
            errors: Vec::new(alloc),
        }
    }
}

/// A case, as far as its lines have said it.
#[derive(Drop)]
pub struct Case {
    pub(crate) number: u64,
    pub(crate) name: Vec<u8>,
    pub(crate) words: Vec<String>,
    pub(crate) configuration: Vec<u8>,
    pub(crate) log: Vec<u8>,
    pub(crate) input: Vec<u8>,
    pub(crate) piece_limit: u64,
    pub(crate) fails: Fails,
    pub(crate) shows_log: bool,
}

impl Model for Case {
    ghost use Rattle.std.specs.Prelude.{map, string_bytes};
    ghost use Rattle.cj_cases.specs.Cases.{CaseState};
    ghost use Rattle.cj_cases.specs.Failing.{calls_of};

    ghost Value = { CaseState };

    ghost view = { λ c. record {
      number = c.number;
      name = c.name.items;
      words = map string_bytes c.words.items;
      configuration = c.configuration.items;
      log = c.log.items;
      input = c.input.items;
      piece_limit = c.piece_limit;
      fails = calls_of c.fails;
      shows_log = c.shows_log;
    } };
}

impl Case {
    ghost use Rattle.cj_cases.specs.Cases.{no_case};

    /// The state before the first case, of which nothing was said.
    pub(crate) fn none(alloc: Global) -> Case
        ensures { result ≡ no_case }
    {
        Case {
            number: 0,
            name: Vec::new(alloc),
            words: Vec::new(alloc),
            configuration: Vec::new(alloc),
            log: Vec::new(alloc),
            input: Vec::new(alloc),
            piece_limit: u64::MAX,
            fails: Fails::none(alloc),
            shows_log: false,
        }
    }

    /// Returns the case's number among the cases, counted from 1; 0 before the first case.
    pub fn number(&self) -> u64
        ensures { result ≡ self.now.number }
    {
        self.number
    }

    /// Returns the case's name.
    pub fn name(&self) -> &[u8]
        ensures { result.now ≡ self.now.name }
    {
        &self.name
    }

    /// Returns the words of the command.
    pub fn words(&self) -> &[String]
        ensures { map string_bytes result.now ≡ self.now.words }
    {
        &self.words
    }

    /// Returns the bytes of the configuration.
    pub fn configuration(&self) -> &[u8]
        ensures { result.now ≡ self.now.configuration }
    {
        &self.configuration
    }

    /// Returns the bytes of the log before the run.
    pub fn log(&self) -> &[u8]
        ensures { result.now ≡ self.now.log }
    {
        &self.log
    }

    /// Returns the bytes of the input.
    pub fn input(&self) -> &[u8]
        ensures { result.now ≡ self.now.input }
    {
        &self.input
    }

    /// Returns the most bytes that the input gives at a call. Without a line that says it, this is
    /// the largest `u64`.
    pub fn piece_limit(&self) -> u64
        ensures { result ≡ self.now.piece_limit }
    {
        self.piece_limit
    }

    /// Returns the numbers of the configuration's calls that fail, counted from 1.
    pub fn configuration_fails(&self) -> &[u64]
        ensures { result.now ≡ self.now.fails.configuration }
    {
        &self.fails.configuration
    }

    /// Returns the numbers of the log's calls that fail, counted from 1.
    pub fn log_fails(&self) -> &[u64]
        ensures { result.now ≡ self.now.fails.log }
    {
        &self.fails.log
    }

    /// Returns the numbers of the input's calls that fail, counted from 1.
    pub fn input_fails(&self) -> &[u64]
        ensures { result.now ≡ self.now.fails.input }
    {
        &self.fails.input
    }

    /// Returns the numbers of the output's calls that fail, counted from 1.
    pub fn output_fails(&self) -> &[u64]
        ensures { result.now ≡ self.now.fails.output }
    {
        &self.fails.output
    }

    /// Returns the numbers of the errors' calls that fail, counted from 1.
    pub fn errors_fails(&self) -> &[u64]
        ensures { result.now ≡ self.now.fails.errors }
    {
        &self.fails.errors
    }

    /// Whether the log's bytes are shown after the run.
    pub fn shows_log(&self) -> bool
        ensures { result ≡ self.now.shows_log }
    {
        self.shows_log
    }
}
