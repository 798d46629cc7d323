//! What runs cases.

ghost use Rattle.std.specs.Prelude.{IfOk};

use crate::case::Case;
use cj_model::NoMemory;
use std::alloc::Global;

/// What a run gave: its status, and what it wrote.
#[derive(Drop)]
pub struct Outcome {
    pub status: u8,
    pub output: Vec<u8>,
    pub errors: Vec<u8>,
    /// The bytes of the log after the run.
    pub log: Vec<u8>,
}

/// A program that can be run on a case.
pub trait Runner {
    ghost use Rattle.cj_cases.specs.Cases.{CaseState};
    ghost use Rattle.cj_cases.specs.declared.runner.Outcome.{Outcome};

    /// Whether a run of the case may give this.
    ghost gives: { CaseState → Outcome → Type 0 };

    /// Runs the program over objects in memory, as the case says. `NoMemory` is the only error.
    fn run(&mut self, alloc: Global, case: &Case) -> Result<Outcome, NoMemory>
        ensures { IfOk result (gives case.now) };
}
