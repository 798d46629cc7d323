//! What threads have, each for itself and together.

use cj_backend::Backend;
use cj_control::{Control, Naming, Pass};
use cj_model::NoMemory;
use cj_outside::{PcgDraw, Store};
use cj_stress_text::{Lines, Task};
use std::alloc::Global;
use std::sync::atomic::AtomicBool;
use std::sync::{Mutex, Wait};
use std::time::Instant;

/// What one thread has for itself.
#[derive(Drop)]
pub struct Worker<J: Naming> {
    /// 0 is the administrator, or who writes beside those that are measured; the others are clients.
    pub number: u64,
    /// How often it did something.
    pub rounds: u64,
    pub pass: Pass<J>,
    pub draw: PcgDraw,
    pub lines: Lines,
}

impl<J: Naming> Worker<J> {
    pub fn new(alloc: Global, task: Task, number: u64, pass: Pass<J>) -> Worker<J> {
        Worker {
            number,
            rounds: 0,
            pass,
            draw: PcgDraw::new(task.seed().wrapping_mul(100).wrapping_add(number)),
            lines: Lines::new(alloc),
        }
    }
}

/// What all threads share.
#[derive(Drop)]
pub struct Stage<'a, J: Naming, B: Backend, S: Store> {
    pub alloc: Global,
    pub control: &'a Control<J, B, S>,
    pub task: Task,
    /// When the start began.
    pub began: Instant,
    /// Whether a session that is measured has ended.
    pub has_ended: AtomicBool,
    /// Transactions that were left open, by their numbers.
    orphans: Mutex<Vec<u64>>,
}

impl<'a, J: Naming, B: Backend, S: Store> Stage<'a, J, B, S> {
    pub fn new(
        alloc: Global,
        control: &'a Control<J, B, S>,
        task: Task,
        began: Instant,
    ) -> Stage<'a, J, B, S> {
        Stage {
            alloc,
            control,
            task,
            began,
            has_ended: AtomicBool::new(false),
            orphans: Mutex::new(Vec::new(alloc)),
        }
    }

    /// Adds an orphan.
    pub fn add_orphan<R: Wait>(&self, rt: &R, tx: u64) -> Result<(), NoMemory> {
        self.orphans.lock(rt).push(tx)?;
        Ok(())
    }

    /// Takes the last of the orphans.
    pub fn next_orphan<R: Wait>(&self, rt: &R) -> Option<u64> {
        self.orphans.lock(rt).pop()
    }
}
