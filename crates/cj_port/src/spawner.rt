//! What runs jobs beside their caller.

ghost use Rattle.std.specs.Prelude.{◌≡◌, ◌<◌, ◌≤◌, IfErr, IsErr, vec_capacity, vec_len};
ghost use Rattle.std.specs.Bool.{OnTrue};
ghost use Rattle.cj_outside.specs.Causes.{CountsFault};

use crossbeam_channel::{Receiver, SendError, bounded};
use std::alloc::Global;
use std::mem;
use std::sync::atomic::{AtomicBool, Ordering};
use std::sync::{Arc, Wait};
use std::thread::{Builder, JoinHandle, Promise, Threads};

/// The bytes of a thread's stack.
const STACK: usize = 2 << 20;

/// A job, which a thread may own.
pub trait Task: Send + Drop + 'static {
    /// Does the job. It may wait, for other threads too.
    fn go<R: Wait>(self, rt: &R);
}

/// Nothing is promised of a thread's result, which is empty.
#[derive(Drop)]
struct Nothing;

impl<T> Promise<T> for Nothing {
    ghost use Rattle.std.specs.Prelude.{⊤};

    ghost kept_by = { λ _ _. ⊤ };
}

/// A thread that has a job, and whether it has ended.
#[derive(Drop)]
struct Running {
    handle: JoinHandle<()>,
    has_ended: Arc<AtomicBool, Global>,
}

/// Does the job that comes, if one does, and then says that it has ended.
fn work<R: Wait, J: Task>(rt: &R, jobs: &Receiver<J>, has_ended: &AtomicBool) {
    if let Ok(job) = jobs.recv(rt) {
        job.go(rt);
    }
    has_ended.store(true, Ordering::SeqCst);
}

/// Makes a thread that waits for its job; `None` if there is no memory or no thread for it.
fn thread_for<R: Threads + Wait + Copy + Drop + Send + 'static, J: Task>(
    rt: &R,
    alloc: Global,
    jobs: Receiver<J>,
) -> Option<Running> {
    let has_ended = Arc::new(alloc, AtomicBool::new(false)).ok()?;
    let shared = Arc::try_clone(&has_ended).ok()?;
    let own = *rt;
    let made = Builder::new()
        .stack_size(STACK)
        .spawn_with(rt, Nothing, move || work(&own, &jobs, &shared));
    match made {
        Ok(handle) => Some(Running {
            handle: handle.forget_promise(),
            has_ended,
        }),
        Err(_) => None,
    }
}

/// An object that runs jobs beside their caller, each in a thread of its own.
#[derive(Drop)]
pub struct Spawner {
    alloc: Global,
    /// The most jobs that run at a time.
    most: usize,
    /// The threads that were not joined yet.
    running: Vec<Running>,
    refusals: u64,
    ghost within: { vec_len running ≤ most },
}

impl Spawner {
    /// A spawner that runs at most so many jobs at a time. With 0 it hands each job back, so that its caller runs it.
    pub fn new(alloc: Global, most: usize) -> Spawner
        ensures { (result.most ≡ most) × (result.refusals ≡ 0) }
    {
        Spawner {
            alloc,
            most,
            running: Vec::new(alloc),
            refusals: 0,
        }
    }

    /// Joins the threads whose jobs have ended.
    fn join_ended<R: Threads>(&mut self, rt: &R)
        ensures most { self.new.most ≡ self.old.most }
        ensures refusals { self.new.refusals ≡ self.old.refusals }
    {
        let mut at = 0;
        while at < self.running.len() {
            if self.running[at].has_ended.load(Ordering::SeqCst) {
                let Running { handle, .. } = self.running.swap_remove(at);
                handle.join(rt);
            } else {
                at += 1;
            }
        }
    }

    /// Whether one more thread may be made. Threads whose jobs have ended are joined before the list of them grows.
    fn has_room<R: Threads>(&mut self, rt: &R) -> bool
        ensures room { OnTrue result ((vec_len self.new.running < self.new.most) × (vec_len self.new.running < vec_capacity self.new.running)) }
        ensures most { self.new.most ≡ self.old.most }
        ensures refusals { self.new.refusals ≡ self.old.refusals }
    {
        if self.running.len() == self.running.capacity().min(self.most) {
            self.join_ended(rt);
        }
        self.running.len() < self.most && self.running.reserve(1).is_ok()
    }

    /// Gives the job to a new thread, or hands it back. The thread is made first, so that a job can still come back.
    fn give<R: Threads + Wait + Copy + Drop + Send + 'static, J: Task>(
        &mut self,
        rt: &R,
        job: J,
    ) -> Result<(), J>
        ensures same { IfErr result (λ back. back ≡ job) }
        ensures off { self.old.most ≡ 0 → IsErr result }
        ensures most { self.new.most ≡ self.old.most }
        ensures refusals { self.new.refusals ≡ self.old.refusals }
    {
        if !self.has_room(rt) {
            return Err(job);
        }
        let Ok((to, jobs)) = bounded(self.alloc, 1) else {
            return Err(job);
        };
        let Some(running) = thread_for(rt, self.alloc, jobs) else {
            self.join_ended(rt);
            return Err(job);
        };
        self.running.push_reserved(running);
        to.send(rt, job).map_err(SendError::into_inner)
    }

    /// Has the job run beside the caller, or hands it back, not begun. A job that is handed back is counted.
    ///
    /// It comes back if the most jobs run that may, or where there is no memory or no thread for it.
    pub fn start<R: Threads + Wait + Copy + Drop + Send + 'static, J: Task>(
        &mut self,
        rt: &R,
        job: J,
    ) -> Result<(), J>
        ensures same { IfErr result (λ back. back ≡ job) }
        ensures off { self.old.most ≡ 0 → IsErr result }
        ensures cause { CountsFault (IsErr result) self.old.refusals self.new.refusals }
        ensures most { self.new.most ≡ self.old.most }
    {
        let given = self.give(rt, job);
        if given.is_err() {
            self.refusals = self.refusals.saturating_add(1);
        }
        given
    }

    /// Waits until each job that was started has ended.
    pub fn join_all<R: Threads>(&mut self, rt: &R)
        ensures none { vec_len self.new.running ≡ 0 }
        ensures most { self.new.most ≡ self.old.most }
        ensures refusals { self.new.refusals ≡ self.old.refusals }
    {
        let all = mem::replace(&mut self.running, Vec::new(self.alloc));
        for Running { handle, .. } in all {
            handle.join(rt);
        }
    }
}
