//! The way to a backend's worker and back.

ghost use Rattle.std.specs.Prelude.{◌≡◌, Some, false};
ghost use Rattle.cj_workers.specs.Waiting.{lacks};

use crate::report::Report;
use cj_model::NoMemory;
use cj_pass::Naming;
use cj_queue::{Job, Numbered, SharedLane};
use std::alloc::Global;
use std::sync::atomic::{AtomicBool, Ordering};
use std::sync::{Condvar, Mutex, Wait};

/// The most jobs of a lane. It has one at a time, since an entry is posted only while no other is open.
const ROOM: usize = 4;

/// The last report that nobody has heard.
#[derive(Drop)]
struct Reported<J: Naming> {
    last: Option<Report<J>>,
}

impl<J: Naming> Reported<J> {
    /// Whether the report of this entry has not come.
    fn lacks(&self, number: u64) -> bool
        ensures { result ≡ lacks number self.now.last }
    {
        match &self.last {
            Some(report) => report.number != number,
            None => true,
        }
    }

    /// Keeps a report. One that nobody has heard is dropped.
    fn keep(&mut self, report: Report<J>)
        ensures { self.new.last ≡ Some report }
    {
        self.last = Some(report);
    }

    /// Takes the report of this entry.
    fn take(&mut self, number: u64) -> Report<J>
        requires { lacks number self.old.last ≡ false }
        ensures { result.number ≡ number }
    {
        match self.last.take() {
            Some(report) => report,
            None => unreachable!(),
        }
    }
}

/// The way to the worker of one backend, and back: jobs go there, and reports come from there.
///
/// A thread that holds one of its locks takes no other.
#[derive(Drop)]
pub struct WorkLane<J: Naming> {
    jobs: SharedLane<Job<J>>,
    /// Whether a worker takes the jobs.
    has_worker: AtomicBool,
    reported: Mutex<Reported<J>>,
    /// Here waits the writer of an entry, until the report of it has come.
    told: Condvar,
}

impl<J: Naming> WorkLane<J> {
    /// Makes a lane that has no worker.
    pub fn new(alloc: Global) -> Result<WorkLane<J>, NoMemory> {
        Ok(WorkLane {
            jobs: SharedLane::new(alloc, ROOM)?,
            has_worker: AtomicBool::new(false),
            reported: Mutex::new(Reported { last: None }),
            told: Condvar::new(),
        })
    }

    /// Says whether a worker takes the jobs from now on.
    pub fn man(&self, has_worker: bool) {
        self.has_worker.store(has_worker, Ordering::SeqCst);
    }

    /// Whether a worker takes the jobs.
    pub fn has_worker(&self) -> bool {
        self.has_worker.load(Ordering::SeqCst)
    }

    /// Posts a job, and wakes the worker. Returns whether the lane took it in.
    ///
    /// The lane refuses it where there is no room, or where a job of its number or of a higher one was posted.
    pub fn post<R: Wait>(&self, rt: &R, job: Job<J>) -> bool {
        let number = job.number;
        self.jobs.post(rt, Numbered { number, item: job }).is_ok()
    }

    /// Takes the job that nobody has begun, if there is one.
    pub fn take<R: Wait>(&self, rt: &R) -> Option<Job<J>> {
        self.jobs.take(rt).map(|job| job.item)
    }

    /// Waits for a job and takes it. The thread sleeps while there is none. `None` once the lane was stopped and has no
    /// job.
    pub fn next<R: Wait>(&self, rt: &R) -> Option<Job<J>> {
        self.jobs.next(rt).map(|job| job.item)
    }

    /// Tells the writer what the backend did.
    pub fn tell<R: Wait>(&self, rt: &R, report: Report<J>) {
        self.reported.lock(rt).keep(report);
        self.told.notify_one();
    }

    /// Waits for the report of an entry.
    pub fn hear<R: Wait>(&self, rt: &R, number: u64) -> Report<J>
        ensures { result.number ≡ number }
    {
        let mut reported = self.told.wait_while(
            rt,
            self.reported.lock(rt),
            |reported: &mut Reported<J>| -> bool
                ensures { result ≡ lacks number reported.new.last }
            { reported.lacks(number) },
        );
        reported.take(number)
    }

    /// Has the worker end once the lane has no job.
    pub fn stop(&self) {
        self.man(false);
        self.jobs.stop();
    }
}
