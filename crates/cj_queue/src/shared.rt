//! A lane that threads share.

ghost use Rattle.std.specs.Prelude.{◌≡◌, ◌<◌, IfErr};

use crate::lane::Lane;
use crate::locked::{LockedPoster, LockedTaker};
use crate::numbered::Numbered;
use cj_model::NoMemory;
use crossbeam_utils::sync::EventCount;
use std::alloc::Global;
use std::sync::atomic::{AtomicBool, Ordering};
use std::sync::{Arc, Mutex, Wait};

/// A lane that threads share: each end is behind a lock of its own.
///
/// A thread that holds one of the locks takes no other, and holds it no longer than one step of the queue.
#[derive(Drop)]
pub struct SharedLane<T> {
    poster: Mutex<LockedPoster<T>>,
    taker: Mutex<LockedTaker<T>>,
    /// Here a worker without a job sleeps.
    posted: EventCount,
    stopped: AtomicBool,
}

impl<T: Drop> SharedLane<T> {
    /// Makes a lane with room for so many jobs.
    pub fn new(alloc: Global, capacity: usize) -> Result<SharedLane<T>, NoMemory>
        requires { 0 < capacity }
    {
        let (lane, poster, taker) = Lane::new(alloc, capacity)?;
        let lane = Arc::new(alloc, lane)?;
        let other = Arc::try_clone(&lane)?;
        Ok(SharedLane {
            poster: Mutex::new(LockedPoster::new(lane, poster)),
            taker: Mutex::new(LockedTaker::new(other, taker)),
            posted: EventCount::new(),
            stopped: AtomicBool::new(false),
        })
    }

    /// Posts a job and wakes the worker, if it sleeps.
    ///
    /// The job is handed back where the lane is full, or where one with its number or a higher one was posted.
    pub fn post<R: Wait>(&self, rt: &R, job: Numbered<T>) -> Result<(), Numbered<T>>
        ensures back { IfErr result (λ j. j ≡ job) }
    {
        let posted = self.post_quietly(rt, job);
        self.posted.notify_one();
        posted
    }

    /// Posts a job and wakes nobody. For a caller that goes on to take it, where no worker does so before.
    ///
    /// The job is handed back where the lane is full, or where one with its number or a higher one was posted.
    pub fn post_quietly<R: Wait>(&self, rt: &R, job: Numbered<T>) -> Result<(), Numbered<T>>
        ensures back { IfErr result (λ j. j ≡ job) }
    {
        self.poster.lock(rt).post(rt, job)
    }

    /// Takes the first job that nobody has taken. `None` if there is none.
    pub fn take<R: Wait>(&self, rt: &R) -> Option<Numbered<T>> {
        self.taker.lock(rt).take(rt)
    }

    /// Waits for a job and takes it. The thread sleeps while there is none.
    ///
    /// `None` once the lane was stopped and has no job.
    pub fn next<R: Wait>(&self, rt: &R) -> Option<Numbered<T>> {
        for _ in rt.forever() {
            let waiting = self.posted.prepare_wait();
            // Looked up before the lane, so that each job that was posted before the stop is taken.
            let stopped = self.stopped.load(Ordering::SeqCst);
            if let Some(job) = self.take(rt) {
                return Some(job);
            }
            if stopped {
                return None;
            }
            waiting.wait(rt);
        }
        unreachable!()
    }

    /// Has each worker end once the lane has no job.
    pub fn stop(&self) {
        self.stopped.store(true, Ordering::SeqCst);
        self.posted.notify_all();
    }
}
