//! Spawners whose jobs count, and one whose job waits for its caller.

use cj_port::{Spawner, Task};
use std::alloc::{AllocError, Global};
use std::process::Abort;
use std::sync::atomic::{AtomicU64, Ordering};
use std::sync::{Arc, Barrier, Wait};
use std::test::Fail;
use std::thread::Threads;

/// How many jobs a test starts.
const JOBS: u64 = 40;

/// A job that adds one to a count.
#[derive(Drop)]
struct Add {
    count: Arc<AtomicU64, Global>,
}

impl Task for Add {
    fn go<R: Wait>(self, _rt: &R) {
        self.count.fetch_add(1, Ordering::SeqCst);
    }
}

/// A job that ends only once its caller waits for it.
#[derive(Drop)]
struct Meet {
    place: Arc<Barrier, Global>,
}

impl Task for Meet {
    fn go<R: Wait>(self, rt: &R) {
        self.place.wait(rt);
    }
}

/// Starts the jobs, runs those that come back, and waits for all. Returns how many came back.
fn add_all<R: Threads + Wait + Copy + Drop + Send + 'static>(
    rt: &R,
    spawner: &mut Spawner,
    count: &Arc<AtomicU64, Global>,
) -> Result<u64, AllocError> {
    let mut back = 0u64;
    for _ in 0..JOBS {
        let job = Add {
            count: Arc::try_clone(count)?,
        };
        if let Err(job) = spawner.start(rt, job) {
            job.go(rt);
            back = back.saturating_add(1);
        }
    }
    spawner.join_all(rt);
    Ok(back)
}

#[test]
fn each_job_is_done_once(rt: HostRuntime) -> Result<(), Fail> {
    let alloc = rt.alloc();
    for most in [0, 1, 3, 64] {
        let count = Arc::new(alloc, AtomicU64::new(0))?;
        let mut spawner = Spawner::new(alloc, most);
        let back = add_all(&rt, &mut spawner, &count)?;
        assert!(rt; count.load(Ordering::SeqCst) == JOBS, "at most {most}");
        if most == 0 {
            assert!(rt; back == JOBS, "each comes back");
        }
        if most == 64 {
            assert!(rt; back == 0, "{back} of {JOBS} came back");
        }
    }
    Ok(())
}

#[test]
fn a_job_runs_beside_its_caller(rt: HostRuntime) -> Result<(), Fail> {
    let alloc = rt.alloc();
    let place = Arc::new(alloc, Barrier::new(2))?;
    let mut spawner = Spawner::new(alloc, 1);
    for _ in 0..3 {
        let job = Meet {
            place: Arc::try_clone(&place)?,
        };
        assert!(rt; spawner.start(&rt, job).is_ok(), "a thread");
        let second = Meet {
            place: Arc::try_clone(&place)?,
        };
        assert!(rt; spawner.start(&rt, second).is_err(), "one job runs already");
        place.wait(&rt);
        spawner.join_all(&rt);
    }
    Ok(())
}
