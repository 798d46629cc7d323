//! The workers of the backends, each in a thread of its own.

ghost use Rattle.std.specs.Prelude.{◌≡◌, ◌≤◌, ◌<◌, false, length, IfOk, OnErr};
ghost use Rattle.cj_model.specs.declared.limits.TheConstants.{BACKEND_LIMIT};
ghost use Rattle.cj_outside.specs.Causes.{CountsFault};
ghost use Rattle.cj_serve.specs.Crews.{CountsMissing};

use cj_backend::Backend;
use cj_control::Control;
use cj_model::{NoMemory, with_bit};
use cj_outside::Store;
use cj_pass::Naming;
use cj_port::{Spawner, Task};
use std::alloc::Global;
use std::sync::{Arc, Wait};
use std::thread::Threads;

/// The work of the worker of one backend.
#[derive(Drop)]
struct Worker<J: Naming, B: Backend, S: Store> {
    control: Arc<Control<J, B, S>, Global>,
    b: u8,
    ghost below: { b < length J.layout.names },
}

impl<
    J: Naming + Send + Sync + 'static,
    B: Backend + Send + Drop + 'static,
    S: Store + Send + Drop + 'static,
> Task for Worker<J, B, S>
where
    B::Snap: Send + 'static,
{
    fn go<R: Wait>(self, rt: &R) {
        self.control.work(rt, self.b);
    }
}

/// Starts the worker of a backend. Returns whether there is a thread for it.
fn start_worker<
    J: Naming + Send + Sync + 'static,
    B: Backend + Send + Drop + 'static,
    S: Store + Send + Drop + 'static,
    R: Threads + Wait + Copy + Drop + Send + 'static,
>(rt: &R, spawner: &mut Spawner, worker: Worker<J, B, S>) -> bool
where
    B::Snap: Send + 'static,
    ensures counted { CountsFault (result ≡ false) spawner.old.refusals spawner.new.refusals }
{
    worker.control.man(worker.b, true);
    match spawner.start(rt, worker) {
        Ok(()) => true,
        Err(worker) => {
            worker.control.man(worker.b, false);
            false
        }
    }
}

/// Starts a worker for each backend, with these shares of the cluster.
fn start_each<
    J: Naming + Send + Sync + 'static,
    B: Backend + Send + Drop + 'static,
    S: Store + Send + Drop + 'static,
    R: Threads + Wait + Copy + Drop + Send + 'static,
>(rt: &R, spawner: &mut Spawner, mut shares: Vec<Arc<Control<J, B, S>, Global>>, count: u8) -> u32
where
    B::Snap: Send + 'static,
    requires as_many { length shares.items ≡ count }
    requires all { count ≡ length J.layout.names }
    requires few { count ≤ BACKEND_LIMIT }
    ensures missing { CountsMissing spawner.old.refusals spawner.new.refusals result count }
{
    let mut mask = 0;
    for b in 0..count {
        let Some(control) = shares.pop() else {
            unreachable!()
        };
        if start_worker(rt, spawner, Worker { control, b }) {
            mask = with_bit(mask, b);
        }
    }
    mask
}

/// Starts a worker for each backend, in a thread of its own, and returns the mask of the backends that have one. It is
/// called once at most. `Control::stop_workers` has them end.
///
/// A backend for which there is no thread has no worker, and the spawner counts a refusal. After `NoMemory` none was
/// started.
pub fn start_workers<
    J: Naming + Send + Sync + 'static,
    B: Backend + Send + Drop + 'static,
    S: Store + Send + Drop + 'static,
    R: Threads + Wait + Copy + Drop + Send + 'static,
>(
    rt: &R,
    alloc: Global,
    control: &Arc<Control<J, B, S>, Global>,
    spawner: &mut Spawner,
) -> Result<u32, NoMemory>
where
    B::Snap: Send + 'static,
    ensures missing { IfOk result (λ mask. CountsMissing spawner.old.refusals spawner.new.refusals mask (length J.layout.names)) }
    ensures none { OnErr result (spawner.new ≡ spawner.old) }
{
    let count = control.placement().count();
    let mut shares = Vec::with_capacity(alloc, count as usize)?;
    for _ in 0..count {
        shares.push_reserved(Arc::try_clone(control)?);
    }
    Ok(start_each(rt, spawner, shares, count))
}
