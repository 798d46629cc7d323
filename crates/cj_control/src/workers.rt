//! The workers: threads that carry out entries, one for each backend.

ghost use Rattle.std.specs.Prelude.{◌<◌, length};

use crate::control::Control;
use cj_backend::Backend;
use cj_outside::Store;
use cj_pass::Naming;
use cj_write_path::work;
use std::sync::Wait;

impl<J: Naming, B: Backend, S: Store + Drop> Control<J, B, S> {
    /// Says whether a thread does the work of the worker of backend `b` from now on. Without one, whoever writes an
    /// entry has that backend carry it out.
    pub fn man(&self, b: u8, has_worker: bool)
        requires below { b < length J.layout.names }
    {
        self.locks.lanes[b as usize].man(has_worker);
    }

    /// Does the work of the worker of backend `b`: has it carry out each entry that is posted to it, and reports that.
    /// The thread sleeps while there is none. It returns once the workers were stopped.
    pub fn work<R: Wait>(&self, rt: &R, b: u8)
        requires below { b < length J.layout.names }
    {
        work(&self.locks, rt, b);
    }

    /// Has each worker end, once it has carried out what was posted to it.
    pub fn stop_workers(&self) {
        for lane in &self.locks.lanes {
            lane.stop();
        }
    }
}
