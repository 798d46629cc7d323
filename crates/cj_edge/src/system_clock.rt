//! The system's clock.

ghost use Rattle.std.specs.Prelude.{None};

use cj_outside::Clock;
use std::time;

/// The system's clock, which doesn't tell contracts its moment. A clock that can't be read, or is
/// before 1970, shows 0.
#[derive(Drop)]
pub struct SystemClock<R> {
    rt: R,
}

impl<R> SystemClock<R> {
    /// Makes a clock that reads the host's.
    pub fn new(rt: R) -> SystemClock<R> {
        SystemClock { rt }
    }
}

impl<R: time::Clock> Clock for SystemClock<R> {
    ghost moment = { λ _. None };

    fn now(&self) -> i64 {
        match self.rt.since_1970() {
            Ok(since) => i64::try_from(since.as_secs()).unwrap_or(i64::MAX),
            Err(_) => 0,
        }
    }
}
