//! Where connections come from.

ghost use Rattle.std.specs.Prelude.{◌≡◌, ℕ, ◌+◌, IsErr, OnErr, OnOk};
ghost use Rattle.cj_outside.specs.Causes.{CountsFault};

use cj_outside::{Failed, Sink, Source};

/// An object that gives connections, one at a call. `R` is the handle that is passed to a call, for calls that wait.
///
/// A thread may own the two sides of a connection.
pub trait Port<R> {
    /// Where the bytes of the other side come from.
    type In: Source + Send + Drop + 'static;

    /// Where bytes for the other side go.
    type Out: Sink + Send + Drop + 'static;

    /// How many connections the port has given so far.
    ghost accepted: { Self → ℕ };

    /// How many faults the port has counted, up to 2^64 - 1.
    ghost faults: { Self → ℕ };

    /// Waits for the next connection, and gives its two sides.
    ///
    /// On `Failed` no connection is given. `Failed` counts one fault, and no other result does.
    fn accept(&mut self, rt: &R) -> Result<(Self::In, Self::Out), Failed>
        ensures given { OnOk result (accepted self.new ≡ accepted self.old + 1) }
        ensures none { OnErr result (accepted self.new ≡ accepted self.old) }
        ensures cause { CountsFault (IsErr result) (faults self.old) (faults self.new) };
}
