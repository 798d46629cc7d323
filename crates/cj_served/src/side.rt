//! Two sides of one work, each in a thread of its own.

use std::thread::{Threads, join_mut};

/// One side of two that go beside each other. What it borrows stands in it.
pub(crate) trait Side<R> {
    /// What it comes to.
    type End;

    ghost can_go: { Self → Type 0 };

    ghost goes: { Self → Self.End → Self → Type 0 };

    /// Does the whole work of the side.
    fn go(&mut self, rt: &R) -> Self::End
        requires can { can_go self.old }
        ensures goes { goes self.old result self.new };
}

/// Has a side go in a new thread, and calls the other meanwhile. Where no thread can be made, the side goes after the
/// call.
pub(crate) fn beside<R: Threads + Sync, X: Side<R, End = E> + Send, G: FnMut() -> F, E: Send, F>(
    rt: &R,
    side: &mut X,
    other: &mut G,
) -> (E, F)
    requires can { X.can_go side.old × G.pre other.old }
    ensures goes { X.goes side.old result.0 side.new × G.step other.old result.1 other.new }
{
    join_mut(
        rt,
        &mut ||
            requires { X.can_go side.now }
        { side.go(rt) },
        other,
    )
}
