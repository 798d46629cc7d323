//! Masks, which have bit b for backend b.

ghost use Rattle.std.specs.Prelude.{◌≡◌, ◌↔◌, ◌≤◌, ◌<◌, ◌==◌, ℕ, nat_lt, IsTrue};
ghost use Rattle.cj_model.specs.Cluster.Masks.{in_mask};

use cj_model::BACKEND_LIMIT;

/// The mask of the first `count` backends, at most 16.
pub fn first_bits(count: usize) -> u32
    requires { count ≤ BACKEND_LIMIT }
    ensures { (c : ℕ) → in_mask result c ≡ nat_lt c count }
{
    (1 << count) - 1
}

/// Whether the mask has backend `b` and no other.
pub fn is_lone_bit(mask: u32, b: u8) -> bool
    requires { b < 32 }
    ensures { IsTrue result ↔ ((c : ℕ) → in_mask mask c ≡ (c == b)) }
{
    mask == 1 << b
}
