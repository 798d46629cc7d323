//! Masks of backends, which have bit b for backend b.

ghost use Rattle.std.specs.Prelude.{◌≡◌, ◌<◌, ◌==◌, ◌||◌, ℕ};
ghost use Rattle.cj_model.specs.Cluster.Masks.{in_mask, with_backend};

/// Whether the mask has backend `b`, which is below 32.
pub fn has_bit(mask: u32, b: u8) -> bool
    requires { b < 32 }
    ensures { result ≡ in_mask mask b }
{
    (mask >> b) & 1 == 1
}

/// The mask with backend `b`, below 32, added.
pub fn with_bit(mask: u32, b: u8) -> u32
    requires { b < 32 }
    ensures value { result ≡ with_backend mask b }
    ensures bits { (c : ℕ) → in_mask result c ≡ (in_mask mask c || c == b) }
{
    mask | (1 << b)
}
