//! Values edited in place.

ghost use Rattle.std.specs.Prelude.{◌≡◌, Bool, true};

/// A function that edits a value in place, or says that its pair goes. It can't fail, so it must not allocate.
pub trait Edit<V> {
    /// Whether a value stays.
    ghost stays: { Self → V → Bool };

    /// The value that the edit makes of one that stays.
    ghost edited: { Self → V → V };

    fn edit(&self, value: &mut V) -> bool
        ensures stays { result ≡ stays self.now value.old }
        ensures edited { result ≡ true → value.new ≡ edited self.now value.old };
}
