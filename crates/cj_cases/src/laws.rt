//! A law of the definitions, the contract of a function that does nothing.

ghost use Rattle.std.specs.Prelude.{◌≡◌, ◌<◌, ℕ, List, Some, All};
ghost use Rattle.cj_cases.specs.Spellings.{shown_text, spelled};

/// The text that is shown for bytes spells them. So it can be put into a line that says them.
#[tactic(auto, using(crate::proofs::ShownBack::shown_back))]
pub fn shown_texts_spell_their_bytes()
    ensures { (bytes : List ℕ) → All (λ b. b < 256) bytes → spelled (shown_text bytes) ≡ Some bytes }
{}
