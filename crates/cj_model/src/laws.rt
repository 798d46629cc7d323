//! Laws of the definitions, each the contract of a function that does nothing.

ghost use Rattle.std.specs.Prelude.{◌≡◌, List, ℕ};
ghost use Rattle.cj_model.specs.declared.message.Message.{Message};
ghost use Rattle.cj_model.specs.Wire.Frames.{Frames, FaultsStay};

/// Bytes read as frames in one way at most: one list of messages, and one rest.
pub fn bytes_have_one_reading()
    ensures { (bytes rest more : List ℕ) (ms ns : List Message) → Frames bytes ms rest → Frames bytes ns more → (ms ≡ ns) × (rest ≡ more) }
{}

/// A faulty rest keeps its fault whatever bytes come after it, and never becomes a frame.
pub fn frame_faults_stay()
    ensures { FaultsStay }
{}
