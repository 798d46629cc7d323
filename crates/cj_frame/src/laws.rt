//! Laws of the definitions, each the contract of a function that does nothing.

ghost use Rattle.cj_frame.specs.Feeding.{BytesHaveReadings, FeedsGiveReadings};

/// The law that the messages a feed gives, and the bytes it then holds, are the one reading of all bytes
/// fed.
#[tactic(auto, using(crate::proofs::Fed::feeds_are_readings))]
pub fn feeds_are_readings()
    ensures { FeedsGiveReadings }
{}

/// The law that all bytes have a reading. That they have only one is a law of `cj_model`.
#[tactic(auto, using(crate::proofs::Readings::bytes_have_readings))]
pub fn bytes_have_readings()
    ensures { BytesHaveReadings }
{}
