//! Laws of the definitions, each the contract of a function that does nothing.

ghost use Rattle.cj_codec.specs.Laws.{FieldsAreFormats, FieldsHaveOneReading, FieldsAreSpelled, FieldsHold};

/// What is written reads back, whatever follows it. What is read was written. Bytes are cut exactly where they end
/// inside a field. The law passes on to pairs, to values that meet a test, and to lists after their number
/// (`proofs/Formats`).
#[tactic(auto, using(crate::proofs::Fields::fields_law))]
pub fn fields_are_formats()
    ensures { FieldsAreFormats }
{}

/// Two values of one format whose bytes begin the same bytes are equal.
#[tactic(auto, using(crate::proofs::Fields::fields_once))]
pub fn fields_have_one_reading()
    ensures { FieldsHaveOneReading }
{}

/// The bytes of byte strings, names and values are those that frames and replies have.
#[tactic(auto, using(crate::proofs::Fields::fields_spelled))]
pub fn fields_are_spelled()
    ensures { FieldsAreSpelled }
{}

/// A name's field holds the names, and a value's field the values that are constants.
#[tactic(auto, using(crate::proofs::Held::fields_hold))]
pub fn fields_hold_names_and_constants()
    ensures { FieldsHold }
{}
