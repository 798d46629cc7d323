//! What is kept in memory of a dump.

ghost use Rattle.std.specs.Prelude.{◌≡◌};
ghost use Rattle.cj_shelf.specs.Shelves.{is_shelved};
ghost use Rattle.cj_shelf.specs.Proving.{labelled, IsFirstPlace};

use cj_model::Name;

/// The name of a dump, and the offset of the gate of its record.
#[derive(Drop)]
pub struct Label {
    pub name: Name,
    pub at: u64,
}

/// Returns the index of the first label with the name, or `None` if no label has it.
pub fn place_of(labels: &[Label], name: &Name) -> Option<usize>
    ensures { IsFirstPlace name.now (labelled labels.now) result }
{
    for (place, label) in labels.iter().enumerate() {
        if label.name.is(name) {
            return Some(place);
        }
    }
    None
}

/// Whether a label has the name.
#[tactic(auto, using(crate::proofs::Looked::place_tells))]
pub fn is_shelved(labels: &[Label], name: &Name) -> bool
    ensures { result ≡ is_shelved name.now (labelled labels.now) }
{
    place_of(labels, name).is_some()
}
