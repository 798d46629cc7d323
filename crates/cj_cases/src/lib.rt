//! Cases played from a text: each line says one thing of a case, and `run` runs a program on what was said so far.
//!
//! `play` reads the lines and writes what each run gave, both for a person to read (docs/ARCHITECTURE.md). The trait
//! `Runner` says what a run is.
//! Promised: the lines are played in order, a run is handed what its case says, and the text shows what the run gave.
//! Texts that are shown spell their bytes (`laws`).
//! To change: a new directive concerns `verb.rt`, `say.rt` and `specs/Lines`; what is shown of a run concerns
//! `show.rt` and `specs/Shown`.
//! To read: `specs/Cases`, then `specs/Lines` and `specs/Plays`. Proofs begin in `proofs/LineByLine`, then
//! `proofs/ShownBack`.
#![tactic(auto)]

mod case;
mod cut;
mod laws;
mod number;
mod pieces;
mod playing;
mod runner;
mod say;
mod show;
mod spelling;
mod verb;
mod words;

pub use case::Case;
pub use laws::shown_texts_spell_their_bytes;
pub use pieces::Pieces;
pub use playing::play;
pub use runner::{Outcome, Runner};
