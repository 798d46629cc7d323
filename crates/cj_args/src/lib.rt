//! The words after the program's name: what they ask for, and the texts of help and version.
//!
//! Promised: `read` finds what the words ask for (`AsksCommand`) and nothing else, and words ask for at most one thing
//! (`laws`). The texts of help have no contract; `cj_run_tests` looks at them.
//! To change a command: its words are in `reading.rt` and `specs/Words`, the options of `gen` in `parts.rt`, and its
//! help in `texts.rt`.
//! To read: `specs/Words`; `specs/Proving` says how the code reads. Proofs begin in `proofs/PartWords`, then
//! `proofs/Workloads` and `proofs/Asking`.
#![tactic(auto)]

mod asked;
mod conf;
mod laws;
mod numbers;
mod parts;
mod reading;
mod texts;

pub use asked::{Asked, Command, Topic, Verb};
pub use conf::ConfPath;
pub use laws::words_ask_for_one_thing;
pub use numbers::DIGIT_LIMIT;
pub use parts::COUNT_LIMIT;
pub use reading::{address_word, conf_word, read};
pub use texts::{help_text, version_text};
