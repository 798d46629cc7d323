//! The console of an administrator: each line that it takes is a command, and gets its answer.
//!
//! `console` composes calls of `cj_administration`, `reenable` (`cj_replay`) and `backup` (`cj_backup`), and takes no
//! lock itself. So sessions go on while a command is carried out.
//! Promised: each line up to the first `quit` gets its answer, in order, and what is written is the text of these
//! answers (`Chats`). Each answer has its cause in what the pass has seen then (`AnswersCommand`).
//! Not promised: the counts that `show cache` gives.
//! To change: which call a command makes is in `obeying.rt`, what is written for an answer in `texts.rt`.
//! To read: `specs/Answers`, `specs/Chats`, `specs/Texts`; `specs/Steps` has what only proofs need. Proofs begin in
//! `proofs/Chatting` (the loop) and `proofs/Answering` (a command).
#![tactic(auto)]

mod answer;
mod chat;
mod obeying;
mod shelved;
mod texts;

pub use answer::Answer;
pub use chat::{ConsoleEnd, console};
