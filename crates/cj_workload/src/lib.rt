//! The workload of the command `gen`: statements drawn from a seed, which one session asks for over a world. Between
//! them backends fail and are brought back from a dump. At the end comes a summary.
//!
//! Promised (`PlaysWorkload`, specs/Summaries.antt): a summary comes only of the rounds that seed and count fix.
//! Each statement is answered as by one database. No backend ran out of memory, and the log's store didn't fail.
//! Moves leave the result cache. The figures are those of the world at the end (`IsSummary`).
//!
//! To change a statement: src/statements.rt and specs/Statements.antt. To change a round: src/playing.rt and
//! src/moving.rt, with specs/Workloads.antt. To add a figure: src/summary.rt and `IsSummary`, then docs/FORMATS.md.
//!
//! Proofs begin at proofs/playing/rounds and proofs/playing/play. Moves and turns keep what `KeepsSolo` says
//! (specs/Proving/Keeping.antt; proofs/Kept.antt, proofs/Turned.antt). The figures are in proofs/summary/sum_up.
#![tactic(auto)]

mod asking;
mod moving;
mod playing;
mod statements;
mod summary;

pub use playing::{WorkloadError, play};
pub use summary::Summary;
