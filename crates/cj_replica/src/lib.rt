//! Cells: backends that follow the recovery log, each with a seat at a board.
//!
//! A `Replica` is a backend with its position in the log and the transactions begun there. A `Cell` is a replica at
//! its seat: the board learns each position and each fault.
//! Promised: a cell at position n holds its part of the database after n entries. That is said only of backends whose
//! contents contracts see. After an error in an entry the cell is out, until a dump is loaded.
//! To change: `carry_out` (`replica.rt`) has an arm for each act, and `cell.rt` has the steps of the seat.
//! To read: `specs/Cells` and `specs/Seated`. Proofs begin in `proofs/HeldParts`, then `proofs/SeatedCalls`.
#![tactic(auto)]

mod cell;
mod replica;
mod writers;

pub use cell::Cell;
pub use replica::{Caught, CellError, CellReadError, Replica};
