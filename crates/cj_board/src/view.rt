// What a seat at the board knows. Views exist in proofs alone: no value of these types is made.
use cj_cluster::Event;
use std::collections::LinkedList;

pub enum Role {
    /// The book's seat, and how many cells have been made.
    Book(u64),
    /// The seat of a backend's cell: the backend and its position.
    Cell(u64, u64),
    /// The seat of a pass.
    Pass,
}

pub struct SeatView {
    pub role: Role,
    /// The beginning of the history that this seat has seen.
    pub front: LinkedList<Event>,
    /// The fronts of the two seats of the last join.
    pub front_before: LinkedList<Event>,
    pub front_joined: LinkedList<Event>,
    /// Backends with positions that they had.
    pub position_notes: LinkedList<(u64, u64)>,
    /// Backends with numbers of faults that they had.
    pub fault_notes: LinkedList<(u64, u64)>,
    /// Sessions with counts that their own passes had.
    pub count_notes: LinkedList<(u64, u64)>,
    /// A backend for each of its faults that no event of the history has told of.
    pub fault_tokens: LinkedList<u64>,
    /// Of a cell: the fault word of its backend.
    pub faults: u64,
    /// Of an own pass: its session, else 0; and the count.
    pub own_session: u64,
    pub count: u64,
    /// Of the book: the sessions that have an own pass, and the last session that was given one.
    pub given: LinkedList<u64>,
    pub last_given: u64,
    /// Backends with their position words as they were looked up.
    pub looks: LinkedList<(u64, u64)>,
}
