//! What a result cache keeps.

use crate::answer::Answer;
use crate::select::Select;

/// A kept answer: the SELECT, its rows, and the log position (a number of entries) at which it was answered.
#[derive(Drop)]
pub struct Cached {
    pub select: Select,
    pub answer: Answer,
    pub at: u64,
}
