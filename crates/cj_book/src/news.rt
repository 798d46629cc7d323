//! What is told of a history where answers are kept: how far it goes, and what its last entries touch.

ghost use Rattle.std.specs.Prelude.{◌≡◌, ◌<◌, ◌≤◌, ◌+◌, ◌⊎◌, length, IfOk, IfSome, IsNone};
ghost use Rattle.cj_cluster.specs.History.Histories.{log};
ghost use Rattle.cj_book.specs.declared.news.TheConstants.{NEWS_LIMIT};
ghost use Rattle.cj_book.specs.News.{AreTouchedFrom, IsHeard, IsNewsFrom};

use crate::book::Book;
use cj_model::{NoMemory, TableSet};

/// The most entries of which news tell what they touch.
pub const NEWS_LIMIT: u64 = 256;

/// How far a history goes, and which backends are enabled in it.
#[derive(Clone, Copy)]
pub struct Heard {
    pub events: u64,
    pub entries: u64,
    /// How many of the entries have ended.
    pub ended: u64,
    /// The mask of the enabled backends.
    pub enabled: u32,
}

/// What is told of a history where its first `from` entries are known.
#[derive(Drop)]
pub struct News {
    pub heard: Heard,
    pub from: u64,
    /// The tables that each entry after those touches. None where there are more than `NEWS_LIMIT` such entries.
    pub touched: Option<Vec<TableSet>>,
}

impl Book {
    /// Returns how far the history goes, and which backends are enabled.
    pub fn heard(&self) -> Heard
        ensures { IsHeard self.now.state.history result }
    {
        Heard {
            events: self.events(),
            entries: self.length(),
            ended: self.ended_count(),
            enabled: self.enabled(),
        }
    }

    /// Returns what is to be told where the first `from` entries are known. Which tables the others touch is left out
    /// where there are more than `NEWS_LIMIT` of them, or where the log has fewer than `from`.
    pub fn news(&self, from: u64) -> Result<News, NoMemory>
        ensures news { IfOk result (IsNewsFrom self.now.state.history from) }
        ensures left_out { IfOk result (λ news. IsNone news.touched → (length (log self.now.state.history) < from) ⊎ (from + NEWS_LIMIT < length (log self.now.state.history))) }
    {
        Ok(News {
            heard: self.heard(),
            from,
            touched: self.touched_from(from)?,
        })
    }

    /// Returns the tables that each entry after the first `from` touches. None where `news` leaves that out.
    fn touched_from(&self, from: u64) -> Result<Option<Vec<TableSet>>, NoMemory>
        ensures touched { IfOk result (λ touched. IfSome touched (λ sets. AreTouchedFrom (log self.now.state.history) from sets.items)) }
        ensures left_out { IfOk result (λ touched. IsNone touched → (length (log self.now.state.history) < from) ⊎ (from + NEWS_LIMIT < length (log self.now.state.history))) }
    {
        let length = self.length();
        if from > length || length - from > NEWS_LIMIT {
            return Ok(None);
        }
        let touched = self.touched_between(from, length)?;
        Ok(Some(touched))
    }

    /// Returns the tables that each of the entries after the first `from` touches, up to the log's end, which is `end`.
    fn touched_between(&self, from: u64, end: u64) -> Result<Vec<TableSet>, NoMemory>
        requires within { from ≤ end }
        requires end { end ≡ length (log self.now.state.history) }
        ensures { IfOk result (λ sets. AreTouchedFrom (log self.now.state.history) from sets.items) }
    {
        let mut touched = Vec::new(self.alloc);
        for n in from..end {
            touched.push(self.touched_by(n)?)?;
        }
        Ok(touched)
    }
}
