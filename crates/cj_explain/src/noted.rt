//! Notes of what a run took from its input and wrote to its errors.

ghost use Rattle.std.specs.Prelude.{◌≡◌};

use cj_outside::{Failed, LINE_LIMIT, OutError, Sink, Source};
use std::alloc::Global;
use std::marker::Model;

fn count_lines(bytes: &[u8]) -> u64 {
    bytes.iter().filter(|b| **b == b'\n').count() as u64
}

fn first_word(line: &[u8]) -> &str {
    let word = match line.iter().position(|b| *b == b' ') {
        Some(at) => &line[..at],
        None => line,
    };
    std::str::from_utf8(word).unwrap_or("")
}

/// The last pieces of a stream of lines.
#[derive(Drop)]
pub struct Notes {
    /// Whether the last piece was empty, as at the end of an input.
    has_ended: bool,
    /// How many lines came before those that are kept.
    dropped: u64,
    /// The lines of the last piece, whole. The last one may go on, and is cut if it is longer than a line may be.
    lines: Vec<u8>,
    /// Whether memory ran out for the lines.
    is_lost: bool,
}

impl Notes {
    fn new(alloc: Global) -> Notes {
        Notes {
            has_ended: false,
            dropped: 0,
            lines: Vec::new(alloc),
            is_lost: false,
        }
    }

    pub(crate) fn has_ended(&self) -> bool {
        self.has_ended
    }

    /// Drops the lines that have ended. More of a script is taken only after these were played.
    fn drop_lines(&mut self) {
        let Some(last) = self.lines.iter().rposition(|b| *b == b'\n') else {
            return;
        };
        let begun = last + 1;
        let ended = count_lines(&self.lines[..begun]);
        self.dropped = self.dropped.saturating_add(ended);
        let left = self.lines.len() - begun;
        self.lines.copy_within(begun.., 0);
        self.lines.truncate(left);
    }

    fn add(&mut self, piece: &[u8]) {
        self.has_ended = piece.is_empty();
        self.drop_lines();
        // A line that is too long already needs no more bytes.
        if self.lines.len() <= LINE_LIMIT && self.lines.extend_from_slice(piece).is_err() {
            self.is_lost = true;
        }
    }

    fn line(&self, number: u64) -> Option<&[u8]> {
        if self.is_lost {
            return None;
        }
        let at = number.checked_sub(self.dropped)?.checked_sub(1)?;
        self.lines.split(|b| *b == b'\n').nth(at as usize)
    }

    /// Returns what a row of the table is about that says what is wrong with the line of this number, from 1.
    pub(crate) fn cause_of_line(&self, number: u64) -> &str {
        match self.line(number) {
            None => "a lost line",
            Some(line) if line.len() > LINE_LIMIT => "a long line",
            Some(line) => first_word(line),
        }
    }

    /// Returns N if the lines that are kept are `line N`.
    pub fn number(&self) -> Option<u64> {
        let text = std::str::from_utf8(self.lines.as_slice()).ok()?;
        let number = text.strip_prefix("line ")?.strip_suffix('\n')?;
        if self.is_lost {
            return None;
        }
        number.parse().ok()
    }
}

/// A source or a sink whose last pieces are noted. Contracts see the source or the sink itself.
#[derive(Drop)]
pub struct Noted<T> {
    inner: T,
    notes: Notes,
}

impl<T> Model for Noted<T> {
    ghost Value = { T };

    ghost view = { λ noted. noted.inner };
}

impl<T> Noted<T> {
    pub fn new(alloc: Global, inner: T) -> Noted<T>
        ensures { result ≡ inner }
    {
        Noted {
            inner,
            notes: Notes::new(alloc),
        }
    }

    pub fn inner(&self) -> &T
        ensures { result.now ≡ self.now }
    {
        &self.inner
    }

    pub fn notes(&self) -> &Notes {
        &self.notes
    }
}

impl<I: Source> Source for Noted<I> {
    ghost left = { λ noted. I.left noted };

    ghost faults = { λ noted. I.faults noted };

    fn take(&mut self, buf: &mut [u8]) -> Result<usize, Failed> {
        let count = self.inner.take(buf)?;
        self.notes.add(&buf[..count]);
        Ok(count)
    }
}

impl<O: Sink> Sink for Noted<O> {
    ghost held = { λ noted. O.held noted };

    ghost faults = { λ noted. O.faults noted };

    fn put(&mut self, piece: &[u8]) -> Result<usize, OutError> {
        let count = self.inner.put(piece)?;
        self.notes.add(&piece[..count]);
        Ok(count)
    }
}
