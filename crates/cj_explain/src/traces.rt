//! What is told of an end, found in what the run left behind.

use crate::noted::Notes;
use std::io::ErrorKind;

/// What a run left behind.
#[derive(Drop)]
pub struct Traces<'a> {
    /// The words after the program's name.
    pub words: &'a [String],
    /// What it took last of its input.
    pub input: &'a Notes,
    /// N, if it wrote `line N` to the errors.
    pub line: Option<u64>,
    /// How the configuration's file failed, if it is known that it did.
    pub conf: Option<ErrorKind>,
    /// The same for the recovery log's file.
    pub log: Option<ErrorKind>,
    /// The same for the file of the dumps.
    pub dumps: Option<ErrorKind>,
    /// Whether the dumps were read. They are read only once the log was accepted.
    pub has_read_dumps: bool,
}

fn conf_cause(kind: ErrorKind) -> &'static str {
    match kind {
        ErrorKind::NotFound => "conf missing",
        ErrorKind::PermissionDenied => "conf denied",
        ErrorKind::IsADirectory | ErrorKind::NotADirectory | ErrorKind::Unsupported =>
            "conf not regular",
        _ => "conf failed",
    }
}

/// What is told of the file of the recovery log, and of that of the dumps.
fn store_causes(kind: ErrorKind) -> (&'static str, &'static str) {
    match kind {
        ErrorKind::PermissionDenied | ErrorKind::ReadOnlyFilesystem => (
            "log denied",
            "dumps denied",
        ),
        ErrorKind::WouldBlock => ("log used", "dumps used"),
        ErrorKind::IsADirectory | ErrorKind::NotADirectory | ErrorKind::Unsupported => (
            "log not regular",
            "dumps not regular",
        ),
        ErrorKind::StorageFull | ErrorKind::QuotaExceeded => ("log full", "dumps full"),
        _ => ("log failed", "dumps failed"),
    }
}

impl Traces<'_> {
    /// Names the first file that failed. A file is used only if those before it didn't fail.
    fn file_cause(&self) -> &'static str {
        match (self.conf, self.log, self.dumps) {
            (Some(kind), _, _) => conf_cause(kind),
            (None, Some(kind), _) => store_causes(kind).0,
            (None, None, Some(kind)) => store_causes(kind).1,
            (None, None, None) => "",
        }
    }

    /// Whether the command lists the log.
    fn lists_log(&self) -> bool {
        self.words
            .first()
            .is_some_and(|word| word.as_str() == "log")
    }

    /// Returns what the line is about that is told at this status, as `LINES` has it.
    pub(crate) fn cause(&self, status: u8) -> &str {
        match status {
            4 if self.input.has_ended() => "cut",
            7 => self.file_cause(),
            8 if self.lists_log() => "listing",
            8 if self.has_read_dumps => "dumps",
            10 => match self.line {
                Some(number) => self.input.cause_of_line(number),
                None => "a lost line",
            },
            _ => "",
        }
    }
}
