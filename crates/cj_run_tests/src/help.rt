//! The texts of help.

use crate::handed::{Handed, sink};
use std::process::Abort;
use std::test::Fail;

/// Words, and how what they write begins.
const TEXTS: [(&str, &str); 6] = [
    ("--version", "cjc 0.1\n"),
    ("--help", "Several SQL databases as one\n"),
    ("pipe --help", "Serve one session of frames"),
    ("script --help", "Play the moves of standard input"),
    ("log --help", "List the recovery log\n"),
    ("gen --help", "Run a workload drawn from a seed"),
];

#[test]
fn texts_are_written_on_a_screen(rt: HostRuntime) -> Result<(), Fail> {
    let alloc = rt.alloc();
    for (words, first) in TEXTS {
        let mut handed = Handed::of(alloc, "no configuration", b"")?;
        assert_eq!(rt; handed.run(alloc, words)?, 0, "{words}");
        let text = handed.output();
        assert!(rt; text.starts_with(first.as_bytes()), "{words}");
        assert!(rt;
            text.iter().filter(|byte| **byte == b'\n').count() <= 24,
            "{words}"
        );
        assert_eq!(rt; handed.errors().len(), 0);
        handed.output = sink(alloc, &[1])?;
        assert_eq!(rt; handed.run(alloc, words)?, 6, "{words}");
    }
    Ok(())
}
