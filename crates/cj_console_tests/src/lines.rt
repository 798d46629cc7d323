//! Lines that are no commands, and how a console ends.

use crate::clusters::{NO_FAULTS, play};
use crate::steps::{Chat, Row, Step};
use cj_console::ConsoleEnd;
use cj_model::NoMemory;
use cj_test_setup::replicated;
use std::alloc::Global;
use std::test::Fail;

/// A console over streams that don't fail, and that takes its whole input.
const ALL_TAKEN: Chat<'static> = Chat {
    input: b"",
    output: b"",
    read_fails: 0,
    write_fails: 0,
    end: ConsoleEnd::Eof,
};

/// So many letters.
fn letters(alloc: Global, count: u64) -> Result<Vec<u8>, NoMemory> {
    let mut letters = Vec::new(alloc);
    for _ in 0..count {
        letters.push(b'a')?;
    }
    Ok(letters)
}

#[test]
fn a_line_that_is_no_command_changes_nothing(rt: HostRuntime) -> Result<(), Fail> {
    let alloc = rt.alloc();
    let rows: [Row<'_>; 21] = [
        ("", "refused Command\n"),
        (" ", "refused Command\n"),
        ("show", "refused Command\n"),
        ("show  backends", "refused Command\n"),
        ("show backends ", "refused Command\n"),
        (" show backends", "refused Command\n"),
        ("audit\r", "refused Command\n"),
        ("Audit", "refused Command\n"),
        ("quit now", "refused Command\n"),
        ("show log 1", "refused Command\n"),
        ("show log 01 2", "refused Command\n"),
        ("show log 1 +2", "refused Command\n"),
        ("show log 1 18446744073709551616", "refused Command\n"),
        ("abort", "refused Command\n"),
        ("checkpoint 1c", "refused Command\n"),
        ("checkpoint C", "refused Command\n"),
        ("disable", "refused Command\n"),
        ("disable ", "refused Command\n"),
        ("disable b1 d", "refused Command\n"),
        ("backup b1", "refused Command\n"),
        ("enable b9 D", "refused Command\n"),
    ];
    let unknown: [Row<'_>; 6] = [
        ("disable b9", "refused Backend\n"),
        ("enable b9", "refused Backend\n"),
        ("enable b9 d", "refused Backend\n"),
        ("backup b9 d", "refused Backend\n"),
        ("disable B1", "refused Backend\n"),
        ("show log 0 18446744073709551615", ""),
    ];
    let steps = [Step::Rows(&rows), Step::Rows(&unknown)];
    play(&rt, alloc, replicated(alloc), NO_FAULTS, &steps)?;
    Ok(())
}

#[test]
fn bytes_that_are_no_text_and_long_lines_are_no_commands(rt: HostRuntime) -> Result<(), Fail> {
    let alloc = rt.alloc();
    let mut both = letters(alloc, 65_537)?;
    both.extend_from_slice(b"\nshow cache\n")?;
    both.extend_from_slice(&letters(alloc, 65_536)?)?;
    let steps = [
        Step::Chat(Chat {
            input: b"\xff\xfe\naud\x00it\n",
            output: b"refused Command\nrefused Command\n",
            ..ALL_TAKEN
        }),
        Step::Chat(Chat {
            input: &both,
            output: b"refused Command\nhits=0 misses=0\nrefused Command\n",
            ..ALL_TAKEN
        }),
    ];
    play(&rt, alloc, replicated(alloc), NO_FAULTS, &steps)?;
    Ok(())
}

#[test]
fn a_console_ends_with_its_source_or_at_quit(rt: HostRuntime) -> Result<(), Fail> {
    let alloc = rt.alloc();
    let steps = [
        Step::Chat(ALL_TAKEN),
        Step::Chat(Chat {
            input: b"checkpoint c\nshow cac",
            output: b"ok 0\nrefused Command\n",
            ..ALL_TAKEN
        }),
        Step::Chat(Chat {
            input: b"show cache\nshow cache",
            output: b"hits=0 misses=0\nhits=0 misses=0\n",
            ..ALL_TAKEN
        }),
        Step::Chat(Chat {
            input: b"checkpoint d\nquit\ncheckpoint e\n",
            output: b"ok 0\nok\n",
            end: ConsoleEnd::Quit,
            ..ALL_TAKEN
        }),
        Step::Rows(&[("checkpoint e", "ok 0\n")]),
        Step::Chat(Chat {
            input: b"quit",
            output: b"ok\n",
            end: ConsoleEnd::Quit,
            ..ALL_TAKEN
        }),
    ];
    play(&rt, alloc, replicated(alloc), NO_FAULTS, &steps)?;
    Ok(())
}

/// What was carried out stays, and is carried out once.
#[test]
fn a_stream_that_fails_ends_the_console(rt: HostRuntime) -> Result<(), Fail> {
    let alloc = rt.alloc();
    let steps = [
        Step::Chat(Chat {
            input: b"checkpoint c\ncheckpoint d\n",
            output: b"ok 0\nok 0\n",
            read_fails: 2,
            end: ConsoleEnd::ReadFault,
            ..ALL_TAKEN
        }),
        Step::Chat(Chat {
            input: b"checkpoint e\ncheckpoint f\ncheckpoint g\n",
            output: b"ok 0\n",
            write_fails: 2,
            end: ConsoleEnd::WriteFault,
            ..ALL_TAKEN
        }),
        Step::Rows(&[
            ("checkpoint d", "refused NameTaken\n"),
            ("checkpoint f", "refused NameTaken\n"),
            ("checkpoint g", "ok 0\n"),
        ]),
    ];
    play(&rt, alloc, replicated(alloc), NO_FAULTS, &steps)?;
    Ok(())
}
