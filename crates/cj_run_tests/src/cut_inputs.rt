//! Inputs that end early.

use crate::handed::{
    C1, CREATE, DONE_0, DONE_2, INSERT_TWO, SELECT_FALLING, TWO_ROWS, accepted, check_pipe, session,
};
use std::process::Abort;
use std::test::Fail;

/// The worked session: its input is 149 bytes, and its replies are 86.
const WORKED: [&str; 3] = [CREATE, INSERT_TWO, SELECT_FALLING];

/// What is written of the worked session's replies, and the status, if only so many bytes of its
/// input come, fewer than all.
fn written_of(count: usize) -> (usize, u8) {
    match count {
        0 => (0, 0),
        1..=17 => (0, 4),
        18 => (13, 0),
        19..=68 => (13, 4),
        69 => (26, 0),
        70..=112 => (26, 4),
        113 => (39, 0),
        _ => (39, 4),
    }
}

#[test]
fn a_cut_loses_nothing_that_was_answered(rt: HostRuntime) -> Result<(), Fail> {
    let alloc = rt.alloc();
    let input = session(alloc, &WORKED)?;
    assert_eq!(rt; input.len(), 149);
    let output = accepted(alloc, &[DONE_0, DONE_2, TWO_ROWS])?;
    for count in 0..input.len() {
        let (cut, _) = input.split_at(count);
        let (length, status) = written_of(count);
        let Some(written) = output.get(..length) else {
            panic!(&rt; "after {count} bytes")
        };
        check_pipe(&rt, C1, cut, written, status)?;
    }
    check_pipe(&rt, C1, &input, &output, 0)
}
