//! The standard streams that the program was started without.

use std::fs::{File, OpenOptions};
use std::io;
use std::os::fd::{AsRawFd, IntoRawFd};
use std::rt::Files;

/// The numbers of the standard streams are those below this one.
const FIRST_OTHER: i32 = 3;

/// Opens `/dev/null` in place of each standard stream that is closed, for the whole life of the
/// program. Call it before any file is opened. A file takes the least free number, and would be
/// read and written as that stream.
///
/// A stream that was closed then reads as empty, and what is written to it is lost. After an error
/// some streams may still be closed, so no file may be opened.
pub fn fill_standard_streams(rt: &impl Files<File = File>) -> io::Result<()> {
    for _ in 0..=FIRST_OTHER {
        let file = OpenOptions::new()
            .read(true)
            .write(true)
            .open(rt, "/dev/null")?;
        if file.as_raw_fd() >= FIRST_OTHER {
            return Ok(());
        }
        // The number alone is let go, and the file stays open.
        file.into_raw_fd();
    }
    Ok(())
}
