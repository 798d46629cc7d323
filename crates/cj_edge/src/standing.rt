//! What is at the path of a store.

ghost use Rattle.std.specs.Io.{ReadsAtMost};

use cj_outside::MOST;
use std::fs::{File, OpenOptions};
use std::io::{self, ErrorKind};
use std::os::unix::fs::FileExt;
use std::path::Path;
use std::rt::Files;

/// The most bytes of a write that are first looked for in the file.
const LOOKED_FOR: usize = 64;

/// What is at the path of a store.
#[derive(Drop)]
pub enum Standing {
    /// A file to be read and written.
    Written(LockedFile),
    /// A file to be read alone.
    Read(File),
    /// A file to be read, which is opened for writing only if a write would change it.
    Listed(File),
    /// No file yet. The first write makes it.
    Missing,
    /// A file that can't be opened, or a store that may have none. Each call fails with this error.
    Refused(io::Error),
}

impl Standing {
    /// Returns what was opened. An error is one of each later call.
    pub fn of(opened: io::Result<Standing>) -> Standing {
        match opened {
            Ok(standing) => standing,
            Err(error) => Standing::Refused(error),
        }
    }

    /// Returns what was opened. A file that isn't there is made by the first write, and any other
    /// error is one of each later call.
    pub fn of_made_later(opened: io::Result<Standing>) -> Standing {
        match opened {
            Err(error) if error.kind() == ErrorKind::NotFound => Standing::Missing,
            other => Standing::of(other),
        }
    }

    fn file(&self) -> io::Result<Option<&File>> {
        match self {
            Standing::Written(locked) => Ok(Some(&locked.file)),
            Standing::Read(file) | Standing::Listed(file) => Ok(Some(file)),
            Standing::Missing => Ok(None),
            Standing::Refused(error) => Err(*error),
        }
    }

    /// Returns the length of the file, or 0 if there is none yet.
    pub fn len(&self) -> io::Result<u64> {
        match self.file()? {
            Some(file) => len_of(file),
            None => Ok(0),
        }
    }

    /// Reads bytes at `at` and returns how many; none from `MOST` on, or if there is no file yet.
    pub fn read_at(&self, at: u64, buf: &mut [u8]) -> io::Result<usize>
        ensures bound { ReadsAtMost result buf.new }
    {
        match self.file()? {
            Some(file) if at < MOST => file.read_at(buf, at),
            // No byte of a store is there.
            _ => Ok(0),
        }
    }

    /// Brings what was written to the disk.
    pub fn sync(&self) -> io::Result<()> {
        match self.file()? {
            Some(file) => file.sync_data(),
            None => Ok(()),
        }
    }
}

/// A file that is read and written, and locked as long as it is open. A file that another program
/// has locked isn't opened.
#[derive(Drop)]
pub struct LockedFile {
    file: File,
    /// Whether the folder is known to keep the file's name. A crash may have lost that of a file
    /// without bytes.
    is_kept: bool,
}

impl LockedFile {
    /// Opens and locks the file.
    pub fn open(rt: &impl Files<File = File>, path: &str) -> io::Result<LockedFile> {
        let file = OpenOptions::new().read(true).write(true).open(rt, path)?;
        LockedFile::lock(file)
    }

    /// Makes and locks the file. An error if something is at the path already.
    pub fn make(rt: &impl Files<File = File>, path: &str) -> io::Result<LockedFile> {
        let file = OpenOptions::new()
            .read(true)
            .write(true)
            .create_new(true)
            .open(rt, path)?;
        LockedFile::lock(file)
    }

    fn lock(file: File) -> io::Result<LockedFile> {
        file.try_lock()?;
        let is_kept = file.metadata()?.len() > 0;
        Ok(LockedFile { file, is_kept })
    }

    /// Writes the bytes at `at`. Before the first bytes of a file, the folder is made to keep the
    /// file's name.
    pub fn write_at(
        &mut self,
        rt: &impl Files<File = File>,
        path: &str,
        at: u64,
        bytes: &[u8],
    ) -> io::Result<()> {
        if !self.is_kept {
            File::open(rt, folder(path))?.sync_all()?;
            self.is_kept = true;
        }
        self.file.write_all_at(bytes, at)
    }
}

/// Returns the length of a regular file. Anything else, as a pipe or a folder, is an error.
fn len_of(file: &File) -> io::Result<u64> {
    let found = file.metadata()?;
    if !found.is_file() {
        return Err(ErrorKind::Unsupported.into());
    }
    Ok(found.len())
}

/// Whether the file has these bytes at `at`. More bytes than `LOOKED_FOR` are not looked for, and
/// the answer is no.
pub fn has_bytes_at(file: &File, at: u64, bytes: &[u8]) -> bool {
    let mut buf = [0u8; LOOKED_FOR];
    match buf.get_mut(..bytes.len()) {
        Some(found) => file.read_exact_at(found, at).is_ok() && *found == *bytes,
        None => false,
    }
}

fn folder(path: &str) -> &str {
    match Path::new(path).parent() {
        Some(folder) if !folder.as_str().is_empty() => folder.as_str(),
        _ => ".",
    }
}
