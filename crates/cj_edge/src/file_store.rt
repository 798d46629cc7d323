//! A file as a store.

ghost use Rattle.std.specs.Prelude.{◌≡◌, ◌+◌, ◌≤◌, false, [], length, OnOk};
ghost use Rattle.cj_outside.specs.Causes.{next};
ghost use Rattle.cj_outside.specs.Streams.{most};

use crate::standing::{LockedFile, Standing, has_bytes_at};
use cj_outside::{Failed, MOST, OutError, Store, is_past_most};
use std::fs::File;
use std::io::{self, ErrorKind};
use std::rt::Files;

/// A file as a store. It tells nothing of its bytes or of crashes. It counts each error of the
/// system, an interrupted read among them.
///
/// A length above `MOST` is an error too. A file that is written is locked as long as the store is
/// open, against programs that lock it too.
#[derive(Drop)]
pub struct FileStore<R> {
    rt: R,
    path: String,
    standing: Standing,
    faults: u64,
    /// The kind of the last error of the system.
    cause: Option<ErrorKind>,
    is_read: bool,
}

impl<R: Files<File = File>> FileStore<R> {
    /// Opens the file at `path`, to read and write it.
    ///
    /// If there is no file, the store has no bytes, and the first write makes the file. That write
    /// fails if another program has made the file since. If the file can't be opened, or another
    /// program has locked it, each call fails.
    pub fn open(rt: R, path: String) -> FileStore<R> {
        let opened = LockedFile::open(&rt, path.as_str()).map(Standing::Written);
        FileStore::new(rt, path, Standing::of_made_later(opened))
    }

    /// Opens the file at `path`, to read it alone: each write fails. If the file can't be opened or
    /// isn't there, each call fails.
    pub fn open_to_read(rt: R, path: String) -> FileStore<R> {
        let opened = File::open(&rt, path.as_str()).map(Standing::Read);
        FileStore::new(rt, path, Standing::of(opened))
    }

    /// Opens the file at `path`, to read it, even if another program has locked it or it may not be
    /// written.
    ///
    /// Only a write that would change the file opens it as `open` does, and fails where that fails.
    /// If there is no file, the first write makes it.
    pub fn open_to_list(rt: R, path: String) -> FileStore<R> {
        let opened = File::open(&rt, path.as_str()).map(Standing::Listed);
        FileStore::new(rt, path, Standing::of_made_later(opened))
    }

    /// Makes a store without a file: each call fails, and none touches a file.
    pub fn none(rt: R, path: String) -> FileStore<R> {
        FileStore::new(rt, path, Standing::Refused(ErrorKind::Unsupported.into()))
    }

    fn new(rt: R, path: String, standing: Standing) -> FileStore<R> {
        FileStore {
            rt,
            path,
            standing,
            faults: 0,
            cause: None,
            is_read: false,
        }
    }

    /// Returns the kind of the last error: that of the last call that failed, or the one that each call meets since
    /// the file can't be opened. `None` if there was none.
    pub fn cause(&self) -> Option<ErrorKind> {
        match (self.cause, &self.standing) {
            (None, Standing::Refused(error)) => Some(error.kind()),
            (cause, _) => cause,
        }
    }

    /// Returns whether the store was asked for its length or for bytes.
    pub fn is_read(&self) -> bool {
        self.is_read
    }

    /// Opens the file for writing, or makes it, if these bytes at `at` would change it and it isn't
    /// open for that yet. Returns whether they have to be written.
    fn prepare(&mut self, at: u64, bytes: &[u8]) -> io::Result<bool>
        ensures faults { self.new.faults ≡ self.old.faults }
    {
        let locked = match &self.standing {
            Standing::Written(_) | Standing::Read(_) | Standing::Refused(_) => return Ok(true),
            Standing::Listed(file) if has_bytes_at(file, at, bytes) => return Ok(false),
            Standing::Listed(_) => LockedFile::open(&self.rt, self.path.as_str())?,
            Standing::Missing => LockedFile::make(&self.rt, self.path.as_str())?,
        };
        self.standing = Standing::Written(locked);
        Ok(true)
    }

    fn write(&mut self, at: u64, bytes: &[u8]) -> io::Result<()>
        ensures limit { OnOk result (at + length bytes.now ≤ most) }
        ensures faults { self.new.faults ≡ self.old.faults }
    {
        if is_past_most(at, bytes.len()) {
            return Err(ErrorKind::FileTooLarge.into());
        }
        if !self.prepare(at, bytes)? {
            return Ok(());
        }
        match &mut self.standing {
            Standing::Written(locked) => {
                locked.write_at(&self.rt, self.path.as_str(), at, bytes)
            }
            Standing::Refused(error) => Err(*error),
            Standing::Read(_) | Standing::Listed(_) | Standing::Missing => {
                Err(ErrorKind::ReadOnlyFilesystem.into())
            }
        }
    }

    fn count_fault(&mut self, cause: ErrorKind)
        ensures { self.new.faults ≡ next self.old.faults }
    {
        self.faults = self.faults.saturating_add(1);
        self.cause = Some(cause);
    }
}

impl<R: Files<File = File>> Store for FileStore<R> {
    ghost use Rattle.cj_outside.specs.Stores.{no_moment, no_image, no_past};

    ghost tells = { false };

    ghost has_disk = { false };

    ghost held = { λ _. [] };

    ghost faults = { λ s. s.faults };

    ghost moment = { no_moment };

    ghost may = { no_image };

    ghost since = { no_past };

    ghost stands = { λ s e. Prim.cc };

    ghost counts_now = { λ s t image le now. now };

    ghost only_now = { λ s image left. left };

    fn len(&mut self) -> Result<u64, Failed> {
        self.is_read = true;
        match self.standing.len() {
            Ok(len) if len <= MOST => Ok(len),
            Ok(_) => {
                self.count_fault(ErrorKind::FileTooLarge);
                Err(Failed)
            }
            Err(error) => {
                self.count_fault(error.kind());
                Err(Failed)
            }
        }
    }

    fn read_at(&mut self, at: u64, buf: &mut [u8]) -> Result<usize, Failed> {
        self.is_read = true;
        match self.standing.read_at(at, buf) {
            Ok(count) => Ok(count),
            Err(error) => {
                self.count_fault(error.kind());
                Err(Failed)
            }
        }
    }

    fn write_at(&mut self, at: u64, bytes: &[u8]) -> Result<(), OutError> {
        match self.write(at, bytes) {
            Ok(()) => Ok(()),
            Err(error) => {
                self.count_fault(error.kind());
                Err(OutError::Failed)
            }
        }
    }

    fn sync(&mut self) -> Result<(), Failed> {
        match self.standing.sync() {
            Ok(()) => Ok(()),
            Err(error) => {
                self.count_fault(error.kind());
                Err(Failed)
            }
        }
    }
}
