//! What `run` is handed, and the call of it.

ghost use Rattle.std.specs.Prelude.{◌≡◌, [], List, IfOk};
ghost use Rattle.cj_dump.specs.declared.dump.Dump.{Dump};
ghost use Rattle.cj_shelf.specs.Shelves.{KeepsDumps};

use crate::connections::Ear;
use cj_outside::{FixedClock, MemSink, MemSource, MemStore};
use cj_port::{MemPort, Spawner};
use cj_program::{Ended, run};
use std::alloc::{AllocError, Global};
use std::sync::{Arc, Wait};
use std::thread::Threads;

/// A configuration in which every table is on both of two backends in memory, and two connections are served.
const CONF: &str = r#"level = "raidb1"
cache = 64
connections = 2
backends = [{ name = "b0", kind = "memory" }, { name = "b1", kind = "memory" }]
users = [{ name = "ann", sha256 = "2bb80d537b1da3e38bd30361aa855686bde0eacd7162fef6a25fe97bf527a25b", logins = ["l0", "l1"] }]
"#;

/// The bytes of a log that has no entry.
pub const LOG: &[u8] = b"CJL1\x00";

/// What a store of dumps has, in which there is no dump.
#[derive(Clone, Copy)]
pub enum Dumps {
    /// The bytes of an empty shelf.
    Empty,
    /// Those of another file.
    Foreign,
}

/// The bytes of a store of dumps.
pub fn bytes_of(dumps: Dumps) -> &'static [u8]
    ensures { (kept : List Dump) → KeepsDumps result.now kept → kept ≡ [] }
{
    match dumps {
        Dumps::Empty => b"CJD1\x00",
        Dumps::Foreign => b"no file",
    }
}

/// The streams of a console, and the errors.
#[derive(Drop)]
pub struct Streams {
    input: MemSource,
    output: MemSink,
    errors: MemSink,
}

impl Streams {
    /// Streams on which `quit` is typed. The calls of the input and of the output with these numbers fail, from 1.
    pub fn new(alloc: Global, take: u64, put: u64) -> Result<Streams, AllocError> {
        Ok(Streams {
            input: MemSource::new(b"quit\n".to_vec(alloc)?, vec![in alloc; take]?),
            output: MemSink::new(Vec::new(alloc), vec![in alloc; put]?),
            errors: MemSink::new(Vec::new(alloc), Vec::new(alloc)),
        })
    }

    /// What the console wrote.
    pub fn output(&self) -> &[u8] {
        self.output.content()
    }

    /// What the errors were told.
    pub fn errors(&self) -> &[u8] {
        self.errors.content()
    }
}

/// The words that ask to serve.
fn words(alloc: Global) -> Result<Vec<String>, AllocError> {
    Ok(vec![in alloc;
        String::from_str(alloc, "serve")?,
        String::from_str(alloc, "c1.toml")?,
        String::from_str(alloc, "127.0.0.1:7400")?,
    ]?)
}

/// A store of these bytes, whose call with this number fails, from 1.
fn store(alloc: Global, bytes: &[u8], fails: u64) -> Result<MemStore, AllocError>
    ensures { IfOk result (λ store. store.bytes ≡ bytes.now) }
{
    Ok(MemStore::new(bytes.to_vec(alloc)?, vec![in alloc; fails]?))
}

/// Runs `serve` over an empty log and these dumps, of whose calls the one with this number fails, in at most so many
/// threads.
pub fn serve<R: Threads + Wait + Copy + Drop + Send + Sync + 'static>(
    rt: &R,
    alloc: Global,
    dumps: Dumps,
    fails: u64,
    streams: &mut Streams,
    port: &mut MemPort<MemSource, Ear>,
    threads: usize,
) -> Result<Ended<MemStore, MemStore>, AllocError> {
    let words = words(alloc)?;
    let mut conf = store(alloc, CONF.as_bytes(), 0)?;
    let log = store(alloc, LOG, 0)?;
    let bytes = bytes_of(dumps);
    let dumps = store(alloc, bytes, fails)?;
    let clock = Arc::new(alloc, FixedClock::new(0))?;
    let mut spawner = Spawner::new(alloc, threads);
    Ok(run(
        rt,
        alloc,
        &words,
        &mut conf,
        log,
        dumps,
        &mut streams.input,
        &mut streams.output,
        &mut streams.errors,
        &clock,
        port,
        &mut spawner,
    ))
}
