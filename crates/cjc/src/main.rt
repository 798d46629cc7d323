//! The program: hands files, the standard streams, the clock and a port to `run` of `cj_program`, for the command that
//! its words say, and to `explain` of `cj_explain`, which tells why it ended with an error.
//!
//! Promised: all that `run` and `explain` promise, for what `cj_edge` tells of these objects. This file has no
//! contract of its own; `checks/` tries the built program. To change: which store a command gets as its log is
//! `log_store`. Everything else of a command is in `cj_program` and `cj_top`.
#![tactic(auto)]

use cj_edge::{
    FileStore, Patient, StdSink, StdSource, SystemClock, WordsError, fill_standard_streams, words,
};
use cj_edge_net::TcpPort;
use cj_explain::{Noted, Notes, Traces, explain, tell};
use cj_outside::Sink;
use cj_port::Spawner;
use cj_program::{Ended, paths, run};
use std::alloc::Global;
use std::fs::File;
use std::net::{Net, TcpListener, TcpStream};
use std::process::ExitCode;
use std::rt::Files;
use std::sync::Arc;

/// The most connections that are served at a time. Each takes a thread; below this number the system has room for them.
const CONNECTIONS: usize = 16_384;

/// Opens the recovery log as the command uses it. `log` leaves the file to the program that writes
/// it. `gen`, and words that are no command, touch no file.
fn log_store<R: Files<File = File>>(rt: R, words: &[String], path: String) -> FileStore<R> {
    let verb = words.first().map_or("", |word| word.as_str());
    if verb == "gen" || paths(words).is_none() {
        return FileStore::none(rt, path);
    }
    if verb == "log" {
        return FileStore::open_to_list(rt, path);
    }
    FileStore::open(rt, path)
}

/// The address at which the words ask to serve, if they do.
fn address(words: &[String]) -> Option<&str> {
    paths(words)?.address
}

/// Opens the dumps, which `serve` alone uses.
fn dumps_store<R: Files<File = File>>(rt: R, words: &[String], path: String) -> FileStore<R> {
    match address(words) {
        Some(_) => FileStore::open(rt, path),
        None => FileStore::none(rt, path),
    }
}

/// The files that the program uses, and the clock.
struct Objects<R> {
    conf: FileStore<R>,
    log: FileStore<R>,
    dumps: FileStore<R>,
    clock: Arc<SystemClock<R>, Global>,
}

/// Opens the files and makes the clock, or returns `None` if memory runs out. Where the words are no command `run` uses
/// none of the files.
fn open_objects<R: Files<File = File> + Copy>(
    alloc: Global,
    rt: R,
    words: &[String],
) -> Option<Objects<R>> {
    let path = paths(words).map_or("", |paths| paths.conf);
    let conf_path = String::from_str(alloc, path).ok()?;
    let log_path = format!(in alloc; "{path}.log").ok()?;
    let dumps_path = format!(in alloc; "{path}.dumps").ok()?;
    Some(Objects {
        conf: FileStore::open_to_read(rt, conf_path),
        log: log_store(rt, words, log_path),
        dumps: dumps_store(rt, words, dumps_path),
        clock: Arc::new(alloc, SystemClock::new(rt)).ok()?,
    })
}

/// Listens at the address that the words name, if they name one. `None` if it can't be had.
fn port<R: Net<Listener = TcpListener, Stream = TcpStream>>(
    alloc: Global,
    rt: &R,
    words: &[String],
) -> Option<TcpPort> {
    let port = match address(words) {
        Some(address) => TcpPort::bind(rt, alloc, address),
        None => return Some(TcpPort::none(alloc)),
    };
    match port.cause() {
        Some(_) => None,
        None => Some(port),
    }
}

/// Returns the status for words that can't be had. Those that aren't UTF-8 are a faulty command line, which is told.
fn refuse_words<E: Sink>(error: WordsError, errors: &mut E) -> ExitCode {
    match error {
        WordsError::NoMemory => ExitCode::from(1),
        WordsError::NotUtf8 => {
            tell(2, "not UTF-8", errors);
            ExitCode::from(2)
        }
    }
}

/// Returns what a run left behind, in its streams and its files.
fn traces<'a, R: Files<File = File>>(
    words: &'a [String],
    input: &'a Notes,
    errors: &Notes,
    conf: &FileStore<R>,
    ended: &Ended<FileStore<R>, FileStore<R>>,
) -> Traces<'a> {
    Traces {
        words,
        input,
        line: errors.number(),
        conf: conf.cause(),
        log: ended.log.as_ref().and_then(|log| log.cause()),
        dumps: ended.dumps.as_ref().and_then(|dumps| dumps.cause()),
        has_read_dumps: ended.dumps.as_ref().is_some_and(|dumps| dumps.is_read()),
    }
}

fn main(rt: HostRuntime) -> ExitCode {
    // Before the first file, which would take the place of a stream that is closed. Which one that is isn't known,
    // and none was used yet, so the status is the one for out of memory.
    if fill_standard_streams(&rt).is_err() {
        return ExitCode::from(1);
    }
    let mut errors = Noted::new(rt.alloc(), StdSink::new(Patient::new(rt.stderr(), rt)));
    let words = match words(&rt) {
        Ok(words) => words,
        Err(error) => return refuse_words(error, &mut errors),
    };
    let Some(
        Objects {
            mut conf,
            log,
            dumps,
            clock,
        },
    ) = open_objects(rt.alloc(), rt, &words)
    else {
        return ExitCode::from(1);
    };
    let mut input = Noted::new(rt.alloc(), StdSource::new(Patient::new(rt.reader(), rt)));
    // Nothing is started where the address can't be had: the console alone would serve nobody.
    let Some(mut port) = port(rt.alloc(), &rt, &words) else {
        tell(9, "", &mut errors);
        return ExitCode::from(9);
    };
    let ended = run(
        &rt,
        rt.alloc(),
        &words,
        &mut conf,
        log,
        dumps,
        &mut input,
        &mut StdSink::new(Patient::new(rt.stdout(), rt)),
        &mut errors,
        &clock,
        &mut port,
        &mut Spawner::new(rt.alloc(), CONNECTIONS),
    );
    let status = ended.status;
    let traces = traces(&words, input.notes(), errors.notes(), &conf, &ended);
    explain(rt.alloc(), status, &traces, &mut conf, &mut errors);
    ExitCode::from(status)
}
