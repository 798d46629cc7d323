//! The steps of the tests: what sessions ask for, and what is typed at the console, with what is to be answered.

ghost use Rattle.std.specs.Prelude.{◌≡◌, []};
ghost use Rattle.cj_cluster.specs.History.Legality.{IsLegal};
ghost use Rattle.cj_board.specs.Seats.{front};
ghost use Rattle.cj_console.specs.Answers.{AreRightDumps};

use crate::requests::request_all;
use cj_backend::Backend;
use cj_console::{ConsoleEnd, console};
use cj_control::{Control, Naming, Pass};
use cj_model::NoMemory;
use cj_outside::{MemSink, MemSource, MemStore};
use cj_shelf::Shelf;
use std::alloc::Global;
use std::process::Abort;
use std::sync::Wait;

/// A line that is typed, and what is answered.
pub type Row<'a> = (&'a str, &'a str);

/// What a console takes and writes.
#[derive(Clone, Copy)]
pub struct Chat<'a> {
    pub input: &'a [u8],
    pub output: &'a [u8],
    /// The call at which the source fails, counted from 1. It does not fail if this is 0.
    pub read_fails: u64,
    /// The call at which the sink fails, likewise.
    pub write_fails: u64,
    pub end: ConsoleEnd,
}

/// A step of a test.
#[derive(Clone, Copy)]
pub enum Step<'a> {
    /// A session makes these requests, which are done, and ends.
    Session(&'a [&'a str]),
    /// These lines are typed, one after another, and get these answers.
    Rows(&'a [Row<'a>]),
    Chat(Chat<'a>),
}

/// Opens a session, has it make its requests, and leaves it.
fn hold_session<J: Naming, B: Backend, R: Wait + Abort>(
    rt: &R,
    alloc: Global,
    control: &Control<J, B, MemStore>,
    pass: &mut Pass<J>,
    texts: &[&str],
) -> Result<(), NoMemory> {
    let Ok(mut caller) = control.caller(rt, pass) else {
        panic!(rt; "no session")
    };
    request_all(rt, alloc, &mut caller, texts)?;
    control.leave(rt, caller, pass);
    Ok(())
}

/// Has a console take its input, and compares what it writes.
fn hold_chat<J: Naming, B: Backend + Drop, R: Wait + Abort>(
    rt: &R,
    alloc: Global,
    control: &Control<J, B, MemStore>,
    pass: &mut Pass<J>,
    shelf: &mut Shelf<MemStore>,
    chat: &Chat<'_>,
) -> Result<(), NoMemory>
    requires legal { IsLegal (front pass.old.seat) }
    requires dumps { AreRightDumps B.tells (front pass.old.seat) shelf.old.dumps }
    ensures legal { IsLegal (front pass.new.seat) }
    ensures dumps { AreRightDumps B.tells (front pass.new.seat) shelf.new.dumps }
{
    let read_fails = Vec::from_array(alloc, [chat.read_fails])?;
    let write_fails = Vec::from_array(alloc, [chat.write_fails])?;
    let mut input = MemSource::new(chat.input.to_vec(alloc)?, read_fails);
    let mut output = MemSink::new(Vec::new(alloc), write_fails);
    let end = console(rt, alloc, control, pass, shelf, &mut input, &mut output);
    assert!(rt; output.content() == chat.output);
    assert!(rt; end == chat.end);
    Ok(())
}

/// The chat of these rows.
fn type_rows<J: Naming, B: Backend + Drop, R: Wait + Abort>(
    rt: &R,
    alloc: Global,
    control: &Control<J, B, MemStore>,
    pass: &mut Pass<J>,
    shelf: &mut Shelf<MemStore>,
    rows: &[Row<'_>],
) -> Result<(), NoMemory>
    requires legal { IsLegal (front pass.old.seat) }
    requires dumps { AreRightDumps B.tells (front pass.old.seat) shelf.old.dumps }
    ensures legal { IsLegal (front pass.new.seat) }
    ensures dumps { AreRightDumps B.tells (front pass.new.seat) shelf.new.dumps }
{
    let mut input = Vec::new(alloc);
    let mut output = Vec::new(alloc);
    for (line, answer) in rows {
        input.extend_from_slice(line.as_bytes())?;
        input.push(b'\n')?;
        output.extend_from_slice(answer.as_bytes())?;
    }
    let typed = Chat {
        input: &input,
        output: &output,
        read_fails: 0,
        write_fails: 0,
        end: ConsoleEnd::Eof,
    };
    hold_chat(rt, alloc, control, pass, shelf, &typed)
}

/// Takes a step. A session has a pass of its own.
fn take<J: Naming, B: Backend + Drop, R: Wait + Abort>(
    rt: &R,
    alloc: Global,
    control: &Control<J, B, MemStore>,
    pass: &mut Pass<J>,
    other: &mut Pass<J>,
    shelf: &mut Shelf<MemStore>,
    step: &Step<'_>,
) -> Result<(), NoMemory>
    requires legal { IsLegal (front pass.old.seat) }
    requires dumps { AreRightDumps B.tells (front pass.old.seat) shelf.old.dumps }
    ensures legal { IsLegal (front pass.new.seat) }
    ensures dumps { AreRightDumps B.tells (front pass.new.seat) shelf.new.dumps }
{
    match step {
        Step::Session(texts) => hold_session(rt, alloc, control, other, texts),
        Step::Rows(rows) => type_rows(rt, alloc, control, pass, shelf, rows),
        Step::Chat(typed) => hold_chat(rt, alloc, control, pass, shelf, typed),
    }
}

/// Takes the steps, each after the one before, over an empty shelf.
pub fn take_all<J: Naming, B: Backend + Drop, R: Wait + Abort>(
    rt: &R,
    alloc: Global,
    control: &Control<J, B, MemStore>,
    pass: &mut Pass<J>,
    shelf: &mut Shelf<MemStore>,
    steps: &[Step<'_>],
) -> Result<(), NoMemory>
    requires legal { IsLegal (front pass.old.seat) }
    requires empty { shelf.old.dumps ≡ [] }
{
    let mut other = control.split(pass);
    for step in steps {
        take(rt, alloc, control, pass, &mut other, shelf, step)?;
    }
    Ok(())
}
