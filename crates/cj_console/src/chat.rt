//! The loop of a console.

ghost use Rattle.std.specs.Prelude.{◌≡◌, ◌↔◌, ◌≤◌, ℕ, List, true, IsErrOf, IsTrue};
ghost use Rattle.cj_cluster.specs.History.Legality.{IsLegal};
ghost use Rattle.cj_outside.specs.Causes.{CountsFault};
ghost use Rattle.cj_outside.specs.Streams.{most, WritesAll};
ghost use Rattle.cj_board.specs.Seats.{front, pass_view};
ghost use Rattle.cj_pass.specs.Passes.{HasSeenMore};
ghost use Rattle.cj_console.specs.Answers.{AreRightDumps};
ghost use Rattle.cj_console.specs.Chats.{ChatsTo, GetsAnswer, quit_line};
ghost use Rattle.cj_console.specs.Steps.{IsTakenLine, TakesLine, WritesAnswer};
ghost use Rattle.cj_console.specs.Texts.{answer_text};
ghost use Rattle.cj_console.specs.declared.chat.ConsoleEnd.TheVariants as ends;

use crate::answer::Answer;
use crate::obeying::answer_line;
use crate::texts::text_of;
use cj_backend::Backend;
use cj_control::Control;
use cj_outside::{Line, LineError, Lines, OutError, Sink, Source, Store, write_all};
use cj_pass::{Naming, Pass};
use cj_shelf::Shelf;
use std::alloc::Global;
use std::sync::Wait;

/// How a console ended.
#[derive(Clone, Copy, Debug, PartialEq, Eq)]
pub enum ConsoleEnd {
    /// The line `quit` was answered.
    Quit,
    /// The source has ended, and each line was answered.
    Eof,
    /// The source failed.
    ReadFault,
    /// The sink failed.
    WriteFault,
    /// `MOST` bytes were taken, and the source has not ended.
    Spent,
    /// Memory ran out for a line, or for the text of an answer.
    NoMemory,
}

/// Returns the next line, `None` in place of one that is too long; or how the console ends if there is no line.
fn read_line<I: Source>(
    alloc: Global,
    lines: &mut Lines,
    input: &mut I,
) -> Result<Option<Vec<u8>>, ConsoleEnd>
    ensures bytes { TakesLine (I.left input.old) (I.left input.new) lines.old lines.new result }
    ensures few { lines.new.taken ≤ most }
    ensures cause { CountsFault (IsErrOf result ends.ReadFault) (I.faults input.old) (I.faults input.new) }
{
    let next = lines.next(alloc, input);
    lines.legal();
    match next {
        Ok(Line::Text(line)) => Ok(Some(line)),
        Ok(Line::Long) => Ok(None),
        Ok(Line::End) => Err(ConsoleEnd::Eof),
        Err(LineError::Failed) => Err(ConsoleEnd::ReadFault),
        Err(LineError::Spent) => Err(ConsoleEnd::Spent),
        Err(LineError::NoMemory) => Err(ConsoleEnd::NoMemory),
    }
}

/// Whether a line ends the console.
fn is_quit(line: &Option<Vec<u8>>) -> bool
    ensures { (text : List ℕ) → IsTakenLine text line.now → (IsTrue result ↔ (text ≡ quit_line)) }
{
    match line {
        Some(line) => line.as_slice() == b"quit".as_slice(),
        None => false,
    }
}

/// Returns the answer to a line that was read.
fn answer_of<J: Naming, B: Backend + Drop, S: Store + Drop, D: Store, R: Wait>(
    rt: &R,
    control: &Control<J, B, S>,
    pass: &mut Pass<J>,
    shelf: &mut Shelf<D>,
    line: &Option<Vec<u8>>,
) -> Answer
    requires legal { IsLegal (front pass.old.seat) }
    requires kept { B.tells ≡ true → D.tells ≡ true }
    requires dumps { AreRightDumps B.tells (front pass.old.seat) shelf.old.dumps }
    ensures answers { (text : List ℕ) → IsTakenLine text line.now → GetsAnswer (record { tells = B.tells; kept = D.tells; layout = J.layout; held = D.held; faults = D.faults }) text (record { view = pass_view pass.old.seat; shelf = shelf.old }) (record { view = pass_view pass.new.seat; shelf = shelf.new }) result }
    ensures seen { HasSeenMore (pass_view pass.old.seat) (pass_view pass.new.seat) }
    ensures legal { IsLegal (front pass.new.seat) }
    ensures dumps { AreRightDumps B.tells (front pass.new.seat) shelf.new.dumps }
{
    match line {
        Some(line) => answer_line(rt, control, pass, shelf, line),
        None => Answer::NoCommand,
    }
}

/// Writes the lines of an answer. What was shown is written as it is, without a copy.
fn write_lines<O: Sink>(alloc: Global, answer: &Answer, output: &mut O) -> Result<(), OutError>
    ensures bytes { WritesAll (O.held output.old) (O.held output.new) (answer_text answer.now) result }
    ensures cause { CountsFault (IsErrOf result OutError.Failed) (O.faults output.old) (O.faults output.new) }
{
    if let Answer::Lines(text) = answer {
        return write_all(output, text.as_slice());
    }
    match text_of(alloc, answer) {
        Ok(text) => write_all(output, &text),
        Err(_) => Err(OutError::NoMemory),
    }
}

/// Writes the lines of an answer, or returns how the console ends if it can't.
fn write_answer<O: Sink>(alloc: Global, answer: &Answer, output: &mut O) -> Result<(), ConsoleEnd>
    ensures bytes { WritesAnswer (O.held output.old) (O.held output.new) (answer_text answer.now) result }
    ensures cause { CountsFault (IsErrOf result ends.WriteFault) (O.faults output.old) (O.faults output.new) }
{
    let written = write_lines(alloc, answer, output);
    match written {
        Ok(()) => Ok(()),
        Err(OutError::Failed) => Err(ConsoleEnd::WriteFault),
        Err(OutError::NoMemory) => Err(ConsoleEnd::NoMemory),
    }
}

/// Takes lines from the source, carries out the command of each, and writes its answer, until a line `quit` is answered
/// or the source ends. Whatever a line is, it gets one answer; a line that is no command changes nothing.
///
/// The dumps of the shelf are those of this cluster's log. At every end what was carried out stays. After `NoMemory`
/// and `WriteFault` the last command may have been carried out with its answer written in part.
pub fn console<
    J: Naming,
    B: Backend + Drop,
    S: Store + Drop,
    D: Store,
    I: Source,
    O: Sink,
    R: Wait,
>(
    rt: &R,
    alloc: Global,
    control: &Control<J, B, S>,
    pass: &mut Pass<J>,
    shelf: &mut Shelf<D>,
    input: &mut I,
    output: &mut O,
) -> ConsoleEnd
    requires legal { IsLegal (front pass.old.seat) }
    requires kept { B.tells ≡ true → D.tells ≡ true }
    requires dumps { AreRightDumps B.tells (front pass.old.seat) shelf.old.dumps }
    ensures chats { ChatsTo (record { tells = B.tells; kept = D.tells; layout = J.layout; held = D.held; faults = D.faults }) (I.left input.old) (I.left input.new) (O.held output.old) (O.held output.new) (record { view = pass_view pass.old.seat; shelf = shelf.old }) result (record { view = pass_view pass.new.seat; shelf = shelf.new }) }
    ensures input { CountsFault (result ≡ ends.ReadFault) (I.faults input.old) (I.faults input.new) }
    ensures output { CountsFault (result ≡ ends.WriteFault) (O.faults output.old) (O.faults output.new) }
    ensures seen { HasSeenMore (pass_view pass.old.seat) (pass_view pass.new.seat) }
    ensures legal { IsLegal (front pass.new.seat) }
    ensures dumps { AreRightDumps B.tells (front pass.new.seat) shelf.new.dumps }
{
    let mut lines = Lines::new(alloc);
    loop {
        let line = match read_line(alloc, &mut lines, input) {
            Ok(line) => line,
            Err(end) => return end,
        };
        let answer = answer_of(rt, control, pass, shelf, &line);
        if let Err(end) = write_answer(alloc, &answer, output) {
            return end;
        }
        if is_quit(&line) {
            return ConsoleEnd::Quit;
        }
    }
}
