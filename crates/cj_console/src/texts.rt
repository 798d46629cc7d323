//! The lines of answers.

ghost use Rattle.std.specs.Prelude.{◌≡◌, ◌++◌, codes, IfOk, OnOk};
ghost use Rattle.std.specs.Fmt.{decimal};
ghost use Rattle.cj_cluster.specs.Script.Lines.{with_line_feed};
ghost use Rattle.cj_console.specs.Texts as texts;

use crate::answer::Answer;
use cj_administration::AdminError;
use cj_backup::BackupError;
use cj_model::{Name, NoMemory};
use cj_replay::ReplayError;
use std::alloc::Global;

/// Makes a line of these bytes.
fn said(alloc: Global, bytes: &[u8]) -> Result<Vec<u8>, NoMemory>
    ensures { IfOk result (λ line. line.items ≡ bytes.now) }
{
    let mut line = Vec::new(alloc);
    line.extend_from_slice(bytes)?;
    Ok(line)
}

/// Appends a number in decimal. After `NoMemory` the contract says nothing of the line.
fn append_number(line: &mut Vec<u8>, number: u64) -> Result<(), NoMemory>
    ensures { OnOk result (line.new.items ≡ line.old.items ++ decimal number) }
{
    let alloc = *line.allocator();
    let digits = format!(in alloc; "{number}")?;
    line.extend_from_slice(digits.as_bytes())?;
    Ok(())
}

/// Ends a line with its line feed.
fn ended(line: Vec<u8>) -> Result<Vec<u8>, NoMemory>
    ensures { IfOk result (λ whole. whole.items ≡ with_line_feed line.items) }
{
    let mut whole = line;
    whole.push(b'\n')?;
    Ok(whole)
}

/// Makes the refusal of this name.
fn refused(alloc: Global, name: &[u8]) -> Result<Vec<u8>, NoMemory>
    ensures { IfOk result (λ line. line.items ≡ texts.refused name.now) }
{
    let mut line = said(alloc, b"refused ")?;
    line.extend_from_slice(name)?;
    Ok(line)
}

/// Makes the refusal of this name, with a number.
fn refused_with(alloc: Global, name: &[u8], number: u64) -> Result<Vec<u8>, NoMemory>
    ensures { IfOk result (λ line. line.items ≡ texts.refused_with name.now number) }
{
    let mut line = refused(alloc, name)?;
    line.push(b' ')?;
    append_number(&mut line, number)?;
    Ok(line)
}

/// Makes the refusal of this name, with a table's name unless that is empty.
fn refused_for(alloc: Global, name: &[u8], table: &Name) -> Result<Vec<u8>, NoMemory>
    ensures { IfOk result (λ line. line.items ≡ texts.refused_for name.now table.now) }
{
    let mut line = refused(alloc, name)?;
    if !table.as_slice().is_empty() {
        line.push(b' ')?;
        line.extend_from_slice(table.as_slice())?;
    }
    Ok(line)
}

/// Says why a call of the administrator was refused.
fn admin_text(alloc: Global, error: AdminError) -> Result<Vec<u8>, NoMemory>
    ensures { IfOk result (λ line. line.items ≡ texts.admin_text error) }
{
    match error {
        AdminError::NotEnabled => refused(alloc, b"NotEnabled"),
        AdminError::NameTaken => refused(alloc, b"NameTaken"),
        AdminError::NotOrphan(tx) => refused_with(alloc, b"NotOrphan", tx),
        AdminError::HistoryFull(events) => refused_with(alloc, b"HistoryFull", events),
        AdminError::LogFault => refused(alloc, b"LogFault"),
        AdminError::Fault(b) => refused_with(alloc, b"Fault", u64::from(b)),
        AdminError::NoMemory => refused(alloc, b"NoMemory"),
    }
}

/// Says why a backend did not come back.
fn replay_text(alloc: Global, error: &ReplayError) -> Result<Vec<u8>, NoMemory>
    ensures { IfOk result (λ line. line.items ≡ texts.replay_text error.now) }
{
    match error {
        ReplayError::AlreadyEnabled => refused(alloc, b"AlreadyEnabled"),
        ReplayError::NeedsDump(_) => refused(alloc, b"NeedsDump"),
        ReplayError::Failed(_) => refused(alloc, b"Failed"),
        ReplayError::Starved => refused(alloc, b"Starved"),
        ReplayError::DumpLacks(table) => refused_for(alloc, b"DumpLacks", table),
        ReplayError::DumpAhead(position) => refused_with(alloc, b"DumpAhead", *position),
        ReplayError::HistoryFull(events) => refused_with(alloc, b"HistoryFull", *events),
        ReplayError::NoMemory => refused(alloc, b"NoMemory"),
    }
}

/// Says why a backend was not backed up.
fn backup_text(alloc: Global, error: &BackupError) -> Result<Vec<u8>, NoMemory>
    ensures { IfOk result (λ line. line.items ≡ texts.backup_text error.now) }
{
    match error {
        BackupError::NotEnabled => refused(alloc, b"NotEnabled"),
        BackupError::NameTaken => refused(alloc, b"NameTaken"),
        BackupError::LastHost(table) => refused_for(alloc, b"LastHost", table),
        BackupError::Failed(_) => refused(alloc, b"BackendFault"),
        BackupError::StoreFault => refused(alloc, b"StoreFault"),
        BackupError::LogFault => refused(alloc, b"LogFault"),
        BackupError::HistoryFull(events) => refused_with(alloc, b"HistoryFull", *events),
        BackupError::NoMemory => refused(alloc, b"NoMemory"),
    }
}

/// Says that a command was carried out, with its number.
fn number_text(alloc: Global, number: u64) -> Result<Vec<u8>, NoMemory>
    ensures { IfOk result (λ line. line.items ≡ codes "ok " ++ decimal number) }
{
    let mut line = said(alloc, b"ok ")?;
    append_number(&mut line, number)?;
    Ok(line)
}

/// Says what the result cache has counted.
fn counts_text(alloc: Global, hits: u64, misses: u64) -> Result<Vec<u8>, NoMemory>
    ensures { IfOk result (λ line. line.items ≡ codes "hits=" ++ decimal hits ++ codes " misses=" ++ decimal misses) }
{
    let mut line = said(alloc, b"hits=")?;
    append_number(&mut line, hits)?;
    line.extend_from_slice(b" misses=")?;
    append_number(&mut line, misses)?;
    Ok(line)
}

/// Makes the lines of an answer, each with its line feed. `NoMemory` is the only error.
pub fn text_of(alloc: Global, answer: &Answer) -> Result<Vec<u8>, NoMemory>
    ensures { IfOk result (λ text. text.items ≡ texts.answer_text answer.now) }
{
    match answer {
        Answer::Lines(text) => said(alloc, text.as_slice()),
        Answer::Done => ended(said(alloc, b"ok")?),
        Answer::Number(number) => ended(number_text(alloc, *number)?),
        Answer::CacheCounts(hits, misses) => ended(counts_text(alloc, *hits, *misses)?),
        Answer::NoCommand => ended(refused(alloc, b"Command")?),
        Answer::NoBackend => ended(refused(alloc, b"Backend")?),
        Answer::NoDump => ended(refused(alloc, b"Dump")?),
        Answer::StoreFault => ended(refused(alloc, b"StoreFault")?),
        Answer::BadRecord(offset) => ended(refused_with(alloc, b"BadRecord", *offset)?),
        Answer::NoMemory => ended(refused(alloc, b"NoMemory")?),
        Answer::Refused(error) => ended(admin_text(alloc, *error)?),
        Answer::NotReenabled(error) => ended(replay_text(alloc, error)?),
        Answer::NotBackedUp(error) => ended(backup_text(alloc, error)?),
    }
}
