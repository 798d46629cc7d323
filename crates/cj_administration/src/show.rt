//! What the administrator is shown.

ghost use Rattle.std.specs.Prelude.{◌≡◌, ◌++◌, List, true, length, map, option_copied, Some, Contains, IfOk, IfSome, OnOk};
ghost use Rattle.std.specs.Fmt.{decimal};
ghost use mathlib.Core.List.{IsPrefix};
ghost use Rattle.cj_model.specs.Cluster.Masks.{in_mask};
ghost use Rattle.cj_model.specs.Sql.Names.{IsText};
ghost use Rattle.cj_model.specs.Sql.PlainRequests as plain;
ghost use Rattle.cj_print.specs.Ascii.{IsAsciiText};
ghost use Rattle.cj_audit.specs.Audits.{StaysText};
ghost use Rattle.cj_cluster.specs.declared.event.Event.{Event};
ghost use Rattle.cj_cluster.specs.History.Histories.{is_enabled, is_free, log};
ghost use Rattle.cj_cluster.specs.History.Legality.{IsLegal};
ghost use Rattle.cj_board.specs.Seats.{front, pass_view};
ghost use Rattle.cj_listing.specs.Listing.{listing};
ghost use Rattle.cj_pass.specs.Passes.{HasNotedMore};
ghost use Rattle.cj_locked.specs.Listing.{item_of, items_between};
ghost use Rattle.cj_administration.specs.Showing as showing;
ghost use Rattle.cj_administration.specs.Showing.{AreNoted, ShowsBackends, StandAtEnd, backend_line, backends_text, counts_text, login_text, position_text};

use cj_audit::into_text;
use cj_backend::{Backend, Counts};
use cj_control::Control;
use cj_listing::make_line;
use cj_locked::ShownItem;
use cj_log::{LogEntry, LogItem};
use cj_model::{Act, Duplicate, Entry, Name, Names, NoMemory, Request, Text, has_bit};
use cj_outside::Store;
use cj_pass::{Naming, Pass};
use cj_print::write_sql;
use std::alloc::Global;
use std::sync::Wait;

/// What a look at a backend showed.
#[derive(Drop)]
pub(crate) struct Looked {
    /// The number of the last entry that it carried out or skipped. None if it is out.
    pub position: Option<u64>,
    pub counts: Counts,
    /// The login of its last call.
    pub login: Option<Text>,
}

fn copy_login(alloc: Global, login: Option<&Text>) -> Result<Option<Text>, NoMemory>
    ensures { IfOk result (λ copy. copy ≡ option_copied login.entry) }
{
    match login {
        Some(text) => Ok(Some(text.copy(alloc)?)),
        None => Ok(None),
    }
}

/// Returns the word for how a backend stands, after a space.
fn state_word(enabled: bool, position: Option<u64>) -> &'static [u8]
    ensures { result.now ≡ showing.state_word enabled position }
{
    if enabled {
        return b" enabled";
    }
    match position {
        Some(_) => b" disabled",
        None => b" out",
    }
}

fn login_bytes(login: &Option<Text>) -> &[u8]
    ensures is { result.now ≡ login_text login.now }
    ensures text { IsText result.now }
{
    match login {
        Some(text) => text.as_slice(),
        None => b"-",
    }
}

/// Appends bytes that are a text. After `NoMemory` the contract says nothing of the text.
fn append(text: &mut Vec<u8>, bytes: &[u8]) -> Result<(), NoMemory>
    requires { IsText bytes.now }
    ensures ok { OnOk result (text.new.items ≡ text.old.items ++ bytes.now) }
    ensures text { OnOk result (StaysText text.old.items text.new.items) }
{
    text.extend_from_slice(bytes)?;
    Ok(())
}

/// Appends a number in decimal after these words. After `NoMemory` the contract says nothing of the text.
fn append_number(text: &mut Vec<u8>, words: &[u8], n: u64) -> Result<(), NoMemory>
    requires { IsAsciiText words.now }
    ensures ok { OnOk result (text.new.items ≡ text.old.items ++ words.now ++ decimal n) }
    ensures text { OnOk result (StaysText text.old.items text.new.items) }
{
    let alloc = *text.allocator();
    let digits = format!(in alloc; "{n}")?;
    append(text, words)?;
    append(text, digits.as_bytes())
}

/// Appends the position of a backend. After `NoMemory` the contract says nothing of the text.
fn append_position(text: &mut Vec<u8>, position: Option<u64>) -> Result<(), NoMemory>
    ensures ok { OnOk result (text.new.items ≡ text.old.items ++ position_text position) }
    ensures text { OnOk result (StaysText text.old.items text.new.items) }
{
    match position {
        Some(n) => append_number(text, b" position=", n),
        None => append(text, b" position=-"),
    }
}

fn append_counts(text: &mut Vec<u8>, counts: Counts) -> Result<(), NoMemory>
    ensures ok { OnOk result (text.new.items ≡ text.old.items ++ counts_text counts) }
    ensures text { OnOk result (StaysText text.old.items text.new.items) }
{
    append_number(text, b" asks=", counts.asks)?;
    append_number(text, b" begun=", counts.begun)?;
    append_number(text, b" faults=", counts.faults)
}

/// Appends the line of a backend, with its LF. After `NoMemory` the contract says nothing of the text.
fn append_line(
    text: &mut Vec<u8>,
    name: &Name,
    enabled: bool,
    look: &Looked,
) -> Result<(), NoMemory>
    ensures ok { OnOk result (text.new.items ≡ text.old.items ++ backend_line name.now enabled look.now) }
    ensures text { OnOk result (StaysText text.old.items text.new.items) }
{
    append(text, name.as_slice())?;
    append(text, state_word(enabled, look.position))?;
    append_position(text, look.position)?;
    append_counts(text, look.counts)?;
    append(text, b" login=")?;
    append(text, login_bytes(&look.login))?;
    append(text, b"\n")
}

/// Returns the request that an act comes from.
fn request_of(act: Act) -> Request
    ensures { result ≡ plain.request_of act }
{
    match act {
        Act::Begin => Request::Begin,
        Act::Write(write) => Request::Write(write),
        Act::Create(create) => Request::Create(create),
        Act::Drop(table) => Request::Drop(table),
        Act::Commit => Request::Commit,
        Act::Abort => Request::Rollback,
    }
}

/// Makes the item of the log that a shown one is a copy of, with the canonical text of an entry.
fn log_item(alloc: Global, shown: ShownItem) -> Result<LogItem, NoMemory>
    ensures { IfOk result (λ item. item ≡ item_of shown) }
{
    match shown {
        ShownItem::Entry(number, entry) => {
            let Entry {
                session,
                seq,
                tx,
                user,
                act,
            } = entry;
            let text = write_sql(alloc, &request_of(act))?;
            Ok(LogItem::Entry(LogEntry {
                number,
                session,
                seq,
                tx,
                user,
                text,
            }))
        }
        ShownItem::Marker(marker) => Ok(LogItem::Marker(marker)),
    }
}

/// Returns the lines of what is shown of the log, where backends have these names. Bytes that are no text run out of
/// memory, in a branch that never runs.
fn log_text(alloc: Global, names: &Names, items: Vec<ShownItem>) -> Result<Text, NoMemory>
    ensures { IfOk result (λ text. text ≡ listing names.now (map item_of items.items)) }
{
    let mut text = Vec::new(alloc);
    for shown in items {
        let item = log_item(alloc, shown)?;
        let line = make_line(alloc, names, &item)?;
        text.extend_from_slice(&line)?;
    }
    match Text::of(text) {
        Some(text) => Ok(text),
        None => Err(NoMemory),
    }
}

/// Looks at backend `b`, and copies what is shown of it while its lock is held.
///
/// A cell of another backend runs out of memory, in a branch that never runs.
fn look_at<J: Naming, B: Backend, S: Store + Drop, R: Wait>(
    control: &Control<J, B, S>,
    rt: &R,
    pass: &mut Pass<J>,
    b: u8,
) -> Result<Looked, NoMemory>
    ensures noted { IfOk result (λ x. IfSome x.position (λ n. Contains (pass_view pass.new.seat).position_notes (b, n))) }
    ensures stands { IfOk result (λ x. (m : List Event) → IsPrefix m (front pass.old.seat) → is_free m ≡ true → length (log (front pass.new.seat)) ≡ length (log m) → is_enabled m b ≡ true → x.position ≡ Some (length (log m))) }
    ensures more { HasNotedMore (pass_view pass.old.seat) (pass_view pass.new.seat) }
{
    let Some(cell) = control.locks.cells.get(b as usize) else {
        return Err(NoMemory);
    };
    let mut cell = cell.lock(rt);
    let (number, position) = cell.look(&control.locks.board, pass);
    if number != b {
        return Err(NoMemory);
    }
    let backend = cell.backend();
    let login = copy_login(control.locks.alloc, backend.login())?;
    Ok(Looked {
        position,
        counts: backend.counts(),
        login,
    })
}

/// Looks at each backend, in the order of numbers.
fn look_at_each<J: Naming, B: Backend, S: Store + Drop, R: Wait>(
    control: &Control<J, B, S>,
    rt: &R,
    pass: &mut Pass<J>,
) -> Result<Vec<Looked>, NoMemory>
    ensures each { IfOk result (λ looks. length looks.items ≡ length J.layout.names) }
    ensures noted { IfOk result (λ looks. AreNoted (pass_view pass.new.seat) looks.items) }
    ensures stand { IfOk result (λ looks. StandAtEnd (front pass.old.seat) (front pass.new.seat) looks.items) }
    ensures more { HasNotedMore (pass_view pass.old.seat) (pass_view pass.new.seat) }
{
    let mut looks = Vec::new(control.locks.alloc);
    for b in 0..control.locks.placement.count() {
        let look = look_at(control, rt, pass, b)?;
        looks.push(look)?;
    }
    Ok(looks)
}

/// Returns the lines of the backends, of which these looks were had.
fn lines_of<J: Naming, B: Backend, S: Store + Drop>(
    control: &Control<J, B, S>,
    looks: &[Looked],
    enabled: u32,
) -> Result<Text, NoMemory>
    requires each { length looks.now ≡ length J.layout.names }
    ensures { IfOk result (λ text. text ≡ backends_text J.layout.names (λ b. in_mask enabled b) looks.now) }
{
    let mut text = Vec::new(control.locks.alloc);
    for b in 0..control.locks.placement.count() {
        let name = control.locks.placement.name(b);
        append_line(&mut text, name, has_bit(enabled, b), &looks[b as usize])?;
    }
    Ok(into_text(text))
}

/// Returns a line for each backend: whether it is enabled in what the pass has seen then, its position by a look
/// at it, its counts, and the login of its last call. No lock is held while the lines are made.
///
/// The looks are one after another, and others go on meanwhile. So an enabled backend may be shown with a dash for
/// its position: it failed in an entry that is open, or it was enabled after the look.
pub fn show_backends<J: Naming, B: Backend, S: Store + Drop, R: Wait>(
    control: &Control<J, B, S>,
    rt: &R,
    pass: &mut Pass<J>,
) -> Result<Text, NoMemory>
    ensures shows { IfOk result (ShowsBackends J.layout.names (pass_view pass.old.seat) (pass_view pass.new.seat)) }
    ensures more { HasNotedMore (pass_view pass.old.seat) (pass_view pass.new.seat) }
    ensures legal { IsLegal (front pass.new.seat) }
{
    let looks = look_at_each(control, rt, pass);
    let enabled = control
        .locks
        .book
        .lock(rt)
        .enabled(&control.locks.board, pass);
    match looks {
        Ok(looks) => lines_of(control, &looks, enabled),
        Err(error) => Err(error),
    }
}

/// Returns a line for each entry from `first` to `last` of the recovery log, counted from 1, and for each marker
/// that has at least `first` and fewer than `last` entries before it, in their order.
///
/// What is shown is copied while the book's lock is held. No lock is held while the lines are made.
pub fn show_log<J: Naming, B: Backend, S: Store + Drop, R: Wait>(
    control: &Control<J, B, S>,
    rt: &R,
    pass: &mut Pass<J>,
    first: u64,
    last: u64,
) -> Result<Text, NoMemory>
    ensures log { IfOk result (λ text. text ≡ listing J.layout.names (items_between first last (front pass.new.seat))) }
    ensures more { HasNotedMore (pass_view pass.old.seat) (pass_view pass.new.seat) }
    ensures legal { IsLegal (front pass.new.seat) }
{
    let alloc = control.locks.alloc;
    let mut book = control.locks.book.lock(rt);
    let items = book.shown(alloc, &control.locks.board, pass, first, last)?;
    drop(book);
    log_text(alloc, control.locks.placement.names(), items)
}

/// Returns the hits and the misses that the result cache has counted.
pub fn show_cache<J: Naming, B: Backend, S: Store + Drop, R: Wait>(
    control: &Control<J, B, S>,
    rt: &R,
) -> (u64, u64) {
    control.locks.cache_counts(rt)
}
