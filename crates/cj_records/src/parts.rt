//! Parts of a store: read as far as it reaches, and written safely.

ghost use Rattle.std.specs.Prelude.{◌≡◌, ◌+◌, ◌<◌, ◌≤◌, true, false, length, IfOk, OnOk, IsErr, IsErrOf};
ghost use Rattle.cj_outside.specs.Causes.{CountsFault};
ghost use Rattle.cj_outside.specs.Streams.{most};
ghost use Rattle.cj_outside.specs.Stores.{KeepsLimit, Writes, Torn, Stays, Only, Steps};
ghost use Rattle.cj_records.specs.Proving.Parts.{FillsFrom, ShutsGate, WritesRecord, RecordImages, RecordSince};

use cj_outside::{Failed, OutError, Store};

/// Reads from `at` on until the buffer is full or the store ends, and answers how many bytes.
pub fn fill<S: Store>(store: &mut S, at: u64, buf: &mut [u8]) -> Result<usize, Failed>
    requires at { at ≤ most }
    requires len { length buf.old ≤ most }
    ensures bound { IfOk result (λ count. count ≤ length buf.new) }
    ensures read { S.tells ≡ true → FillsFrom (S.held store.old) at buf.new result }
    ensures bytes { S.tells ≡ true → S.held store.new ≡ S.held store.old }
    ensures cause { CountsFault (IsErr result) (S.faults store.old) (S.faults store.new) }
    ensures disk { Steps S.moment S.may S.since Stays store.old store.new }
{
    let mut count = 0;
    while count < buf.len() {
        let (_, rest) = buf.split_at_mut(count);
        match store.read_at(at + count as u64, rest)? {
            0 => return Ok(count),
            more => count += more,
        }
    }
    Ok(count)
}

/// Writes the bytes from `at` on and makes them safe. After an error the bytes in the range may be any.
pub fn write_synced<S: Store>(store: &mut S, at: u64, bytes: &[u8]) -> Result<(), OutError>
    requires { S.tells ≡ true → at ≤ length (S.held store.old) }
    ensures limit { KeepsLimit (at + length bytes.now) result }
    ensures memory { IsErrOf result OutError.NoMemory → (S.tells ≡ true) × (length (S.held store.old) < at + length bytes.now) }
    ensures bytes { S.tells ≡ true → Writes (S.held store.old) at bytes.now (S.held store.new) result }
    ensures cause { CountsFault (IsErrOf result OutError.Failed) (S.faults store.old) (S.faults store.new) }
    ensures disk { Steps S.moment S.may S.since (Torn at (length bytes.now)) store.old store.new }
    ensures safe { OnOk result (Only (S.held store.new) (S.may store.new)) }
{
    store.write_at(at, bytes)?;
    match store.sync() {
        Ok(()) => Ok(()),
        Err(_) => Err(OutError::Failed),
    }
}

/// Closes the gate at `end` if it is `torn`, which means that it may be open. After an error it may still be open.
pub fn shut_gate<S: Store>(store: &mut S, end: u64, torn: &mut bool) -> Result<(), OutError>
    requires limit { end ≤ most }
    requires gate { S.tells ≡ true → end < length (S.held store.old) }
    ensures memory { ¬ IsErrOf result OutError.NoMemory }
    ensures torn { OnOk result (torn.new ≡ false) }
    ensures bytes { S.tells ≡ true → ShutsGate end (S.held store.old) torn.old (S.held store.new) torn.new result }
    ensures cause { CountsFault (IsErrOf result OutError.Failed) (S.faults store.old) (S.faults store.new) }
    ensures disk { Steps S.moment S.may S.since (Torn end 1) store.old store.new }
    ensures safe { OnOk result (torn.old ≡ true → Only (S.held store.new) (S.may store.new)) }
    ensures kept { torn.old ≡ false → store.new ≡ store.old }
{
    if !*torn {
        return Ok(());
    }
    write_synced(store, end, &[0])?;
    *torn = false;
    Ok(())
}

/// Writes a record at the closed gate at `end`: first its `tail` after the gate, and then the gate, open.
/// While the gate is written it is `torn`. After an error the gate is open only if it is `torn`.
pub fn write_record<S: Store>(
    store: &mut S,
    end: u64,
    tail: &[u8],
    torn: &mut bool,
) -> Result<(), OutError>
    requires limit { end ≤ most }
    requires gate { S.tells ≡ true → end < length (S.held store.old) }
    requires shut { torn.old ≡ false }
    ensures limit { OnOk result (end + 1 + length tail.now ≤ most) }
    ensures memory { IsErrOf result OutError.NoMemory → torn.new ≡ false }
    ensures torn { OnOk result (torn.new ≡ false) }
    ensures bytes { S.tells ≡ true → WritesRecord end (S.held store.old) tail.now (S.held store.new) torn.new result }
    ensures cause { CountsFault (IsErrOf result OutError.Failed) (S.faults store.old) (S.faults store.new) }
    ensures images { S.tells ≡ true → RecordImages end tail.now (S.held store.old) (S.may store.old) torn.new (S.held store.new) (S.may store.new) result }
    ensures since { S.tells ≡ true → RecordSince S.moment S.may S.since end tail.now (S.held store.old) store.old store.new }
{
    write_synced(store, end + 1, tail)?;
    *torn = true;
    write_synced(store, end, &[1])?;
    *torn = false;
    Ok(())
}
