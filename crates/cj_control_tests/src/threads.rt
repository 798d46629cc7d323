//! Sessions in two threads: each reads what it wrote, reads are answered at the same time, and so are an entry's
//! backends.

ghost use Rattle.std.specs.Prelude.{◌≡◌};
ghost use Rattle.cj_mem.specs.MemoryBackends.{fresh_state};

use crate::clusters::play;
use crate::frames::Sent::Query;
use crate::frames::{DONE_0, DONE_1, DONE_2, Talk};
use crate::steps::Step;
use cj_flaky::{Gate, Gated};
use cj_mem::MemBackend;
use std::alloc::Global;
use std::sync::Arc;
use std::sync::atomic::{AtomicU64, Ordering};
use std::test::Fail;

/// 1 in column k.
const K_1: &[u8] = b"\x00\x00\x00\x13\x82\x00\x01\x00\x01k\x00\x00\x00\x01\
\x01\x00\x00\x00\x00\x00\x00\x00\x01";

/// 2 in column k.
const K_2: &[u8] = b"\x00\x00\x00\x13\x82\x00\x01\x00\x01k\x00\x00\x00\x01\
\x01\x00\x00\x00\x00\x00\x00\x00\x02";

/// 1 and 2 in column k.
const K_1_2: &[u8] = b"\x00\x00\x00\x1c\x82\x00\x01\x00\x01k\x00\x00\x00\x02\
\x01\x00\x00\x00\x00\x00\x00\x00\x01\x01\x00\x00\x00\x00\x00\x00\x00\x02";

const CREATE: &str = "CREATE TABLE t (k INTEGER PRIMARY KEY)";

/// Each session reads at one backend and then at the other, since no text was asked before.
#[test]
fn each_session_reads_what_it_wrote(rt: HostRuntime) -> Result<(), Fail> {
    let alloc = rt.alloc();
    let (one, other) = (MemBackend::new(alloc), MemBackend::new(alloc));
    let first = Talk {
        sent: &[Query(CREATE)],
        replies: &[DONE_0],
    };
    let left = Talk {
        sent: &[
            Query("INSERT INTO t VALUES (1)"),
            Query("SELECT k FROM t WHERE k = 1"),
            Query("SELECT k FROM t WHERE k = 1 LIMIT 1"),
        ],
        replies: &[DONE_1, K_1, K_1],
    };
    let right = Talk {
        sent: &[
            Query("INSERT INTO t VALUES (2)"),
            Query("SELECT k FROM t WHERE k = 2"),
            Query("SELECT k FROM t WHERE k = 2 LIMIT 1"),
        ],
        replies: &[DONE_1, K_2, K_2],
    };
    let last = Talk {
        sent: &[Query("SELECT k FROM t ORDER BY k")],
        replies: &[K_1_2],
    };
    let steps = [
        Step::Session(first),
        Step::Both(left, right),
        Step::Session(last),
    ];
    let _backends = play(&rt, alloc, one, other, Vec::new(alloc), &steps)?;
    Ok(())
}

/// So often a gate looks for the other.
const LOOKS: u64 = 100_000_000;

type Flag = Arc<AtomicU64, Global>;

/// A gate that raises a flag, and then looks for that of another. Where it gives up, it says so.
#[derive(Drop)]
struct Meeting {
    mine: Flag,
    other: Flag,
    missed: Flag,
}

/// Looks for a flag. Where it gives up, it says so.
fn await_flag(flag: &Flag, missed: &Flag) {
    for _ in 0..LOOKS {
        if flag.load(Ordering::SeqCst) == 1 {
            return;
        }
    }
    missed.store(1, Ordering::SeqCst);
}

impl Gate for Meeting {
    fn pass(&mut self) {
        self.mine.store(1, Ordering::SeqCst);
        await_flag(&self.other, &self.missed);
    }

    fn again(&self) -> Option<Meeting> {
        Some(Meeting {
            mine: Arc::try_clone(&self.mine).ok()?,
            other: Arc::try_clone(&self.other).ok()?,
            missed: Arc::try_clone(&self.missed).ok()?,
        })
    }
}

/// A gate at which writes meet, and reads do not.
#[derive(Drop)]
struct WriteMeeting {
    meeting: Meeting,
}

impl Gate for WriteMeeting {
    fn pass(&mut self) {}

    fn pass_write(&mut self) {
        self.meeting.pass();
    }

    fn again(&self) -> Option<WriteMeeting> {
        let meeting = self.meeting.again()?;
        Some(WriteMeeting { meeting })
    }
}

/// A gate of two backends: at one a query waits for the third write, and at the other the second write waits for the
/// query. So the query is asked before the second write, and answered after it.
#[derive(Drop)]
struct Overtaken {
    /// Whether queries wait here, and not the second write.
    holds_queries: bool,
    asked: Flag,
    written: Flag,
    missed: Flag,
    writes: u64,
}

impl Gate for Overtaken {
    fn pass(&mut self) {
        if self.holds_queries {
            self.asked.store(1, Ordering::SeqCst);
            await_flag(&self.written, &self.missed);
        }
    }

    fn pass_write(&mut self) {
        self.writes = self.writes.saturating_add(1);
        match self.writes {
            1 => {}
            2 if self.holds_queries => {}
            2 => await_flag(&self.asked, &self.missed),
            _ => self.written.store(1, Ordering::SeqCst),
        }
    }

    fn again(&self) -> Option<Overtaken> {
        Some(Overtaken {
            holds_queries: self.holds_queries,
            asked: Arc::try_clone(&self.asked).ok()?,
            written: Arc::try_clone(&self.written).ok()?,
            missed: Arc::try_clone(&self.missed).ok()?,
            writes: 0,
        })
    }
}

/// Makes such a gate over these flags, at which no write has come.
fn gate_over(
    holds_queries: bool,
    asked: &Flag,
    written: &Flag,
    missed: &Flag,
) -> Result<Overtaken, Fail> {
    Ok(Overtaken {
        holds_queries,
        asked: Arc::try_clone(asked)?,
        written: Arc::try_clone(written)?,
        missed: Arc::try_clone(missed)?,
        writes: 0,
    })
}

/// Makes a meeting of who raises the first flag and looks for the other.
fn made(mine: &Flag, other: &Flag, missed: &Flag) -> Result<Meeting, Fail> {
    Ok(Meeting {
        mine: Arc::try_clone(mine)?,
        other: Arc::try_clone(other)?,
        missed: Arc::try_clone(missed)?,
    })
}

/// A backend with a gate.
fn gated<G: Gate>(alloc: Global, gate: G) -> Gated<MemBackend, G>
    ensures { result.inner ≡ fresh_state }
{
    Gated::new(MemBackend::new(alloc), gate)
}

#[test]
fn a_read_is_answered_while_another_is_asked(rt: HostRuntime) -> Result<(), Fail> {
    let alloc = rt.alloc();
    let left = Arc::new(alloc, AtomicU64::new(0))?;
    let right = Arc::new(alloc, AtomicU64::new(0))?;
    let missed = Arc::new(alloc, AtomicU64::new(0))?;
    let one = gated(alloc, made(&left, &right, &missed)?);
    let other = gated(alloc, made(&right, &left, &missed)?);
    let first = Talk {
        sent: &[Query(CREATE), Query("INSERT INTO t VALUES (1), (2)")],
        replies: &[DONE_0, DONE_2],
    };
    let of_one = Talk {
        sent: &[Query("SELECT k FROM t WHERE k = 1")],
        replies: &[K_1],
    };
    let of_two = Talk {
        sent: &[Query("SELECT k FROM t WHERE k = 2")],
        replies: &[K_2],
    };
    let steps = [Step::Session(first), Step::Both(of_one, of_two)];
    let _backends = play(&rt, alloc, one, other, Vec::new(alloc), &steps)?;
    assert!(rt; missed.load(Ordering::SeqCst) == 0);
    Ok(())
}

/// The query waits at its gate while another session's INSERT is answered, and then has the rows before that. It is the
/// second query, so it goes to the second backend.
#[test]
fn an_insert_is_answered_while_a_read_waits(rt: HostRuntime) -> Result<(), Fail> {
    let alloc = rt.alloc();
    let asked = Arc::new(alloc, AtomicU64::new(0))?;
    let written = Arc::new(alloc, AtomicU64::new(0))?;
    let missed = Arc::new(alloc, AtomicU64::new(0))?;
    let one = gated(alloc, gate_over(false, &asked, &written, &missed)?);
    let other = gated(alloc, gate_over(true, &asked, &written, &missed)?);
    let first = Talk {
        sent: &[
            Query(CREATE),
            Query("INSERT INTO t VALUES (1)"),
            Query("SELECT k FROM t"),
        ],
        replies: &[DONE_0, DONE_1, K_1],
    };
    let read = Talk {
        sent: &[Query("SELECT k FROM t ORDER BY k")],
        replies: &[K_1],
    };
    let write = Talk {
        sent: &[
            Query("INSERT INTO t VALUES (2)"),
            Query("INSERT INTO t VALUES (3)"),
        ],
        replies: &[DONE_1, DONE_1],
    };
    let last = Talk {
        sent: &[Query("SELECT k FROM t ORDER BY k LIMIT 2")],
        replies: &[K_1_2],
    };
    let steps = [
        Step::Session(first),
        Step::Both(read, write),
        Step::Session(last),
    ];
    let _backends = play(&rt, alloc, one, other, Vec::new(alloc), &steps)?;
    assert!(rt; missed.load(Ordering::SeqCst) == 0);
    Ok(())
}

/// Backend 0 carries the DELETE out in the session's thread, and backend 1 in its worker's.
#[test]
fn an_entry_is_carried_out_by_both_backends_at_once(rt: HostRuntime) -> Result<(), Fail> {
    let alloc = rt.alloc();
    let left = Arc::new(alloc, AtomicU64::new(0))?;
    let right = Arc::new(alloc, AtomicU64::new(0))?;
    let missed = Arc::new(alloc, AtomicU64::new(0))?;
    let meeting_of_one = made(&left, &right, &missed)?;
    let meeting_of_other = made(&right, &left, &missed)?;
    let one = gated(
        alloc,
        WriteMeeting {
            meeting: meeting_of_one,
        },
    );
    let other = gated(
        alloc,
        WriteMeeting {
            meeting: meeting_of_other,
        },
    );
    let written = Talk {
        sent: &[
            Query(CREATE),
            Query("DELETE FROM t"),
            Query("INSERT INTO t VALUES (1)"),
        ],
        replies: &[DONE_0, DONE_0, DONE_1],
    };
    let read = Talk {
        sent: &[Query("SELECT k FROM t WHERE k = 1")],
        replies: &[K_1],
    };
    let shown = b"b0 enabled position=3 asks=1 begun=0 faults=0 login=l0\n\
b1 enabled position=3 asks=0 begun=0 faults=0 login=l1\n";
    let steps = [
        Step::WithWorker(written),
        Step::Session(read),
        Step::ShowBackends(shown),
    ];
    let _backends = play(&rt, alloc, one, other, Vec::new(alloc), &steps)?;
    assert!(rt; missed.load(Ordering::SeqCst) == 0);
    Ok(())
}
