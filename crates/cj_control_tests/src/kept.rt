//! Which answers the result cache keeps while other tables change, and where it has several shards.

use crate::clusters::play_with_cache;
use crate::frames::Sent::{self, Query};
use crate::frames::{DONE_0, Talk};
use crate::steps::Step;
use cj_mem::MemBackend;
use cj_model::NoMemory;
use std::alloc::Global;
use std::process::Abort;
use std::sync::Wait;
use std::test::Fail;
use std::thread::Threads;

/// No row of column v.
const NO_V: &[u8] = b"\x00\x00\x00\x0a\x82\x00\x01\x00\x01v\x00\x00\x00\x00";

/// A cache of so many answers is one shard.
const ONE_SHARD: u32 = 1024;

/// A cache of so many answers has 16 shards.
const SHARDS: u32 = 2048;

/// Queries of table `t`, each of which finds nothing.
const QUERIES: [&str; 8] = [
    "SELECT v FROM t",
    "SELECT v FROM t LIMIT 1",
    "SELECT v FROM t LIMIT 2",
    "SELECT v FROM t LIMIT 3",
    "SELECT v FROM t WHERE k = 1",
    "SELECT v FROM t WHERE k = 2",
    "SELECT v FROM t WHERE k = 3",
    "SELECT v FROM t WHERE k = 4",
];

/// What a session sends and is sent, longer than a `Talk` that is written out.
#[derive(Drop)]
struct LongTalk<'a> {
    sent: Vec<Sent<'a>>,
    replies: Vec<&'a [u8]>,
}

impl<'a> LongTalk<'a> {
    /// Two empty tables are made.
    fn new(alloc: Global) -> Result<LongTalk<'a>, NoMemory> {
        let mut talk = LongTalk {
            sent: Vec::new(alloc),
            replies: Vec::new(alloc),
        };
        talk.say("CREATE TABLE t (k INTEGER PRIMARY KEY, v TEXT)", DONE_0)?;
        talk.say("CREATE TABLE u (k INTEGER PRIMARY KEY)", DONE_0)?;
        Ok(talk)
    }

    fn say(&mut self, text: &'a str, reply: &'a [u8]) -> Result<(), NoMemory> {
        self.sent.push(Query(text))?;
        self.replies.push(reply)?;
        Ok(())
    }

    /// Makes so many changes of table `u`, each of which finds no row.
    fn change(&mut self, changes: u64) -> Result<(), NoMemory> {
        for _ in 0..changes {
            self.say("DELETE FROM u", DONE_0)?;
        }
        Ok(())
    }

    /// Looks all queries of table `t` up.
    fn look_up(&mut self) -> Result<(), NoMemory> {
        for query in QUERIES {
            self.say(query, NO_V)?;
        }
        Ok(())
    }
}

/// Looks the queries up twice, changes another table so often, and looks them up once more. In the end a cache of such
/// a size has counted so many hits and misses.
fn look_up_beside_changes<R: Threads + Wait + Abort + Sync>(
    rt: &R,
    alloc: Global,
    cache: u32,
    changes: u64,
    hits: u64,
    misses: u64,
) -> Result<(), NoMemory> {
    let mut long = LongTalk::new(alloc)?;
    long.look_up()?;
    long.look_up()?;
    long.change(changes)?;
    long.look_up()?;
    let talk = Talk {
        sent: long.sent.as_slice(),
        replies: long.replies.as_slice(),
    };
    let steps = [Step::Session(talk), Step::ShowCache(hits, misses)];
    let (one, other) = (MemBackend::new(alloc), MemBackend::new(alloc));
    let _backends = play_with_cache(rt, alloc, cache, one, other, Vec::new(alloc), &steps)?;
    Ok(())
}

#[test]
fn other_tables_changes_leave_an_answer(rt: HostRuntime) -> Result<(), Fail> {
    look_up_beside_changes(&rt, rt.alloc(), ONE_SHARD, 256, 16, 8)?;
    Ok(())
}

#[test]
fn other_tables_changes_leave_the_answers_of_each_shard(rt: HostRuntime) -> Result<(), Fail> {
    look_up_beside_changes(&rt, rt.alloc(), SHARDS, 256, 16, 8)?;
    Ok(())
}

/// News of more than 256 changes do not tell what they touch.
#[test]
fn changes_that_are_not_told_drop_all_answers(rt: HostRuntime) -> Result<(), Fail> {
    look_up_beside_changes(&rt, rt.alloc(), SHARDS, 257, 8, 16)?;
    Ok(())
}
