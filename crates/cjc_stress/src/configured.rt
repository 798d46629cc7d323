//! What a cluster is configured with.

ghost use Rattle.std.specs.Prelude.{◌≡◌, ◌<◌, All, IfOk, IfSome, length};
ghost use Rattle.cj_model.specs.Cluster.Caching.{empty_cache};
ghost use Rattle.cj_conf.specs.Confs.{IsUsable};
ghost use Rattle.cj_flaky.specs.FlakyBackends.{fresh_over};
ghost use Rattle.cj_mem.specs.MemoryBackends.{fresh_state};

use crate::gate::Slow;
use cj_balance::Balancer;
use cj_book::BookParts;
use cj_cache::Cache;
use cj_conf::{Conf, read_conf};
use cj_core::{Backends, Parts};
use cj_flaky::{Flaky, Gated};
use cj_mem::MemBackend;
use cj_model::{ListOf, NoMemory};
use cj_outside::{Draw, PcgDraw};
use cj_stress_text::{Placed, Task, Wrong};
use std::alloc::Global;
use std::time::Clock;

/// A backend that fails in some calls, and whose calls take time.
pub type Tried<R> = Gated<Flaky<MemBackend>, Slow<R>>;

/// So many microseconds each write of a backend takes.
const WRITE: u64 = 40;

/// So many microseconds each query of `b1` takes where a fault is planted.
const LAG: u64 = 10000;

/// A backend that fails does so in so many calls.
const FAILS: u64 = 3;

const EVERYWHERE: &[u8] = b"level = \"raidb1\"
cache = 8
backends = [{ name = \"b0\", kind = \"memory\" }, { name = \"b1\", kind = \"memory\" }, { name = \"b2\", kind = \"memory\" }, { name = \"b3\", kind = \"memory\" }]
users = [{ name = \"ann\", sha256 = \"2bb80d537b1da3e38bd30361aa855686bde0eacd7162fef6a25fe97bf527a25b\", logins = [\"l0\", \"l1\", \"l2\", \"l3\"] }]
";

const IN_PART: &[u8] = b"level = \"raidb2\"
cache = 8
backends = [{ name = \"b0\", kind = \"memory\" }, { name = \"b1\", kind = \"memory\" }, { name = \"b2\", kind = \"memory\" }, { name = \"b3\", kind = \"memory\" }]
tables = [{ name = \"t0\", hosts = [\"b0\", \"b1\"] }, { name = \"t1\", hosts = [\"b1\", \"b2\", \"b3\"] }, { name = \"t2\", hosts = [\"b0\", \"b2\", \"b3\"] }, { name = \"t3\", hosts = [\"b2\", \"b3\"] }]
users = [{ name = \"ann\", sha256 = \"2bb80d537b1da3e38bd30361aa855686bde0eacd7162fef6a25fe97bf527a25b\", logins = [\"l0\", \"l1\", \"l2\", \"l3\"] }]
";

/// The text of the configuration of a cluster that is tried.
fn tried(placed: Placed) -> &'static [u8] {
    match placed {
        Placed::Everywhere => EVERYWHERE,
        Placed::InPart => IN_PART,
    }
}

/// The configuration that a text is. None if it is none, or memory is wanting.
fn conf_of(alloc: Global, text: &[u8]) -> Option<Conf>
    ensures { IfSome result IsUsable }
{
    match read_conf(alloc, text) {
        Ok(conf) => Some(conf),
        Err(_) => None,
    }
}

/// The configuration of a cluster that is measured, with a result cache that keeps so many answers.
fn measured(alloc: Global, cache: u64) -> Result<String, NoMemory> {
    Ok(format!(in alloc;
        "level = \"raidb1\"
cache = {cache}
backends = [{{ name = \"b0\", kind = \"memory\" }}, {{ name = \"b1\", kind = \"memory\" }}]
users = [{{ name = \"ann\", sha256 = \"2bb80d537b1da3e38bd30361aa855686bde0eacd7162fef6a25fe97bf527a25b\", logins = [\"l0\", \"l1\"] }}]
"
    )?)
}

/// The configuration of the cluster of a task. None if memory is wanting, or the cache is too large.
fn conf_of_task(alloc: Global, task: Task) -> Option<Conf>
    ensures { IfSome result IsUsable }
{
    match task {
        Task::Stress(plan) => conf_of(alloc, tried(plan.placed)),
        Task::Bench(measure) => conf_of(alloc, measured(alloc, measure.cache).ok()?.as_bytes()),
    }
}

/// Makes of a configuration what a world is made of beside its backends.
pub fn parts_of(alloc: Global, conf: Conf) -> Result<Parts, NoMemory>
    requires { IsUsable conf }
    ensures placement { IfOk result (λ parts. parts.book.placement ≡ conf.placement) }
    ensures cache { IfOk result (λ parts. parts.book.cache ≡ empty_cache conf.cache) }
    ensures accounts { IfOk result (λ parts. parts.accounts ≡ conf.accounts) }
{
    let Conf {
        placement,
        accounts,
        policy,
        weights,
        cache,
        ..
    } = conf;
    Ok(Parts {
        book: BookParts {
            placement,
            balancer: Balancer::new(policy, weights),
            cache: Cache::new(alloc, cache)?,
        },
        accounts,
    })
}

/// Returns among how many first calls of backend `b` those are that fail. They are ever more, so that some backend
/// fails soon on a slow machine, and some one late on a fast machine.
fn tried_calls(b: u8) -> u64
    ensures { 0 < result }
{
    match b {
        1 => 500,
        2 => 5000,
        _ => 50000,
    }
}

/// Draws the numbers of the calls that fail, of so many first ones.
fn drawn_fails(alloc: Global, draw: &mut PcgDraw, calls: u64) -> Result<ListOf<u64>, NoMemory>
    requires { 0 < calls }
{
    let mut fails = ListOf::new(alloc);
    for _ in 0..FAILS {
        fails.push(draw.below(calls))?;
    }
    Ok(fails)
}

/// Makes the gate of backend `b`.
fn slow<R: Clock + Copy>(clock: R, task: Task, b: u8) -> Slow<R> {
    match task {
        Task::Stress(plan) if plan.wrong == Wrong::Client && b == 1 => Slow::new(clock, LAG, WRITE),
        Task::Stress(_) => Slow::new(clock, 0, WRITE),
        Task::Bench(_) => Slow::new(clock, 0, 0),
    }
}

/// Draws the numbers of the calls of backend `b` that fail. There are none where nothing is to fail, and of the first
/// one.
fn listed_fails(
    alloc: Global,
    draw: &mut PcgDraw,
    task: Task,
    b: u8,
) -> Result<ListOf<u64>, NoMemory> {
    match task {
        Task::Stress(plan) if plan.wrong == Wrong::Backends && b > 0 => {
            drawn_fails(alloc, draw, tried_calls(b))
        }
        _ => Ok(ListOf::new(alloc)),
    }
}

/// Makes backend `b`, which is empty.
fn tried_backend<R: Clock + Copy>(
    clock: R,
    alloc: Global,
    draw: &mut PcgDraw,
    task: Task,
    b: u8,
) -> Result<Tried<R>, NoMemory>
    ensures { IfOk result (λ made. made.inner ≡ fresh_over fresh_state made.inner.fails) }
{
    let listed = listed_fails(alloc, draw, task, b)?;
    let flaky = Flaky::new(MemBackend::new(alloc), listed);
    Ok(Gated::new(flaky, slow(clock, task, b)))
}

/// Makes so many empty backends.
fn tried_backends<R: Clock + Copy>(
    clock: R,
    alloc: Global,
    count: u8,
    task: Task,
) -> Result<Backends<Tried<R>>, NoMemory>
    ensures count { IfOk result (λ backends. length backends ≡ count) }
    ensures fresh { IfOk result (All (λ b. b.inner ≡ fresh_over fresh_state b.inner.fails)) }
{
    let mut draw = PcgDraw::new(task.seed());
    let mut backends = Backends::new(alloc);
    for b in 0..count {
        backends.push(tried_backend(clock, alloc, &mut draw, task, b)?)?;
    }
    Ok(backends)
}

/// Makes the configuration of the cluster of a task, and its backends. None if memory is wanting.
pub fn setting<R: Clock + Copy>(
    clock: R,
    alloc: Global,
    task: Task,
) -> Option<(Conf, Backends<Tried<R>>)>
    ensures usable { IfSome result (λ made. IsUsable made.0) }
    ensures count { IfSome result (λ made. length made.1 ≡ length made.0.placement.names) }
    ensures fresh { IfSome result (λ made. All (λ b. b.inner ≡ fresh_over fresh_state b.inner.fails) made.1) }
{
    let conf = conf_of_task(alloc, task)?;
    match tried_backends(clock, alloc, conf.placement.count(), task) {
        Ok(backends) => Some((conf, backends)),
        Err(_) => None,
    }
}
