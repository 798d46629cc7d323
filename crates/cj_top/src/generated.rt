//! The workload over backends that can be armed.

ghost use Rattle.std.specs.Prelude.{◌≡◌, ◌≤◌, ◌++◌, ◌⊎◌, ℕ, [], length, map, slice_index_or, true, IfOk, IsErrOf, OnOk};
ghost use Rattle.cj_conf.specs.Confs.{IsUsable};
ghost use Rattle.cj_outside.specs.Causes.{CountsFault};
ghost use Rattle.cj_outside.specs.Streams.{WritesAll};
ghost use Rattle.cj_core.specs.Starts.{state_by};
ghost use Rattle.cj_flaky.specs.FlakyBackends.{arming_of, faults_by};
ghost use Rattle.cj_state.specs.Worlds.{WorldState};
ghost use Rattle.cj_workload.specs.Holdings.{times_armed};
ghost use Rattle.cj_workload.specs.Summaries.{HaveCountsOf, PlaysWorkload};
ghost use Rattle.cj_top.specs.Configured.{AreNew, BeginsAsConfigured, in_memory};
ghost use Rattle.cj_top.specs.Generated as spec;
ghost use Rattle.cj_top.specs.Generated.{GeneratesAsConfigured, RunsGen, count_line, summary_text};
ghost use Rattle.cj_top.specs.Logs.{Found};
ghost use Rattle.cj_args.specs.declared.parts.TheConstants.{COUNT_LIMIT};

use crate::configured::{any_backends, are_in_memory, memory_backends};
use crate::listed::status_of_listing;
use crate::scripted::flaky_world;
use cj_backend::Backend;
use cj_conf::Conf;
use cj_core::Backends;
use cj_flaky::Armable;
use cj_mem::MemBackend;
use cj_model::NoMemory;
use cj_outside::{MemStore, OutError, Sink, write_all};
use cj_workload::{Summary, play};
use std::alloc::Global;

/// Plays the workload on a world of these new backends, as the configuration has them, over a new log in memory. Gives
/// the backends back.
fn play_over<B: Backend + Drop>(
    alloc: Global,
    conf: Conf,
    backends: Backends<B>,
    seed: u64,
    count: u64,
) -> Result<(Summary, Backends<Armable<B>>), NoMemory>
    requires usable { IsUsable conf }
    requires new { AreNew B.tells (length conf.placement.names) (map (state_by B.told B.faults B.asks B.login B.arming) backends) (map B.begun backends) }
    requires few { count ≤ COUNT_LIMIT }
    ensures { IfOk result (λ (summary, backends). (first : WorldState) × BeginsAsConfigured B.tells conf (Found true []) first
        × (plays : PlaysWorkload B.tells true seed count first summary) × HaveCountsOf (λ a. faults_by B.faults a) (λ a. arming_of a) backends plays.ended.world) }
{
    let log = MemStore::new(Vec::new(alloc), Vec::new(alloc));
    let Ok(world) = flaky_world(alloc, conf, log, backends) else {
        return Err(NoMemory);
    };
    match play(alloc, world, seed, count) {
        Ok(summed) => Ok(summed),
        Err(_) => Err(NoMemory),
    }
}

/// Shows that no backend in memory has failed more often than it was armed.
fn show_armed(backends: &[Armable<MemBackend>])
    ensures { (b : ℕ) → slice_index_or (map (λ a. faults_by (λ _. 0) a) backends.now) b 0 ≤ slice_index_or (times_armed (λ a. arming_of a) backends.now) b 0 }
{
    for backend in backends {
        backend.legal();
    }
}

fn play_workload(alloc: Global, conf: Conf, seed: u64, count: u64) -> Result<Summary, NoMemory>
    requires usable { IsUsable conf }
    requires few { count ≤ COUNT_LIMIT }
    ensures { IfOk result (GeneratesAsConfigured (in_memory conf) conf seed count) }
{
    if are_in_memory(conf.kinds.as_slice()) {
        let backends = memory_backends(alloc, conf.placement.count())?;
        let (summary, backends) = play_over(alloc, conf, backends, seed, count)?;
        show_armed(backends.as_slice());
        return Ok(summary);
    }
    let backends = any_backends(alloc, conf.kinds.as_slice())?;
    let (summary, _backends) = play_over(alloc, conf, backends, seed, count)?;
    Ok(summary)
}

fn add_count(alloc: Global, text: &mut Vec<u8>, name: &str, count: u64) -> Result<(), NoMemory>
    ensures { OnOk result (text.new.items ≡ text.old.items ++ count_line name.now count) }
{
    let line = format!(in alloc; "{name} {count}\n")?;
    text.extend_from_slice(line.as_bytes())?;
    Ok(())
}

fn equal_line(equal: bool) -> &'static [u8]
    ensures { result.now ≡ spec.equal_line equal }
{
    if equal { b"equal yes\n" } else { b"equal no\n" }
}

/// The lines of the summary.
fn summary_lines(alloc: Global, summary: &Summary) -> Result<Vec<u8>, NoMemory>
    ensures { IfOk result (λ text. text.items ≡ summary_text summary.now) }
{
    let mut text = Vec::new(alloc);
    add_count(alloc, &mut text, "statements", summary.statements)?;
    add_count(alloc, &mut text, "entries", summary.entries)?;
    add_count(alloc, &mut text, "faults", summary.faults)?;
    add_count(alloc, &mut text, "enabled", summary.enabled)?;
    add_count(alloc, &mut text, "rows", summary.rows)?;
    add_count(alloc, &mut text, "hits", summary.hits)?;
    add_count(alloc, &mut text, "misses", summary.misses)?;
    text.extend_from_slice(equal_line(summary.equal))?;
    Ok(text)
}

fn write_summary<O: Sink>(alloc: Global, summary: &Summary, output: &mut O) -> Result<(), OutError>
    ensures bytes { WritesAll (O.held output.old) (O.held output.new) (summary_text summary.now) result }
    ensures cause { CountsFault (IsErrOf result OutError.Failed) (O.faults output.old) (O.faults output.new) }
{
    match summary_lines(alloc, summary) {
        Ok(text) => write_all(output, &text),
        Err(_) => Err(OutError::NoMemory),
    }
}

/// The command `gen` with this configuration: plays the workload of the seed and the count, and writes its summary.
/// Answers the exit status: 0, or 6 where the output failed, or 1 where memory was wanting or no host of the table
/// could be asked in the end.
pub fn run_gen<O: Sink>(alloc: Global, conf: Conf, seed: u64, count: u64, output: &mut O) -> u8
    requires usable { IsUsable conf }
    requires few { count ≤ COUNT_LIMIT }
    ensures comes { RunsGen conf seed count (O.held output.old) (O.held output.new) result ⊎ (result ≡ 1) × (output.new ≡ output.old) }
    ensures output { CountsFault (result ≡ 6) (O.faults output.old) (O.faults output.new) }
    ensures other { (result ≡ 0) ⊎ (result ≡ 1) ⊎ (result ≡ 6) }
{
    match play_workload(alloc, conf, seed, count) {
        Ok(summary) => status_of_listing(write_summary(alloc, &summary, output)),
        Err(NoMemory) => 1,
    }
}
