//! The program on a case, over memory.

ghost use Rattle.std.specs.Prelude.{◌≡◌, [], IfOk, map, string_bytes};
ghost use Rattle.cjc_cases.specs.Runs.{IsExplained, KeepsPromises, handed, objects_of};

use cj_cases::{Case, Outcome, Pieces, Runner};
use cj_explain::{Noted, Traces, explain};
use cj_model::NoMemory;
use cj_outside::{FixedClock, MemSink, MemSource, MemStore};
use cj_top::{Ended, run};
use std::alloc::Global;

/// The moment at which each case is run, in Unix seconds.
const MOMENT: i64 = 1_700_000_000;

/// The product's program.
#[derive(Drop)]
pub struct Program;

/// What the program is handed besides the words, the log and the clock.
#[derive(Drop)]
pub struct Objects {
    configuration: MemStore,
    input: Noted<Pieces>,
    output: MemSink,
    errors: Noted<MemSink>,
}

fn store(alloc: Global, content: &[u8], fails: &[u64]) -> Result<MemStore, NoMemory>
    ensures { IfOk result (λ store. store ≡ handed content.now fails.now) }
{
    Ok(MemStore::new(content.to_vec(alloc)?, fails.to_vec(alloc)?))
}

fn source(alloc: Global, case: &Case) -> Result<Noted<Pieces>, NoMemory>
    ensures { IfOk result (λ source. source ≡ handed case.now.input case.now.fails.input) }
{
    let content = case.input().to_vec(alloc)?;
    let source = MemSource::new(content, case.input_fails().to_vec(alloc)?);
    let pieces = Pieces::new(source, case.piece_limit());
    Ok(Noted::new(alloc, pieces))
}

fn sink(alloc: Global, fails: &[u64]) -> Result<MemSink, NoMemory>
    ensures { IfOk result (λ sink. sink ≡ handed [] fails.now) }
{
    Ok(MemSink::new(Vec::new(alloc), fails.to_vec(alloc)?))
}

fn handed_objects(alloc: Global, case: &Case) -> Result<Objects, NoMemory>
    ensures { IfOk result (λ objects. objects ≡ objects_of case.now) }
{
    Ok(Objects {
        configuration: store(alloc, case.configuration(), case.configuration_fails())?,
        input: source(alloc, case)?,
        output: sink(alloc, case.output_fails())?,
        errors: Noted::new(alloc, sink(alloc, case.errors_fails())?),
    })
}

/// Runs the program with these words, over this log and these objects.
fn run_over(
    alloc: Global,
    words: &[String],
    log: MemStore,
    objects: &mut Objects,
    clock: &FixedClock,
) -> Ended<MemStore>
    ensures { KeepsPromises (map string_bytes words.now) log result.log clock.entry.now objects.old objects.new result.status }
{
    run(
        alloc,
        words,
        &mut objects.configuration,
        log,
        &mut objects.input,
        &mut objects.output,
        &mut objects.errors,
        clock,
    )
}

/// Tells why a run of the case ended with this status.
fn explain_over(alloc: Global, case: &Case, status: u8, objects: &mut Objects)
    ensures { IsExplained objects.old objects.new status }
{
    let traces = Traces {
        words: case.words(),
        input: objects.input.notes(),
        line: objects.errors.notes().number(),
        conf: None,
        log: None,
        dumps: None,
        has_read_dumps: false,
    };
    explain(
        alloc,
        status,
        &traces,
        &mut objects.configuration,
        &mut objects.errors,
    );
}

fn copied(alloc: Global, sink: &MemSink) -> Result<Vec<u8>, NoMemory>
    ensures { IfOk result (λ bytes. bytes.items ≡ sink.now.bytes) }
{
    Ok(sink.content().to_vec(alloc)?)
}

fn left(alloc: Global, log: &MemStore) -> Result<Vec<u8>, NoMemory>
    ensures { IfOk result (λ bytes. bytes.items ≡ log.now.bytes) }
{
    Ok(log.content().to_vec(alloc)?)
}

impl Runner for Program {
    ghost use Rattle.cjc_cases.specs.Runs.{GivesAsRun};

    ghost gives = { GivesAsRun };

    fn run(&mut self, alloc: Global, case: &Case) -> Result<Outcome, NoMemory> {
        let log = store(alloc, case.log(), case.log_fails())?;
        let mut objects = handed_objects(alloc, case)?;
        let clock = FixedClock::new(MOMENT);
        let ended = run_over(alloc, case.words(), log, &mut objects, &clock);
        explain_over(alloc, case, ended.status, &mut objects);
        Ok(Outcome {
            status: ended.status,
            output: copied(alloc, &objects.output)?,
            errors: copied(alloc, objects.errors.inner())?,
            log: left(alloc, &ended.log)?,
        })
    }
}
