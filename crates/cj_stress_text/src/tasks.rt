//! What the words of the command ask for.

/// What the words may be.
pub const USAGE: &str =
    "usage: cjc_stress stress raidb1|raidb2 START SECONDS SEED sound|faulty|planted
       cjc_stress bench reads|writes|beside THREADS REQUESTS CACHE
";

/// So many clients there are where a cluster is tried.
const CLIENTS: u8 = 16;

/// So many there are where a fault is planted.
const CLIENTS_PLANTED: u8 = 3;

/// Which placement the cluster has.
#[derive(Clone, Copy, PartialEq, Eq)]
pub enum Placed {
    /// Each backend has each table.
    Everywhere,
    /// Each table is on some backends.
    InPart,
}

/// What is wrong in a trial.
#[derive(Clone, Copy, PartialEq, Eq)]
pub enum Wrong {
    Nothing,
    /// Some calls of the backends fail.
    Backends,
    /// A client reads by a new session each time, so that it may read what is older than it was answered. This is
    /// planted: who looks at the replies has to find it.
    Client,
}

/// What is tried.
#[derive(Clone, Copy)]
pub struct Plan {
    pub placed: Placed,
    /// So many starts over the same log came before.
    pub start: u64,
    /// For so long sessions begin.
    pub seconds: u64,
    pub seed: u64,
    pub wrong: Wrong,
}

/// What is measured: each thread has one session.
#[derive(Clone, Copy)]
pub struct Measure {
    pub kind: Kind,
    /// So many threads share the cluster. With 0 it is not shared: one session has it for itself.
    pub threads: u8,
    /// So many requests a session has.
    pub requests: u64,
    /// The result cache keeps so many answers.
    pub cache: u64,
}

/// What the sessions ask for.
#[derive(Clone, Copy, PartialEq, Eq)]
pub enum Kind {
    Reads,
    Writes,
    /// Reads, while one thread more writes without pause.
    Beside,
}

/// What the program does.
#[derive(Clone, Copy)]
pub enum Task {
    Stress(Plan),
    Bench(Measure),
}

impl Task {
    /// How many threads there are, beside that of number 0.
    pub fn threads(self) -> u8 {
        match self {
            Task::Stress(plan) if plan.wrong == Wrong::Client => CLIENTS_PLANTED,
            Task::Stress(_) => CLIENTS,
            Task::Bench(measure) => measure.threads,
        }
    }

    /// Where random numbers begin.
    pub fn seed(self) -> u64 {
        match self {
            Task::Stress(plan) => plan.seed.wrapping_mul(100).wrapping_add(plan.start),
            Task::Bench(_) => 0,
        }
    }
}

fn number(word: &str) -> Option<u64> {
    word.parse::<u64>().ok()
}

fn placed_of(word: &str) -> Option<Placed> {
    match word {
        "raidb1" => Some(Placed::Everywhere),
        "raidb2" => Some(Placed::InPart),
        _ => None,
    }
}

fn wrong_of(word: &str) -> Option<Wrong> {
    match word {
        "sound" => Some(Wrong::Nothing),
        "faulty" => Some(Wrong::Backends),
        "planted" => Some(Wrong::Client),
        _ => None,
    }
}

fn kind_of(word: &str) -> Option<Kind> {
    match word {
        "reads" => Some(Kind::Reads),
        "writes" => Some(Kind::Writes),
        "beside" => Some(Kind::Beside),
        _ => None,
    }
}

/// The words behind `stress`.
fn plan_of(words: &[String]) -> Option<Plan> {
    let [placed, start, seconds, seed, wrong] = words else {
        return None;
    };
    Some(Plan {
        placed: placed_of(placed.as_str())?,
        start: number(start.as_str())?,
        seconds: number(seconds.as_str())?,
        seed: number(seed.as_str())?,
        wrong: wrong_of(wrong.as_str())?,
    })
}

/// The words behind `bench`.
fn measure_of(words: &[String]) -> Option<Measure> {
    let [kind, threads, requests, cache] = words else {
        return None;
    };
    Some(Measure {
        kind: kind_of(kind.as_str())?,
        threads: threads.as_str().parse::<u8>().ok()?,
        requests: number(requests.as_str())?,
        cache: number(cache.as_str())?,
    })
}

/// What the words ask for, or None if it is nothing that this program does.
pub fn task_of(words: &[String]) -> Option<Task> {
    let [verb, rest @ ..] = words else {
        return None;
    };
    match verb.as_str() {
        "stress" => Some(Task::Stress(plan_of(rest)?)),
        "bench" => Some(Task::Bench(measure_of(rest)?)),
        _ => None,
    }
}
