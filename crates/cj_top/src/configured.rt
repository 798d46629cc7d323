//! What a command is configured with.

ghost use Rattle.std.specs.Prelude.{◌≡◌, ◌++◌, ◌∷◌, ℕ, List, true, [], codes, map, string_bytes, replicate, IfOk, IsErrOf, Ok, Err};
ghost use Rattle.std.specs.Fmt.{decimal};
ghost use Rattle.std.specs.List.{list_all};
ghost use Rattle.cj_model.specs.Cluster.Caching.{empty_cache};
ghost use Rattle.cj_cluster.specs.Script.Lines.{words};
ghost use Rattle.cj_outside.specs.Causes.{CountsFault};
ghost use Rattle.cj_flaky.specs.FlakyBackends.{fresh_over};
ghost use Rattle.cj_mem.specs.MemoryBackends.{fresh_state};
ghost use Rattle.cj_conf.specs.Confs.{IsUsable, conf_of};
ghost use Rattle.cj_conf.specs.declared.error.ConfError.{ConfError};
ghost use Rattle.cj_top.specs.Configured as configured;
ghost use Rattle.cj_top.specs.Configured.{WritesRefusal, refusal_line};
ghost use Rattle.cj_top.specs.Runs.{AreConfBytes};
ghost use Rattle.cj_top.specs.declared.configured.Unconfigured.TheVariants as unconfigured;

use cj_backend::Backend;
use cj_balance::Balancer;
use cj_book::BookParts;
use cj_cache::Cache;
use cj_conf::{BackendKind, Conf, ConfError, read_conf};
use cj_core::{Backends, Parts};
use cj_flaky::Armable;
use cj_lite::{AnyBackend, LiteBackend};
use cj_mem::MemBackend;
use cj_model::NoMemory;
use cj_outside::{OutError, Sink, Store, StoreReadError, read_store, write_all};
use std::alloc::Global;

/// Why there is no configuration.
#[derive(Drop)]
pub enum Unconfigured {
    /// The configuration's store failed.
    Failed,
    Refused(ConfError),
    NoMemory,
}

/// Whether backends of these kinds are all in memory.
pub fn are_in_memory(kinds: &[BackendKind]) -> bool
    ensures { result ≡ list_all configured.is_memory kinds.now }
{
    kinds.iter().all(|kind| matches!(kind, BackendKind::Memory))
}

/// Reads the configuration that the store holds. What the store holds stays.
pub fn conf_of<F: Store>(alloc: Global, store: &mut F) -> Result<Conf, Unconfigured>
    ensures accepted { IfOk result (λ conf. (bytes : List ℕ) × AreConfBytes F.tells (F.held store.old) bytes × (conf_of bytes ≡ Ok conf)) }
    ensures refused { (e : ConfError) → IsErrOf result (unconfigured.Refused e) → (bytes : List ℕ) × AreConfBytes F.tells (F.held store.old) bytes × (conf_of bytes ≡ Err e) }
    ensures usable { IfOk result IsUsable }
    ensures store { F.tells ≡ true → F.held store.new ≡ F.held store.old }
    ensures cause { CountsFault (IsErrOf result unconfigured.Failed) (F.faults store.old) (F.faults store.new) }
{
    let bytes = match read_store(alloc, store) {
        Ok(bytes) => bytes,
        Err(StoreReadError::Failed) => return Err(Unconfigured::Failed),
        Err(StoreReadError::NoMemory) => return Err(Unconfigured::NoMemory),
    };
    match read_conf(alloc, &bytes) {
        Ok(conf) => Ok(conf),
        Err(ConfError::NoMemory) => Err(Unconfigured::NoMemory),
        Err(error) => Err(Unconfigured::Refused(error)),
    }
}

// ---- what is made of it

/// Makes of a configuration what a world is made of beside its backends. The cache is empty.
pub fn parts_of(alloc: Global, conf: Conf) -> Result<Parts, NoMemory>
    requires { IsUsable conf }
    ensures placement { IfOk result (λ parts. parts.book.placement ≡ conf.placement) }
    ensures cache { IfOk result (λ parts. parts.book.cache ≡ empty_cache conf.cache) }
    ensures accounts { IfOk result (λ parts. parts.accounts ≡ conf.accounts) }
{
    let Conf {
        placement,
        accounts,
        policy,
        weights,
        cache,
        ..
    } = conf;
    Ok(Parts {
        book: BookParts {
            placement,
            balancer: Balancer::new(policy, weights),
            cache: Cache::new(alloc, cache)?,
        },
        accounts,
    })
}

/// Makes so many empty backends in memory.
pub fn memory_backends(alloc: Global, count: u8) -> Result<Backends<MemBackend>, NoMemory>
    ensures { IfOk result (λ backends. backends ≡ replicate count fresh_state) }
{
    let mut backends = Backends::new(alloc);
    for _ in 0..count {
        backends.push(MemBackend::new(alloc))?;
    }
    Ok(backends)
}

/// Makes an empty backend of the kind.
fn any_backend(alloc: Global, kind: BackendKind) -> Result<AnyBackend, NoMemory>
    ensures { IfOk result (λ backend. backend ≡ configured.new_of kind) }
{
    match kind {
        BackendKind::Memory => Ok(AnyBackend::Mem(MemBackend::new(alloc))),
        BackendKind::Sqlite => Ok(AnyBackend::Lite(LiteBackend::open(alloc)?)),
    }
}

/// Makes an empty backend of each kind, in the order of the kinds.
pub fn any_backends(alloc: Global, kinds: &[BackendKind]) -> Result<Backends<AnyBackend>, NoMemory>
    ensures { IfOk result (λ backends. backends ≡ map configured.new_of kinds.now) }
{
    let mut backends = Backends::new(alloc);
    for kind in kinds {
        backends.push(any_backend(alloc, *kind)?)?;
    }
    Ok(backends)
}

/// Wraps each of the backends so that it can be armed.
pub fn flaky<B: Backend + Drop>(
    alloc: Global,
    backends: Backends<B>,
) -> Result<Backends<Armable<B>>, NoMemory>
    ensures { IfOk result (λ over. over ≡ map (λ b. fresh_over b []) backends) }
{
    let mut over = Backends::new(alloc);
    for backend in backends.into_vec() {
        over.push(Armable::new(alloc, backend))?;
    }
    Ok(over)
}

// ---- how it is refused

/// The words that tell the refusal by its number.
fn first_words(alloc: Global, number: u8) -> Result<String, NoMemory>
    ensures { IfOk result (λ text. string_bytes text ≡ words (codes "configuration" ∷ codes "refused:" ∷ decimal number ∷ [])) }
{
    Ok(format!(in alloc; "configuration refused: {number}")?)
}

/// The line that tells the refusal by its number and key.
fn first_line(alloc: Global, error: &ConfError) -> Result<Vec<u8>, NoMemory>
    ensures { IfOk result (λ line. line.items ≡ refusal_line error.now) }
{
    let mut line = first_words(alloc, error.number())?.into_bytes();
    let key = error.key();
    if !key.is_empty() {
        line.push(b' ')?;
        line.extend_from_slice(key)?;
    }
    line.push(b'\n')?;
    Ok(line)
}

/// The line that tells the refusal, and behind it a line that says in plain words what is wrong.
fn explained(alloc: Global, error: &ConfError) -> Result<Vec<u8>, NoMemory>
    ensures { IfOk result (λ text. (explanation : List ℕ) × (text.items ≡ refusal_line error.now ++ explanation)) }
{
    let mut text = first_line(alloc, error)?;
    let explanation = format!(in alloc; "{error}\n")?;
    text.extend_from_slice(explanation.as_bytes())?;
    Ok(text)
}

fn write_refusal<E: Sink>(alloc: Global, error: &ConfError, errors: &mut E) -> Result<(), OutError>
    ensures { WritesRefusal (E.held errors.old) (E.held errors.new) (E.faults errors.old) (E.faults errors.new) error.now }
{
    match explained(alloc, error) {
        Ok(text) => write_all(errors, &text),
        Err(_) => Err(OutError::NoMemory),
    }
}

/// Tells the errors why a configuration is refused. Where they fail, nothing else changes.
pub fn tell_refusal<E: Sink>(alloc: Global, error: &ConfError, errors: &mut E)
    ensures { WritesRefusal (E.held errors.old) (E.held errors.new) (E.faults errors.old) (E.faults errors.new) error.now }
{
    let _ = write_refusal(alloc, error, errors);
}
