//! Backends that wrap another one: `Flaky` and `Armable` fail on command, `Gated` waits at a gate, `Wrong` lies.
//!
//! `Flaky` answers `Failed` to calls that are listed by number or armed, and passes every other call on. `Armable` is
//! a `Flaky` of which no call is listed. `legal` of both shows that no more calls failed then than were armed
//! (`FailsOnlyArmed`). `Gated` waits before each query and write, and passes every call on. `Wrong` passes every call
//! on, tells nothing, and may change the answers. The contracts are those of `cj_backend`; `Flaky` also says which
//! calls fail and what the inner backend makes of the others.
//!
//! A new call of `cj_backend` needs an implementation in each file. Proofs are those of the loops of `Wrong`. Read
//! `specs/FlakyBackends` first, in particular `FailsOrPasses`.
#![tactic(auto)]

mod armable;
mod flaky;
mod gated;
mod wrong;

pub use armable::Armable;
pub use flaky::Flaky;
pub use gated::{Gate, Gated, GatedSnap};
pub use wrong::{Wrong, WrongSnap};
