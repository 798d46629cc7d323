//! The audit of a world: what its enabled backends hold, as lines.
//!
//! Promised: the lines are those of each enabled backend's part of the database after the whole log. That is said
//! only of backends whose contents contracts see. The first backend that fails ends the audit, which counts one
//! fault.
//! To change: `auditing.rt` asks the backends. `cj_audit` has the lines of one backend.
//! To read: `specs/Audits`. Proofs begin in `proofs/LinesAdded`.
#![tactic(auto)]

mod auditing;

pub use auditing::{AuditError, audit};
