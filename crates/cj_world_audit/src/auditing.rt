//! The audit of a world: what its enabled backends hold.

ghost use Rattle.std.specs.Prelude.{◌≡◌, ◌<◌, ◌++◌, ℕ, true, IfOk, IsErrOf, None, OnOk};
ghost use Rattle.cj_audit.specs.Audits.{StaysText};
ghost use Rattle.cj_cluster.specs.History.Histories as histories;
ghost use Rattle.cj_cluster.specs.History.Histories.{is_free};
ghost use Rattle.cj_state.specs.ArmedCells.{armings_of};
ghost use Rattle.cj_world_audit.specs.Audits as audits;
ghost use Rattle.cj_world_audit.specs.Audits.{audit_text, failed_audit, lines_at};
ghost use Rattle.cj_state.specs.Faults.{faults_after, faults_of};
ghost use Rattle.cj_state.specs.CalledLogins.{logins_of};

use cj_audit::{append_backend, into_text};
use cj_backend::Backend;
use cj_model::{NoMemory, Text};
use cj_outside::Store;
use cj_replica::CellError;
use cj_state::State;
use thiserror::Error;

/// Why there is no audit.
#[derive(Clone, Copy, Debug, PartialEq, Eq, Error)]
pub enum AuditError {
    /// The backend of this number failed.
    #[error("backend {0} failed")]
    Fault(u8),
    #[error("out of memory")]
    NoMemory,
}

impl From<NoMemory> for AuditError {
    ghost use Rattle.std.specs.Prelude.{◌≡◌};
    ghost use Rattle.cj_world_audit.specs.declared.auditing.AuditError.TheVariants as errors;

    ghost from_gives = { λ _ e. e ≡ errors.NoMemory };

    fn from(_error: NoMemory) -> AuditError {
        AuditError::NoMemory
    }
}

fn audit_error(b: u8, error: CellError) -> AuditError
    ensures { result ≡ audits.audit_error b error }
{
    match error {
        CellError::Failed => AuditError::Fault(b),
        CellError::Starved => AuditError::NoMemory,
    }
}

/// Appends the lines of one backend. The backend is asked for its contents if it is enabled, and
/// else has no lines.
fn audit_backend<B: Backend, S: Store>(
    state: &mut State<B, S>,
    text: &mut Vec<u8>,
    b: u8,
) -> Result<(), AuditError>
    requires within { b < state.old.core.placement.backends }
    requires idle { is_free state.old.core.history ≡ true }
    ensures lines { OnOk result (B.tells ≡ true → text.new.items ≡ text.old.items ++ lines_at state.old.setup.names state.old.core b) }
    ensures text { OnOk result (StaysText text.old.items text.new.items) }
    ensures same { failed_audit result ≡ None → state.new ≡ state.old }
    ensures faults { faults_of state.new.cells ≡ faults_after (faults_of state.old.cells) (failed_audit result) }
    ensures enabled { (k : ℕ) → IsErrOf result (AuditError.Fault k) → histories.is_enabled state.old.core.history k ≡ true }
    ensures core { state.new.core ≡ state.old.core }
    ensures setup { state.new.setup ≡ state.old.setup }
    ensures logins { logins_of state.new.cells ≡ logins_of state.old.cells }
    ensures armings { armings_of state.new.cells ≡ armings_of state.old.cells }
    ensures recovery_log { state.new.recovery_log ≡ state.old.recovery_log }
{
    if !state.is_enabled(b) {
        return Ok(());
    }
    state.legal();
    match state.contents(b) {
        Ok(database) => {
            append_backend(text, state.placement().name(b), &database)?;
            Ok(())
        }
        Err(error) => Err(audit_error(b, error)),
    }
}

/// Asks each enabled backend for its contents and returns them as lines, in the order of numbers. A
/// table has a line with its number of rows, and each row has one. No entry is open.
///
/// The first backend that fails ends the audit, which counts one fault. The history, the positions
/// and the sessions stay in any case.
pub fn audit<B: Backend, S: Store>(state: &mut State<B, S>) -> Result<Text, AuditError>
    requires { is_free state.old.core.history ≡ true }
    ensures text { IfOk result (λ text. B.tells ≡ true → text ≡ audit_text state.old.setup.names state.old.core) }
    ensures same { failed_audit result ≡ None → state.new ≡ state.old }
    ensures faults { faults_of state.new.cells ≡ faults_after (faults_of state.old.cells) (failed_audit result) }
    ensures enabled { (b : ℕ) → IsErrOf result (AuditError.Fault b) → histories.is_enabled state.old.core.history b ≡ true }
    ensures core { state.new.core ≡ state.old.core }
    ensures setup { state.new.setup ≡ state.old.setup }
    ensures logins { logins_of state.new.cells ≡ logins_of state.old.cells }
    ensures armings { armings_of state.new.cells ≡ armings_of state.old.cells }
    ensures recovery_log { state.new.recovery_log ≡ state.old.recovery_log }
{
    let mut text = Vec::new(state.allocator());
    for b in 0..state.placement().count() {
        audit_backend(state, &mut text, b)?;
    }
    Ok(into_text(text))
}
