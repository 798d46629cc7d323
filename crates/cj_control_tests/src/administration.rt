//! What the administrator is answered.

use crate::clusters::play;
use crate::steps::Step;
use cj_administration::AdminError;
use cj_flaky::Flaky;
use cj_mem::MemBackend;
use cj_model::ListOf;
use std::test::Fail;

#[test]
fn what_was_done_already_is_refused(rt: HostRuntime) -> Result<(), Fail> {
    let alloc = rt.alloc();
    let (one, other) = (MemBackend::new(alloc), MemBackend::new(alloc));
    let backends = b"b0 enabled position=2 asks=0 begun=0 faults=0 login=-\n\
b1 disabled position=0 asks=0 begun=0 faults=0 login=-\n";
    let log = b"marker c after 0 backend=-\n1 session=1 tx=0 user=ann BEGIN\n\
2 session=0 tx=1 user=ann ROLLBACK\n";
    let steps = [
        Step::Disable(1, Ok(())),
        Step::Disable(1, Err(AdminError::NotEnabled)),
        Step::Checkpoint(Ok(0)),
        Step::Checkpoint(Err(AdminError::NameTaken)),
        Step::AbortOrphan(7, Err(AdminError::NotOrphan(7))),
        Step::LeaveOpen(1),
        Step::AbortOrphan(1, Ok(2)),
        Step::AbortOrphan(1, Err(AdminError::NotOrphan(1))),
        Step::ShowBackends(backends),
        Step::ShowLog(0, 2, log),
    ];
    let _backends = play(&rt, alloc, one, other, Vec::new(alloc), &steps)?;
    Ok(())
}

#[test]
fn an_audit_names_the_backend_that_fails(rt: HostRuntime) -> Result<(), Fail> {
    let alloc = rt.alloc();
    let one = Flaky::new(MemBackend::new(alloc), ListOf::new(alloc));
    let fails = ListOf::from_vec(Vec::from_array(alloc, [1])?);
    let other = Flaky::new(MemBackend::new(alloc), fails);
    let steps = [Step::Audit(Err(AdminError::Fault(1))), Step::Audit(Ok(b""))];
    let _backends = play(&rt, alloc, one, other, Vec::new(alloc), &steps)?;
    Ok(())
}
