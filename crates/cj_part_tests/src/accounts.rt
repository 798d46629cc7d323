//! Users and passwords.

ghost use Rattle.std.specs.Prelude.{◌≤◌, length, IfOk};

use crate::given::text;
use cj_auth::Accounts;
use cj_model::{Account, ListOf, USER_LIMIT};
use std::alloc::Global;
use std::process::Abort;
use std::test::Fail;

/// The account of `ann`, whose password is `secret`.
fn account(rt: &impl Abort, alloc: Global) -> Result<Account, Fail>
    ensures { IfOk result (λ account. length account.user ≤ USER_LIMIT) }
{
    let user = text(rt, alloc, "ann")?;
    assert!(rt; user.len() <= USER_LIMIT);
    Ok(Account {
        user,
        digest: text(
            rt,
            alloc,
            "2bb80d537b1da3e38bd30361aa855686bde0eacd7162fef6a25fe97bf527a25b",
        )?,
        logins: ListOf::from_vec(Vec::from_array(alloc, [text(rt, alloc, "login")?])?),
    })
}

#[test]
fn a_user_is_let_in(rt: HostRuntime) -> Result<(), Fail> {
    let alloc = rt.alloc();
    let rows = Vec::from_array(alloc, [account(&rt, alloc)?])?;
    let Ok(accounts) = Accounts::new(alloc, ListOf::from_vec(rows), 1) else {
        panic!(&rt; "accounts")
    };
    assert!(rt; accounts.check(b"ann", b"secret"));
    assert!(rt; !accounts.check(b"ann", b"Secret"));
    assert!(rt; !accounts.check(b"bob", b"secret"));
    Ok(())
}
