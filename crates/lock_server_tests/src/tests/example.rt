//! How a file server uses the lock server; docs/EMBEDDING.md quotes the lines of the test.
use lock_server::{Conversion, LockServer, Mode, Policy, Rules, Span, WaitAnswer};
use range_core::OFFMAX;
use std::test::Fail;

#[test]
fn answers_a_request_later(rt: HostRuntime) -> Result<(), Fail> {
    let mut server = LockServer::new(
        rt.alloc(),
        Rules {
            policy: Policy::Held,
            conversion: Conversion::Atomic,
        },
    );
    let all = Span {
        first: 0,
        last: OFFMAX,
    };
    server.set(4711, 1, all, Some(Mode::Write))?;
    let told = server.wait(70, 4711, 2, all, Mode::Read, true)?;
    assert_eq!(rt; told, WaitAnswer::Waits); // ticket 70 is told when it is granted
    server.flush(4711, 1);
    assert_eq!(rt; server.next_grant(), Some(70));
    Ok(())
}
