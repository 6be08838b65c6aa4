//! How a program uses a session; docs/EMBEDDING.md points here.
use fd_table::{Access, Limits};
use lock_manager::{Errno, FlockOp, Reply, Request, Rules};
use session_core::run_all;
use std::test::Fail;
use wait_core::Policy;

const RULES: Rules = Rules {
    policy: Policy::Held,
    limits: Limits::Small,
};

/// Process 1 has an exclusive flock lock; process 2, its child, opens the file anew and asks to share it, without waiting.
#[test]
fn requests_are_values(rt: HostRuntime) -> Result<(), Fail> {
    let open = |file, access| Request::OpenFile { file, access };
    let flock = |fd, op, nb| Request::Flock { fd, op, nb };
    let arrivals = [
        (1, open(0, Access::Rw)),
        (1, flock(0, FlockOp::Ex, false)),
        (1, Request::Fork { child: 2 }),
        (2, open(0, Access::Rw)),
        (2, flock(1, FlockOp::Sh, true)),
    ];
    let session = run_all(rt.alloc(), 2, RULES, &arrivals)?;
    assert_eq!(rt; session.answer_of(2, 1), Some(Reply::Fd(1)));
    assert_eq!(rt; session.answer_of(2, 2), Some(Reply::Err(Errno::EAGAIN)));
    Ok(())
}
