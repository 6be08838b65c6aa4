//! Requests and answers as the six words that crates/call_table/README.md gives.
use super::{OPEN, same};
use fd_table::Access;
use lock_manager::{Errno, FlockOp, LkCmd, Lock, Reply, Request};
use range_core::{Kind, Mode, Whence};
use std::process::Abort;
use std::test::Fail;
use table_steps::{spell_answer, spell_request};

/// Requests with their words.
const REQUESTS: &[(Request, [u64; 6])] = &[
    (OPEN, [1, 0, 2, 0, 0, 0]),
    (
        Request::OpenFile {
            file: 63,
            access: Access::W,
        },
        [1, 63, 1, 0, 0, 0],
    ),
    (Request::DupTo { fd: 3, to: 31 }, [3, 3, 31, 0, 0, 0]),
    (
        Request::Seek { fd: 1, offset: -1 },
        [5, 1, 0, 18446744073709551615, 0, 0],
    ),
    (Request::Resize { fd: 1, size: 50 }, [6, 1, 0, 50, 0, 0]),
    (
        lock!(SetLk, Write, 10, -10),
        [8, 0, 1, 10, 18446744073709551606, 0],
    ),
    (lock!(OSetLkW, Unlock, 0, 2), [12, 0, 2, 0, 2, 0]),
    (
        Request::Flock {
            fd: 0,
            op: FlockOp::Ex,
            nb: true,
        },
        [13, 0, 3, 0, 0, 0],
    ),
    (Request::Fork { child: 2 }, [14, 2, 0, 0, 0, 0]),
    (Request::Exit, [15, 0, 0, 0, 0, 0]),
    (Request::Kill { target: 2 }, [17, 2, 0, 0, 0, 0]),
];

/// Answers with their places and words.
const ANSWERS: &[(Reply, u64, [u64; 6])] = &[
    (Reply::Ok, 5, [1, 0, 0, 0, 0, 5]),
    (Reply::Fd(0), 1, [2, 0, 0, 0, 0, 1]),
    (Reply::Free, 2, [3, 0, 0, 0, 0, 2]),
    (
        Reply::Held {
            mode: Mode::Write,
            start: 0,
            len: 1,
            pid: -1,
        },
        4,
        [4, 1, 0, 1, 18446744073709551615, 4],
    ),
    (Reply::Err(Errno::EDEADLK), 6, [5, 5, 0, 0, 0, 6]),
];

#[test]
fn requests_and_answers_have_these_words(rt: HostRuntime) -> Result<(), Fail> {
    for (request, words) in REQUESTS {
        same(&rt, spell_request(*request), *words);
    }
    for (reply, place, words) in ANSWERS {
        same(&rt, spell_answer(*reply, *place), *words);
    }
    Ok(())
}
