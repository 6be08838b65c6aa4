//! Benches and tables, in one thread and in several: what no clause says of them.

/// A lock command on descriptor 0, with offsets from the first byte of the file.
macro_rules! lock {
    ($cmd:ident, $kind:ident, $start:expr, $len:expr) => {
        Request::Lk {
            fd: 0,
            cmd: LkCmd::$cmd,
            lock: Lock {
                kind: Kind::$kind,
                whence: Whence::Set,
                start: $start,
                len: $len,
                pid: 0,
            },
        }
    };
}

mod bench;
mod gate;
mod spelling;
mod table;
mod threads;
mod worked;

use fd_table::{Access, Limits};
use lock_manager::{Request, Rules};
use range_core::Memory;
use std::fmt::Debug;
use std::process::Abort;
use wait_core::Policy;

// Each call that may grow is made again where a growth was refused, and then it must succeed: at most one is refused in a run,
// so these tests pass whichever it is, and a run that refuses none meets no `Memory`.

/// What a call comes to that is made again after a growth was refused.
fn again<T>(rt: &impl Abort, second: Result<T, Memory>) -> T {
    second.expect(rt, "refused again")
}

/// The two are the same.
fn same<T: PartialEq + Debug + Drop>(rt: &impl Abort, left: T, right: T) {
    assert_eq!(rt; left, right);
}

const RULES: Rules = Rules {
    policy: Policy::Held,
    limits: Limits::Small,
};

const WIDE: Rules = Rules {
    policy: Policy::Held,
    limits: Limits::Wide,
};

const OPEN: Request = Request::OpenFile {
    file: 0,
    access: Access::Rw,
};

const FORK: Request = Request::Fork { child: 2 };

const SEEK: Request = Request::Seek { fd: 0, offset: 7 };
