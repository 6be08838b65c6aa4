//! Worked runs that end with questions: what a request asks for, what is the first in its way, and what a descriptor refers to.
use super::Ask::{Close, Command, Dup, Fork, Open, Resize, Seek, Set};
use super::Run;
use super::Step::{Finds, Refers, Replies, Wants};
use fd_table::{Access, Look};
use lock_book::{Held, Owner};
use lock_manager::{InTheWay, LkCmd, Reply};
use range_core::{Kind, Mode, Span, Whence};
use wait_core::{Family, Wait};

/// Process 3 asks to read the first twenty bytes.
const READS_TWENTY: Wait = Wait {
    p: 3,
    n: 1,
    file: 0,
    family: Family::Bytes,
    owner: Owner::Process(3),
    span: Span { first: 0, last: 19 },
    mode: Mode::Read,
};

const READS_FIVE: Wait = Wait {
    span: Span { first: 0, last: 4 },
    ..READS_TWENTY
};

/// Five bytes from byte 5 on, written by process 2.
const SECOND_FIVE: Held = Held {
    file: 0,
    whole: false,
    owner: Owner::Process(2),
    mode: Mode::Write,
    span: Span { first: 5, last: 9 },
};

/// The second description, whose offset was moved.
const SECOND: Look = Look {
    file: 3,
    desc: 2,
    access: Access::R,
    offset: 7,
    size: 100,
};

pub const RUNS: &[Run] = &[
    Run {
        name: "of two locks in the way the first is that of the least byte, and a lock that isn't in the way is no obstacle",
        steps: &[
            Replies(1, Open(0, Access::Rw), Reply::Fd(0)),
            Replies(1, Fork(2), Reply::Ok),
            Replies(1, Fork(3), Reply::Ok),
            Replies(1, Set(0, Kind::Write, 10, 10), Reply::Ok),
            Replies(2, Set(0, Kind::Write, 5, 5), Reply::Ok),
            Wants(
                3,
                1,
                Command(0, LkCmd::SetLkW, Kind::Read, Whence::Set, 0, 20),
                Some(READS_TWENTY),
            ),
            Finds(READS_TWENTY, Some(InTheWay::Lock(SECOND_FIVE))),
            Finds(READS_FIVE, None),
        ],
    },
    Run {
        name: "an unlock asks for no lock, and neither does a command on a descriptor that isn't open",
        steps: &[
            Replies(1, Open(0, Access::Rw), Reply::Fd(0)),
            Wants(1, 2, Set(0, Kind::Unlock, 0, 1), None),
            Wants(1, 2, Set(1, Kind::Read, 0, 1), None),
            Wants(1, 2, Open(0, Access::Rw), None),
        ],
    },
    Run {
        name: "a descriptor shows the description that it shares, the file's size and the offset, and one that was closed shows nothing",
        steps: &[
            Replies(1, Open(3, Access::R), Reply::Fd(0)),
            Replies(1, Open(3, Access::R), Reply::Fd(1)),
            Replies(1, Dup(1), Reply::Fd(2)),
            Replies(1, Seek(2, 7), Reply::Ok),
            Replies(1, Resize(0, 100), Reply::Ok),
            Replies(1, Fork(2), Reply::Ok),
            Replies(2, Close(1), Reply::Ok),
            Refers(1, 1, Some(SECOND)),
            Refers(2, 2, Some(SECOND)),
            Refers(2, 1, None),
            Refers(3, 0, None),
        ],
    },
];
