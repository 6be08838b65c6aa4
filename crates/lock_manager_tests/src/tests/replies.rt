//! Worked runs in which nobody waits: the reply to each request, and what is held then.
use super::Ask::{Close, Command, Dup, DupTo, Exit, Fork, Open, Resize, Seek, Set, WithPid};
use super::Kept::{Description, Process};
use super::Run;
use super::Said::Done;
use super::Step::{Holds, Queue, Replies, Stands, Tells, Unable};
use fd_table::Access;
use lock_manager::{Errno, LkCmd, ProcState, Reply};
use range_core::{Kind, Mode, OFFMAX, Whence};

const AGAIN: Reply = Reply::Err(Errno::EAGAIN);

const BAD: Reply = Reply::Err(Errno::EBADF);

const INVALID: Reply = Reply::Err(Errno::EINVAL);

const OVERFLOW: Reply = Reply::Err(Errno::EOVERFLOW);

/// The largest offset.
const LARGEST: i64 = i64::MAX;

/// The lock of the first ten bytes of a file, by process 1.
const FIRST_TEN: Reply = Reply::Held {
    mode: Mode::Write,
    start: 0,
    len: 10,
    pid: 1,
};

/// 100 bytes from byte 8 on, read by process 2.
const HUNDRED_FROM_8: Reply = Reply::Held {
    mode: Mode::Read,
    start: 8,
    len: 100,
    pid: 2,
};

/// Ten bytes from byte 5 on, read by process 4.
const TEN_FROM_5: Reply = Reply::Held {
    mode: Mode::Read,
    start: 5,
    len: 10,
    pid: 4,
};

/// Locks of a description: they tell -1 for a process.
const FIVE_FROM_20: Reply = Reply::Held {
    mode: Mode::Read,
    start: 20,
    len: 5,
    pid: -1,
};

const ALL_FROM_30: Reply = Reply::Held {
    mode: Mode::Write,
    start: 30,
    len: 0,
    pid: -1,
};

const TEN_FROM_30: Reply = Reply::Held {
    mode: Mode::Write,
    start: 30,
    len: 10,
    pid: -1,
};

pub const RUNS: &[Run] = &[
    Run {
        name: "opens, locks and refusals in the order of the standard's errors",
        steps: &[
            Replies(1, Open(0, Access::Rw), Reply::Fd(0)),
            Replies(1, Set(0, Kind::Write, 0, 100), Reply::Ok),
            Replies(1, Set(0, Kind::Read, 40, 20), Reply::Ok),
            Replies(1, Open(5, Access::W), Reply::Fd(1)),
            Replies(1, Open(64, Access::R), INVALID),
            Replies(1, Set(1, Kind::Read, 0, 1), BAD),
            Replies(1, Set(1, Kind::Unlock, 0, 0), Reply::Ok),
            Replies(1, Set(1, Kind::Read, -1, 1), INVALID),
            Replies(1, Set(1, Kind::Write, LARGEST, 2), OVERFLOW),
            Replies(1, Set(9, Kind::Write, -1, 1), BAD),
            Replies(1, Set(1, Kind::Write, LARGEST, 1), Reply::Ok),
            Holds(&[
                Process(1, 0, Mode::Write, 0, 39),
                Process(1, 0, Mode::Read, 40, 59),
                Process(1, 0, Mode::Write, 60, 99),
                Process(1, 5, Mode::Write, OFFMAX, OFFMAX),
            ]),
        ],
    },
    Run {
        name: "a descriptor that dup made shares the offset, and the size is the file's",
        steps: &[
            Replies(1, Open(2, Access::Rw), Reply::Fd(0)),
            Replies(1, Dup(0), Reply::Fd(1)),
            Replies(1, Seek(1, 50), Reply::Ok),
            Replies(
                1,
                Command(0, LkCmd::SetLk, Kind::Write, Whence::Cur, 0, 10),
                Reply::Ok,
            ),
            Replies(1, Resize(0, 200), Reply::Ok),
            Replies(
                1,
                Command(1, LkCmd::SetLk, Kind::Read, Whence::End, -10, 10),
                Reply::Ok,
            ),
            Replies(1, Seek(0, -1), INVALID),
            Replies(1, Seek(2, 0), BAD),
            Replies(1, Resize(0, -1), INVALID),
            Replies(1, Resize(2, 0), BAD),
            Replies(1, Dup(2), BAD),
            Replies(
                1,
                Command(1, LkCmd::SetLk, Kind::Write, Whence::Cur, 20, 10),
                Reply::Ok,
            ),
            Holds(&[
                Process(1, 2, Mode::Write, 50, 59),
                Process(1, 2, Mode::Write, 70, 79),
                Process(1, 2, Mode::Read, 190, 199),
            ]),
        ],
    },
    Run {
        name: "a child shares its parent's descriptions and has none of its locks, and its number can be had once",
        steps: &[
            Replies(1, Open(2, Access::Rw), Reply::Fd(0)),
            Replies(1, Seek(0, 50), Reply::Ok),
            Replies(1, Resize(0, 200), Reply::Ok),
            Replies(
                1,
                Command(0, LkCmd::SetLk, Kind::Write, Whence::Cur, 0, 10),
                Reply::Ok,
            ),
            Replies(
                1,
                Command(0, LkCmd::SetLk, Kind::Read, Whence::End, -10, 10),
                Reply::Ok,
            ),
            Replies(1, Fork(2), Reply::Ok),
            Replies(1, Fork(2), AGAIN),
            Replies(1, Fork(0), AGAIN),
            Replies(1, Fork(17), AGAIN),
            Replies(2, Set(0, Kind::Read, 50, 10), AGAIN),
            Replies(
                2,
                Command(0, LkCmd::SetLk, Kind::Read, Whence::End, -10, 10),
                Reply::Ok,
            ),
            Replies(2, Seek(0, 70), Reply::Ok),
            Replies(
                1,
                Command(0, LkCmd::SetLk, Kind::Write, Whence::Cur, 0, 10),
                Reply::Ok,
            ),
            Replies(2, Fork(1), AGAIN),
            Replies(2, Fork(16), Reply::Ok),
            Replies(16, Dup(0), Reply::Fd(1)),
            Stands(2, ProcState::Live),
            Stands(3, ProcState::Unborn),
            Stands(16, ProcState::Live),
            Stands(17, ProcState::Unborn),
            Unable(0),
            Holds(&[
                Process(1, 2, Mode::Write, 50, 59),
                Process(1, 2, Mode::Write, 70, 79),
                Process(1, 2, Mode::Read, 190, 199),
                Process(2, 2, Mode::Read, 190, 199),
            ]),
        ],
    },
    Run {
        name: "both kinds of lock conflict with each other, and a get command tells of the whole lock that blocks first",
        steps: &[
            Replies(1, Open(0, Access::Rw), Reply::Fd(0)),
            Replies(1, Set(0, Kind::Write, 0, 10), Reply::Ok),
            Replies(
                1,
                Command(0, LkCmd::OSetLk, Kind::Write, Whence::Set, 5, 1),
                AGAIN,
            ),
            Replies(
                1,
                Command(0, LkCmd::OGetLk, Kind::Write, Whence::Set, 5, 1),
                FIRST_TEN,
            ),
            Replies(
                1,
                Command(0, LkCmd::OSetLk, Kind::Read, Whence::Set, 20, 5),
                Reply::Ok,
            ),
            Replies(
                1,
                Command(0, LkCmd::GetLk, Kind::Write, Whence::Set, 0, 0),
                FIVE_FROM_20,
            ),
            Replies(
                1,
                Command(0, LkCmd::GetLk, Kind::Read, Whence::Set, 20, 5),
                Reply::Free,
            ),
            Replies(1, Set(0, Kind::Write, 22, 1), AGAIN),
            Replies(
                1,
                Command(0, LkCmd::OSetLk, Kind::Write, Whence::Set, 30, 0),
                Reply::Ok,
            ),
            Replies(
                1,
                Command(0, LkCmd::GetLk, Kind::Read, Whence::Set, 0, 0),
                ALL_FROM_30,
            ),
            Replies(
                1,
                Command(0, LkCmd::OSetLk, Kind::Unlock, Whence::Set, 40, 0),
                Reply::Ok,
            ),
            Replies(
                1,
                Command(0, LkCmd::GetLk, Kind::Read, Whence::Set, 35, 1),
                TEN_FROM_30,
            ),
            Replies(
                1,
                Command(0, LkCmd::GetLk, Kind::Read, Whence::Set, 40, 1),
                Reply::Free,
            ),
            Holds(&[
                Process(1, 0, Mode::Write, 0, 9),
                Description(1, Mode::Read, 20, 24),
                Description(1, Mode::Write, 30, 39),
            ]),
        ],
    },
    Run {
        name: "of several locks that block, the one at the least byte is told, and there that of the least owner",
        steps: &[
            Replies(1, Open(0, Access::Rw), Reply::Fd(0)),
            Replies(1, Fork(2), Reply::Ok),
            Replies(1, Fork(3), Reply::Ok),
            Replies(1, Fork(4), Reply::Ok),
            Replies(4, Set(0, Kind::Read, 5, 10), Reply::Ok),
            Replies(3, Set(0, Kind::Read, 8, 4), Reply::Ok),
            Replies(2, Set(0, Kind::Read, 8, 100), Reply::Ok),
            Replies(
                1,
                Command(0, LkCmd::GetLk, Kind::Write, Whence::Set, 8, 0),
                HUNDRED_FROM_8,
            ),
            Replies(
                1,
                Command(0, LkCmd::GetLk, Kind::Write, Whence::Set, 0, 0),
                TEN_FROM_5,
            ),
            Replies(
                1,
                Command(0, LkCmd::GetLk, Kind::Write, Whence::Set, 15, 1),
                HUNDRED_FROM_8,
            ),
        ],
    },
    Run {
        name: "the refusals of the get and OFD commands in their order; a get needs no access mode",
        steps: &[
            Replies(1, Open(0, Access::R), Reply::Fd(0)),
            Replies(1, WithPid(1, LkCmd::OSetLk, -1, 7), BAD),
            Replies(1, WithPid(0, LkCmd::OSetLk, 0, 7), INVALID),
            Replies(1, WithPid(0, LkCmd::OSetLk, LARGEST, -7), INVALID),
            Replies(1, WithPid(0, LkCmd::OGetLk, 0, 1), INVALID),
            Replies(1, WithPid(0, LkCmd::GetLk, 0, 7), Reply::Free),
            Replies(1, WithPid(0, LkCmd::SetLk, 0, 7), BAD),
            Replies(
                1,
                Command(0, LkCmd::GetLk, Kind::Unlock, Whence::Set, 0, 1),
                INVALID,
            ),
            Replies(
                1,
                Command(0, LkCmd::OGetLk, Kind::Unlock, Whence::Set, LARGEST, 2),
                INVALID,
            ),
            Replies(
                1,
                Command(0, LkCmd::GetLk, Kind::Write, Whence::Set, LARGEST, 2),
                OVERFLOW,
            ),
            Replies(
                1,
                Command(0, LkCmd::OGetLk, Kind::Write, Whence::Set, LARGEST, 2),
                OVERFLOW,
            ),
            Replies(
                1,
                Command(0, LkCmd::OSetLk, Kind::Write, Whence::Set, LARGEST, 2),
                OVERFLOW,
            ),
            Replies(
                1,
                Command(0, LkCmd::OSetLk, Kind::Write, Whence::Set, 0, 1),
                BAD,
            ),
            Replies(
                1,
                Command(0, LkCmd::OGetLk, Kind::Write, Whence::Set, 0, 1),
                Reply::Free,
            ),
            Replies(
                1,
                Command(0, LkCmd::OSetLk, Kind::Unlock, Whence::Set, 0, 1),
                Reply::Ok,
            ),
            Holds(&[]),
        ],
    },
    Run {
        name: "a close of any descriptor of a file takes the process' traditional locks on it",
        steps: &[
            Replies(1, Open(3, Access::Rw), Reply::Fd(0)),
            Replies(1, Open(3, Access::R), Reply::Fd(1)),
            Replies(1, Set(0, Kind::Write, 0, 10), Reply::Ok),
            Replies(1, Close(1), Reply::Ok),
            Replies(1, Close(1), BAD),
            Replies(1, Close(32), BAD),
            Holds(&[]),
        ],
    },
    Run {
        name: "dup2 onto itself changes nothing; onto another descriptor it closes that one, with all that a close takes",
        steps: &[
            Replies(1, Open(0, Access::Rw), Reply::Fd(0)),
            Replies(1, Open(0, Access::Rw), Reply::Fd(1)),
            Replies(1, Set(0, Kind::Write, 0, 10), Reply::Ok),
            Replies(1, DupTo(0, 0), Reply::Fd(0)),
            Replies(
                1,
                Command(1, LkCmd::OGetLk, Kind::Write, Whence::Set, 0, 0),
                FIRST_TEN,
            ),
            Replies(1, DupTo(0, 1), Reply::Fd(1)),
            Replies(
                1,
                Command(1, LkCmd::OGetLk, Kind::Write, Whence::Set, 0, 0),
                Reply::Free,
            ),
            Replies(1, DupTo(0, 32), BAD),
            Replies(1, Dup(0), Reply::Fd(2)),
            Replies(1, Close(1), Reply::Ok),
            Replies(1, Open(0, Access::R), Reply::Fd(1)),
            Holds(&[]),
        ],
    },
    Run {
        name: "an OFD lock outlives all but the last descriptor of its description, also where processes end; an end isn't answered",
        steps: &[
            Replies(1, Open(0, Access::Rw), Reply::Fd(0)),
            Replies(
                1,
                Command(0, LkCmd::OSetLk, Kind::Write, Whence::Set, 0, 0),
                Reply::Ok,
            ),
            Replies(1, Dup(0), Reply::Fd(1)),
            Replies(1, Close(0), Reply::Ok),
            Replies(1, Fork(2), Reply::Ok),
            Tells(1, 6, Exit, &[]),
            Stands(1, ProcState::Ended),
            Tells(
                2,
                1,
                Command(1, LkCmd::OSetLk, Kind::Unlock, Whence::Set, 0, 10),
                &[Done(2, 1)],
            ),
            Holds(&[Description(1, Mode::Write, 10, OFFMAX)]),
            Tells(2, 2, Exit, &[]),
            Holds(&[]),
        ],
    },
    Run {
        name: "nobody waits, neither at the opening nor beside a lock that stands in the way",
        steps: &[
            Queue(&[]),
            Replies(1, Open(0, Access::Rw), Reply::Fd(0)),
            Replies(1, Fork(2), Reply::Ok),
            Replies(1, Set(0, Kind::Write, 0, 1), Reply::Ok),
            Replies(2, Set(0, Kind::Write, 0, 1), AGAIN),
            Queue(&[]),
        ],
    },
];
