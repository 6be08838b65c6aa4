//! Worked runs of waits, grants, deadlocks, signals and kills: the notes of each event, and what is held and who waits at the end.
use super::Ask::{Close, Command, Fork, Kill, Open, Seek, Set, Signal, Wait};
use super::Kept::{Description, Process};
use super::Run;
use super::Said::{Done, Opened, Refused, Waits};
use super::Step::{Holds, Queue, Stands, Tells};
use fd_table::Access;
use lock_book::Owner;
use lock_manager::{Errno, LkCmd, ProcState};
use range_core::{Kind, Mode, Span, Whence};
use wait_core::Family;

/// A wait of process 1 for a write lock on byte 1 of file 0.
const WAIT: wait_core::Wait = wait_core::Wait {
    p: 1,
    n: 6,
    file: 0,
    family: Family::Bytes,
    owner: Owner::Process(1),
    span: BYTE_1,
    mode: Mode::Write,
};

const BYTE_0: Span = Span { first: 0, last: 0 };

const BYTE_1: Span = Span { first: 1, last: 1 };

const BYTE_2: Span = Span { first: 2, last: 2 };

pub const RUNS: &[Run] = &[
    Run {
        name: "of two that wait for each other the second is refused, and an unlock then grants the first",
        steps: &[
            Tells(1, 1, Open(0, Access::Rw), &[Opened(1, 1, 0)]),
            Tells(1, 2, Fork(2), &[Done(1, 2)]),
            Tells(1, 3, Set(0, Kind::Write, 0, 1), &[Done(1, 3)]),
            Tells(2, 1, Set(0, Kind::Write, 1, 1), &[Done(2, 1)]),
            Tells(1, 4, Wait(Kind::Write, 1, 1), &[Waits(1, 4)]),
            Tells(
                2,
                2,
                Wait(Kind::Write, 0, 1),
                &[Refused(2, 2, Errno::EDEADLK)],
            ),
            Tells(2, 3, Set(0, Kind::Unlock, 1, 1), &[Done(2, 3), Done(1, 4)]),
            Holds(&[Process(1, 0, Mode::Write, 0, 1)]),
            Queue(&[]),
        ],
    },
    Run {
        name: "a cycle is found through two readers of one byte, and F_SETLK is refused as ever",
        steps: &[
            Tells(1, 1, Open(0, Access::Rw), &[Opened(1, 1, 0)]),
            Tells(1, 2, Fork(2), &[Done(1, 2)]),
            Tells(1, 3, Fork(3), &[Done(1, 3)]),
            Tells(1, 4, Fork(4), &[Done(1, 4)]),
            Tells(1, 5, Set(0, Kind::Write, 0, 1), &[Done(1, 5)]),
            Tells(2, 1, Set(0, Kind::Read, 1, 1), &[Done(2, 1)]),
            Tells(3, 1, Set(0, Kind::Read, 1, 1), &[Done(3, 1)]),
            Tells(4, 1, Set(0, Kind::Write, 2, 1), &[Done(4, 1)]),
            Tells(1, 6, Wait(Kind::Write, 1, 1), &[Waits(1, 6)]),
            Tells(3, 2, Wait(Kind::Write, 2, 1), &[Waits(3, 2)]),
            Tells(
                4,
                2,
                Set(0, Kind::Write, 0, 1),
                &[Refused(4, 2, Errno::EAGAIN)],
            ),
            Tells(
                4,
                3,
                Wait(Kind::Write, 0, 1),
                &[Refused(4, 3, Errno::EDEADLK)],
            ),
            Queue(&[
                WAIT,
                wait_core::Wait {
                    p: 3,
                    n: 2,
                    owner: Owner::Process(3),
                    span: BYTE_2,
                    ..WAIT
                },
            ]),
        ],
    },
    Run {
        name: "OFD locks and waits make no step of a cycle: two wait for each other, and nobody is refused",
        steps: &[
            Tells(1, 1, Open(0, Access::Rw), &[Opened(1, 1, 0)]),
            Tells(1, 2, Fork(2), &[Done(1, 2)]),
            Tells(2, 1, Open(0, Access::Rw), &[Opened(2, 1, 1)]),
            Tells(
                1,
                3,
                Command(0, LkCmd::OSetLk, Kind::Write, Whence::Set, 0, 1),
                &[Done(1, 3)],
            ),
            Tells(
                2,
                2,
                Command(1, LkCmd::OSetLk, Kind::Write, Whence::Set, 1, 1),
                &[Done(2, 2)],
            ),
            Tells(
                1,
                4,
                Command(0, LkCmd::OSetLkW, Kind::Write, Whence::Set, 1, 1),
                &[Waits(1, 4)],
            ),
            Tells(
                2,
                3,
                Command(1, LkCmd::OSetLkW, Kind::Write, Whence::Set, 0, 1),
                &[Waits(2, 3)],
            ),
            Queue(&[
                wait_core::Wait {
                    n: 4,
                    owner: Owner::Description(1),
                    ..WAIT
                },
                wait_core::Wait {
                    p: 2,
                    n: 3,
                    owner: Owner::Description(2),
                    span: BYTE_0,
                    ..WAIT
                },
            ]),
        ],
    },
    Run {
        name: "an unlock grants a later wait, whose conversion then lets an earlier one in",
        steps: &[
            Tells(1, 1, Open(0, Access::Rw), &[Opened(1, 1, 0)]),
            Tells(1, 2, Fork(2), &[Done(1, 2)]),
            Tells(1, 3, Fork(3), &[Done(1, 3)]),
            Tells(2, 1, Set(0, Kind::Write, 0, 10), &[Done(2, 1)]),
            Tells(3, 1, Set(0, Kind::Write, 50, 10), &[Done(3, 1)]),
            Tells(1, 4, Wait(Kind::Read, 0, 10), &[Waits(1, 4)]),
            Tells(2, 2, Wait(Kind::Read, 0, 100), &[Waits(2, 2)]),
            Tells(
                3,
                2,
                Set(0, Kind::Unlock, 50, 10),
                &[Done(3, 2), Done(2, 2), Done(1, 4)],
            ),
            Holds(&[
                Process(1, 0, Mode::Read, 0, 9),
                Process(2, 0, Mode::Read, 0, 99),
            ]),
        ],
    },
    Run {
        name: "a signal ends a wait with EINTR and sets nothing; a kill ends the process, and after that neither finds it",
        steps: &[
            Tells(1, 1, Open(0, Access::Rw), &[Opened(1, 1, 0)]),
            Tells(1, 2, Fork(2), &[Done(1, 2)]),
            Tells(1, 3, Set(0, Kind::Write, 0, 1), &[Done(1, 3)]),
            Tells(2, 1, Wait(Kind::Read, 0, 1), &[Waits(2, 1)]),
            Tells(1, 4, Signal(2), &[Done(1, 4), Refused(2, 1, Errno::EINTR)]),
            Tells(1, 5, Signal(2), &[Done(1, 5)]),
            Tells(2, 2, Wait(Kind::Write, 0, 1), &[Waits(2, 2)]),
            Tells(1, 6, Kill(2), &[Done(1, 6)]),
            Tells(1, 7, Signal(2), &[Refused(1, 7, Errno::ESRCH)]),
            Tells(1, 8, Kill(17), &[Refused(1, 8, Errno::ESRCH)]),
            Holds(&[Process(1, 0, Mode::Write, 0, 0)]),
            Queue(&[]),
            Stands(1, ProcState::Live),
            Stands(2, ProcState::Ended),
        ],
    },
    Run {
        name: "a kill of the holder grants who waited, and a kill of oneself is an exit",
        steps: &[
            Tells(1, 1, Open(0, Access::Rw), &[Opened(1, 1, 0)]),
            Tells(1, 2, Fork(2), &[Done(1, 2)]),
            Tells(1, 3, Fork(3), &[Done(1, 3)]),
            Tells(2, 1, Set(0, Kind::Write, 0, 1), &[Done(2, 1)]),
            Tells(3, 1, Wait(Kind::Write, 0, 1), &[Waits(3, 1)]),
            Tells(1, 4, Kill(2), &[Done(1, 4), Done(3, 1)]),
            Tells(1, 5, Kill(1), &[]),
            Holds(&[Process(3, 0, Mode::Write, 0, 0)]),
            Stands(1, ProcState::Ended),
        ],
    },
    Run {
        name: "the range of a wait was found when it was asked for: a later seek of the shared offset doesn't move it",
        steps: &[
            Tells(1, 1, Open(0, Access::Rw), &[Opened(1, 1, 0)]),
            Tells(1, 2, Fork(2), &[Done(1, 2)]),
            Tells(1, 3, Set(0, Kind::Write, 100, 10), &[Done(1, 3)]),
            Tells(2, 1, Seek(0, 100), &[Done(2, 1)]),
            Tells(
                2,
                2,
                Command(0, LkCmd::SetLkW, Kind::Write, Whence::Cur, 0, 5),
                &[Waits(2, 2)],
            ),
            Tells(1, 4, Seek(0, 0), &[Done(1, 4)]),
            Tells(
                1,
                5,
                Set(0, Kind::Unlock, 100, 10),
                &[Done(1, 5), Done(2, 2)],
            ),
            Holds(&[Process(2, 0, Mode::Write, 100, 104)]),
        ],
    },
    Run {
        name: "two processes wait through one description, and one close grants both: each in the room that was held for it",
        steps: &[
            Tells(1, 1, Open(0, Access::Rw), &[Opened(1, 1, 0)]),
            Tells(1, 2, Fork(2), &[Done(1, 2)]),
            Tells(1, 3, Fork(3), &[Done(1, 3)]),
            Tells(3, 1, Set(0, Kind::Write, 0, 100), &[Done(3, 1)]),
            Tells(
                1,
                4,
                Command(0, LkCmd::OSetLkW, Kind::Write, Whence::Set, 10, 5),
                &[Waits(1, 4)],
            ),
            Tells(
                2,
                1,
                Command(0, LkCmd::OSetLkW, Kind::Read, Whence::Set, 12, 1),
                &[Waits(2, 1)],
            ),
            Tells(3, 2, Close(0), &[Done(3, 2), Done(1, 4), Done(2, 1)]),
            Holds(&[
                Description(1, Mode::Write, 10, 11),
                Description(1, Mode::Read, 12, 12),
                Description(1, Mode::Write, 13, 14),
            ]),
        ],
    },
];
