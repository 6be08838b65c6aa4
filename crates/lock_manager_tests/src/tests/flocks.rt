//! Worked runs of flock: the notes of each event, and what is held and who waits at the end.
use super::Ask::{Close, Command, Flock, FlockNow, Fork, Open, Set};
use super::Kept::Whole;
use super::Run;
use super::Said::{Blocked, Done, Opened, Refused, Waits};
use super::Step::{Holds, Queue, Tells};
use fd_table::Access;
use lock_book::Owner;
use lock_manager::{Errno, FlockOp, LkCmd};
use range_core::{Kind, Mode, OFFMAX, Span, Whence};
use wait_core::{Family, Wait};

pub const RUNS: &[Run] = &[
    Run {
        name: "an upgrade that is refused has lost its old lock, and the other reader keeps his",
        steps: &[
            Tells(1, 1, Open(0, Access::R), &[Opened(1, 1, 0)]),
            Tells(1, 2, Open(0, Access::R), &[Opened(1, 2, 1)]),
            Tells(1, 3, Flock(0, FlockOp::Sh), &[Done(1, 3)]),
            Tells(1, 4, Flock(1, FlockOp::Sh), &[Done(1, 4)]),
            Tells(
                1,
                5,
                FlockNow(0, FlockOp::Ex),
                &[Refused(1, 5, Errno::EAGAIN)],
            ),
            Holds(&[Whole(2, Mode::Read)]),
        ],
    },
    Run {
        name: "a downgrade lets another's wait in first, and is then refused",
        steps: &[
            Tells(1, 1, Open(0, Access::Rw), &[Opened(1, 1, 0)]),
            Tells(1, 2, Fork(2), &[Done(1, 2)]),
            Tells(2, 1, Open(0, Access::Rw), &[Opened(2, 1, 1)]),
            Tells(1, 3, Flock(0, FlockOp::Ex), &[Done(1, 3)]),
            Tells(2, 2, Flock(1, FlockOp::Ex), &[Waits(2, 2)]),
            Tells(
                1,
                4,
                FlockNow(0, FlockOp::Sh),
                &[Refused(1, 4, Errno::EAGAIN), Done(2, 2)],
            ),
            Holds(&[Whole(2, Mode::Write)]),
            Queue(&[]),
        ],
    },
    Run {
        name: "a flock lock meets no byte lock, is shared by who shares the description, and goes with its last descriptor",
        steps: &[
            Tells(1, 1, Open(0, Access::Rw), &[Opened(1, 1, 0)]),
            Tells(1, 2, Set(0, Kind::Write, 0, 10), &[Done(1, 2)]),
            Tells(1, 3, Flock(0, FlockOp::Ex), &[Done(1, 3)]),
            Tells(1, 4, Fork(2), &[Done(1, 4)]),
            Tells(
                2,
                1,
                Command(0, LkCmd::GetLk, Kind::Write, Whence::Set, 0, 10),
                &[Blocked(2, 1, Mode::Write, 0, 10, 1)],
            ),
            Tells(1, 5, Close(0), &[Done(1, 5)]),
            Tells(2, 2, Open(0, Access::R), &[Opened(2, 2, 1)]),
            Tells(
                2,
                3,
                FlockNow(1, FlockOp::Sh),
                &[Refused(2, 3, Errno::EAGAIN)],
            ),
            Tells(2, 4, Close(0), &[Done(2, 4)]),
            Tells(2, 5, FlockNow(1, FlockOp::Sh), &[Done(2, 5)]),
            Holds(&[Whole(2, Mode::Read)]),
        ],
    },
    Run {
        name: "two readers that both upgrade: the second's conversion lets the first in, and it then waits itself",
        steps: &[
            Tells(1, 1, Open(0, Access::R), &[Opened(1, 1, 0)]),
            Tells(1, 2, Fork(2), &[Done(1, 2)]),
            Tells(2, 1, Open(0, Access::R), &[Opened(2, 1, 1)]),
            Tells(1, 3, Flock(0, FlockOp::Sh), &[Done(1, 3)]),
            Tells(2, 2, Flock(1, FlockOp::Sh), &[Done(2, 2)]),
            Tells(1, 4, Flock(0, FlockOp::Ex), &[Waits(1, 4)]),
            Tells(2, 3, Flock(1, FlockOp::Ex), &[Waits(2, 3), Done(1, 4)]),
            Holds(&[Whole(1, Mode::Write)]),
            Queue(&[Wait {
                p: 2,
                n: 3,
                file: 0,
                family: Family::Whole,
                owner: Owner::Description(2),
                span: Span {
                    first: 0,
                    last: OFFMAX,
                },
                mode: Mode::Write,
            }]),
        ],
    },
    Run {
        name: "the mode that is held already changes nothing; an unlock always succeeds, and grants who waits",
        steps: &[
            Tells(1, 1, Open(0, Access::Rw), &[Opened(1, 1, 0)]),
            Tells(1, 2, Flock(1, FlockOp::Un), &[Refused(1, 2, Errno::EBADF)]),
            Tells(1, 3, Flock(0, FlockOp::Un), &[Done(1, 3)]),
            Tells(1, 4, Fork(2), &[Done(1, 4)]),
            Tells(2, 1, Open(0, Access::Rw), &[Opened(2, 1, 1)]),
            Tells(1, 5, Flock(0, FlockOp::Ex), &[Done(1, 5)]),
            Tells(2, 2, Flock(1, FlockOp::Sh), &[Waits(2, 2)]),
            Tells(1, 6, FlockNow(0, FlockOp::Ex), &[Done(1, 6)]),
            Tells(1, 7, FlockNow(0, FlockOp::Un), &[Done(1, 7), Done(2, 2)]),
            Tells(1, 8, FlockNow(0, FlockOp::Un), &[Done(1, 8)]),
            Holds(&[Whole(2, Mode::Read)]),
        ],
    },
];
