//! What is done at benches, and what it comes to by the rules.
use super::super::{FORK, OPEN, RULES, WIDE};
use super::Step::{Ask, Rest, Send, Wait};
use super::{Meeting, Step};
use fd_table::Limits;
use lock_manager::{Errno, LkCmd, Lock, Reply, Request, Rules};
use range_core::{Kind, Mode, Whence};
use wait_core::Policy;

/// What process 2 waits for while process 1 has a lock on the first byte.
const WAIT: Request = lock!(SetLkW, Write, 0, 1);

/// Two processes with a file open, of which process 1 has locked the first byte, to read or to write.
macro_rules! locked {
    ($kind:ident, $($step:expr),*) => {
        &[
            Ask(1, OPEN, Some(Reply::Fd(0))),
            Ask(1, FORK, Some(Reply::Ok)),
            Ask(1, lock!(SetLk, $kind, 0, 1), Some(Reply::Ok)),
            $($step),*
        ]
    };
}

/// Traditional and OFD locks meet: the requests of one process.
const OWNERS_SEND: &[Step] = &[
    Send(1, OPEN),
    Send(1, lock!(SetLk, Write, 0, 10)),
    Send(1, lock!(OSetLk, Write, 5, 1)),
    Send(1, lock!(OGetLk, Write, 5, 1)),
    Send(1, lock!(OSetLk, Read, 20, 5)),
    Send(1, lock!(GetLk, Write, 0, 0)),
    Send(1, lock!(GetLk, Read, 20, 5)),
];

/// The answers to them.
const OWNERS_WAIT: &[Step] = &[
    Wait(1, 1, Some(Reply::Fd(0))),
    Wait(1, 2, Some(Reply::Ok)),
    Wait(1, 3, Some(Reply::Err(Errno::EAGAIN))),
    Wait(
        1,
        4,
        Some(Reply::Held {
            mode: Mode::Write,
            start: 0,
            len: 10,
            pid: 1,
        }),
    ),
    Wait(1, 5, Some(Reply::Ok)),
    Wait(
        1,
        6,
        Some(Reply::Held {
            mode: Mode::Read,
            start: 20,
            len: 5,
            pid: -1,
        }),
    ),
    Wait(1, 7, Some(Reply::Free)),
];

/// The file was opened once: its next descriptor is the second one.
const OPENED_ONCE: &[Step] = &[Ask(1, OPEN, Some(Reply::Fd(1)))];

/// A meeting of one thread.
macro_rules! alone {
    ($name:expr, $processes:expr, $policy:ident, $limits:ident, $steps:expr) => {
        Meeting {
            name: $name,
            processes: $processes,
            rules: Rules {
                policy: Policy::$policy,
                limits: Limits::$limits,
            },
            before: $steps,
            both: [&[], &[]],
            after: &[],
        }
    };
}

/// What the limits allow, and then what they don't.
macro_rules! limit {
    ($within:expr, $reply:expr, $past:expr, $refusal:ident) => {
        &[
            Ask(1, OPEN, Some(Reply::Fd(0))),
            Ask(1, $past, Some(Reply::Err(Errno::$refusal))),
            Ask(1, $within, Some($reply)),
        ]
    };
}

pub const MEETINGS: &[Meeting] = &[
    Meeting {
        name: "one thread sends, and another waits, also for what isn't sent yet",
        processes: 1,
        rules: RULES,
        before: &[],
        both: [OWNERS_SEND, OWNERS_WAIT],
        after: OPENED_ONCE,
    },
    Meeting {
        name: "what was taken before a growth was refused stays taken, and is not taken again",
        processes: 1,
        rules: RULES,
        before: OWNERS_SEND,
        both: [&[Wait(1, 7, Some(Reply::Free))], OWNERS_WAIT],
        after: OPENED_ONCE,
    },
    alone!(
        "what was answered before the end of a process is found after it; its exit, and what it sends later, has no answer",
        1,
        Held,
        Small,
        &[
            Ask(1, OPEN, Some(Reply::Fd(0))),
            Ask(1, Request::Exit, None),
            Ask(1, OPEN, None),
            Wait(1, 1, Some(Reply::Fd(0))),
        ]
    ),
    alone!(
        "under the held policy an upgrade behind a writer that waits is set",
        2,
        Held,
        Small,
        locked!(
            Read,
            Send(2, WAIT),
            Wait(1, 3, Some(Reply::Ok)),
            Ask(1, WAIT, Some(Reply::Ok))
        )
    ),
    alone!(
        "under the queue policy it would close a cycle",
        2,
        Queue,
        Small,
        locked!(
            Read,
            Send(2, WAIT),
            Wait(1, 3, Some(Reply::Ok)),
            Ask(1, WAIT, Some(Reply::Err(Errno::EDEADLK)))
        )
    ),
    alone!(
        "under small limits a process has descriptors 0 to 31",
        1,
        Held,
        Small,
        limit!(
            Request::DupTo { fd: 0, to: 31 },
            Reply::Fd(31),
            Request::DupTo { fd: 0, to: 32 },
            EBADF
        )
    ),
    alone!(
        "under wide ones it has descriptors 0 to 255",
        1,
        Held,
        Wide,
        limit!(
            Request::DupTo { fd: 0, to: 255 },
            Reply::Fd(255),
            Request::DupTo { fd: 0, to: 256 },
            EBADF
        )
    ),
    alone!(
        "under wide ones there are 64 processes",
        64,
        Held,
        Wide,
        limit!(
            Request::Fork { child: 64 },
            Reply::Ok,
            Request::Fork { child: 65 },
            EAGAIN
        )
    ),
    alone!(
        "there are as many processes as were asked for, though the limits would allow more",
        63,
        Held,
        Wide,
        limit!(
            Request::Fork { child: 63 },
            Reply::Ok,
            Request::Fork { child: 64 },
            EAGAIN
        )
    ),
];

/// Process 1 ends the wait of process 2 by this request, its fourth one, in every order: what the wait comes to.
macro_rules! orders {
    ($name:expr, $ending:expr, $waited:expr) => {
        &[
            orders!($name, $waited, [], [Ask(1, $ending, Some(Reply::Ok))], [Ask(2, WAIT, $waited)]),
            // The wait is there first.
            orders!(
                $name,
                $waited,
                [Send(2, WAIT), Wait(1, 1, Some(Reply::Fd(0)))],
                [Ask(1, $ending, Some(Reply::Ok))],
                [Wait(2, 1, $waited)]
            ),
            // The wait's end is there first.
            orders!(
                $name,
                $waited,
                [],
                [Ask(1, $ending, Some(Reply::Ok))],
                [Wait(1, 4, Some(Reply::Ok)), Ask(2, WAIT, $waited)]
            ),
            // Both are sent before any of them is taken.
            orders!(
                $name,
                $waited,
                [Send(2, WAIT), Send(1, $ending)],
                [Wait(1, 4, Some(Reply::Ok))],
                [Wait(2, 1, $waited)]
            ),
            // The thread of the wait is asleep, and takes what ends it: the other one only sends.
            orders!(
                $name,
                $waited,
                [Send(2, WAIT)],
                [Rest, Send(1, $ending)],
                [Wait(2, 1, $waited)]
            ),
        ]
    };
    ($name:expr, $waited:expr, [$($before:expr),*], [$($one:expr),*], [$($other:expr),*]) => {
        Meeting {
            name: $name,
            processes: 2,
            rules: RULES,
            before: locked!(Write, $($before),*),
            both: [&[$($one),*], &[$($other),*]],
            after: &[Wait(1, 4, Some(Reply::Ok)), Wait(2, 1, $waited)],
        }
    };
}

pub const UNLOCKS: &[Meeting] = orders!(
    "the process that waits gets its lock from an unlock by another",
    lock!(SetLk, Unlock, 0, 1),
    Some(Reply::Ok)
);

pub const KILLS: &[Meeting] = orders!(
    "the process that waits is killed by another, and never answered",
    Request::Kill { target: 2 },
    None
);
