//! A worked journal, and others that are judged by the rules.
use super::Ask::{Exit, Fork, Open, Set, Wait};
use super::Said;
use super::Said::{Answer, Waits};
use super::check::{Case, Expects, Line};
use lock_manager::{Errno, ProcState, Reply};
use range_core::Kind;

const OPENS: Line = Line {
    p: 1,
    n: 1,
    ask: Open,
    said: &[Answer(1, 1, Reply::Fd(0))],
};

const FORKS_2: Line = Line {
    p: 1,
    n: 2,
    ask: Fork(2),
    said: &[Answer(1, 2, Reply::Ok)],
};

const FORKS_3: Line = Line {
    p: 1,
    n: 3,
    ask: Fork(3),
    said: &[Answer(1, 3, Reply::Ok)],
};

const SECOND_LOCKS: Line = Line {
    p: 2,
    n: 1,
    ask: Set(0, Kind::Write, 0, 10),
    said: &[Answer(2, 1, Reply::Ok)],
};

const THIRD_LOCKS: Line = Line {
    p: 3,
    n: 1,
    ask: Set(0, Kind::Write, 50, 10),
    said: &[Answer(3, 1, Reply::Ok)],
};

const FIRST_WAITS: Line = Line {
    p: 1,
    n: 4,
    ask: Wait(Kind::Read, 0, 10),
    said: &[Waits(1, 4)],
};

const SECOND_WAITS: Line = Line {
    p: 2,
    n: 2,
    ask: Wait(Kind::Read, 0, 100),
    said: &[Waits(2, 2)],
};

pub(super) const THIRD_UNLOCKS: Line = Line {
    p: 3,
    n: 2,
    ask: Set(0, Kind::Unlock, 50, 10),
    said: GRANTED,
};

/// Process 3 is answered, and then process 2 is granted, and only then process 1.
const GRANTED: &[Said] = &[
    Answer(3, 2, Reply::Ok),
    Answer(2, 2, Reply::Ok),
    Answer(1, 4, Reply::Ok),
];

/// A worked run, in which one unlock grants two waits, one of them only after the other one's lock was set.
pub(super) const WORKED: &[Line] = &[
    OPENS,
    FORKS_2,
    FORKS_3,
    SECOND_LOCKS,
    THIRD_LOCKS,
    FIRST_WAITS,
    SECOND_WAITS,
    THIRD_UNLOCKS,
];

/// Journals, and how each is judged; more are tried on the program (`tests/lines/journals`).
pub(super) const CASES: &[Case] = &[
    Case {
        name: "an unlock that tells nothing",
        processes: 3,
        front: 7,
        rest: &[Line {
            said: &[],
            ..THIRD_UNLOCKS
        }],
        legal: 7,
        expects: Expects::Notes(GRANTED),
    },
    Case {
        name: "grants in another order",
        processes: 3,
        front: 7,
        rest: &[Line {
            said: &[
                Answer(3, 2, Reply::Ok),
                Answer(1, 4, Reply::Ok),
                Answer(2, 2, Reply::Ok),
            ],
            ..THIRD_UNLOCKS
        }],
        legal: 7,
        expects: Expects::Notes(GRANTED),
    },
    Case {
        name: "two entries that touch nothing of each other may come in either order",
        processes: 3,
        front: 3,
        rest: &[
            THIRD_LOCKS,
            SECOND_LOCKS,
            FIRST_WAITS,
            SECOND_WAITS,
            THIRD_UNLOCKS,
        ],
        legal: 8,
        expects: Expects::Nothing,
    },
    Case {
        name: "with two processes the second fork is refused",
        processes: 2,
        front: 8,
        rest: &[],
        legal: 2,
        expects: Expects::Notes(&[Answer(1, 3, Reply::Err(Errno::EAGAIN))]),
    },
    Case {
        name: "all before that fork",
        processes: 2,
        front: 2,
        rest: &[],
        legal: 2,
        expects: Expects::Nothing,
    },
    Case {
        name: "at the last place process 3 alone can ask, with number 2: not 0#1",
        processes: 3,
        front: 7,
        rest: &[Line {
            p: 0,
            n: 1,
            ask: Fork(2),
            said: &[Answer(0, 1, Reply::Ok)],
        }],
        legal: 7,
        expects: Expects::NoRequest(ProcState::Unborn),
    },
    Case {
        name: "at the last place process 3 alone can ask, with number 2: not 255#1",
        processes: 3,
        front: 7,
        rest: &[Line {
            p: 255,
            n: 1,
            ask: Fork(2),
            said: &[Answer(255, 1, Reply::Ok)],
        }],
        legal: 7,
        expects: Expects::NoRequest(ProcState::Unborn),
    },
    Case {
        name: "the unlock under another number",
        processes: 3,
        front: 7,
        rest: &[Line {
            n: 0,
            said: &[],
            ..THIRD_UNLOCKS
        }],
        legal: 7,
        expects: Expects::NumberAfter(1),
    },
    Case {
        name: "of who has ended nothing is taken",
        processes: 3,
        front: 7,
        rest: &[
            Line {
                p: 3,
                n: 2,
                ask: Exit,
                said: &[Answer(2, 2, Reply::Ok), Answer(1, 4, Reply::Ok)],
            },
            Line {
                p: 3,
                n: 2,
                ask: Exit,
                said: &[Answer(2, 2, Reply::Ok), Answer(1, 4, Reply::Ok)],
            },
        ],
        legal: 8,
        expects: Expects::NoRequest(ProcState::Ended),
    },
];
