//! Byte locks that are set, waited for and removed (POSIX.1-2017 fcntl).
use super::lines::Line::{Refused, Sent, Told};
use super::lines::{ALL, FIRST, LAST_ON, Line, MIDST, TEN, WIDE, read_each};
use history_core::Action::{Close, Set, Unlock, Wait};
use history_core::Answer::{Busy, Deadlock, Done, Error, Interrupted};
use range_core::Memory;
use range_core::Mode::{Read, Write};

/// Readers share bytes, a writer shares none, and one owner is never in its own way.
const ONE_AFTER_ANOTHER: &[Line] = &[
    Sent(1, 1, Set(Read, TEN)),
    Refused(1, Busy),
    Refused(2, Done),
    Told(1, Done),
    Refused(1, Done),
    Sent(1, 2, Set(Read, TEN)),
    Told(1, Done),
    Sent(1, 3, Set(Write, LAST_ON)),
    Refused(1, Done),
    Refused(1, Interrupted),
    Told(1, Busy),
    Sent(1, 2, Unlock(ALL)),
    Refused(1, Busy),
    Told(1, Done),
    Sent(1, 1, Set(Write, LAST_ON)),
    Refused(1, Busy),
    Told(1, Done),
    Sent(1, 2, Set(Write, ALL)),
    Refused(1, Done),
    Told(1, Busy),
];

/// An unlock takes just its bytes, and a set replaces the mode on just its bytes.
const JUST_THE_BYTES: &[Line] = &[
    Sent(1, 1, Set(Write, TEN)),
    Told(1, Done),
    Sent(1, 1, Unlock(MIDST)),
    Told(1, Done),
    Sent(2, 2, Set(Write, WIDE)),
    Refused(2, Done),
    Told(2, Busy),
    Sent(2, 2, Set(Write, MIDST)),
    Refused(2, Busy),
    Told(2, Done),
    Sent(1, 1, Set(Write, TEN)),
    Told(1, Busy),
    Sent(2, 2, Unlock(MIDST)),
    Told(2, Done),
    Sent(1, 1, Set(Read, MIDST)),
    Told(1, Done),
    Sent(2, 2, Set(Read, MIDST)),
    Refused(2, Busy),
    Told(2, Done),
    Sent(3, 3, Set(Read, WIDE)),
    Refused(3, Done),
    Told(3, Busy),
    Sent(1, 1, Close),
    Refused(1, Busy),
    Told(1, Done),
    Sent(3, 3, Set(Read, TEN)),
    Refused(3, Busy),
    Told(3, Done),
];

/// Of two that are open at once either may come first, but one of them does.
const EITHER_FIRST: &[Line] = &[
    Sent(1, 1, Set(Write, TEN)),
    Sent(2, 2, Set(Write, FIRST)),
    Told(1, Busy),
    Refused(2, Busy),
    Told(2, Done),
    Sent(1, 1, Set(Write, LAST_ON)),
    Sent(3, 3, Set(Write, ALL)),
    Told(3, Busy),
    Told(1, Done),
];

/// The last byte there is can be locked.
const AT_THE_END: &[Line] = &[
    Sent(u64::MAX, u64::MAX, Set(Write, LAST_ON)),
    Told(u64::MAX, Done),
    Sent(0, 0, Wait(Read, ALL)),
    Refused(0, Done),
    Told(0, Deadlock),
    Sent(1, 0, Set(Read, TEN)),
    Refused(1, Done),
    Told(1, Busy),
];

/// A wait is granted behind what was in its way, which may be before the answer of who took it away, but not before that was sent.
const WAITS: &[Line] = &[
    Sent(1, 1, Set(Write, TEN)),
    Told(1, Done),
    Sent(2, 2, Wait(Write, MIDST)),
    Refused(2, Done),
    Refused(2, Busy),
    Sent(3, 3, Wait(Write, TEN)),
    Sent(4, 1, Unlock(TEN)),
    Told(2, Done),
    Refused(3, Done),
    Refused(4, Busy),
    Told(4, Done),
    Sent(5, 2, Close),
    Told(3, Done),
    Told(5, Done),
];

/// A wait that a signal ended, or a cycle, has changed nothing; who asks without waiting is told neither.
const ENDED_WAITS: &[Line] = &[
    Sent(1, 1, Wait(Write, TEN)),
    Told(1, Interrupted),
    Sent(2, 2, Set(Write, TEN)),
    Refused(2, Busy),
    Told(2, Done),
    Sent(1, 1, Wait(Write, TEN)),
    Told(1, Deadlock),
    Sent(2, 2, Unlock(TEN)),
    Refused(2, Interrupted),
    Told(2, Done),
    Sent(1, 3, Set(Read, TEN)),
    Refused(1, Interrupted),
    Refused(1, Deadlock),
    Told(1, Done),
];

/// What failed may have had its effect or not, before its answer; what wasn't answered yet may have it at any later moment.
const FAILED: &[Line] = &[
    Sent(1, 1, Set(Write, FIRST)),
    Told(1, Error),
    Sent(2, 2, Set(Write, FIRST)),
    Told(2, Done),
    // So the first did nothing.
    Sent(1, 2, Unlock(FIRST)),
    Told(1, Done),
    Sent(3, 3, Set(Write, FIRST)),
    Refused(3, Busy),
    Told(3, Done),
    Sent(4, 3, Unlock(FIRST)),
    Told(4, Error),
    Sent(5, 1, Set(Write, FIRST)),
    Told(5, Done),
    // So that unlock was done.
    Sent(6, 4, Set(Write, MIDST)),
    Sent(7, 5, Set(Read, MIDST)),
    Told(7, Done),
    Sent(8, 5, Unlock(MIDST)),
    Told(8, Done),
    Sent(9, 6, Set(Read, MIDST)),
    Told(9, Busy),
    // So the sixth, which has no answer, was done last.
    Sent(10, 6, Set(Read, MIDST)),
    Refused(10, Done),
    Refused(6, Busy),
    Told(6, Done),
];

/// What an answer takes for done before it stays done: it can't be told otherwise later.
const NOT_UNDONE: &[Line] = &[
    Sent(1, 1, Set(Write, FIRST)),
    Sent(2, 2, Set(Write, FIRST)),
    Told(2, Busy),
    Refused(1, Busy),
    Told(1, Error),
    Sent(2, 2, Set(Write, FIRST)),
    Refused(2, Done),
    Told(2, Busy),
];

#[test]
fn of_byte_locks(rt: HostRuntime) -> Result<(), Memory> {
    let histories = [
        ONE_AFTER_ANOTHER,
        JUST_THE_BYTES,
        EITHER_FIRST,
        AT_THE_END,
        WAITS,
        ENDED_WAITS,
        FAILED,
        NOT_UNDONE,
    ];
    read_each(&rt, rt.alloc(), false, &histories)
}
