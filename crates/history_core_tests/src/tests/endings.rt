//! Whether a history may end with its waits still waiting.
use super::lines::Line::{Sent, Told};
use super::lines::{ENOUGH, FIRST, Line, TEN, read, same};
use history_core::Action::{Flock, FlockUnlock, FlockWait, Gone, Set, Unlock, Wait};
use history_core::Answer::{Busy, Done};
use history_core::FileHistory;
use range_core::Memory;
use range_core::Mode::{Read, Write};
use std::process::Abort;

/// A wait that is blocked.
const BLOCKED: &[Line] = &[
    Sent(1, 1, Set(Write, TEN)),
    Told(1, Done),
    Sent(2, 2, Wait(Read, FIRST)),
];

/// The same whose wake-up was lost.
const NOT_WOKEN: &[Line] = &[
    Sent(1, 1, Set(Write, TEN)),
    Told(1, Done),
    Sent(2, 2, Wait(Read, FIRST)),
    Sent(1, 1, Unlock(FIRST)),
    Told(1, Done),
];

/// Two waits of which one is to be granted, for nothing blocks both.
const ONE_IS_TO_BE_GRANTED: &[Line] = &[
    Sent(1, 1, Wait(Write, FIRST)),
    Sent(2, 2, Wait(Write, FIRST)),
];

/// The same with an owner that may yet have set its lock.
const MAYBE_BLOCKED: &[Line] = &[
    Sent(1, 1, Wait(Write, FIRST)),
    Sent(2, 2, Wait(Write, FIRST)),
    Sent(3, 3, Set(Write, TEN)),
];

/// An unlock that wasn't answered may be late.
const MAYBE_NOT_WOKEN: &[Line] = &[
    Sent(1, 1, Flock(Write)),
    Told(1, Done),
    Sent(2, 2, FlockWait(Read)),
    Sent(1, 1, FlockUnlock),
];

/// A flock whose wake-up was lost.
const FLOCK_NOT_WOKEN: &[Line] = &[
    Sent(1, 1, Flock(Write)),
    Told(1, Done),
    Sent(2, 2, FlockWait(Read)),
    Sent(1, 1, FlockUnlock),
    Told(1, Done),
];

/// A wait of an owner that died is held up for good.
const DEAD: &[Line] = &[
    Sent(1, 1, Wait(Write, FIRST)),
    Sent(2, 1, Gone),
    Told(2, Done),
];

/// A request that doesn't wait has no wake-up.
const NO_WAIT: &[Line] = &[
    Sent(1, 1, Set(Write, FIRST)),
    Told(1, Done),
    Sent(1, 2, Set(Write, FIRST)),
    Told(1, Busy),
    Sent(1, 1, Unlock(FIRST)),
    Told(1, Done),
    Sent(2, 2, Set(Write, FIRST)),
];

/// Histories, and whether each may end so.
const ENDINGS: &[(&[Line], bool)] = &[
    (BLOCKED, true),
    (NOT_WOKEN, false),
    (ONE_IS_TO_BE_GRANTED, false),
    (MAYBE_BLOCKED, true),
    (MAYBE_NOT_WOKEN, true),
    (FLOCK_NOT_WOKEN, false),
    (DEAD, true),
    (NO_WAIT, true),
    (&[], true),
];

/// The file, which has no line yet, may end behind the lines, or may not.
fn ends_so(rt: &impl Abort, file: &mut FileHistory, lines: &[Line], may_end: bool) {
    read(rt, file, lines);
    same(rt, file.may_end(ENOUGH), Ok(may_end));
}

#[test]
fn of_endings(rt: HostRuntime) -> Result<(), Memory> {
    for (lines, may_end) in ENDINGS {
        let file = &mut FileHistory::new(rt.alloc(), false)?;
        ends_so(&rt, file, lines, *may_end);
    }
    Ok(())
}
