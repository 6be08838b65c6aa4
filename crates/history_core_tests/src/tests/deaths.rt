//! Owners that die (POSIX.1-2017 fcntl, the process terminates; flock(2), all descriptors have been closed).
use super::lines::Line::{Refused, Sent, Told};
use super::lines::{ALL, FIRST, Line, TEN, read_each};
use history_core::Action::{Flock, Get, Gone, Set, Unlock, Wait};
use history_core::Answer::{Busy, Done, Free, Held, Interrupted};
use range_core::Memory;
use range_core::Mode::{Read, Write};

/// A death takes all of its owner, at a moment between its two lines.
const TAKES_ALL: &[Line] = &[
    Sent(1, 1, Set(Write, TEN)),
    Told(1, Done),
    Sent(1, 1, Flock(Write)),
    Told(1, Done),
    Sent(1, 1, Gone),
    Sent(2, 2, Set(Write, TEN)),
    Told(2, Busy),
    Sent(2, 2, Set(Write, TEN)),
    Told(2, Done),
    Refused(1, Busy),
    Told(1, Done),
    Sent(2, 2, Flock(Write)),
    Refused(2, Busy),
    Told(2, Done),
];

/// What the owner had asked for doesn't happen any more.
const ENDS_REQUESTS: &[Line] = &[
    Sent(1, 1, Set(Write, FIRST)),
    Sent(2, 1, Gone),
    Told(2, Done),
    Sent(3, 2, Get(Write, ALL)),
    Refused(3, Held(Some(1), Write, FIRST)),
    Told(3, Free),
    // It may have happened before.
    Told(1, Done),
    // A wait that was blocked until then didn't.
    Sent(1, 2, Set(Write, FIRST)),
    Told(1, Done),
    Sent(3, 3, Wait(Write, FIRST)),
    Sent(4, 3, Gone),
    Told(4, Done),
    Sent(1, 2, Unlock(FIRST)),
    Told(1, Done),
    Refused(3, Done),
    Told(3, Interrupted),
];

/// A request that is sent behind the line of a death is as any other, whether the death comes before or behind it.
const SENT_BEHIND: &[Line] = &[
    Sent(1, 1, Gone),
    Sent(2, 1, Set(Write, FIRST)),
    Told(2, Done),
    Told(1, Done),
    Sent(2, 2, Get(Write, ALL)),
    Told(2, Held(Some(1), Write, FIRST)),
    Sent(1, 1, Gone),
    Sent(2, 1, Set(Write, TEN)),
    Told(2, Done),
    Sent(2, 2, Get(Write, ALL)),
    Told(2, Held(Some(1), Write, TEN)),
    Told(1, Done),
    Sent(2, 2, Get(Write, ALL)),
    Told(2, Free),
];

/// A death ends no other, and none of another owner's requests.
const ENDS_NO_OTHER: &[Line] = &[
    Sent(1, 1, Gone),
    Sent(2, 1, Gone),
    Sent(3, 2, Wait(Read, TEN)),
    Told(1, Done),
    Told(2, Done),
    Told(3, Done),
    Sent(3, 3, Set(Write, TEN)),
    Refused(3, Done),
    Told(3, Busy),
];

#[test]
fn of_deaths(rt: HostRuntime) -> Result<(), Memory> {
    let histories = [TAKES_ALL, ENDS_REQUESTS, SENT_BEHIND, ENDS_NO_OTHER];
    read_each(&rt, rt.alloc(), false, &histories)
}
