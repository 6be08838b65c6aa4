//! What a get tells (POSIX.1-2017 fcntl, `F_GETLK`).
use super::lines::Line::{Refused, Sent, Told};
use super::lines::{ALL, FIRST, Line, MIDST, TEN, WIDE, read_each};
use history_core::Action::{Get, Set, Unlock};
use history_core::Answer::{Busy, Done, Free, Held};
use range_core::Mode::{Read, Write};
use range_core::{Memory, Span};

/// The first eleven bytes.
const ELEVEN: Span = Span { first: 0, last: 10 };

/// Bytes behind those in the midst.
const LATER: Span = Span { first: 6, last: 9 };

/// The bytes before the midst, and those in it.
const FRONT: Span = Span { first: 0, last: 5 };

/// What is told is held on all its bytes, has a byte that is asked for, and conflicts.
const PARTS: &[Line] = &[
    Sent(1, 1, Set(Write, TEN)),
    Told(1, Done),
    Sent(2, 2, Get(Read, MIDST)),
    Refused(2, Free),
    Refused(2, Done),
    Refused(2, Held(Some(1), Write, ELEVEN)),
    Refused(2, Held(Some(1), Write, LATER)),
    Refused(2, Held(Some(1), Read, TEN)),
    Refused(2, Held(Some(2), Write, TEN)),
    Refused(2, Held(None, Write, ELEVEN)),
    Told(2, Held(Some(1), Write, WIDE)),
    Sent(2, 2, Get(Read, MIDST)),
    Told(2, Held(None, Write, TEN)),
    Sent(2, 2, Get(Read, ELEVEN)),
    Told(2, Held(Some(1), Write, LATER)),
    Sent(2, 1, Get(Write, ALL)),
    Refused(2, Held(Some(1), Write, TEN)),
    Refused(2, Held(None, Write, TEN)),
    Told(2, Free),
];

/// A reader isn't in a reader's way; bytes of two owners are no lock of one.
const OF_TWO: &[Line] = &[
    Sent(1, 1, Set(Read, FRONT)),
    Told(1, Done),
    Sent(2, 2, Set(Read, LATER)),
    Told(2, Done),
    Sent(3, 3, Get(Read, ALL)),
    Refused(3, Held(Some(1), Read, FRONT)),
    Told(3, Free),
    Sent(3, 3, Get(Write, ALL)),
    Refused(3, Free),
    Refused(3, Held(None, Read, TEN)),
    Told(3, Held(None, Read, LATER)),
    Sent(3, 1, Get(Write, TEN)),
    Refused(3, Held(None, Read, FRONT)),
    Told(3, Held(Some(2), Read, LATER)),
];

/// With largest ranges alone no part is told.
const LARGEST: &[Line] = &[
    Sent(1, 1, Set(Write, TEN)),
    Told(1, Done),
    Sent(2, 2, Get(Read, MIDST)),
    Refused(2, Held(Some(1), Write, WIDE)),
    Refused(2, Held(None, Write, FRONT)),
    Refused(2, Held(Some(1), Write, ELEVEN)),
    Told(2, Held(None, Write, TEN)),
    Sent(1, 1, Set(Read, LATER)),
    Told(1, Done),
    Sent(2, 2, Get(Write, ALL)),
    Refused(2, Held(Some(1), Write, TEN)),
    Told(2, Held(Some(1), Read, LATER)),
    Sent(2, 2, Get(Write, ALL)),
    Told(2, Held(Some(1), Write, FRONT)),
];

/// A get sees the locks of one moment between its two lines.
const ONE_MOMENT: &[Line] = &[
    Sent(1, 1, Set(Write, FIRST)),
    Sent(2, 2, Get(Write, ALL)),
    Told(1, Done),
    Sent(3, 1, Unlock(FIRST)),
    Told(3, Done),
    Sent(3, 3, Get(Write, ALL)),
    Refused(3, Held(Some(1), Write, FIRST)),
    Told(2, Held(Some(1), Write, FIRST)),
    Told(3, Free),
    // What one get saw of a set that isn't answered, the next sees too, and its answer tells.
    Sent(1, 1, Set(Write, FIRST)),
    Sent(2, 2, Get(Write, ALL)),
    Told(2, Held(Some(1), Write, FIRST)),
    Sent(2, 3, Get(Write, ALL)),
    Refused(2, Free),
    Told(2, Held(Some(1), Write, FIRST)),
    Refused(1, Busy),
    Told(1, Done),
];

#[test]
fn of_gets(rt: HostRuntime) -> Result<(), Memory> {
    read_each(&rt, rt.alloc(), false, &[PARTS, OF_TWO, ONE_MOMENT])?;
    read_each(&rt, rt.alloc(), true, &[LARGEST])
}
