//! Files that don't touch one another (POSIX.1-2017 fcntl; flock(2)).
use super::lines::Line::{Refused, Sent, Told};
use super::lines::{ENOUGH, FIRST, Line, TEN, read, same};
use history_core::Action::{Close, Flock, FlockWait, Gone, Set, Unlock, Wait};
use history_core::Answer::{Busy, Done, Interrupted};
use history_core::SearchFault;
use history_judge::HistoryJudge;
use range_core::Mode::{Read, Write};
use std::process::Abort;
use std::test::Fail;

/// Two owners have the same bytes of two files, and neither is in the other's way; on one file one of them is.
const SAME_BYTES: &[Line] = &[
    Sent(1, 7, 1, Set(Write, TEN)),
    Sent(2, 8, 2, Set(Write, TEN)),
    Refused(2, Busy),
    Told(2, Done),
    Refused(1, Busy),
    Told(1, Done),
    Sent(2, 7, 2, Set(Write, FIRST)),
    Refused(2, Done),
    Told(2, Busy),
    Sent(2, 8, 1, Set(Read, FIRST)),
    Refused(2, Done),
    Told(2, Busy),
];

/// A close, and a death, take the owner's locks from one file alone.
const ONE_FILE_ALONE: &[Line] = &[
    Sent(1, 1, 5, Set(Write, TEN)),
    Told(1, Done),
    Sent(1, 2, 5, Set(Write, TEN)),
    Told(1, Done),
    Sent(1, 3, 5, Flock(Write)),
    Told(1, Done),
    Sent(1, 1, 5, Close),
    Told(1, Done),
    Sent(1, 3, 5, Gone),
    Told(1, Done),
    Sent(1, 1, 6, Set(Write, TEN)),
    Sent(2, 2, 6, Set(Write, TEN)),
    Sent(3, 3, 6, Flock(Write)),
    Refused(1, Busy),
    Refused(2, Done),
    Refused(3, Busy),
    Told(3, Done),
    Told(2, Busy),
    Told(1, Done),
];

/// A wait goes on until its own file's lock is gone.
const WAITS_FOR_ITS_FILE: &[Line] = &[
    Sent(1, 1, 1, Set(Write, TEN)),
    Told(1, Done),
    Sent(1, 2, 1, Set(Write, TEN)),
    Told(1, Done),
    Sent(4, 1, 2, Wait(Write, FIRST)),
    Sent(5, 2, 2, Unlock(TEN)),
    Told(5, Done),
    Sent(1, 2, 1, Unlock(TEN)),
    Told(1, Done),
    Refused(4, Done),
    Sent(1, 1, 1, Unlock(TEN)),
    Told(4, Done),
    Told(1, Done),
];

/// Looks that the history may end behind these lines, with no request open.
fn ends(rt: &impl Abort, judge: &mut HistoryJudge, lines: &[Line]) -> Result<(), SearchFault> {
    read(rt, judge, lines);
    same(rt, judge.may_end(ENOUGH)?, true);
    same(rt, judge.open_requests().len(), 0);
    Ok(())
}

#[test]
fn of_several_files(rt: HostRuntime) -> Result<(), Fail> {
    for lines in [SAME_BYTES, ONE_FILE_ALONE, WAITS_FOR_ITS_FILE] {
        ends(&rt, &mut HistoryJudge::new(rt.alloc(), false), lines)?;
    }
    Ok(())
}

/// Two waits on two files, each behind another's lock.
const TWO_WAITS: &[Line] = &[
    Sent(1, 1, 1, Set(Write, TEN)),
    Told(1, Done),
    Sent(1, 2, 1, Flock(Read)),
    Told(1, Done),
    Sent(8, 1, 2, Wait(Read, FIRST)),
    Sent(9, 2, 3, FlockWait(Write)),
];

/// And one of the locks goes away.
const ONE_GOES: &[Line] = &[
    Sent(1, 2, 1, Flock(Read)),
    Sent(2, 1, 1, Unlock(TEN)),
    Told(2, Done),
];

/// A history may end where each wait on every file is held up, and may not where one isn't: its wake-up was lost.
fn loses_a_wake_up(rt: &impl Abort, judge: &mut HistoryJudge) -> Result<(), SearchFault> {
    read(rt, judge, TWO_WAITS);
    same(rt, judge.may_end(ENOUGH)?, true);
    read(rt, judge, ONE_GOES);
    same(rt, judge.may_end(ENOUGH)?, false);
    same(rt, judge.answer(8, Interrupted, ENOUGH), Ok(()));
    same(rt, judge.may_end(ENOUGH)?, true);
    Ok(())
}

#[test]
fn a_wake_up_is_lost_on_one_file(rt: HostRuntime) -> Result<(), Fail> {
    let judge = &mut HistoryJudge::new(rt.alloc(), false);
    Ok(loses_a_wake_up(&rt, judge)?)
}
