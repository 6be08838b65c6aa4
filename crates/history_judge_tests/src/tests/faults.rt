//! What isn't read, and what stays then.
use super::lines::{ENOUGH, FIRST, TEN, same};
use history_core::Answer::Done;
use history_core::{Action, Answer, Request, SearchFault};
use history_judge::JudgeFault::{IdTaken, IdUnknown, Limit};
use history_judge::{HistoryJudge, JudgeFault, OpenRequest};
use range_core::{Mode, Span};
use std::process::Abort;
use std::test::Fail;

/// A set of the byte, by an owner of the ID's number.
fn set(id: u64, byte: u64) -> Request {
    let span = Span {
        first: byte,
        last: byte,
    };
    Request {
        id,
        owner: id,
        action: Action::Set(Mode::Write, span),
    }
}

/// Two requests are open, each on a file of its own, and their IDs are taken on either.
fn are_taken(rt: &impl Abort, judge: &mut HistoryJudge) -> Result<(), JudgeFault> {
    same(rt, judge.answer(1, Done, ENOUGH), Err(IdUnknown));
    judge.send(3, 10, set(1, 0), ENOUGH)?;
    same(rt, judge.send(4, 10, set(1, 1), ENOUGH), Err(IdTaken));
    same(rt, judge.send(5, 11, set(1, 1), ENOUGH), Err(IdTaken));
    same(rt, judge.answer(10, Done, ENOUGH), Err(IdUnknown));
    judge.send(6, 11, set(2, 0), ENOUGH)
}

/// The first of them.
const FIRST_SENT: OpenRequest = OpenRequest {
    line: 3,
    file: 10,
    request: Request {
        id: 1,
        owner: 1,
        action: Action::Set(Mode::Write, FIRST),
    },
};

/// The second one.
const SECOND_SENT: OpenRequest = OpenRequest {
    line: 6,
    file: 11,
    request: Request {
        id: 2,
        owner: 2,
        action: Action::Set(Mode::Write, FIRST),
    },
};

/// Both are told of.
fn are_open(rt: &impl Abort, judge: &HistoryJudge) {
    same(rt, judge.open_request(1), Some(FIRST_SENT));
    same(rt, judge.open_request(2), Some(SECOND_SENT));
    same(rt, judge.open_request(3), None);
    same(rt, judge.open_requests().len(), 2);
}

/// The first one is answered, and its ID is free again.
fn is_free_again(rt: &impl Abort, judge: &mut HistoryJudge) -> Result<(), JudgeFault> {
    judge.answer(1, Done, ENOUGH)?;
    same(rt, judge.answer(1, Done, ENOUGH), Err(IdUnknown));
    same(rt, judge.open_request(1), None);
    same(rt, judge.open_request(2), Some(SECOND_SENT));
    judge.send(9, 11, set(1, 5), ENOUGH)?;
    same(rt, judge.open_requests().len(), 2);
    Ok(())
}

/// An ID is open from its `>` to its `<`, whatever the file, and is free again then.
#[test]
fn of_ids(rt: HostRuntime) -> Result<(), Fail> {
    let judge = &mut HistoryJudge::new(rt.alloc(), false);
    are_taken(&rt, judge)?;
    are_open(&rt, judge);
    Ok(is_free_again(&rt, judge)?)
}

/// With a limit of 0 nothing is sent.
fn sends_nothing(rt: &impl Abort, judge: &mut HistoryJudge) {
    same(rt, judge.count(), 0);
    same(rt, judge.send(1, 1, set(0, 0), 0), Err(Limit));
    same(rt, judge.open_request(0), None);
}

/// Five requests are sent on each of two files.
fn send_five(judge: &mut HistoryJudge) -> Result<(), JudgeFault> {
    for id in 0..5u64 {
        judge.send(1, 1, set(id, id), 2)?;
        judge.send(1, 2, set(id + 10, id), 2)?;
    }
    Ok(())
}

/// Once a request on the first file is answered, 16 of its outcomes are kept, and one of the other file.
fn first_counts(rt: &impl Abort, judge: &mut HistoryJudge) -> Result<(), JudgeFault> {
    same(rt, judge.count(), 2);
    same(rt, judge.answer(0, Done, 32), Err(Limit));
    same(rt, judge.count(), 2);
    judge.answer(0, Done, 33)?;
    same(rt, judge.count(), 17);
    Ok(())
}

/// Once one on the other file is, 16 are kept of either.
fn both_count(rt: &impl Abort, judge: &mut HistoryJudge) -> Result<(), JudgeFault> {
    same(rt, judge.answer(10, Done, 47), Err(Limit));
    same(rt, judge.may_end(31), Err(SearchFault::Limit));
    same(rt, judge.may_end(48)?, true);
    judge.answer(10, Done, 48)?;
    same(rt, judge.count(), 32);
    Ok(())
}

/// A third file counts as soon as a request is sent on it.
fn third_counts(rt: &impl Abort, judge: &mut HistoryJudge) -> Result<(), JudgeFault> {
    same(rt, judge.send(1, 3, set(20, 0), 32), Err(Limit));
    judge.send(1, 3, set(20, 0), 33)?;
    same(rt, judge.count(), 33);
    Ok(())
}

/// The limit counts what is kept of all files at once: five requests on each of two files, whose outcomes are 32 on each.
#[test]
fn of_the_limit(rt: HostRuntime) -> Result<(), Fail> {
    let judge = &mut HistoryJudge::new(rt.alloc(), false);
    sends_nothing(&rt, judge);
    send_five(judge)?;
    first_counts(&rt, judge)?;
    both_count(&rt, judge)?;
    Ok(third_counts(&rt, judge)?)
}

/// A get of another owner is told a part of the lock.
fn tell_a_part(judge: &mut HistoryJudge) -> Result<Result<(), JudgeFault>, JudgeFault> {
    let all = Request {
        id: 1,
        owner: 1,
        action: Action::Set(Mode::Write, TEN),
    };
    judge.send(1, 4, all, ENOUGH)?;
    judge.answer(1, Done, ENOUGH)?;
    let get = Request {
        id: 1,
        owner: 2,
        action: Action::Get(Mode::Write, TEN),
    };
    judge.send(3, 4, get, ENOUGH)?;
    Ok(judge.answer(1, Answer::Held(Some(1), Mode::Write, FIRST), ENOUGH))
}

/// With `runs` a get tells largest ranges alone.
#[test]
fn of_largest_ranges(rt: HostRuntime) -> Result<(), Fail> {
    for (runs, due) in [(false, Ok(())), (true, Err(JudgeFault::Impossible))] {
        let told = tell_a_part(&mut HistoryJudge::new(rt.alloc(), runs))?;
        same(&rt, (runs, told), (runs, due));
    }
    Ok(())
}
