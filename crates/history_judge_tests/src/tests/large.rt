//! Many files, and many lines.
use super::lines::{TEN, same};
use history_core::{Action, Answer, Request};
use history_judge::{HistoryJudge, JudgeFault};
use range_core::Mode;
use std::process::Abort;
use std::test::Fail;

/// How many files there are.
const FILES: u64 = 1000;

/// How many possibilities they may have.
const LIMIT: usize = 1010;

/// The request of an ID and an owner.
fn request(id: u64, owner: u64, action: Action) -> Request {
    Request { id, owner, action }
}

/// The request is sent, on the line and on the file of this number, and is done.
fn ask(judge: &mut HistoryJudge, file: u64, request: Request) -> Result<(), JudgeFault> {
    judge.send(file, file, request, LIMIT)?;
    judge.answer(request.id, Answer::Done, LIMIT)
}

/// On each file one owner sets a lock.
fn send_sets(judge: &mut HistoryJudge) -> Result<(), JudgeFault> {
    for file in 0..FILES {
        let set = request(file, 1, Action::Set(Mode::Write, TEN));
        judge.send(file, file, set, LIMIT)?;
    }
    Ok(())
}

/// All of them are done.
fn answer_sets(judge: &mut HistoryJudge) -> Result<(), JudgeFault> {
    for file in 0..FILES {
        judge.answer(file, Answer::Done, LIMIT)?;
    }
    Ok(())
}

/// Another owner waits for each.
fn send_waits(judge: &mut HistoryJudge) -> Result<(), JudgeFault> {
    for file in 0..FILES {
        let wait = request(file, 2, Action::Wait(Mode::Read, TEN));
        judge.send(file + 5000, file, wait, LIMIT)?;
    }
    Ok(())
}

/// The locks go.
fn unlock(judge: &mut HistoryJudge) -> Result<(), JudgeFault> {
    for file in 0..FILES {
        let unlock = request(file + FILES, 1, Action::Unlock(TEN));
        ask(judge, file, unlock)?;
    }
    Ok(())
}

/// The waits, each of which is open since its line, are granted.
fn grant(rt: &impl Abort, judge: &mut HistoryJudge) -> Result<(), JudgeFault> {
    for file in 0..FILES {
        let line = judge.open_request(file).map(|sent| sent.line);
        same(rt, line, Some(file + 5000));
        judge.answer(file, Answer::Done, LIMIT)?;
    }
    Ok(())
}

/// Each file is closed, and a third owner sets a lock.
fn close_and_set(judge: &mut HistoryJudge) -> Result<(), JudgeFault> {
    for file in 0..FILES {
        ask(judge, file, request(file, 2, Action::Close))?;
        let set = request(file, 3, Action::Set(Mode::Write, TEN));
        ask(judge, file, set)?;
    }
    Ok(())
}

/// On each of a thousand files one owner's lock, another's wait, which is granted once the lock is gone: ten thousand lines.
fn read_all(rt: &impl Abort, judge: &mut HistoryJudge) -> Result<(), JudgeFault> {
    send_sets(judge)?;
    answer_sets(judge)?;
    send_waits(judge)?;
    same(rt, judge.open_requests().len(), 1000);
    same(rt, judge.may_end(LIMIT)?, true);
    unlock(judge)?;
    same(rt, judge.may_end(LIMIT)?, false);
    grant(rt, judge)?;
    same(rt, judge.may_end(LIMIT)?, true);
    close_and_set(judge)
}

#[test]
fn of_a_thousand_files(rt: HostRuntime) -> Result<(), Fail> {
    let judge = &mut HistoryJudge::new(rt.alloc(), false);
    read_all(&rt, judge)?;
    same(&rt, judge.count(), 1000);
    same(&rt, judge.open_requests().len(), 0);
    Ok(())
}
