//! Many requests at once, many possibilities, and many locks.
use super::lines::{ENOUGH, FIRST, same};
use history_core::{Action, Answer, FileHistory, Request, SearchFault};
use range_core::{Mode, Span};
use std::process::Abort;

/// The request of an ID and an owner.
fn request(id: u64, owner: u64, action: Action) -> Request {
    Request { id, owner, action }
}

/// The request of an ID and its owner for a byte.
fn set(id: u64, byte: u64) -> Request {
    let span = Span {
        first: byte,
        last: byte,
    };
    request(id, id, Action::Set(Mode::Write, span))
}

/// Sends a request by an ID that is free.
fn send(
    rt: &impl Abort,
    file: &mut FileHistory,
    request: Request,
    limit: usize,
) -> Result<(), SearchFault> {
    assert!(rt; !file.has_open(request.id));
    file.send(request, limit)
}

/// Sends a request, which is answered so.
fn ask(
    rt: &impl Abort,
    file: &mut FileHistory,
    request: Request,
    answer: Answer,
) -> Result<(), SearchFault> {
    send(rt, file, request, ENOUGH)?;
    same(rt, file.answer(request.id, answer, ENOUGH), Ok(true));
    Ok(())
}

/// Sets by these IDs are sent: each is of a byte of its own.
fn send_sets(rt: &impl Abort, file: &mut FileHistory, ids: u64) -> Result<(), SearchFault> {
    for id in 0..ids {
        send(rt, file, set(id, id), 1)?;
    }
    Ok(())
}

/// The requests of the IDs from the first to before the end were done.
fn are_done(rt: &impl Abort, file: &mut FileHistory, first: u64, end: u64) {
    for id in first..end {
        same(rt, file.answer(id, Answer::Done, 256), Ok(true));
    }
}

/// Eight sets that don't meet have 256 outcomes, and the limit is told where they don't fit.
fn eight_sets(rt: &impl Abort, file: &mut FileHistory) -> Result<(), SearchFault> {
    send_sets(rt, file, 8)?;
    same(rt, (file.count(), file.open_requests().len()), (1, 8));
    same(
        rt,
        file.answer(0, Answer::Done, 255),
        Err(SearchFault::Limit),
    );
    same(rt, file.may_end(255), Err(SearchFault::Limit));
    same(rt, file.open_requests().len(), 8);
    same(rt, file.may_end(256), Ok(true));
    are_done(rt, file, 0, 1);
    same(rt, (file.count(), file.open_requests().len()), (128, 7));
    are_done(rt, file, 1, 8);
    same(rt, file.count(), 1);
    Ok(())
}

/// Behind them, a wait for a byte that is held isn't granted, which may stay so.
fn one_wait(rt: &impl Abort, file: &mut FileHistory) -> Result<(), SearchFault> {
    let last = request(0, 8, Action::Wait(Mode::Write, FIRST));
    send(rt, file, last, 1)?;
    same(rt, file.answer(0, Answer::Done, 1), Ok(false));
    same(rt, file.may_end(1), Ok(true));
    Ok(())
}

#[test]
fn of_many_possibilities(rt: HostRuntime) -> Result<(), SearchFault> {
    let file = &mut FileHistory::new(rt.alloc(), false)?;
    eight_sets(&rt, file)?;
    one_wait(&rt, file)
}

/// Waits for one byte by these IDs and owners are sent.
fn send_waits(rt: &impl Abort, file: &mut FileHistory, ids: u64) -> Result<(), SearchFault> {
    for id in 0..ids {
        let wait = request(id, id, Action::Wait(Mode::Write, FIRST));
        send(rt, file, wait, ENOUGH)?;
    }
    Ok(())
}

/// They are granted one after another, and each owner unlocks.
fn grant_waits(rt: &impl Abort, file: &mut FileHistory, ids: u64) -> Result<(), SearchFault> {
    for id in 0..ids {
        same(rt, file.answer(id, Answer::Done, ENOUGH), Ok(true));
        same(rt, file.may_end(ENOUGH), Ok(true));
        let unlock = request(id, id, Action::Unlock(FIRST));
        ask(rt, file, unlock, Answer::Done)?;
    }
    Ok(())
}

/// A hundred waits for one byte, granted one after another.
#[test]
fn of_many_waits(rt: HostRuntime) -> Result<(), SearchFault> {
    let mut file = FileHistory::new(rt.alloc(), false)?;
    send_waits(&rt, &mut file, 100)?;
    grant_waits(&rt, &mut file, 100)?;
    same(&rt, (file.open_requests().len(), file.count()), (0, 1));
    Ok(())
}

/// These owners set a byte each of their own.
fn lock_bytes(rt: &impl Abort, file: &mut FileHistory, owners: u64) -> Result<(), SearchFault> {
    for id in 0..owners {
        ask(rt, file, set(id, id), Answer::Done)?;
    }
    Ok(())
}

/// A get tells of the owner's byte, and of nothing else, and then the owner dies.
fn tell_and_die(rt: &impl Abort, file: &mut FileHistory, owner: u64) -> Result<(), SearchFault> {
    let span = Span {
        first: owner,
        last: owner,
    };
    let get = request(owner, 1000, Action::Get(Mode::Read, span));
    send(rt, file, get, ENOUGH)?;
    same(rt, file.answer(owner, Answer::Free, ENOUGH), Ok(false));
    let held = Answer::Held(Some(owner), Mode::Write, span);
    same(rt, file.answer(owner, held, ENOUGH), Ok(true));
    ask(rt, file, request(owner, owner, Action::Gone), Answer::Done)
}

/// A thousand owners, each with a byte of its own, and their deaths.
#[test]
fn of_many_locks(rt: HostRuntime) -> Result<(), SearchFault> {
    let mut file = FileHistory::new(rt.alloc(), true)?;
    lock_bytes(&rt, &mut file, 1000)?;
    for owner in 0..1000u64 {
        tell_and_die(&rt, &mut file, owner)?;
    }
    same(&rt, file.count(), 1);
    Ok(())
}
