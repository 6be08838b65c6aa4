//! What is written of requests and answers.
use super::same;
use history_core::{Action, Answer, Request};
use history_text::{write_answer, write_request};
use range_core::{Memory, Mode, Span};
use std::process::Abort;

const ALL: Span = Span {
    first: 0,
    last: 18446744073709551615,
};

const SOME: Span = Span { first: 9, last: 10 };

/// A request by owner 2.
fn by_owner_2(action: Action) -> Request {
    Request {
        id: 10,
        owner: 2,
        action,
    }
}

/// What a call comes to that is made again after a growth was refused: it must succeed, for at most one is refused in a run.
fn again(rt: &impl Abort, second: Result<(), Memory>) {
    same(rt, ("refused again", second), ("refused again", Ok(())));
}

/// Requests of owner 2 on file 1, and what is written of them.
const REQUESTED: &[(Action, &str)] = &[
    (
        Action::Set(Mode::Read, ALL),
        "set 1 2 r 0 18446744073709551615",
    ),
    (Action::Set(Mode::Write, SOME), "set 1 2 w 9 10"),
    (Action::Wait(Mode::Write, SOME), "wait 1 2 w 9 10"),
    (Action::Get(Mode::Read, SOME), "get 1 2 r 9 10"),
    (Action::Unlock(ALL), "unlock 1 2 0 18446744073709551615"),
    (Action::Flock(Mode::Read), "flock 1 2 sh nb"),
    (Action::Flock(Mode::Write), "flock 1 2 ex nb"),
    (Action::FlockWait(Mode::Read), "flock 1 2 sh"),
    (Action::FlockWait(Mode::Write), "flock 1 2 ex"),
    (Action::FlockUnlock, "flock 1 2 un"),
    (Action::Close, "close 1 2"),
    (Action::Gone, "gone 1 2"),
];

/// Writes a request of owner 2 on file 1, again where a growth is refused, which leaves the bytes that stand there.
fn push_request(rt: &impl Abort, out: &mut Vec<u8>, action: Action) {
    let old = out.len();
    if write_request(out, 1, by_owner_2(action)).is_err() {
        same(rt, out.len(), old);
        again(rt, write_request(out, 1, by_owner_2(action)));
    }
}

#[test]
fn requests(rt: HostRuntime) {
    for (action, text) in REQUESTED {
        let mut out = Vec::new(rt.alloc());
        push_request(&rt, &mut out, *action);
        same(&rt, out.as_slice(), text.as_bytes());
    }
}

/// Answers, and what is written of them.
const ANSWERED: &[(Answer, &str)] = &[
    (Answer::Done, "ok"),
    (Answer::Busy, "busy"),
    (Answer::Interrupted, "EINTR"),
    (Answer::Deadlock, "EDEADLK"),
    (Answer::Free, "free"),
    (
        Answer::Held(Some(18446744073709551615), Mode::Write, ALL),
        "held 18446744073709551615 w 0 18446744073709551615",
    ),
    (Answer::Held(None, Mode::Read, SOME), "held - r 9 10"),
    (Answer::Error, "error"),
];

/// The same of an answer.
fn push_answer(rt: &impl Abort, out: &mut Vec<u8>, answer: Answer) {
    let old = out.len();
    if write_answer(out, answer).is_err() {
        same(rt, out.len(), old);
        again(rt, write_answer(out, answer));
    }
}

#[test]
fn answers(rt: HostRuntime) {
    for (answer, text) in ANSWERED {
        let mut out = Vec::new(rt.alloc());
        push_answer(&rt, &mut out, *answer);
        same(&rt, out.as_slice(), text.as_bytes());
    }
}

/// Many requests and answers are written, one behind another.
fn push_many(rt: &impl Abort, out: &mut Vec<u8>) {
    for _ in 0..100_000 {
        push_request(rt, out, Action::Set(Mode::Write, SOME));
        push_answer(rt, out, Answer::Held(None, Mode::Read, SOME));
    }
}

/// A text takes as many bytes as memory holds.
#[test]
fn behind_others(rt: HostRuntime) {
    let out = &mut Vec::new(rt.alloc());
    push_many(&rt, out);
    // A request has 14 bytes here, and an answer 13.
    same(&rt, out.len(), 2_700_000);
    let front = b"set 1 2 w 9 10held - r 9 10set 1 2 w 9 10";
    same(&rt, out.as_slice().starts_with(front), true);
    let back = b"set 1 2 w 9 10held - r 9 10";
    same(&rt, out.as_slice().ends_with(back), true);
}
