//! What lines say.
use super::{read, same};
use history_core::{Action, Answer, Request};
use history_text::HistoryLine;
use range_core::{Mode, Span};
use std::process::Abort;

/// The line of a request with ID 10 by owner 2 on file 1.
fn sent(action: Action) -> HistoryLine {
    let request = Request {
        id: 10,
        owner: 2,
        action,
    };
    HistoryLine::Sent { file: 1, request }
}

/// Each of the lines says this.
fn say(rt: &impl Abort, rows: &[(&str, HistoryLine)]) {
    for (line, said) in rows {
        same(rt, (*line, read(line.as_bytes())), (*line, Ok(*said)));
    }
}

/// Each of the lines is a request for this.
fn ask_for(rt: &impl Abort, rows: &[(&str, Action)]) {
    for (line, action) in rows {
        say(rt, &[(*line, sent(*action))]);
    }
}

/// Each of the lines answers the request of this ID so.
fn answer(rt: &impl Abort, rows: &[(&str, u64, Answer)]) {
    for (line, id, answer) in rows {
        let said = HistoryLine::Answered {
            id: *id,
            answer: *answer,
        };
        say(rt, &[(*line, said)]);
    }
}

/// All bytes.
const ALL: Span = Span {
    first: 0,
    last: 18446744073709551615,
};

/// One byte.
const ONE: Span = Span { first: 5, last: 5 };

/// Another one.
const SEVENTH: Span = Span { first: 7, last: 7 };

/// Two bytes.
const SOME: Span = Span { first: 9, last: 10 };

const ON_BYTES: &[(&str, Action)] = &[
    (
        "> 10 set 1 2 r 0 18446744073709551615",
        Action::Set(Mode::Read, ALL),
    ),
    ("> 10 set 1 2 w 5 5", Action::Set(Mode::Write, ONE)),
    ("> 10 wait 1 2 r 5 5", Action::Wait(Mode::Read, ONE)),
    ("> 10 wait 1 2 w 9 10", Action::Wait(Mode::Write, SOME)),
    ("> 10 get 1 2 r 9 10", Action::Get(Mode::Read, SOME)),
    (
        "> 10 get 1 2 w 0 18446744073709551615",
        Action::Get(Mode::Write, ALL),
    ),
    ("> 10 unlock 1 2 9 10", Action::Unlock(SOME)),
    (
        "> 10 unlock 1 2 0 18446744073709551615",
        Action::Unlock(ALL),
    ),
];

#[test]
fn requests_on_bytes(rt: HostRuntime) {
    ask_for(&rt, ON_BYTES);
}

const ON_FILES: &[(&str, Action)] = &[
    ("> 10 flock 1 2 sh nb", Action::Flock(Mode::Read)),
    ("> 10 flock 1 2 ex nb", Action::Flock(Mode::Write)),
    ("> 10 flock 1 2 sh", Action::FlockWait(Mode::Read)),
    ("> 10 flock 1 2 ex", Action::FlockWait(Mode::Write)),
    ("> 10 flock 1 2 un", Action::FlockUnlock),
    ("> 10 close 1 2", Action::Close),
    ("> 10 gone 1 2", Action::Gone),
    // Words may stand apart by several spaces, and spaces may stand at both ends.
    ("  >   10  gone 1    2 ", Action::Gone),
];

#[test]
fn requests_on_files(rt: HostRuntime) {
    ask_for(&rt, ON_FILES);
}

/// IDs, files and owners are numbers of 64 bits, and a file may have a larger number than an owner.
const NUMBERS: &[(&str, HistoryLine)] = &[
    (
        "> 0 close 0 0",
        HistoryLine::Sent {
            file: 0,
            request: Request {
                id: 0,
                owner: 0,
                action: Action::Close,
            },
        },
    ),
    (
        "> 18446744073709551615 gone 18446744073709551615 3",
        HistoryLine::Sent {
            file: u64::MAX,
            request: Request {
                id: u64::MAX,
                owner: 3,
                action: Action::Gone,
            },
        },
    ),
];

#[test]
fn numbers_of_64_bits(rt: HostRuntime) {
    say(&rt, NUMBERS);
}

/// The answers of one word that each request has.
const OF_ONE_WORD: &[(&str, u64, Answer)] = &[
    ("< 1 ok", 1, Answer::Done),
    ("< 1 busy", 1, Answer::Busy),
    ("< 1 error", 1, Answer::Error),
    ("< 2 ok", 2, Answer::Done),
    ("< 2 EINTR", 2, Answer::Interrupted),
    ("< 2 EDEADLK", 2, Answer::Deadlock),
    ("< 2 error", 2, Answer::Error),
    ("< 3 free", 3, Answer::Free),
    ("< 3 error", 3, Answer::Error),
    ("< 4 ok", 4, Answer::Done),
    ("< 4 error", 4, Answer::Error),
    ("< 5 ok", 5, Answer::Done),
    ("< 5 busy", 5, Answer::Busy),
    ("< 5 error", 5, Answer::Error),
    ("< 6 ok", 6, Answer::Done),
    ("< 6 EINTR", 6, Answer::Interrupted),
    ("< 6 error", 6, Answer::Error),
    ("< 7 ok", 7, Answer::Done),
    ("< 7 error", 7, Answer::Error),
    ("< 8 ok", 8, Answer::Done),
    ("< 8 error", 8, Answer::Error),
    ("< 9 ok", 9, Answer::Done),
    ("   <   9     ok  ", 9, Answer::Done),
];

#[test]
fn answers_of_one_word(rt: HostRuntime) {
    answer(&rt, OF_ONE_WORD);
}

/// What a get is told that something is in its way.
const IN_THE_WAY: &[(&str, u64, Answer)] = &[
    (
        "< 3 held 0 r 7 7",
        3,
        Answer::Held(Some(0), Mode::Read, SEVENTH),
    ),
    (
        "< 3 held 18446744073709551615 w 0 18446744073709551615",
        3,
        Answer::Held(Some(u64::MAX), Mode::Write, ALL),
    ),
    (
        "< 3 held - r 0 18446744073709551615",
        3,
        Answer::Held(None, Mode::Read, ALL),
    ),
    (
        "< 3 held - w 7 7",
        3,
        Answer::Held(None, Mode::Write, SEVENTH),
    ),
];

#[test]
fn locks_in_the_way(rt: HostRuntime) {
    answer(&rt, IN_THE_WAY);
}

/// Lines without words and comments.
const SKIPPED: &[(&str, HistoryLine)] = &[
    ("", HistoryLine::Skipped),
    (" ", HistoryLine::Skipped),
    ("   ", HistoryLine::Skipped),
    ("#", HistoryLine::Skipped),
    ("# > 10 gone 1 2", HistoryLine::Skipped),
    ("   #> 10", HistoryLine::Skipped),
    ("#!", HistoryLine::Skipped),
    ("##", HistoryLine::Skipped),
];

/// They may have up to 120 bytes.
#[test]
fn skipped_lines(rt: HostRuntime) {
    say(&rt, SKIPPED);
    same(&rt, read(&[b' '; 120]), Ok(HistoryLine::Skipped));
    same(&rt, read(&[b'#'; 120]), Ok(HistoryLine::Skipped));
}
