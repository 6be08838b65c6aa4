//! The first fault of lines that have one or more.
use super::{read, same};
use script_core::Cause;
use std::process::Abort;

/// Each of the lines has this fault.
fn check_faults(rt: &impl Abort, lines: &[&str], cause: Cause) {
    for line in lines {
        same(rt, (*line, read(line.as_bytes())), (*line, Err(cause)));
    }
}

/// A line of 121 bytes is too long, whatever stands in it.
#[test]
fn too_long(rt: HostRuntime) {
    same(&rt, read(&[b'#'; 121]), Err(Cause::TooLong));
    same(&rt, read(&[b' '; 121]), Err(Cause::TooLong));
    same(&rt, read(&[b'\t'; 121]), Err(Cause::TooLong));
    same(&rt, read(&[b'x'; 121]), Err(Cause::TooLong));
    same(&rt, read(&[b'\t'; 120]), Err(Cause::Byte));
    same(&rt, read(&[b'x'; 120]), Err(Cause::Word));
}

/// Tabs, carriage returns, control bytes and all beyond ASCII are no bytes of a line, not even of a comment.
const NO_TEXT: &[&[u8]] = &[
    b"> 10 gone 1 2\r",
    b"\r",
    b"> 10\tgone 1 2",
    b"\t# a comment",
    b"# a comment\x7f",
    b"# gr\xc3\xbcn",
    b"x\x80",
    b"> 10 gone 1 \xff",
    b"> 10 gone 1 2\0",
    b"> 10 gone 1 2\n",
];

#[test]
fn bytes(rt: HostRuntime) {
    for line in NO_TEXT {
        same(&rt, (*line, read(*line)), (*line, Err(Cause::Byte)));
    }
}

/// The first word is `>` or `<`, before how many words there are.
const NO_DIRECTION: &[&str] = &[
    "x",
    ">> 10 gone 1 2",
    ">10 gone 1 2",
    "<1 ok",
    "=",
    "gone 1 2",
    "x# 1 2",
    "- 10 gone 1 2",
];

#[test]
fn first_words(rt: HostRuntime) {
    check_faults(&rt, NO_DIRECTION, Cause::Word);
}

/// A line has three words or more, before what the ID is.
const TOO_FEW: &[&str] = &[">", "<", "> 10", "< 1", "> x", "< 01", "> #", "  <   1  "];

#[test]
fn few_words(rt: HostRuntime) {
    check_faults(&rt, TOO_FEW, Cause::Count);
}

/// The ID is a number of 64 bits, before whether it is open: no sign, no leading zero.
const NO_IDS: &[&str] = &[
    "> x gone 1 2",
    "> 01 gone 1 2",
    "> 00 x",
    "> +10 gone 1 2",
    "> -10 gone 1 2",
    "> 10. gone 1 2",
    "> 1e1 gone 1 2",
    "> 0x0a gone 1 2",
    "> 18446744073709551616 gone 1 2",
    "> 100000000000000000000 gone 1 2",
    "> 99999999999999999999999999999999999999999999 x",
    "< 01 ok",
    "< x x",
    "< - ok",
    "< 18446744073709551616 ok",
];

#[test]
fn ids(rt: HostRuntime) {
    check_faults(&rt, NO_IDS, Cause::Number);
}

/// An open ID isn't sent, and one that isn't open isn't answered, before what the request or the answer is.
const TAKEN_OR_UNKNOWN: &[&str] = &[
    "> 1 gone 1 2",
    "> 9 gone 1 2",
    "> 1 x",
    "> 1 set 1",
    "< 10 ok",
    "< 0 ok",
    "< 18446744073709551615 ok",
    "< 10 x",
    "< 10 held x",
];

#[test]
fn open_ids(rt: HostRuntime) {
    check_faults(&rt, TAKEN_OR_UNKNOWN, Cause::Tag);
}

/// The word of a request, before the number of words.
const NO_REQUESTS: &[&str] = &[
    "> 10 x",
    "> 10 Set 1 2 r 0 0",
    "> 10 SET 1 2 r 0 0",
    "> 10 lock 1 2 r 0 0",
    "> 10 setlk 1 2 r 0 0",
    "> 10 unset 1 2 0 0",
    "> 10 open 1 2",
    "> 10 ok",
    "> 10 closes 1 2",
    "> 10 clos 1 2",
    "> 10 x 1 2 r 0 0 0 0 0 0 0",
    "> 10 # gone 1 2",
];

#[test]
fn request_words(rt: HostRuntime) {
    check_faults(&rt, NO_REQUESTS, Cause::Word);
}

/// The word of an answer that a request doesn't have, before the number of words: those of the others, request by request.
const NO_ANSWERS: &[&str] = &[
    "< 1 EINTR",
    "< 1 EDEADLK",
    "< 1 free",
    "< 1 held 1 r 0 0",
    "< 2 busy",
    "< 2 free",
    "< 2 held 1 r 0 0",
    "< 3 ok",
    "< 3 busy",
    "< 3 EINTR",
    "< 3 EDEADLK",
    "< 4 busy",
    "< 4 EINTR",
    "< 4 EDEADLK",
    "< 4 free",
    "< 4 held 1 r 0 0",
    "< 5 EINTR",
    "< 5 EDEADLK",
    "< 5 free",
    "< 5 held 1 r 0 0",
    "< 6 busy",
    "< 6 EDEADLK",
    "< 6 free",
    "< 6 held 1 r 0 0",
    "< 7 busy",
    "< 7 EINTR",
    "< 7 EDEADLK",
    "< 7 free",
    "< 7 held 1 r 0 0",
    "< 8 busy",
    "< 8 EINTR",
    "< 8 EDEADLK",
    "< 8 free",
    "< 8 held 1 r 0 0",
    "< 9 busy",
    "< 9 EINTR",
    "< 9 EDEADLK",
    "< 9 free",
    "< 9 held 1 r 0 0",
    "< 9 error",
    "< 1 OK",
    "< 1 x",
    "< 2 eintr",
    "< 2 EAGAIN",
    "< 3 Free",
    "< 1 set 1 2",
    "< 1 free x",
    "< 1 x x x x x x x x x x x",
];

#[test]
fn answer_words(rt: HostRuntime) {
    check_faults(&rt, NO_ANSWERS, Cause::Word);
}

/// The number of words, before what they are.
const WRONG_COUNTS: &[&str] = &[
    "> 10 set",
    "> 10 set x",
    "> 10 set 1 2 r 0",
    "> 10 set 1 2 r 0 0 0",
    "> 10 set x y z 9 1 0 0 0 0 0 0 0",
    "> 10 wait 1 2 r 0",
    "> 10 get 1 2 r 0 0 0",
    "> 10 unlock 1 2 0",
    "> 10 unlock 1 2 r 0 0",
    "> 10 flock 1 2",
    "> 10 flock 1 2 ex nb nb",
    "> 10 flock x y un nb un",
    "> 10 close 1",
    "> 10 close 1 2 3",
    "> 10 gone x",
    "> 10 gone 1 2 3",
    "< 1 ok ok",
    "< 2 EINTR 1",
    "< 3 free 1",
    "< 3 held",
    "< 3 held x",
    "< 3 held 1 r 0",
    "< 3 held 1 r 0 0 0",
    "< 3 held - q 9 1 0 0 0 0 0 0",
    "< 3 held r 0 0",
    "< 4 error 5",
];

#[test]
fn counts(rt: HostRuntime) {
    check_faults(&rt, WRONG_COUNTS, Cause::Count);
}

/// A number that is none, before what stands to its right.
const NO_NUMBERS: &[&str] = &[
    "> 10 set x 2 q 0 0",
    "> 10 set 1 x q 0 0",
    "> 10 set 1 2 r x 0",
    "> 10 set 1 2 r 0 x",
    "> 10 set 01 2 r 0 0",
    "> 10 set 1 02 r 0 0",
    "> 10 set 1 2 r 00 5",
    "> 10 set 1 2 r 0 05",
    "> 10 set +1 2 r 0 0",
    "> 10 set 1 2 r -1 0",
    "> 10 set 1 2 r 0 18446744073709551616",
    "> 10 set 18446744073709551616 2 r 0 0",
    "> 10 set 1 18446744073709551616 r 0 0",
    "> 10 unlock 1 2 18446744073709551616 0",
    "> 10 unlock 1 2 r 0",
    "> 10 flock x y z",
    "> 10 flock 1 x un nb",
    "> 10 flock 1 18446744073709551616 un nb",
    "> 10 close 1 02",
    "> 10 gone - 2",
    "< 3 held x q 0 0",
    "< 3 held -1 r 0 0",
    "< 3 held -- r 0 0",
    "< 3 held 01 r 0 0",
    "< 3 held 18446744073709551616 r 0 0",
    "< 3 held - r x 0",
    "< 3 held - r 0 00",
];

/// The word of a mode or of a flock that is none, before what stands to its right.
const NO_WORDS: &[&str] = &[
    "> 10 set 1 2 q x 0",
    "> 10 set 1 2 u 0 0",
    "> 10 set 1 2 R 0 0",
    "> 10 wait 1 2 rw 0 0",
    "> 10 get 1 2 sh 9 1",
    "> 10 flock 1 2 r",
    "> 10 flock 1 2 nb",
    "> 10 flock 1 2 nb sh",
    "> 10 flock 1 2 sh NB",
    "> 10 flock 1 2 sh 0",
    "> 10 flock 1 2 un nb",
    "> 10 flock 1 2 un x",
    "< 3 held - q x 0",
    "< 3 held 1 - 9 1",
];

#[test]
fn from_the_left(rt: HostRuntime) {
    check_faults(&rt, NO_NUMBERS, Cause::Number);
    check_faults(&rt, NO_WORDS, Cause::Word);
}

/// A first byte above the last one, behind all else.
const TURNED: &[&str] = &[
    "> 10 set 1 2 r 1 0",
    "> 10 wait 1 2 w 18446744073709551615 18446744073709551614",
    "> 10 get 1 2 r 10 9",
    "> 10 unlock 1 2 6 5",
    "< 3 held 1 r 6 5",
    "< 3 held - w 1 0",
];

/// A file above its owner is no fault.
#[test]
fn turned_bytes(rt: HostRuntime) {
    check_faults(&rt, TURNED, Cause::Number);
    same(&rt, read(b"> 10 close 5 3").is_ok(), true);
}
