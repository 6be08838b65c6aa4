//! Scripts with expectations, of each of which it was derived by hand what their runs show.
use expectations::{ExpectOutcome, judge_expectations};
use replay_core::{FromReader, RunFault, ToWriter};
use script_core::{Cause, SCRIPT_MAX, ScriptFault};
use std::alloc::{AllocError, Global};
use std::fmt::Debug;
use std::process::Abort;
use std::str;
use std::test::Fail;

/// Process 2 waits for the lock of process 1, which is let go at the end.
const CONFLICT: &[u8] = b"1 open 0 rw
1 fork 2
1 setlk 0 w set 0 10
2 setlk 0 r set 5 1
# expect 2#1 EAGAIN
# expect lock 0 process 1 w 0 9
2 setlkw 0 r set 5 1
# expect 2#2 waits
# expect wait 2#2 0 process 2 r 5 5
# expect no lock 0 process 2 r 5 5
# expect proc 2 sent 2 taken 2 answered 1 waiting
1 close 0
# expect 2#2 ok
# expect lock 0 process 2 r 5 5
# expect no lock 0 process 1 w 0 9
# expect 1#1 fd 0
# expect 3#1 none
2 getlk 0 w set 0 0
1 open 0 rw
1 getlk 0 w set 5 1
# expect 1#6 held r 5 1 2
1 flock 0 sh
# expect flock 0 description 2 sh
";

/// A request that was answered otherwise, one that was never sent, a lock that isn't held, and one that is.
const UNMET: &[u8] = b"1 open 0 rw
1 setlk 0 w set 0 10
# expect 1#2 EAGAIN
# expect 1#3 ok
# expect 1#2 ok
# expect lock 0 process 1 w 0 8
# expect no lock 0 process 1 w 0 9
# expect no lock 0 process 1 w 0 8
1 setlk 0 u set 0 10
# expect lock 0 process 1 w 0 9
";

/// What is told of it.
const UNMET_TOLD: &str = "line 3: ok, expected EAGAIN
line 4: none, expected ok
line 6: no such line, expected lock 0 process 1 w 0 8
line 7: lock 0 process 1 w 0 9, expected no lock 0 process 1 w 0 9
line 10: no such line, expected lock 0 process 1 w 0 9
";

/// Words between several spaces, and comments that are no expectations.
const SPACED: &[u8] = b"1 open 0 rw
  #   expect  1#1   fd  0
#expect 1#1 ok
# expected 1#1 ok
# Expect 1#1 ok
# what to expect
#
# expect proc  1 sent  1 taken 1 answered 1 live";

/// The two are the same.
fn same<T: PartialEq + Debug + Drop>(rt: &impl Abort, left: T, right: T) {
    assert_eq!(rt; left, right);
}

/// What is told of a script: its outcome, or its fault.
#[derive(Drop)]
struct Told {
    ended: Result<ExpectOutcome, RunFault>,
    text: Vec<u8>,
}

/// What is told of this script.
fn told_of(alloc: Global, script: &[u8]) -> Told {
    let mut source = FromReader::new(script);
    let mut sink = ToWriter::new(Vec::new(alloc));
    let ended = judge_expectations(alloc, &mut source, &mut sink);
    let text = sink.into_inner();
    Told { ended, text }
}

/// This is told of the script, whose outcome it is.
fn tells(rt: &impl Abort, alloc: Global, script: &[u8], outcome: ExpectOutcome, text: &str) {
    let told = told_of(alloc, script);
    same(rt, str::from_utf8(&told.text), Ok(text));
    same(rt, told.ended, Ok(outcome));
}

/// Nothing is told of the script but that each expectation is met.
fn is_met(rt: &impl Abort, alloc: Global, script: &[u8]) {
    tells(rt, alloc, script, ExpectOutcome::Met, "");
}

/// Nothing is told of the script but that it has this fault.
fn is_fault(rt: &impl Abort, alloc: Global, script: &[u8], line: u64, cause: Cause) {
    let told = told_of(alloc, script);
    let fault = RunFault::Script(ScriptFault { line, cause });
    same(rt, (line, told.text.is_empty()), (line, true));
    same(rt, told.ended, Err(fault));
}

#[test]
fn each_is_met(rt: HostRuntime) {
    let none = b"# expect proc 1 sent 0 taken 0 answered 0 live";
    is_met(&rt, rt.alloc(), CONFLICT);
    is_met(&rt, rt.alloc(), SPACED);
    is_met(&rt, rt.alloc(), b"");
    is_met(&rt, rt.alloc(), none);
}

#[test]
fn some_are_unmet(rt: HostRuntime) {
    tells(&rt, rt.alloc(), UNMET, ExpectOutcome::Unmet, UNMET_TOLD);
}

/// The text is told with one space between each two words.
#[test]
fn words_are_told_with_one_space(rt: HostRuntime) {
    let told = told_of(rt.alloc(), b"1 open 0 rw\n # expect  1#1   fd   1  ");
    let due = "line 2: fd 0, expected fd 1\n";
    same(&rt, str::from_utf8(&told.text), Ok(due));
}

/// What stands behind `# expect` and is no expectation.
const OTHER_FORMS: &[&str] = &[
    "",
    " no",
    " no 1#1 ok",
    " no no lock 0 process 1 w 0 9",
    " 1#1",
    " 1#x ok",
    " 1#01 ok",
    " 01#1 ok",
    " 0#1 ok",
    " 17#1 none",
    " 1#18446744073709551616 none",
    " 1#1#1 ok",
    " #1 ok",
    " 1 open 0 rw",
    " locks 0",
    " ok",
];

/// A script whose second line is an expectation in this form.
fn expecting(alloc: Global, form: &str) -> Result<Vec<u8>, AllocError> {
    let mut script = Vec::from_slice(alloc, b"1 open 0 rw\n# expect")?;
    script.extend_from_slice(form.as_bytes())?;
    Ok(script)
}

#[test]
fn in_other_forms(rt: HostRuntime) -> Result<(), Fail> {
    for form in OTHER_FORMS {
        let script = expecting(rt.alloc(), form)?;
        is_fault(&rt, rt.alloc(), &script, 2, Cause::Word);
    }
    Ok(())
}

/// Of a faulty line and an expectation in another form the earlier one is told; a line that is too long, or has another byte than printable
/// ones, is the script's fault.
const FAULTY: &[(&[u8], u64, Cause)] = &[
    (b"# expect\n1 opens\n", 1, Cause::Word),
    (b"2\n# expect\n", 1, Cause::Count),
    (
        b"1 exit\n# expect 1#1 ok\n\n1\n# expect 1#1 ok",
        4,
        Cause::Count,
    ),
    (b"# expect 1#1 none\n\t# expect\n", 2, Cause::Byte),
    (b"# expect \t", 1, Cause::Byte),
];

#[test]
fn the_first_fault(rt: HostRuntime) {
    for (script, line, cause) in FAULTY {
        is_fault(&rt, rt.alloc(), script, *line, *cause);
    }
}

/// A line of 120 bytes isn't too long, and of one more it is.
#[test]
fn long_lines(rt: HostRuntime) -> Result<(), Fail> {
    let mut long = Vec::from_slice(rt.alloc(), b"# expect")?;
    long.resize(121, b' ')?;
    is_fault(&rt, rt.alloc(), &long, 1, Cause::TooLong);
    long.truncate(120);
    is_fault(&rt, rt.alloc(), &long, 1, Cause::Word);
    Ok(())
}

/// The longest script, which ends with an expectation.
fn longest_script(alloc: Global) -> Result<Vec<u8>, AllocError> {
    let mut script = Vec::from_slice(alloc, b"# expect 1#1 none\n")?;
    script.resize(SCRIPT_MAX - 18, b'\n')?;
    script.extend_from_slice(b"\n# expect 1#1 none")?;
    Ok(script)
}

/// A script that is too long has no other fault.
#[test]
fn the_longest_script(rt: HostRuntime) -> Result<(), Fail> {
    let mut script = longest_script(rt.alloc())?;
    assert!(rt; script.len() == SCRIPT_MAX);
    let ended = told_of(rt.alloc(), &script).ended;
    same(&rt, ended, Ok(ExpectOutcome::Met));
    script[9] = b'x';
    is_fault(&rt, rt.alloc(), &script, 1, Cause::Word);
    script.push(b'\n')?;
    is_fault(&rt, rt.alloc(), &script, 0, Cause::TooLong);
    Ok(())
}

/// Header lines in front of expectations.
const HEADED: &[u8] = b"# expect 1#1 none
limits wide
# expect 17#1 none
policy queue
1 open 0 rw
1 fork 64
1 fork 2
1 setlk 0 r set 0 1
2 setlkw 0 w set 0 1
64 setlkw 0 r set 0 1
# expect 64#1 waits
";

/// The rules are those of the header lines in front.
#[test]
fn header_lines(rt: HostRuntime) {
    let behind = b"# expect 17#1 none\nlimits wide\n";
    is_fault(&rt, rt.alloc(), behind, 1, Cause::Word);
    is_met(&rt, rt.alloc(), HEADED);
}

/// The last note on a request is the answer of a wait that was signalled, or granted; each error, and a lock that is told.
const NOTED: &[u8] = b"1 open 0 rw
1 fork 2
1 setlk 0 w set 0 1
2 setlkw 0 w set 0 1
1 signal 2
# expect 2#1 EINTR
# expect 1#4 ok
2 close 9
# expect 2#2 EBADF
2 setlk 0 w cur -1 1
# expect 2#3 EINVAL
2 setlk 0 w set 9223372036854775807 2
# expect 2#4 EOVERFLOW
2 getlk 0 w set 4 1
# expect 2#5 free
2 getlk 0 w set 0 0
# expect 2#6 held w 0 1 1
1 osetlk 0 r set 4 0
2 getlk 0 w set 4 0
# expect 2#7 held r 4 0 -1
2 kill 9
# expect 2#8 ESRCH
2 setlkw 0 w set 0 1
1 exit
# expect 2#9 ok
# expect 1#6 none
# expect proc 1 sent 6 taken 6 answered 5 ended
2 exit
";

#[test]
fn each_note(rt: HostRuntime) {
    is_met(&rt, rt.alloc(), NOTED);
}

/// 20,000 lines without an expectation are not run.
#[test]
fn without_expectations(rt: HostRuntime) -> Result<(), Fail> {
    let mut script = Vec::new(rt.alloc());
    for _ in 0..20_000u32 {
        script.extend_from_slice(b"1 open 0 rw\n# 1#1 fd 0\n")?;
    }
    let ended = told_of(rt.alloc(), &script).ended;
    same(&rt, ended, Ok(ExpectOutcome::Met));
    Ok(())
}

#[test]
fn statuses(rt: HostRuntime) {
    same(&rt, ExpectOutcome::Met.status(), 0);
    same(&rt, ExpectOutcome::Unmet.status(), 3);
}
