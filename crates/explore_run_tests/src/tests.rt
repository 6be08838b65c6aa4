//! What is printed of searches whose situations are counted by hand, from the bytes of a script on.
ghost use Rattle.std.specs.Prelude.{◌≤◌, length};

use explore_core::Finding;
use explore_run::{ExploreOutcome, Exploring, Nobody, Printed, explore_script};
use replay_core::{FromReader, Outcome, ToWriter, check};
use script_core::States;
use std::alloc::{AllocError, Global};
use std::fmt::Debug;
use std::process::Abort;
use std::test::Fail;
use std::thread::Threads;

/// The two are the same.
fn same<T: PartialEq + Debug + Drop>(rt: &impl Abort, left: T, right: T) {
    assert_eq!(rt; left, right);
}

/// What comes of a search of the script, and the text that is printed.
fn explore(
    rt: &(impl Threads + Sync),
    alloc: Global,
    script: &[u8],
    limit: usize,
    printed: Printed,
    fail_on: &[Finding],
) -> Result<(ExploreOutcome, Vec<u8>), Fail>
    requires { 1 ≤ limit }
{
    let exploring = Exploring {
        limit,
        printed,
        fail_on: fail_on.to_vec(alloc)?,
    };
    let mut source = FromReader::new(script);
    let mut sink = ToWriter::new(Vec::new(alloc));
    let outcome = explore_script(rt, alloc, &exploring, &mut source, &mut sink, &Nobody)?;
    Ok((outcome, sink.into_inner()))
}

/// Whether the text is a legal journal, with its report where it has one.
fn is_legal(alloc: Global, text: &[u8]) -> Result<bool, Fail> {
    let mut source = FromReader::new(text);
    let mut sink = ToWriter::new(Vec::new(alloc));
    let outcome = check(alloc, &mut source, &mut sink)?;
    Ok(matches!(outcome, Outcome::Done))
}

/// Whether the piece stands in the text.
fn holds(text: &[u8], piece: &[u8]) -> bool
    requires { 1 ≤ length piece.now }
{
    text.windows(piece.len()).any(|window| window == piece)
}

/// Two processes take two bytes in opposite order, and wait.
const CROSSED: &[u8] = b"1 open 0 rw
1 fork 2
1 setlkw 0 w set 0 1
1 setlkw 0 w set 1 1
2 setlkw 0 w set 1 1
2 setlkw 0 w set 0 1
";

/// What is printed of it. Three situations come before both are born. Behind these each takes none, one or both bytes: five where nobody
/// waits, and one where each has one. Where one has both, the other waits, and that is an end. Where each has one, the first to ask waits and
/// the other one is told `EDEADLK`: two situations more, and two ends, after six events.
const CROSSED_TOLD: &[u8] = b"deadlock possible in 6 events
stuck possible in 5 events
together never
dropped never
lost never
busy never
interrupted never
killed never
unborn never
situations 14
ends 4
longest 6
# deadlock
1#1 open 0 rw | 1#1 fd 0
1#2 fork 2 | 1#2 ok
1#3 setlkw 0 w set 0 1 | 1#3 ok
2#1 setlkw 0 w set 1 1 | 2#1 ok
1#4 setlkw 0 w set 1 1 | 1#4 waits
# 1#4 blocked by lock 0 process 2 w 1 1
2#2 setlkw 0 w set 0 1 | 2#2 EDEADLK
# 2#2 would wait for 1 (lock 0 process 1 w 0 0), which waits for 2 (1#4, lock 0 process 2 w 1 1)
# stuck
1#1 open 0 rw | 1#1 fd 0
1#2 fork 2 | 1#2 ok
1#3 setlkw 0 w set 0 1 | 1#3 ok
1#4 setlkw 0 w set 1 1 | 1#4 ok
2#1 setlkw 0 w set 1 1 | 2#1 waits
# 2#1 blocked by lock 0 process 1 w 0 1
lock 0 process 1 w 0 1
wait 2#1 0 process 2 w 1 1
proc 1 sent 4 taken 4 answered 4 live
proc 2 sent 2 taken 1 answered 0 waiting
# 2#2 never taken: process 2 waits
";

/// Both findings, with a shortest run each, and the counts.
#[test]
fn crossed(rt: HostRuntime) -> Result<(), Fail> {
    let fail_on = [Finding::Dropped, Finding::Deadlock];
    let (outcome, text) = explore(&rt, rt.alloc(), CROSSED, 14, Printed::Table, &fail_on)?;
    same(&rt, text.as_slice(), CROSSED_TOLD);
    same(&rt, (outcome, outcome.status()), (ExploreOutcome::Found, 3));
    Ok(())
}

/// Nothing is found that is to fail: status 0.
#[test]
fn nothing_fails(rt: HostRuntime) -> Result<(), Fail> {
    let fail_on = [Finding::Lost, Finding::Busy];
    let (outcome, text) = explore(&rt, rt.alloc(), CROSSED, 1000, Printed::Table, &fail_on)?;
    same(&rt, text.as_slice(), CROSSED_TOLD);
    same(&rt, outcome.status(), 0);
    Ok(())
}

/// What is printed first where five situations are kept: the three at first, and those where one process has a byte. A finding takes five
/// events at least.
const LIMITED_TOLD: &[u8] = b"deadlock not found in 5 situations
stuck not found in 5 situations
together not found in 5 situations
dropped not found in 5 situations
lost not found in 5 situations
busy not found in 5 situations
interrupted not found in 5 situations
killed not found in 5 situations
unborn not found in 5 situations
situations 5
";

/// Where the limit is reached, nothing is told as never, and the status is 4.
#[test]
fn limited(rt: HostRuntime) -> Result<(), Fail> {
    let fail_on = [Finding::Deadlock];
    let (outcome, text) = explore(&rt, rt.alloc(), CROSSED, 5, Printed::Table, &fail_on)?;
    let begins_so = text.as_slice().starts_with(LIMITED_TOLD);
    same(&rt, (begins_so, outcome.status()), (true, 4));
    Ok(())
}

/// Two processes ask for one byte, and each that was refused it bails; who has it enters.
const APART: &[u8] = b"1 open 0 rw
1 fork 2
1 setlk 0 w set 0 1
1 bail
1 enter 0
2 setlk 0 w set 0 1
2 bail
2 enter 0
";

/// What is printed of it. Three situations come before one has the byte. Behind these it has asked, is past its bail, or is in the section,
/// and the other one hasn't asked, was refused, or has ended: nine, and as many where the other has it. Each of the two ends has seven
/// events.
const APART_TOLD: &[u8] = b"deadlock never
stuck never
together never
dropped never
lost never
busy possible in 4 events
interrupted never
killed never
unborn never
situations 21
ends 2
longest 7
";

/// Who bails lets nobody in beside the one that has the lock.
#[test]
fn apart(rt: HostRuntime) -> Result<(), Fail> {
    let fail_on = [Finding::Together];
    let (outcome, text) = explore(&rt, rt.alloc(), APART, 21, Printed::Table, &fail_on)?;
    same(&rt, text.as_slice(), APART_TOLD);
    same(&rt, outcome.status(), 0);
    Ok(())
}

/// The same without bails: who was refused goes on.
const LET_IN: &[u8] = b"1 open 0 rw
1 fork 2
1 setlk 0 w set 0 1
1 enter 0
2 setlk 0 w set 0 1
2 enter 0
";

/// What is printed of it. Where one has the byte it has asked or is in the section, and the other one hasn't asked, was refused, or is in
/// the section: six, and as many where the other has it.
const LET_IN_TOLD: &[u8] = b"deadlock never
stuck never
together possible in 6 events
dropped never
lost never
busy possible in 4 events
interrupted never
killed never
unborn never
situations 15
ends 2
longest 6
# together
1#1 open 0 rw | 1#1 fd 0
1#2 fork 2 | 1#2 ok
1#3 setlk 0 w set 0 1 | 1#3 ok
1#4 enter 0 | 1#4 ok
2#1 setlk 0 w set 0 1 | 2#1 EAGAIN
# 2#1 blocked by lock 0 process 1 w 0 0
2#2 enter 0 | 2#2 ok
# 2#2 together with 1 in 0
";

/// Where nobody bails both are let in, which is to fail.
#[test]
fn let_in(rt: HostRuntime) -> Result<(), Fail> {
    let fail_on = [Finding::Together];
    let (outcome, text) = explore(&rt, rt.alloc(), LET_IN, 15, Printed::Table, &fail_on)?;
    same(&rt, text.as_slice(), LET_IN_TOLD);
    same(&rt, outcome.status(), 3);
    Ok(())
}

/// Two processes visit a section, process 2 by the one visit or by the other.
const SHARED: &[u8] = b"1 fork 2\n1 enter 0 sh\n1 leave 0\n2 enter 0 sh\n2 leave 0\n";

const SOLE: &[u8] = b"1 fork 2\n1 enter 0 sh\n1 leave 0\n2 enter 0\n2 leave 0\n";

/// The scripts, each with what is printed first of it.
const VISITED: &[(&[u8], &str)] = &[
    (SHARED, "deadlock never\nstuck never\ntogether never\n"),
    (
        SOLE,
        "deadlock never\nstuck never\ntogether possible in 3 events\n",
    ),
];

/// Shared visits may be together, and a sole one not even with one of these. Each process is yet to be in the section, is, or was.
#[test]
fn visits(rt: HostRuntime) -> Result<(), Fail> {
    for (script, told) in VISITED {
        let (_, text) = explore(&rt, rt.alloc(), script, 100, Printed::Table, &[])?;
        let begins_so = text.as_slice().starts_with(told.as_bytes());
        let has_counts = holds(text.as_slice(), b"\nsituations 10\nends 1\nlongest 5\n");
        same(&rt, (*told, begins_so, has_counts), (*told, true, true));
    }
    Ok(())
}

/// The run of the finding alone, with no state.
fn run_of(finding: Finding) -> Printed {
    Printed::RunOf {
        finding,
        states: States::Nowhere,
    }
}

/// What is printed first of a run alone.
const RUN_ALONE: &[u8] = b"policy held\nlimits small\n1#1 open 0 rw ";

/// The finding's run alone is a legal journal of so many lines.
fn runs_alone(
    rt: &(impl Threads + Sync + Abort),
    alloc: Global,
    finding: Finding,
    lines: usize,
) -> Result<(), Fail> {
    let (_, text) = explore(rt, alloc, CROSSED, 1000, run_of(finding), &[])?;
    same(rt, text.as_slice().starts_with(RUN_ALONE), true);
    let count = text.iter().filter(|byte| **byte == b'\n').count();
    same(rt, (count, is_legal(alloc, &text)?), (lines, true));
    Ok(())
}

#[test]
fn two_runs_alone(rt: HostRuntime) -> Result<(), Fail> {
    runs_alone(&rt, rt.alloc(), Finding::Deadlock, 10)?;
    runs_alone(&rt, rt.alloc(), Finding::Stuck, 13)
}

/// There is no run of a finding that isn't possible.
#[test]
fn no_run(rt: HostRuntime) -> Result<(), Fail> {
    let (_, text) = explore(&rt, rt.alloc(), CROSSED, 1000, run_of(Finding::Lost), &[])?;
    same(&rt, text.is_empty(), true);
    Ok(())
}

/// Process 1 locks a byte 400 times and process 2 another one three times, and nobody forks process 3.
fn long_script(alloc: Global) -> Result<String, AllocError> {
    let mut script = String::new(alloc);
    script.push_str("1 open 0 rw\n1 fork 2\n3 exit\n")?;
    for _ in 0..400u32 {
        script.push_str("1 setlk 0 w set 0 1\n")?;
    }
    script.push_str("2 setlk 0 w set 1 1\n2 setlk 0 w set 1 1\n2 setlk 0 w set 1 1\n")?;
    Ok(script)
}

/// What is printed of it before the events: two situations come before both are born, and 401 * 4 behind that, for each is as far as it may
/// be, whatever the other one does. All runs end in one, behind 2 + 400 + 3 events.
const LONG_TABLE: &str = "deadlock never
stuck never
together never
dropped never
lost never
busy never
interrupted never
killed never
unborn possible in 405 events
situations 1606
ends 1
longest 405
# unborn
";

/// What is printed behind the events.
const LONG_END: &str = "lock 0 process 1 w 0 0
lock 0 process 2 w 1 1
proc 1 sent 402 taken 402 answered 402 live
proc 2 sent 3 taken 3 answered 3 live
proc 3 sent 1 taken 0 answered 0 unborn
# 3#1 never taken: process 3 was never born
";

/// Appends the events of process 1 that lock its byte.
fn push_first(text: &mut String) -> Result<(), AllocError> {
    for n in 3..403u32 {
        write!(text, "1#{n} setlk 0 w set 0 1 | 1#")?;
        writeln!(text, "{n} ok")?;
    }
    Ok(())
}

/// Appends those of process 2.
fn push_second(text: &mut String) -> Result<(), AllocError> {
    for n in 1..4u32 {
        write!(text, "2#{n} setlk 0 w set 1 1 | 2#")?;
        writeln!(text, "{n} ok")?;
    }
    Ok(())
}

/// What is printed behind this front: the events of the least run, in which process 1 takes all that it can before process 2 does, and its end.
fn long_run(alloc: Global, front: &str) -> Result<String, AllocError> {
    let mut text = String::from_str(alloc, front)?;
    text.push_str("1#1 open 0 rw | 1#1 fd 0\n1#2 fork 2 | 1#2 ok\n")?;
    push_first(&mut text)?;
    push_second(&mut text)?;
    text.push_str(LONG_END)?;
    Ok(text)
}

/// A search with many situations, whose text is long.
#[test]
fn long(rt: HostRuntime) -> Result<(), Fail> {
    let alloc = rt.alloc();
    let (script, due) = (long_script(alloc)?, long_run(alloc, LONG_TABLE)?);
    let (script, fail_on) = (script.as_bytes(), [Finding::Unborn]);
    let (outcome, text) = explore(&rt, alloc, script, 10_000, Printed::Table, &fail_on)?;
    same(&rt, text.as_slice() == due.as_bytes(), true);
    same(&rt, outcome.status(), 3);
    Ok(())
}

/// The long run alone, behind header lines.
#[test]
fn long_run_alone(rt: HostRuntime) -> Result<(), Fail> {
    let alloc = rt.alloc();
    let due = long_run(alloc, "policy held\nlimits small\n")?;
    let (script, printed) = (long_script(alloc)?, run_of(Finding::Unborn));
    let (_, text) = explore(&rt, alloc, script.as_bytes(), 10_000, printed, &[])?;
    same(&rt, text.as_slice() == due.as_bytes(), true);
    same(&rt, is_legal(alloc, &text)?, true);
    Ok(())
}
