//! Runs of small scripts, of each of which it was derived by hand what it shows.
use explore_run::findings_of;
use replay_core::{Detail, FromReader, ToWriter};
use shown_run::{RunFinding, RunOutcome, replay_judged};
use std::alloc::{AllocError, Global};
use std::fmt::Debug;
use std::process::Abort;
use std::test::Fail;

/// Process 2 is told `EDEADLK`, and goes on, so that nobody waits at the end.
const CYCLE: &[u8] = b"1 open 0 rw
1 fork 2
1 setlk 0 w set 0 1
2 setlk 0 w set 1 1
1 setlkw 0 w set 1 1
2 setlkw 0 w set 0 1
2 setlk 0 u set 1 1
";

/// A close of one of two descriptors removes the lock; process 2 waits behind a flock at the end, and process 3 was never born.
const LOSSES: &[u8] = b"1 open 0 rw
1 open 0 rw
1 setlk 0 w set 0 1
1 close 1
1 flock 0 ex
1 fork 2
2 open 0 rw
2 flock 1 sh
3 exit
";

/// A flock that is refused has lost its lock; a signal ends a wait; a kill takes a lock.
const ENDS: &[u8] = b"1 open 0 rw
1 fork 2
2 open 0 rw
1 flock 0 sh
2 flock 1 sh
2 flock 1 ex nb
1 setlk 0 w set 0 1
2 setlkw 0 w set 0 1
1 signal 2
1 fork 3
3 setlk 0 w set 5 1
1 kill 3
";

/// A descriptor that is not open, and a get command that is answered.
const CLOSED: &[u8] = b"1 open 0 rw
1 getlk 0 r set 0 1
1 close 1
";

/// Process 2 enters, by a shared visit, where process 1 is by a sole one.
const TOGETHER: &[u8] = b"1 fork 2
1 enter 3
2 enter 3 sh
";

/// Two shared visits; another section; one that the other process has left; and an enter where process 1 is already, which is refused.
const APART: &[u8] = b"1 fork 2
1 enter 3 sh
2 enter 3 sh
1 enter 4
2 enter 5
2 leave 5
1 enter 5
1 enter 3
";

/// The two are the same.
fn same<T: PartialEq + Debug + Drop>(rt: &impl Abort, left: T, right: T) {
    assert_eq!(rt; left, right);
}

/// What comes of the run of the script where what this list names is to fail; `None` where it names nothing.
fn outcome_of(alloc: Global, script: &[u8], list: &str) -> Result<Option<RunOutcome>, Fail> {
    let Some(fail_on) = findings_of::<RunFinding>(alloc, list)? else {
        return Ok(None);
    };
    let mut source = FromReader::new(script);
    let mut sink = ToWriter::new(Vec::new(alloc));
    Ok(Some(replay_judged(alloc, Detail::Plain, &fail_on, &mut source, &mut sink)?))
}

/// A run of the script, where what this list names is to fail, comes to this.
fn comes_to(
    rt: &impl Abort,
    alloc: Global,
    script: &[u8],
    list: &str,
    due: Option<RunOutcome>,
) -> Result<(), Fail> {
    same(rt, (list, outcome_of(alloc, script, list)?), (list, due));
    Ok(())
}

/// Each of the lists names something that the run of the script shows.
fn show(rt: &impl Abort, alloc: Global, script: &[u8], lists: &[&str]) -> Result<(), Fail> {
    for list in lists {
        comes_to(rt, alloc, script, list, Some(RunOutcome::Failed))?;
    }
    Ok(())
}

/// None of them names such a thing.
fn show_not(rt: &impl Abort, alloc: Global, script: &[u8], lists: &[&str]) -> Result<(), Fail> {
    for list in lists {
        comes_to(rt, alloc, script, list, Some(RunOutcome::Passed))?;
    }
    Ok(())
}

#[test]
fn a_cycle(rt: HostRuntime) -> Result<(), Fail> {
    let (shown, others) = (
        ["deadlock", "busy,deadlock"],
        ["stuck,dropped,lost,busy,interrupted,killed,unborn,badfd"],
    );
    show(&rt, rt.alloc(), CYCLE, &shown)?;
    show_not(&rt, rt.alloc(), CYCLE, &others)
}

#[test]
fn losses(rt: HostRuntime) -> Result<(), Fail> {
    let (shown, others) = (
        ["dropped", "stuck", "unborn"],
        ["deadlock,lost,busy,interrupted,killed,badfd"],
    );
    show(&rt, rt.alloc(), LOSSES, &shown)?;
    show_not(&rt, rt.alloc(), LOSSES, &others)
}

#[test]
fn ends(rt: HostRuntime) -> Result<(), Fail> {
    let (shown, others) = (
        ["lost", "busy", "interrupted", "killed"],
        ["deadlock,stuck,dropped,unborn,badfd"],
    );
    show(&rt, rt.alloc(), ENDS, &shown)?;
    show_not(&rt, rt.alloc(), ENDS, &others)
}

#[test]
fn a_bad_descriptor(rt: HostRuntime) -> Result<(), Fail> {
    let others = ["deadlock,stuck,dropped,lost,busy,interrupted,killed,unborn"];
    show(&rt, rt.alloc(), CLOSED, &["badfd"])?;
    show_not(&rt, rt.alloc(), CLOSED, &others)
}

#[test]
fn sections(rt: HostRuntime) -> Result<(), Fail> {
    let others = "deadlock,stuck,dropped,lost,busy,interrupted,killed,unborn,badfd";
    show(&rt, rt.alloc(), TOGETHER, &["together"])?;
    show_not(&rt, rt.alloc(), TOGETHER, &[others])?;
    show_not(&rt, rt.alloc(), APART, &[others, "together"])
}

/// Lists that name nothing.
const NO_LISTS: &[&str] = &[
    "",
    "badfd,",
    ",busy",
    "badfds",
    "EBADF",
    "busy busy",
    "Busy",
];

#[test]
fn lists(rt: HostRuntime) -> Result<(), Fail> {
    for list in NO_LISTS {
        comes_to(&rt, rt.alloc(), CLOSED, list, None)?;
    }
    show(&rt, rt.alloc(), CLOSED, &["busy,busy,badfd,badfd"])
}

/// A script of 5,000 requests that are done.
fn long_script(alloc: Global) -> Result<Vec<u8>, AllocError> {
    let mut script = Vec::new(alloc);
    script.extend_from_slice(b"1 open 0 rw\n1 setlk 0 w set 0 1\n1 fork 2\n")?;
    for _ in 0..5_000u32 {
        script.extend_from_slice(b"2 seek 0 0\n")?;
    }
    Ok(script)
}

/// Behind them, one more is refused.
#[test]
fn a_long_run(rt: HostRuntime) -> Result<(), Fail> {
    let mut script = long_script(rt.alloc())?;
    show_not(&rt, rt.alloc(), &script, &["busy,stuck,dropped,badfd"])?;
    script.extend_from_slice(b"2 setlk 0 r set 0 0\n")?;
    show(&rt, rt.alloc(), &script, &["stuck,badfd,busy"])
}
