//! Orders of effects, of histories that leave one alone.
use super::large::{line_count, sets_and_removes};
use super::{ORDER, judge, same};
use history_check::HistoryOutcome::{Illegal, Legal};
use history_check::{Judging, LockStates};
use history_core::SearchFault;
use std::alloc::Global;
use std::process::Abort;

/// The order of the text is this, however the text is cut.
fn is_told(rt: &impl Abort, alloc: Global, text: &str, order: &str) -> Result<(), SearchFault> {
    for cut in 0..text.len() {
        let (outcome, told) = judge(alloc, ORDER, text.as_bytes(), cut)?;
        same(rt, (text, cut, outcome), (text, cut, Legal));
        same(rt, (text, told.as_slice()), (text, order.as_bytes()));
    }
    Ok(())
}

/// Requests that follow one another, on two files, with lines between them that tell nothing.
#[test]
fn of_one_after_another(rt: HostRuntime) -> Result<(), SearchFault> {
    let text =
        "# two files\n> 1 set 0 1 w 0 9\n< 1 ok\n\n> 7 set 5 1 w 0 9\n< 7 ok\n> 1 unlock 0 1 0 9\n< 1 ok\n";
    is_told(
        &rt,
        rt.alloc(),
        text,
        "1 behind 2\n7 behind 5\n1 behind 7\n",
    )
}

/// The second of two that overlap came first, and both before the line of a request on another file.
#[test]
fn of_two_that_overlap(rt: HostRuntime) -> Result<(), SearchFault> {
    let text =
        "> 1 set 0 1 w 0 9\n> 2 set 0 2 w 9 9\n> 3 get 1 1 r 0 0\n< 3 free\n< 1 busy\n< 2 ok\n";
    is_told(
        &rt,
        rt.alloc(),
        text,
        "2 behind 2\n1 behind 2\n3 behind 3\n",
    )
}

/// A conversion lets its old lock go, so that another owner may set one, and is refused then: all that between two lines.
#[test]
fn of_a_conversion(rt: HostRuntime) -> Result<(), SearchFault> {
    let text =
        "> 1 flock 0 1 sh\n< 1 ok\n> 3 flock 0 2 ex nb\n> 2 flock 0 1 ex nb\n< 2 busy\n< 3 ok\n";
    is_told(
        &rt,
        rt.alloc(),
        text,
        "1 behind 1\n2 lets go behind 4\n3 behind 4\n2 behind 4\n",
    )
}

/// A wait that a signal ended had no effect, and one that nobody answered may have had none.
#[test]
fn of_waits(rt: HostRuntime) -> Result<(), SearchFault> {
    let text = "> 1 set 0 1 w 0 9\n< 1 ok\n> 2 wait 0 2 r 0 0\n> 3 wait 0 3 r 1 1\n< 2 EINTR\n";
    is_told(&rt, rt.alloc(), text, "1 behind 1\n")
}

/// Byte locks and flock locks on two files.
const LOCKS: &str =
    "> 1 flock 7 1 ex\n< 1 ok\n> 2 set 7 2 w 0 9\n< 2 ok\n> 3 set 5 3 r 4 4\n< 3 ok\n> 4 unlock 7 2 3 3\n< 4 ok\n";

/// What each of their effects leaves, by file, and behind the byte locks the flock locks.
const BEHIND_EACH: &str = "\
1 behind 1
# flock 7 1 ex
2 behind 3
# lock 7 2 w 0 9
# flock 7 1 ex
3 behind 5
# lock 5 3 r 4 4
# lock 7 2 w 0 9
# flock 7 1 ex
4 behind 7
# lock 5 3 r 4 4
# lock 7 2 w 0 2
# lock 7 2 w 4 9
# flock 7 1 ex
";

/// What the third one leaves.
const BEHIND_THE_THIRD: &str = "\
1 behind 1
2 behind 3
3 behind 5
# lock 5 3 r 4 4
# lock 7 2 w 0 9
# flock 7 1 ex
4 behind 7
";

/// What a fifth one would leave: there is none.
const BEHIND_NONE: &str = "1 behind 1\n2 behind 3\n3 behind 5\n4 behind 7\n";

/// With these states, this is told of the locks.
fn states_are(
    rt: &impl Abort,
    alloc: Global,
    states: LockStates,
    due: &str,
) -> Result<(), SearchFault> {
    let (_, told) = judge(alloc, with(states), LOCKS.as_bytes(), 0)?;
    same(rt, told.as_slice(), due.as_bytes());
    Ok(())
}

#[test]
fn with_locks(rt: HostRuntime) -> Result<(), SearchFault> {
    states_are(&rt, rt.alloc(), LockStates::Everywhere, BEHIND_EACH)?;
    states_are(&rt, rt.alloc(), LockStates::Behind(3), BEHIND_THE_THIRD)?;
    states_are(&rt, rt.alloc(), LockStates::Behind(5), BEHIND_NONE)
}

/// An order is told, with these locks.
fn with(states: LockStates) -> Judging {
    Judging { states, ..ORDER }
}

/// Of a history that isn't legal no order is told.
#[test]
fn of_none(rt: HostRuntime) -> Result<(), SearchFault> {
    let text = "> 1 set 0 1 w 0 9\n< 1 ok\n> 2 set 0 2 r 5 5\n< 2 ok\n";
    let (outcome, told) = judge(rt.alloc(), ORDER, text.as_bytes(), 0)?;
    let begins_so = told.as_slice().starts_with(b"line 4: ok isn't possible\n#");
    same(&rt, (outcome, begins_so), (Illegal, true));
    Ok(())
}

/// A client that sets and removes a lock a thousand times.
#[test]
fn of_many_lines(rt: HostRuntime) -> Result<(), SearchFault> {
    let text = sets_and_removes(rt.alloc(), 1_000)?;
    let (outcome, told) = judge(rt.alloc(), ORDER, text.as_str().as_bytes(), 100_000)?;
    same(&rt, (outcome, line_count(&told)), (Legal, 2_000));
    let front = b"1 behind 1\n1 behind 3\n1 behind 5\n";
    same(&rt, told.as_slice().starts_with(front), true);
    Ok(())
}
