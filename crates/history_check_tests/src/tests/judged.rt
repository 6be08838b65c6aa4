//! Histories that are legal, and others.
use super::{OPEN, PLAIN, judge, same};
use history_check::HistoryOutcome::{Illegal, Legal, LostWakeUps};
use history_check::{HistoryOutcome, Judging, LockStates};
use history_core::SearchFault;
use std::alloc::Global;
use std::process::Abort;

/// The text has this verdict however it is cut, and what is told of it begins so.
fn tells(
    rt: &impl Abort,
    alloc: Global,
    judging: Judging,
    text: &str,
    outcome: HistoryOutcome,
    told: &str,
) -> Result<(), SearchFault> {
    for cut in 0..text.len() {
        let (found, front) = judge(alloc, judging, text.as_bytes(), cut)?;
        same(rt, (text, cut, found), (text, cut, outcome));
        let begins_so = front.as_slice().starts_with(told.as_bytes());
        let seen = (text, begins_so, front.is_empty());
        same(rt, seen, (text, true, told.is_empty()));
    }
    Ok(())
}

/// Lines of nothing, and requests that follow one another.
const LEGAL: &[&str] = &[
    "\n",
    "  # a comment\n\n   \n",
    "> 1 set 0 1 w 0 9\n< 1 ok\n> 2 set 0 2 r 5 5\n< 2 busy\n",
    "> 1 set 0 1 w 0 9\n< 1 ok\n> 2 set 1 2 r 5 5\n< 2 ok",
    "> 1 set 0 1 w 0 9\n< 1 ok\n> 1 unlock 0 1 0 4\n< 1 ok\n> 1 set 0 2 w 0 4\n< 1 ok\n",
    "> 1 flock 0 1 ex\n< 1 ok\n> 2 flock 0 2 sh nb\n< 2 busy\n> 3 gone 0 1\n< 3 ok\n> 2 flock 0 2 sh\n< 2 ok\n",
];

#[test]
fn that_are_legal(rt: HostRuntime) -> Result<(), SearchFault> {
    for text in LEGAL {
        tells(&rt, rt.alloc(), PLAIN, *text, Legal, "")?;
    }
    Ok(())
}

/// Two that overlap may have happened in either order, and a request without an answer later, or never.
#[test]
fn that_overlap(rt: HostRuntime) -> Result<(), SearchFault> {
    let alloc = rt.alloc();
    let both = "> 1 set 0 1 w 0 9\n> 2 set 0 2 w 9 9\n< 1 busy\n< 2 ok\n";
    tells(&rt, alloc, PLAIN, both, Legal, "")?;
    let never = "> 1 set 0 1 w 0 9\n> 2 set 0 2 w 9 9\n< 2 ok\n";
    tells(&rt, alloc, PLAIN, never, Legal, "")?;
    let neither = "> 1 set 0 1 w 0 9\n> 2 set 0 2 w 9 9\n< 2 busy\n< 1 busy\n";
    tells(
        &rt,
        alloc,
        PLAIN,
        neither,
        Illegal,
        "line 4: busy isn't possible\n",
    )
}

/// The first answer with which no order is left is told, in its words with one space between each two.
#[test]
fn that_are_illegal(rt: HostRuntime) -> Result<(), SearchFault> {
    let alloc = rt.alloc();
    let beside = "> 1 set 0 1 w 0 9\n< 1 ok\n> 2 set 0 2 r 5 5\n< 2 ok\n> 3 close 0 1\n";
    tells(
        &rt,
        alloc,
        PLAIN,
        beside,
        Illegal,
        "line 4: ok isn't possible\n# open since line 3: > 2 set 0 2 r 5 5\n",
    )?;
    let nobody = "# nobody has it\n\n>  1 get  0 1 w 0 9\n <  1 held  2 w 0  0";
    tells(
        &rt,
        alloc,
        PLAIN,
        nobody,
        Illegal,
        "line 4: held 2 w 0 0 isn't possible\n#",
    )?;
    let hidden = "> 1 get 0 1 w 0 9\n< 1 held - w 0 0\nno line\n";
    tells(
        &rt,
        alloc,
        PLAIN,
        hidden,
        Illegal,
        "line 2: held - w 0 0 isn't possible\n#",
    )
}

/// A part of a run is told, unless largest runs are demanded.
#[test]
fn of_runs(rt: HostRuntime) -> Result<(), SearchFault> {
    let alloc = rt.alloc();
    let text = "> 1 set 0 1 w 0 9\n< 1 ok\n> 2 get 0 2 r 0 0\n< 2 held 1 w 0 4\n";
    tells(&rt, alloc, PLAIN, text, Legal, "")?;
    let runs = Judging {
        runs: true,
        open_waits: false,
        order: false,
        states: LockStates::Nowhere,
        limit: 1000,
    };
    tells(
        &rt,
        alloc,
        runs,
        text,
        Illegal,
        "line 4: held 1 w 0 4 isn't possible\n#",
    )
}

/// A wait that nothing blocks is told where that is asked for, by its ID and its line.
#[test]
fn of_open_waits(rt: HostRuntime) -> Result<(), SearchFault> {
    let alloc = rt.alloc();
    let text =
        "# two wait\n> 1 flock 0 1 ex nb\n< 1 ok\n> 7 flock 0 2 sh\n> 2 wait 1 2 w 0 9\n> 3 flock 0 1 un\n< 3 ok\n";
    tells(&rt, alloc, PLAIN, text, Legal, "")?;
    tells(
        &rt,
        alloc,
        OPEN,
        text,
        LostWakeUps,
        "7 waits since 4\n2 waits since 5\n",
    )?;
    let blocked = "> 1 flock 0 1 ex nb\n< 1 ok\n> 7 flock 0 2 sh\n";
    tells(&rt, alloc, OPEN, blocked, Legal, "")
}
