//! Texts with faults, the earliest of which is told.
use super::{PLAIN, judge, same};
use history_check::HistoryOutcome::{Faulty, Illegal, Legal};
use history_check::{HistoryCheck, HistoryOutcome, Judging, LockStates};
use history_core::SearchFault;
use range_core::Memory;
use script_core::{Cause, ScriptFault};
use std::alloc::Global;
use std::process::Abort;

/// The text, which comes cut behind so many bytes, has this outcome.
fn comes_to(
    rt: &impl Abort,
    alloc: Global,
    text: &str,
    cut: usize,
    due: HistoryOutcome,
) -> Result<(), SearchFault> {
    let (outcome, _) = judge(alloc, PLAIN, text.as_bytes(), cut)?;
    same(rt, (text, outcome), (text, due));
    Ok(())
}

/// The fault of the line with this number.
fn fault(line: u64, cause: Cause) -> HistoryOutcome {
    Faulty(ScriptFault { line, cause })
}

/// Texts, each with its fault, at its line.
const TEXTS: &[(&str, u64, Cause)] = &[
    ("> 1 close 0 1\n> 1 close 0 1\n", 2, Cause::Tag),
    ("\n< 1 ok\n", 2, Cause::Tag),
    ("> 1 close 0 1\n< 1 ok\n< 1 ok", 3, Cause::Tag),
    ("> 1 close 0 1\n< 1 busy\n", 2, Cause::Word),
    ("# tab\n1 close\t0 1\n", 2, Cause::Byte),
    ("> 1 set 0 1 w 9 0\n", 1, Cause::Number),
    ("> 1 close 0\n", 1, Cause::Count),
    ("> x close 0 1", 1, Cause::Number),
];

/// Nothing else is told of them.
#[test]
fn of_lines(rt: HostRuntime) -> Result<(), SearchFault> {
    for (text, line, cause) in TEXTS {
        let (outcome, told) = judge(rt.alloc(), PLAIN, text.as_bytes(), 3)?;
        let due = fault(*line, *cause);
        same(&rt, (*text, outcome, told.is_empty()), (*text, due, true));
    }
    Ok(())
}

/// So many number signs.
fn number_signs(alloc: Global, count: u64) -> Result<String, Memory> {
    let mut text = String::new(alloc);
    for _ in 0..count {
        text.push_str("#")?;
    }
    Ok(text)
}

/// A line of 120 bytes is one, and one more is too many, whatever they are.
#[test]
fn of_a_long_line(rt: HostRuntime) -> Result<(), SearchFault> {
    let text = number_signs(rt.alloc(), 120)?;
    comes_to(&rt, rt.alloc(), text.as_str(), 60, Legal)?;
    let text = number_signs(rt.alloc(), 121)?;
    let too_long = fault(1, Cause::TooLong);
    comes_to(&rt, rt.alloc(), text.as_str(), 60, too_long)
}

/// A bad line behind an illegal one isn't told, nor an illegal one behind a bad one.
#[test]
fn of_the_earliest_line(rt: HostRuntime) -> Result<(), SearchFault> {
    let first = "> 1 set 0 1 w 0 9\n< 1 busy\n> 1\n";
    comes_to(&rt, rt.alloc(), first, 20, Illegal)?;
    let behind = "> 1 set 0 1 w 0 9\n> 1\n< 1 busy\n";
    let bad = fault(2, Cause::Count);
    comes_to(&rt, rt.alloc(), behind, 20, bad)
}

/// The limit is told where two requests may have happened, or not, and one possibility alone may be kept.
#[test]
fn of_the_limit(rt: HostRuntime) -> Result<(), SearchFault> {
    let judging = Judging {
        runs: false,
        open_waits: false,
        order: false,
        states: LockStates::Nowhere,
        limit: 1,
    };
    let mut check = HistoryCheck::new(rt.alloc(), judging);
    check.take_all(b"> 1 set 0 1 w 0 9\n> 2 set 0 2 w 20 29\n")?;
    same(&rt, check.take_all(b"< 1 ok\n"), Err(SearchFault::Limit));
    Ok(())
}

/// A text that is cut off behind this is decided then, and may have been before; it has this outcome.
fn is_cut_off(
    rt: &impl Abort,
    alloc: Global,
    text: &[u8],
    was_decided: bool,
    due: HistoryOutcome,
) -> Result<(), SearchFault> {
    let mut check = HistoryCheck::new(alloc, PLAIN);
    check.take_all(text)?;
    same(rt, check.is_decided(), was_decided);
    check.cut_off();
    same(rt, (check.is_decided(), check.outcome()), (true, due));
    Ok(())
}

/// What is too long is told as such, unless something was told before.
#[test]
fn of_the_whole(rt: HostRuntime) -> Result<(), SearchFault> {
    let too_long = fault(0, Cause::TooLong);
    is_cut_off(&rt, rt.alloc(), b"> 1 set 0 1 w 0 9\n", false, too_long)?;
    let text = b"> 1 set 0 1 w 0 9\n< 1 busy\n";
    is_cut_off(&rt, rt.alloc(), text, true, Illegal)
}
