//! Many lines, and many waits.
use super::{OPEN, PLAIN, judge, same};
use history_check::HistoryOutcome::{Legal, LostWakeUps};
use history_core::SearchFault;
use range_core::Memory;
use std::alloc::Global;

/// The lines of a client that sets and removes a lock so many times.
pub(super) fn sets_and_removes(alloc: Global, times: u64) -> Result<String, Memory> {
    let mut text = String::new(alloc);
    for _ in 0..times {
        text.push_str("> 1 set 0 1 w 0 9\n< 1 ok\n> 1 unlock 0 1 0 9\n< 1 ok\n")?;
    }
    Ok(text)
}

/// How many lines were told.
pub(super) fn line_count(told: &[u8]) -> usize {
    told.iter().filter(|byte| **byte == b'\n').count()
}

/// A client that sets and removes a lock ten thousand times.
#[test]
fn of_many_lines(rt: HostRuntime) -> Result<(), SearchFault> {
    let text = sets_and_removes(rt.alloc(), 10_000)?;
    let (outcome, told) = judge(rt.alloc(), PLAIN, text.as_str().as_bytes(), 100_000)?;
    same(&rt, (outcome, told.is_empty()), (Legal, true));
    Ok(())
}

/// Owners that wait on a file each.
fn many_wait(alloc: Global) -> Result<String, Memory> {
    let mut text = String::new(alloc);
    for id in 1..400u64 {
        let line = format!(in alloc; "> {id} wait {id} 1 w 0 9\n")?;
        text.push_str(line.as_str())?;
    }
    Ok(text)
}

/// As many waits as have more than 64 KiB of lines, none of which is blocked.
#[test]
fn of_many_waits(rt: HostRuntime) -> Result<(), SearchFault> {
    let text = many_wait(rt.alloc())?;
    let (outcome, told) = judge(rt.alloc(), OPEN, text.as_str().as_bytes(), 1000)?;
    same(&rt, (outcome, line_count(&told)), (LostWakeUps, 399));
    let front = b"1 waits since 1\n2 waits since 2\n";
    same(&rt, told.as_slice().starts_with(front), true);
    Ok(())
}
