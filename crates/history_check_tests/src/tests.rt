//! Texts of histories whose verdicts were derived by hand, and what is told of them.
mod faults;
mod judged;
mod large;
mod orders;

use history_check::{HistoryCheck, HistoryOutcome, Judging, LockStates};
use history_core::SearchFault;
use std::alloc::Global;
use std::fmt::Debug;
use std::process::Abort;

/// How most texts are judged.
const PLAIN: Judging = Judging {
    runs: false,
    open_waits: false,
    order: false,
    states: LockStates::Nowhere,
    limit: 1000,
};

/// The same, with the question whether the history may end so.
const OPEN: Judging = Judging {
    runs: false,
    open_waits: true,
    order: false,
    states: LockStates::Nowhere,
    limit: 1000,
};

/// The same as the first, with an order of the effects told.
const ORDER: Judging = Judging {
    runs: false,
    open_waits: false,
    order: true,
    states: LockStates::Nowhere,
    limit: 1000,
};

/// The two are the same.
fn same<T: PartialEq + Debug + Drop>(rt: &impl Abort, left: T, right: T) {
    assert_eq!(rt; left, right);
}

/// The verdict of a text that comes in two pieces, cut behind so many bytes, and what is told of it.
fn judge(
    alloc: Global,
    judging: Judging,
    text: &[u8],
    cut: usize,
) -> Result<(HistoryOutcome, Vec<u8>), SearchFault> {
    let (front, rest) = text.split_at(cut.min(text.len()));
    let mut check = HistoryCheck::new(alloc, judging);
    check.take_all(front)?;
    check.take_all(rest)?;
    check.end()?;
    let told = check.told(alloc, judging.states)?;
    Ok((check.outcome(), told))
}
