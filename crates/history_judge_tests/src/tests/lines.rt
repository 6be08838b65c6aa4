//! Lines of a history, each with the verdict that the standards give.
use history_core::{Action, Answer, Request};
use history_judge::{HistoryJudge, JudgeFault};
use range_core::Span;
use std::fmt::Debug;
use std::process::Abort;

/// A line of a history.
#[derive(Clone, Copy, Debug)]
pub enum Line {
    /// The request of this ID was sent on this file, by this owner.
    Sent(u64, u64, u64, Action),
    /// The request of this ID was told this.
    Told(u64, Answer),
    /// The same of an answer that no order permits: it is no line of the history, and those that follow go on before it.
    Refused(u64, Answer),
}

/// The first ten bytes.
pub const TEN: Span = Span { first: 0, last: 9 };

/// The first byte.
pub const FIRST: Span = Span { first: 0, last: 0 };

/// How many possibilities the small histories may have.
pub const ENOUGH: usize = 1000;

/// Reads these lines, each of which has its verdict; they are numbered from 1 on.
pub fn read(rt: &impl Abort, judge: &mut HistoryJudge, lines: &[Line]) {
    for (place, line) in lines.iter().enumerate() {
        let number = place as u64 + 1;
        let (told, due) = match *line {
            Line::Sent(id, file, owner, action) => {
                let request = Request { id, owner, action };
                (judge.send(number, file, request, ENOUGH), Ok(()))
            }
            Line::Told(id, answer) => (judge.answer(id, answer, ENOUGH), Ok(())),
            Line::Refused(id, answer) => (
                judge.answer(id, answer, ENOUGH),
                Err(JudgeFault::Impossible),
            ),
        };
        same(rt, ("line", number, told), ("line", number, due));
    }
}

/// Looks that the two are the same.
pub fn same<T: PartialEq + Debug + Drop>(rt: &impl Abort, left: T, right: T) {
    assert_eq!(rt; left, right);
}
