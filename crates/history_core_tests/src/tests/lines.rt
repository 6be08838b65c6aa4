//! Lines of a file's history, each with the verdict that the standards give.
use history_core::{Action, Answer, FileHistory, Request};
use range_core::{Memory, Span};
use std::alloc::Global;
use std::fmt::Debug;
use std::process::Abort;

/// A line of a file's history.
#[derive(Clone, Copy)]
pub enum Line {
    /// The request of this ID and owner was sent.
    Sent(u64, u64, Action),
    /// The request of this ID was told this.
    Told(u64, Answer),
    /// The same of an answer that no order permits: it is no line of the history, and those that follow go on before it.
    Refused(u64, Answer),
}

/// The first ten bytes.
pub const TEN: Span = Span { first: 0, last: 9 };

/// The first byte.
pub const FIRST: Span = Span { first: 0, last: 0 };

/// Two bytes in the midst of ten.
pub const MIDST: Span = Span { first: 4, last: 5 };

/// The bytes in the midst of ten, and one before.
pub const WIDE: Span = Span { first: 3, last: 5 };

/// The last of ten bytes, and more behind it.
pub const LAST_ON: Span = Span {
    first: 9,
    last: u64::MAX,
};

/// All bytes.
pub const ALL: Span = Span {
    first: 0,
    last: u64::MAX,
};

/// How many possibilities the small histories may have.
pub const ENOUGH: usize = 1000;

/// Reads these lines, each of which has its verdict, as those of a file that has no line yet.
pub fn read(rt: &impl Abort, file: &mut FileHistory, lines: &[Line]) {
    for (place, line) in lines.iter().enumerate() {
        let (told, is_possible) = match *line {
            Line::Sent(id, owner, action) => {
                assert!(rt; !file.has_open(id), "line {place}");
                let sent = file.send(Request { id, owner, action }, ENOUGH);
                (sent.map(|_| true), true)
            }
            Line::Told(id, answer) => (file.answer(id, answer, ENOUGH), true),
            Line::Refused(id, answer) => (file.answer(id, answer, ENOUGH), false),
        };
        same(rt, (place, told), (place, Ok(is_possible)));
    }
}

/// Reads each of these histories as that of a file of its own; `runs` says whether a get tells largest ranges alone.
pub fn read_each(
    rt: &impl Abort,
    alloc: Global,
    runs: bool,
    histories: &[&[Line]],
) -> Result<(), Memory> {
    for lines in histories {
        read(rt, &mut FileHistory::new(alloc, runs)?, lines);
    }
    Ok(())
}

/// Looks that the two are the same.
pub fn same<T: PartialEq + Debug + Drop>(rt: &impl Abort, left: T, right: T) {
    assert_eq!(rt; left, right);
}
