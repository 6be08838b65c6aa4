//! Lines whose meaning or fault was derived by hand from the format of histories, and what want of memory leaves.
mod faults;
mod said;
mod written;

use history_core::Action;
use history_text::{HistoryLine, read_head};
use range_core::{Mode, Span};
use script_core::{Cause, WORDS_MAX};
use std::fmt::Debug;
use std::process::Abort;

/// The first two bytes of a file.
const FRONT: Span = Span { first: 0, last: 1 };

/// An open request of each kind: its ID, and what it asks for.
const OPEN: &[(u64, Action)] = &[
    (1, Action::Set(Mode::Read, FRONT)),
    (2, Action::Wait(Mode::Write, FRONT)),
    (3, Action::Get(Mode::Write, FRONT)),
    (4, Action::Unlock(FRONT)),
    (5, Action::Flock(Mode::Read)),
    (6, Action::FlockWait(Mode::Write)),
    (7, Action::FlockUnlock),
    (8, Action::Close),
    (9, Action::Gone),
];

/// What the open request of this ID asks for.
fn requested(id: u64) -> Option<Action> {
    for (open, action) in OPEN {
        if *open == id {
            return Some(*action);
        }
    }
    None
}

/// The two are the same.
fn same<T: PartialEq + Debug + Drop>(rt: &impl Abort, left: T, right: T) {
    assert_eq!(rt; left, right);
}

/// What a line says while the requests of [`OPEN`] are open.
fn read(line: &[u8]) -> Result<HistoryLine, Cause> {
    let mut room = [""; WORDS_MAX];
    let head = read_head(line, &mut room)?;
    let open = match head.id() {
        Some(id) => requested(id),
        None => None,
    };
    head.read(open)
}
