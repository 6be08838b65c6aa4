//! What a run may show, by its words.
ghost use Rattle.shown_run.specs.ShownRuns.{run_finding_word};

use explore_core::Finding;
use explore_run::{Named, finding_of};

/// What a run may show (this project's choice).
#[derive(Clone, Copy, Debug, PartialEq, Eq)]
pub enum RunFinding {
    /// A finding of a search: one of the run's events shows it, or its end does.
    Found(Finding),
    /// A request is told `EBADF`.
    BadDescriptor,
}

impl Named for RunFinding {
    ghost name = { run_finding_word };

    fn of_word(word: &str) -> Option<RunFinding> {
        if word == "badfd" {
            return Some(RunFinding::BadDescriptor);
        }
        match finding_of(word) {
            Some(finding) => Some(RunFinding::Found(finding)),
            None => None,
        }
    }
}
