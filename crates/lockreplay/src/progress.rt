//! How far a search is, told on a terminal.
use explore_run::Watch;
use std::cell::Cell;
use std::io::{IsTerminal, Stderr};
use std::time::{Clock, Duration, Instant};

/// How long a line stands before the next one takes its place, in seconds (this project's choice).
const SECONDS: u64 = 1;

/// Tells on standard error how far a search is, where that is a terminal: how many situations were looked at, how many a second, and how many
/// events lead to the last one. The line is gone once the search has ended. Elsewhere nothing is told.
pub struct Progress<'a, C: Clock> {
    clock: &'a C,
    stderr: Stderr,
    /// When the search began, where progress is told.
    began: Option<Instant>,
    /// How long the search took when the last line was written.
    told: Cell<Option<Duration>>,
}

// Written by hand, since a derive would require the clock to be `Drop`.
impl<C: Clock> Drop for Progress<'_, C> {
    fn drop(self) {
        let Progress {
            clock: _clock,
            stderr: _stderr,
            began: _began,
            told: _told,
        } = self;
    }
}

impl<'a, C: Clock> Progress<'a, C> {
    /// No situation was looked at.
    pub fn new(clock: &'a C, stderr: Stderr) -> Progress<'a, C> {
        let began = if stderr.is_terminal() {
            Instant::now(clock).ok()
        } else {
            None
        };
        Progress {
            clock,
            stderr,
            began,
            told: Cell::new(None),
        }
    }

    /// Writes a line, unless one was written less than a second ago.
    fn tell(&self, began: Instant, situations: usize, events: usize) {
        let Ok(elapsed) = began.elapsed(self.clock) else {
            return;
        };
        let before = self.told.get().map_or(0, |told| told.as_secs());
        if elapsed.as_secs() < before.saturating_add(SECONDS) {
            return;
        }
        self.told.set(Some(elapsed));
        let rate = situations as u64 / elapsed.as_secs().max(1);
        let _ = eprint!(self.stderr;
            "{situations} situations, {rate} per second, {events} events\x1b[K\r"
        );
    }
}

impl<C: Clock> Watch for Progress<'_, C> {
    fn looked(&self, situations: usize, events: usize) {
        if let Some(began) = self.began {
            self.tell(began, situations, events);
        }
    }

    fn ended(&self) {
        if self.told.get().is_some() {
            let _ = eprint!(self.stderr; "\x1b[K");
        }
    }
}
