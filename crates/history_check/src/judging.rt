//! How a history is judged, and what comes of it.
use script_core::ScriptFault;

/// How a history is judged (this project's choice).
#[derive(Clone, Copy, Debug, PartialEq, Eq)]
pub struct Judging {
    /// Whether a get tells largest ranges of one mode alone (POSIX.1-2017 fcntl, `F_GETLK`, leaves open which part of the lock it tells).
    pub runs: bool,
    /// Whether each wait that is open at the end has to be one that may wait still.
    pub open_waits: bool,
    /// Whether an order of the effects is kept, to be told of a legal history: memory grows with each line and each effect.
    pub order: bool,
    /// Behind which lines of that order the locks of all files are told.
    pub states: LockStates,
    /// How many possibilities may be kept at once, over all files.
    pub limit: usize,
}

/// What a history comes to (this project's choice).
#[derive(Clone, Copy, Debug, PartialEq, Eq)]
pub enum HistoryOutcome {
    /// There was an order of all effects in which every answer is permitted.
    Legal,
    /// There was none: an answer isn't possible.
    Illegal,
    /// There was one, and none behind which each open wait waits still.
    LostWakeUps,
    /// A line is none of a history, or the history is too long.
    Faulty(ScriptFault),
}

/// Behind which lines of an order the locks of all files are told (this project's choice).
#[derive(Clone, Copy, Debug, PartialEq, Eq)]
pub enum LockStates {
    /// Behind none.
    Nowhere,
    /// Behind the line of this number, counted from 1; an order may have none of it.
    Behind(u64),
    /// Behind each.
    Everywhere,
}

impl LockStates {
    ghost use Rattle.std.specs.Prelude.{◌≡◌};
    ghost use Rattle.history_check.specs.OrderTold.{are_behind as are_behind_of};

    /// Whether they are told behind the line of this number.
    pub fn are_behind(self, number: u64) -> bool
        ensures { result ≡ are_behind_of self number }
    {
        match self {
            LockStates::Nowhere => false,
            LockStates::Behind(place) => place == number,
            LockStates::Everywhere => true,
        }
    }
}
