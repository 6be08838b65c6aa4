//! What each process has behind an event, read off the lines of the state.
use std::alloc::{AllocError, Global};

/// How many columns a picture has at most: the processes of least number.
pub const COLUMNS: usize = 5;

/// What a process has: of several things the greatest is drawn.
#[derive(Clone, Copy, Debug, PartialEq, Eq)]
pub enum Sign {
    /// No lock.
    Nothing,
    /// Read or shared locks.
    Reads,
    /// A write or exclusive lock.
    Writes,
    /// It waits.
    Waits,
}

impl Sign {
    /// How it is drawn.
    pub fn letter(self) -> &'static str {
        match self {
            Sign::Nothing => "|",
            Sign::Reads => "R",
            Sign::Writes => "W",
            Sign::Waits => ":",
        }
    }

    /// What a lock of the mode with this word makes of its owner.
    fn of_mode(word: &str) -> Sign {
        if word == "w" || word == "ex" {
            Sign::Writes
        } else {
            Sign::Reads
        }
    }

    /// The greater of two.
    fn or(self, other: Sign) -> Sign {
        match (self, other) {
            (Sign::Waits, _) | (_, Sign::Waits) => Sign::Waits,
            (Sign::Writes, _) | (_, Sign::Writes) => Sign::Writes,
            (Sign::Reads, _) | (_, Sign::Reads) => Sign::Reads,
            (Sign::Nothing, Sign::Nothing) => Sign::Nothing,
        }
    }
}

/// What a process or an open file description has.
#[derive(Clone, Copy, Debug)]
pub struct Has {
    /// Its number.
    pub number: u64,
    /// The greatest of what it has.
    pub sign: Sign,
}

/// The greatest of what the process or description of this number has.
pub fn greatest(all: &[Has], number: u64) -> Sign {
    let mut greatest = Sign::Nothing;
    for has in all {
        if has.number == number {
            greatest = greatest.or(has.sign);
        }
    }
    greatest
}

/// What the state behind an event told so far. Its lines come with locks before processes, and processes before descriptors.
#[derive(Drop)]
pub struct Scene {
    /// The processes of least number that were born, rising.
    pub processes: Vec<Has>,
    /// The locks of processes.
    own: Vec<Has>,
    /// The locks of open file descriptions.
    shared: Vec<Has>,
}

impl Scene {
    /// Nothing was told.
    pub fn new(alloc: Global) -> Scene {
        Scene {
            processes: Vec::new(alloc),
            own: Vec::new(alloc),
            shared: Vec::new(alloc),
        }
    }

    /// Takes the words of a line of the state, behind its `#`; other words tell nothing.
    pub fn take(&mut self, words: &[&str]) -> Result<(), AllocError> {
        match words {
            ["lock", _, "process", owner, mode, ..] => self.own.push(lock(owner, mode))?,
            [_, _, "description", owner, mode, ..] => self.shared.push(lock(owner, mode))?,
            ["proc", process, state] => self.add_process(number(process), state)?,
            ["fd", process, _, "description", description, ..] => {
                self.share(number(process), number(description));
            }
            _ => {}
        }
        Ok(())
    }

    /// Takes a process, which waits or has its own locks.
    fn add_process(&mut self, number: u64, state: &str) -> Result<(), AllocError> {
        if self.processes.len() == COLUMNS {
            return Ok(());
        }
        let sign = if state == "waiting" {
            Sign::Waits
        } else {
            greatest(&self.own, number)
        };
        self.processes.push(Has { number, sign })?;
        Ok(())
    }

    /// The process has a descriptor of the description, and so its locks.
    fn share(&mut self, process: u64, description: u64) {
        let shared = greatest(&self.shared, description);
        for has in self.processes.iter_mut() {
            if has.number == process {
                has.sign = has.sign.or(shared);
            }
        }
    }
}

/// What the owner of a lock has.
fn lock(owner: &str, mode: &str) -> Has {
    Has {
        number: number(owner),
        sign: Sign::of_mode(mode),
    }
}

/// The number that the word is, and 0 where it is none.
fn number(word: &str) -> u64 {
    word.parse::<u64>().unwrap_or(0)
}
