//! What a side of a table does while it finds nothing.
use std::thread;
use std::thread::Threads;
use std::time::{Clock, Duration};

/// How often a side that finds nothing to do looks again at once before it yields, where each thread has a processor.
const LOOKS: u32 = 1000;

/// And where there are fewer processors than threads, so that who has what it looks for may have to wait for its processor.
const LOOKS_OF_FEW: u32 = 50;

/// How often it then yields between two looks before it sleeps.
const YIELDS: u32 = 100;

/// How many microseconds it then sleeps between two looks.
const NAP: u64 = 100;

/// How often a side of a table that finds nothing looks again at once (this project's choice).
#[derive(Clone, Copy)]
pub struct Patience {
    looks: u32,
}

impl Patience {
    /// That of each of so many threads: less where they are known to be more than the processors that this process may use.
    pub fn of_threads(rt: &impl Threads, threads: usize) -> Patience {
        let looks = match thread::available_parallelism(rt) {
            Ok(processors) if processors.get() < threads => LOOKS_OF_FEW,
            _ => LOOKS,
        };
        Patience { looks }
    }
}

/// What a side of a table does between two looks that find nothing: it looks again at once at first, then yields, and then sleeps (this
/// project's choice).
#[derive(Drop)]
pub struct Pause {
    patience: Patience,
    /// So often it looks again at once, since something was found.
    looks: u32,
    /// So often it then yields.
    yields: u32,
}

impl Pause {
    /// A pause of a side that hasn't looked yet.
    pub fn new(patience: Patience) -> Pause {
        Pause {
            patience,
            looks: patience.looks,
            yields: YIELDS,
        }
    }

    /// What follows a look that found something, or didn't.
    pub fn after(&mut self, clock: &impl Clock, found: bool) {
        if found {
            *self = Pause::new(self.patience);
        } else if self.looks > 0 {
            self.looks -= 1;
        } else if self.yields > 0 {
            self.yields -= 1;
            thread::yield_now();
        } else {
            thread::sleep(clock, Duration::from_micros(NAP));
        }
    }
}
