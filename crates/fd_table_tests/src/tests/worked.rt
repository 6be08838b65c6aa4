//! Worked runs, and ends of runs.
use super::Step::{
    Born, Closed, Closes, ClosesNone, Dups, DupsTo, DupsToNone, Ends, Forks, Opens, Refers,
    Resizes, Seeks,
};
use super::{Run, Step};
use fd_table::FdFault;

/// A small table whose first 32 descriptors are open.
pub const FULL_SMALL: &[Step] = &[
    Dups(1, 0, Err(FdFault::TooMany)),
    Opens(1, 0, Err(FdFault::TooMany)),
    Opens(1, 64, Err(FdFault::Invalid)),
    Dups(1, 32, Err(FdFault::BadFd)),
];

/// The last process and the last descriptor of a wide table, and those past them.
pub const WIDE: &[Step] = &[
    Opens(1, 0, Ok(0)),
    Forks(1, 64, Ok(())),
    Refers(64, 0, 0, 1, 0, 0),
    Forks(1, 65, Err(FdFault::Taken)),
    DupsTo(1, 0, 255, &[], &[]),
    Refers(1, 255, 0, 1, 0, 0),
    DupsToNone(1, 0, 256),
    Closes(1, 255, &[0], &[]),
];

/// A small table in which process 1 has opened file 7 twenty times.
pub const AFTER_TWENTY: &[Step] = &[
    Forks(1, 16, Ok(())),
    Opens(16, 8, Ok(20)),
    Refers(16, 20, 8, 21, 0, 0),
    Ends(1, &[7], &[]),
];

pub const RUNS: &[Run] = &[
    Run {
        name: "dup2 onto itself changes nothing, and onto another descriptor closes that first (POSIX.1-2017 dup2, DESCRIPTION)",
        steps: &[
            Opens(1, 0, Ok(0)),
            Opens(1, 0, Ok(1)),
            DupsTo(1, 0, 0, &[], &[]),
            Refers(1, 1, 0, 2, 0, 0),
            DupsTo(1, 0, 1, &[0], &[2]),
            Refers(1, 1, 0, 1, 0, 0),
            DupsToNone(1, 0, 32),
            DupsToNone(1, 7, 0),
            Dups(1, 0, Ok(2)),
            Closes(1, 1, &[0], &[]),
            // A number of a description is never used again: the third open makes the third.
            Opens(1, 0, Ok(1)),
            Refers(1, 1, 0, 3, 0, 0),
            // dup2 to another descriptor of the same description is no last close of it, and closes the file all the same.
            DupsTo(1, 0, 2, &[0], &[]),
        ],
    },
    Run {
        name: "a description passes through dup, fork and the end of its process to the last descriptor (POSIX.1-2017 close and fork)",
        steps: &[
            Opens(1, 3, Ok(0)),
            Dups(1, 0, Ok(1)),
            Closes(1, 0, &[3], &[]),
            ClosesNone(1, 0),
            Forks(1, 2, Ok(())),
            Ends(1, &[3], &[]),
            Closed(1, 1),
            Born(1, true),
            Refers(2, 1, 3, 1, 0, 0),
            Closes(2, 1, &[3], &[1]),
            Ends(2, &[], &[]),
        ],
    },
    Run {
        name: "what the end of a process releases is told by number, whatever the order of the descriptors",
        steps: &[
            Opens(1, 5, Ok(0)),
            Opens(1, 3, Ok(1)),
            Opens(1, 5, Ok(2)),
            DupsTo(1, 0, 4, &[], &[]),
            Closes(1, 0, &[5], &[]),
            Forks(1, 2, Ok(())),
            Closes(2, 1, &[3], &[]),
            Ends(2, &[5], &[]),
            Ends(1, &[3, 5], &[1, 2, 3]),
        ],
    },
    Run {
        name: "the offset belongs to the description, and so to all who share it; the size to the file (POSIX.1-2017 fork, lseek)",
        steps: &[
            Opens(1, 0, Ok(0)),
            Forks(1, 2, Ok(())),
            Resizes(2, 0, 50, Ok(())),
            Seeks(2, 0, 100, Ok(())),
            Refers(1, 0, 0, 1, 100, 50),
            Seeks(1, 0, 0, Ok(())),
            Refers(2, 0, 0, 1, 0, 50),
            Opens(2, 0, Ok(1)),
            Seeks(2, 1, i64::MAX, Ok(())),
            Refers(2, 1, 0, 2, 9223372036854775807, 50),
            Refers(1, 0, 0, 1, 0, 50),
            Seeks(1, 0, -1, Err(FdFault::Invalid)),
            Resizes(1, 0, -1, Err(FdFault::Invalid)),
            Seeks(1, 1, -1, Err(FdFault::BadFd)),
            Resizes(1, 1, -1, Err(FdFault::BadFd)),
        ],
    },
    Run {
        name: "a process lives from its fork on, once (the numbers of processes are this project's choice)",
        steps: &[
            Born(1, true),
            Born(0, false),
            Born(2, false),
            Born(17, false),
            Forks(1, 2, Ok(())),
            Born(2, true),
            Opens(2, 0, Ok(0)),
            Closed(1, 0),
            Forks(1, 1, Err(FdFault::Taken)),
            Forks(1, 2, Err(FdFault::Taken)),
            Forks(1, 0, Err(FdFault::Taken)),
            Forks(1, 17, Err(FdFault::Taken)),
            Ends(2, &[0], &[1]),
            Forks(1, 2, Err(FdFault::Taken)),
        ],
    },
];
