//! Descriptors call by call, each growth refused once, and the wide limits.
mod worked;

use fd_table::{Access, FdFault, Limits, Look, Release, Tables};
use range_core::Memory;
use std::alloc::Global;
use std::fmt::Debug;
use std::process::Abort;
use std::test::Fail;

/// The two are the same.
fn same<T: PartialEq + Debug + Drop>(rt: &impl Abort, left: T, right: T) {
    assert_eq!(rt; left, right);
}

// Each call that may grow is made again where a growth was refused, and then it must succeed: at most one is refused in a run,
// so these tests pass whichever it is, and a run that refuses none meets no `Memory`.
fn small_tables(rt: &impl Abort, alloc: Global) -> Result<Tables, Memory> {
    match Tables::new(alloc, 16, Limits::Small) {
        Err(_) => again(rt, Tables::new(alloc, 16, Limits::Small)),
        first => first,
    }
}

fn wide_tables(rt: &impl Abort, alloc: Global) -> Result<Tables, Memory> {
    match Tables::new(alloc, 64, Limits::Wide) {
        Err(_) => again(rt, Tables::new(alloc, 64, Limits::Wide)),
        first => first,
    }
}

// What a call comes to that is made again.
fn again(rt: &impl Abort, second: Result<Tables, Memory>) -> Result<Tables, Memory> {
    assert!(rt; second.is_ok(), "refused again");
    second
}

/// A call, and what it answers. Files are opened for both reading and writing.
#[derive(Clone, Copy)]
enum Step {
    /// The process opens the file.
    Opens(u8, u8, Result<u32, FdFault>),
    /// It duplicates a descriptor.
    Dups(u8, u32, Result<u32, FdFault>),
    /// It duplicates one onto another, which releases these files and descriptions.
    DupsTo(u8, u32, u32, &'static [u8], &'static [u64]),
    /// That is refused.
    DupsToNone(u8, u32, u32),
    /// It closes one, which releases these.
    Closes(u8, u32, &'static [u8], &'static [u64]),
    /// That is refused.
    ClosesNone(u8, u32),
    Seeks(u8, u32, i64, Result<(), FdFault>),
    Resizes(u8, u32, i64, Result<(), FdFault>),
    /// It makes a child.
    Forks(u8, u8, Result<(), FdFault>),
    /// It ends, which releases these.
    Ends(u8, &'static [u8], &'static [u64]),
    /// It is born, or isn't.
    Born(u8, bool),
    /// Its descriptor refers to a file and a description with this offset and size.
    Refers(u8, u32, u8, u64, u64, u64),
    /// Its descriptor isn't open.
    Closed(u8, u32),
}

// What the first descriptors of the process refer to.
fn looks(tables: &Tables, p: u8) -> [Option<Look>; 6] {
    let mut all = [None; 6];
    for fd in 0..6u32 {
        all[fd as usize] = tables.look(p, fd);
    }
    all
}

// Whether a growth was refused.
fn is_refused<T>(answer: &Result<T, FdFault>) -> bool {
    matches!(answer, Err(FdFault::Memory(_)))
}

// `open_file`, once.
fn open_once(rt: &impl Abort, tables: &mut Tables, p: u8, file: u8) -> Result<u32, FdFault> {
    assert!(rt; tables.born(p));
    tables.open_file(p, file, Access::Rw)
}

// `open_file`; a refused growth must leave all as it was.
fn open(rt: &impl Abort, tables: &mut Tables, p: u8, file: u8) -> Result<u32, FdFault> {
    let before = looks(tables, p);
    let first = open_once(rt, tables, p, file);
    if !is_refused(&first) {
        return first;
    }
    same(rt, looks(tables, p), before);
    let second = open_once(rt, tables, p, file);
    same(
        rt,
        ("refused again", is_refused(&second)),
        ("refused again", false),
    );
    second
}

// `fork`, once.
fn fork_once(rt: &impl Abort, tables: &mut Tables, p: u8, child: u8) -> Result<(), FdFault> {
    assert!(rt; tables.born(p));
    tables.fork(p, child)
}

// `fork`; a refused growth must leave all as it was.
fn fork(rt: &impl Abort, tables: &mut Tables, p: u8, child: u8) -> Result<(), FdFault> {
    let before = looks(tables, p);
    let first = fork_once(rt, tables, p, child);
    if !is_refused(&first) {
        return first;
    }
    same(rt, looks(tables, p), before);
    same(rt, tables.born(child), false);
    let second = fork_once(rt, tables, p, child);
    same(
        rt,
        ("refused again", is_refused(&second)),
        ("refused again", false),
    );
    second
}

// Whether a close released these files and these descriptions.
fn released(release: Release, files: &[u8], descriptions: &[u64]) -> bool {
    release.files() == files && release.descriptions() == descriptions
}

// The step is made, or looked at: whether it came out so.
fn comes_out(rt: &impl Abort, tables: &mut Tables, step: Step) -> Result<bool, FdFault> {
    match step {
        Step::Opens(p, file, answer) => Ok(open(rt, tables, p, file) == answer),
        Step::Forks(p, child, answer) => Ok(fork(rt, tables, p, child) == answer),
        Step::DupsTo(..) | Step::DupsToNone(..) | Step::Closes(..) | Step::ClosesNone(..) => {
            closes(tables, step)
        }
        other => Ok(shows(tables, other)),
    }
}

// A step that may close a descriptor.
fn closes(tables: &mut Tables, step: Step) -> Result<bool, FdFault> {
    Ok(match step {
        Step::DupsTo(p, fd, to, files, descriptions) => {
            let (made, release) = tables.dup2(p, fd, to)?;
            made == to && released(release, files, descriptions)
        }
        Step::DupsToNone(p, fd, to) => tables.dup2(p, fd, to).is_err(),
        Step::Closes(p, fd, files, descriptions) => {
            released(tables.close_fd(p, fd)?, files, descriptions)
        }
        Step::ClosesNone(p, fd) => tables.close_fd(p, fd).is_err(),
        _ => false,
    })
}

// A step that tells all by what it answers.
fn shows(tables: &mut Tables, step: Step) -> bool {
    match step {
        Step::Dups(p, fd, answer) => tables.dup(p, fd) == answer,
        Step::Seeks(p, fd, offset, answer) => tables.seek(p, fd, offset) == answer,
        Step::Resizes(p, fd, size, answer) => tables.resize(p, fd, size) == answer,
        Step::Ends(p, files, descriptions) => {
            let releases = tables.end_process(p);
            releases.files() == files && releases.descriptions() == descriptions
        }
        Step::Born(p, born) => tables.born(p) == born,
        Step::Refers(p, fd, file, desc, offset, size) => {
            let access = Access::Rw;
            let look = Look {
                file,
                desc,
                access,
                offset,
                size,
            };
            tables.look(p, fd) == Some(look)
        }
        Step::Closed(p, fd) => tables.look(p, fd).is_none(),
        _ => false,
    }
}

/// Each of the steps comes out as it says.
fn assert_comes_out(
    rt: &impl Abort,
    tables: &mut Tables,
    name: &str,
    steps: &[Step],
) -> Result<(), FdFault> {
    for (index, step) in steps.iter().enumerate() {
        let came_out = comes_out(rt, tables, *step)?;
        same(rt, (name, index, came_out), (name, index, true));
    }
    Ok(())
}

#[test]
fn descriptors_come_and_go(rt: HostRuntime) -> Result<(), Fail> {
    for run in worked::RUNS {
        let mut tables = small_tables(&rt, rt.alloc())?;
        assert_comes_out(&rt, &mut tables, run.name, run.steps)?;
    }
    Ok(())
}

/// A worked run on a small table.
struct Run {
    /// What it shows.
    name: &'static str,
    steps: &'static [Step],
}

/// Descriptor 0 is duplicated onto each of these in turn.
fn dup_all(rt: &impl Abort, tables: &mut Tables, last: u32) -> Result<(), FdFault> {
    for free in 1..=last {
        same(rt, tables.dup(1, 0)?, free);
    }
    Ok(())
}

// EMFILE is met at the 33rd number of a small table (POSIX.1-2017 dup and open, ERRORS).
#[test]
fn small_table_has_32_numbers(rt: HostRuntime) -> Result<(), Fail> {
    let mut tables = small_tables(&rt, rt.alloc())?;
    same(&rt, open(&rt, &mut tables, 1, 0)?, 0);
    dup_all(&rt, &mut tables, 31)?;
    assert_comes_out(&rt, &mut tables, "a full small table", worked::FULL_SMALL)?;
    Ok(())
}

// A wide table has 256 numbers and 64 processes.
#[test]
fn wide_table_has_256_numbers(rt: HostRuntime) -> Result<(), Fail> {
    let mut tables = wide_tables(&rt, rt.alloc())?;
    assert_comes_out(&rt, &mut tables, "a wide table", worked::WIDE)?;
    dup_all(&rt, &mut tables, 255)?;
    same(&rt, tables.dup(1, 0), Err(FdFault::TooMany));
    Ok(())
}

// Twenty descriptions come, one after another.
fn open_twenty(rt: &impl Abort, tables: &mut Tables) -> Result<(), FdFault> {
    for fd in 0..20u32 {
        let file = Step::Opens(1, 7, Ok(fd));
        let refers = Step::Refers(1, fd, 7, u64::from(fd) + 1, 0, 0);
        assert_comes_out(rt, tables, "twenty", &[file, refers])?;
    }
    Ok(())
}

// As many descriptions as make the slab grow again, and a child.
#[test]
fn growth_after_growth(rt: HostRuntime) -> Result<(), Fail> {
    let mut tables = small_tables(&rt, rt.alloc())?;
    open_twenty(&rt, &mut tables)?;
    assert_comes_out(&rt, &mut tables, "after twenty", worked::AFTER_TWENTY)?;
    Ok(())
}
