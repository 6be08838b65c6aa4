//! Requests in turn, with the replies and notes that the rules give.
mod asking;
mod flocks;
mod replies;
mod waits;

use fd_table::{Access, Limits, Look};
use lock_book::{Held, Owner};
use lock_manager::{
    Errno, FlockOp, InTheWay, LkCmd, Lock, Manager, Note, ProcState, Reply, Request, Rules,
};
use range_core::{Kind, Memory, Mode, OFFMAX, Span, Whence};
use std::alloc::Global;
use std::fmt::Debug;
use std::process::Abort;
use std::test::Fail;
use wait_core::{Policy, Wait};

const RULES: Rules = Rules {
    policy: Policy::Held,
    limits: Limits::Small,
};

/// What a process asks for, in short.
#[derive(Clone, Copy)]
enum Ask {
    Open(u8, Access),
    Dup(u32),
    /// dup2 from a descriptor onto another.
    DupTo(u32, u32),
    Close(u32),
    Seek(u32, i64),
    Resize(u32, i64),
    /// `F_SETLK` from the first byte of the file.
    Set(u32, Kind, i64, i64),
    /// `F_SETLKW` on descriptor 0, from the first byte of the file.
    Wait(Kind, i64, i64),
    /// Another lock command, and where its range is counted from.
    Command(u32, LkCmd, Kind, Whence, i64, i64),
    /// A lock command for writing on the byte at an offset, with a process number in its lock.
    WithPid(u32, LkCmd, i64, i64),
    Flock(u32, FlockOp),
    /// The same, with `LOCK_NB`.
    FlockNow(u32, FlockOp),
    Fork(u8),
    Exit,
    Signal(u8),
    Kill(u8),
}

/// A lock command on a range that is counted from there.
fn command(fd: u32, cmd: LkCmd, kind: Kind, (whence, start, len): (Whence, i64, i64)) -> Request {
    let lock = Lock {
        kind,
        whence,
        start,
        len,
        pid: 0,
    };
    Request::Lk { fd, cmd, lock }
}

/// A lock command for writing on one byte, whose lock has this process number.
fn with_pid(fd: u32, cmd: LkCmd, start: i64, pid: i64) -> Request {
    let lock = Lock {
        kind: Kind::Write,
        whence: Whence::Set,
        start,
        len: 1,
        pid,
    };
    Request::Lk { fd, cmd, lock }
}

impl Ask {
    fn request(self) -> Request {
        let set = Whence::Set;
        match self {
            Ask::Open(file, access) => Request::OpenFile { file, access },
            Ask::Dup(fd) => Request::Dup { fd },
            Ask::DupTo(fd, to) => Request::DupTo { fd, to },
            Ask::Close(fd) => Request::CloseFd { fd },
            Ask::Seek(fd, offset) => Request::Seek { fd, offset },
            Ask::Resize(fd, size) => Request::Resize { fd, size },
            Ask::Set(fd, kind, start, len) => command(fd, LkCmd::SetLk, kind, (set, start, len)),
            Ask::Wait(kind, start, len) => command(0, LkCmd::SetLkW, kind, (set, start, len)),
            Ask::Command(fd, cmd, kind, whence, start, len) => {
                command(fd, cmd, kind, (whence, start, len))
            }
            Ask::WithPid(fd, cmd, start, pid) => with_pid(fd, cmd, start, pid),
            Ask::Flock(fd, op) => Request::Flock { fd, op, nb: false },
            Ask::FlockNow(fd, op) => Request::Flock { fd, op, nb: true },
            Ask::Fork(child) => Request::Fork { child },
            Ask::Exit => Request::Exit,
            Ask::Signal(target) => Request::Signal { target },
            Ask::Kill(target) => Request::Kill { target },
        }
    }
}

/// A note, in short.
#[derive(Clone, Copy)]
enum Said {
    /// The process' request with this number succeeds.
    Done(u8, u64),
    /// It is answered with a descriptor.
    Opened(u8, u64, u32),
    /// It is answered with an error.
    Refused(u8, u64, Errno),
    /// It is told of the lock in its way.
    Blocked(u8, u64, Mode, u64, u64, i64),
    /// It waits.
    Waits(u8, u64),
}

impl Said {
    fn note(self) -> Note {
        let (p, n, reply) = match self {
            Said::Done(p, n) => (p, n, Reply::Ok),
            Said::Opened(p, n, fd) => (p, n, Reply::Fd(fd)),
            Said::Refused(p, n, error) => (p, n, Reply::Err(error)),
            Said::Blocked(p, n, mode, start, len, pid) => (
                p,
                n,
                Reply::Held {
                    mode,
                    start,
                    len,
                    pid,
                },
            ),
            Said::Waits(p, n) => return Note::Waits { p, n },
        };
        Note::Answer { p, n, reply }
    }
}

/// A lock that is held, in short.
#[derive(Clone, Copy)]
enum Kept {
    /// Of the process on the file, from the first byte to the last.
    Process(u8, u8, Mode, u64, u64),
    /// Of the description on file 0, from the first byte to the last.
    Description(u64, Mode, u64, u64),
    /// Of the description on file 0, by flock.
    Whole(u64, Mode),
}

impl Kept {
    fn held(self) -> Held {
        let (file, whole, owner, mode, first, last) = match self {
            Kept::Process(p, file, mode, first, last) => {
                (file, false, Owner::Process(p), mode, first, last)
            }
            Kept::Description(description, mode, first, last) => {
                let owner = Owner::Description(description);
                (0, false, owner, mode, first, last)
            }
            Kept::Whole(description, mode) => {
                (0, true, Owner::Description(description), mode, 0, OFFMAX)
            }
        };
        Held {
            file,
            whole,
            owner,
            mode,
            span: Span { first, last },
        }
    }
}

/// A request that is made, and what the manager shows.
#[derive(Clone, Copy)]
enum Step {
    /// The process' request is answered so, and nothing else is told. It has this step's number.
    Replies(u8, Ask, Reply),
    /// The process' request, under this number, leads to just these notes.
    Tells(u8, u64, Ask, &'static [Said]),
    /// Just these locks are held.
    Holds(&'static [Kept]),
    /// Just these wait.
    Queue(&'static [Wait]),
    /// The process stands there.
    Stands(u8, ProcState),
    /// There is no process of that number that can ask.
    Unable(u8),
    /// The process' request, under this number, asks for this lock.
    Wants(u8, u64, Ask, Option<Wait>),
    /// This is the first in the way of that lock.
    Finds(Wait, Option<InTheWay>),
    /// The process' descriptor refers to this.
    Refers(u8, u32, Option<Look>),
}

/// A worked run.
struct Run {
    /// What it shows.
    name: &'static str,
    steps: &'static [Step],
}

/// The two are the same.
fn same<T: PartialEq + Debug + Drop>(rt: &impl Abort, left: T, right: T) {
    assert_eq!(rt; left, right);
}

/// What a call comes to that is made again after a growth was refused: it must succeed, for at most one is refused in a run.
fn again<T>(rt: &impl Abort, second: Result<T, Memory>) -> Result<T, Memory> {
    same(rt, ("made again", second.is_ok()), ("made again", true));
    second
}

/// What is held, asked again where a growth is refused.
fn all_held(rt: &impl Abort, manager: &Manager) -> Result<Vec<Held>, Memory> {
    match manager.held() {
        Err(_) => again(rt, manager.held()),
        first => first,
    }
}

/// The waits, asked again where a growth is refused.
fn all_waits(rt: &impl Abort, manager: &Manager) -> Result<Vec<Wait>, Memory> {
    match manager.waits() {
        Err(_) => again(rt, manager.waits()),
        first => first,
    }
}

/// Where each of the 16 processes stands.
fn all_states(manager: &Manager) -> [ProcState; 16] {
    let mut states = [ProcState::Unborn; 16];
    for p in 1..=16 {
        states[usize::from(p) - 1] = manager.state_of(p);
    }
    states
}

/// [`Manager::take`].
fn answer_once(
    rt: &impl Abort,
    manager: &mut Manager,
    p: u8,
    n: u64,
    request: Request,
) -> Result<Vec<Note>, Memory> {
    assert!(rt; manager.able(p));
    manager.take(p, n, request)
}

/// The same. Where a growth is refused everything must be as before, and the same request made again is answered.
fn answer(
    rt: &impl Abort,
    manager: &mut Manager,
    p: u8,
    n: u64,
    request: Request,
) -> Result<Vec<Note>, Memory> {
    let held = all_held(rt, manager)?;
    let waits = all_waits(rt, manager)?;
    let states = all_states(manager);
    if let Ok(notes) = answer_once(rt, manager, p, n, request) {
        return Ok(notes);
    }
    same(rt, all_held(rt, manager)?.as_slice(), held.as_slice());
    same(rt, all_waits(rt, manager)?.as_slice(), waits.as_slice());
    same(rt, all_states(manager), states);
    again(rt, answer_once(rt, manager, p, n, request))
}

/// The request is answered so, and nothing else is told.
fn is_answered(
    rt: &impl Abort,
    manager: &mut Manager,
    p: u8,
    n: u64,
    (request, reply): (Request, Reply),
) -> Result<bool, Memory> {
    let notes = answer(rt, manager, p, n, request)?;
    let due = [Note::Answer { p, n, reply }];
    Ok(notes.as_slice() == due.as_slice())
}

/// The request leads to just these notes.
fn leads_to(
    rt: &impl Abort,
    manager: &mut Manager,
    p: u8,
    n: u64,
    (request, wanted): (Request, &[Said]),
) -> Result<bool, Memory> {
    let notes = answer(rt, manager, p, n, request)?;
    Ok(told(notes.as_slice(), wanted))
}

/// Just this was told.
fn told(notes: &[Note], wanted: &[Said]) -> bool {
    for (note, said) in notes.iter().zip(wanted) {
        if *note != said.note() {
            return false;
        }
    }
    notes.len() == wanted.len()
}

/// The lock is told too where its owner's on the file are asked for, and on the file beside it there is none.
fn is_told_alone(manager: &Manager, lock: &Held) -> bool {
    let beside = lock.file ^ 1;
    if let (Owner::Description(description), true) = (lock.owner, lock.whole) {
        return manager.flock_lock(lock.file, description) == Some(lock.mode)
            && manager.flock_lock(beside, description).is_none();
    }
    let run = (lock.mode, lock.span);
    match manager.byte_locks(lock.file, lock.owner) {
        Some(list) => {
            list.runs().any(|other| other == run)
                && manager.byte_locks(beside, lock.owner).is_none()
        }
        None => false,
    }
}

/// Just these locks are held.
fn holds(rt: &impl Abort, manager: &Manager, wanted: &[Kept]) -> Result<bool, Memory> {
    let locks = all_held(rt, manager)?;
    for (lock, kept) in locks.iter().zip(wanted) {
        if *lock != kept.held() || !is_told_alone(manager, lock) {
            return Ok(false);
        }
    }
    Ok(locks.len() == wanted.len())
}

/// [`Manager::first_in_the_way`].
fn first_once(rt: &impl Abort, manager: &Manager, wait: &Wait) -> Result<Option<InTheWay>, Memory> {
    let Span { first, last } = wait.span;
    assert!(rt; wait.file < 64 && first <= last && last <= OFFMAX);
    manager.first_in_the_way(wait)
}

/// What is the first in the way, asked again where a growth is refused.
fn first_in_the_way(
    rt: &impl Abort,
    manager: &Manager,
    wait: &Wait,
) -> Result<Option<InTheWay>, Memory> {
    match first_once(rt, manager, wait) {
        Err(_) => again(rt, first_once(rt, manager, wait)),
        first => first,
    }
}

/// Just these wait.
fn is_queue(rt: &impl Abort, manager: &Manager, wanted: &[Wait]) -> Result<bool, Memory> {
    let waits = all_waits(rt, manager)?;
    Ok(waits.as_slice() == wanted)
}

/// This is the first in the way of the lock.
fn finds(
    rt: &impl Abort,
    manager: &Manager,
    wait: &Wait,
    wanted: Option<InTheWay>,
) -> Result<bool, Memory> {
    let first = first_in_the_way(rt, manager, wait)?;
    Ok(first == wanted)
}

/// The manager shows this without a growth.
fn shows(manager: &Manager, step: Step) -> bool {
    match step {
        Step::Stands(p, state) => manager.state_of(p) == state,
        Step::Unable(p) => !manager.able(p),
        Step::Wants(p, n, ask, wait) => manager.wanted(p, n, ask.request()) == wait,
        Step::Refers(p, fd, look) => manager.look(p, fd) == look,
        _ => false,
    }
}

/// The step is made, or looked at: whether it came out so.
fn comes_out(
    rt: &impl Abort,
    manager: &mut Manager,
    number: u64,
    step: Step,
) -> Result<bool, Memory> {
    match step {
        Step::Replies(p, ask, reply) => {
            is_answered(rt, manager, p, number, (ask.request(), reply))
        }
        Step::Tells(p, n, ask, wanted) => leads_to(rt, manager, p, n, (ask.request(), wanted)),
        Step::Holds(locks) => holds(rt, manager, locks),
        Step::Queue(waits) => is_queue(rt, manager, waits),
        Step::Finds(wait, first) => finds(rt, manager, &wait, first),
        other => Ok(shows(manager, other)),
    }
}

fn opening(rt: &impl Abort, alloc: Global) -> Result<Manager, Memory> {
    match Manager::new(alloc, 16, RULES) {
        Err(_) => again(rt, Manager::new(alloc, 16, RULES)),
        first => first,
    }
}

/// The run comes out as its steps say.
fn assert_comes_out(rt: &impl Abort, manager: &mut Manager, run: &Run) -> Result<(), Memory> {
    for (number, step) in run.steps.iter().enumerate() {
        let came_out = comes_out(rt, manager, number as u64, *step)?;
        same(rt, (run.name, number, came_out), (run.name, number, true));
    }
    Ok(())
}

/// Each run, from the opening on, comes out as its steps say.
fn assert_all_come_out(rt: &impl Abort, alloc: Global, runs: &[Run]) -> Result<(), Memory> {
    for run in runs {
        assert_comes_out(rt, &mut opening(rt, alloc)?, run)?;
    }
    Ok(())
}

#[test]
fn requests_are_answered(rt: HostRuntime) -> Result<(), Fail> {
    assert_all_come_out(&rt, rt.alloc(), replies::RUNS)?;
    Ok(())
}

#[test]
fn waits_are_granted(rt: HostRuntime) -> Result<(), Fail> {
    assert_all_come_out(&rt, rt.alloc(), waits::RUNS)?;
    Ok(())
}

#[test]
fn flock_locks_are_converted(rt: HostRuntime) -> Result<(), Fail> {
    assert_all_come_out(&rt, rt.alloc(), flocks::RUNS)?;
    Ok(())
}

#[test]
fn it_tells_what_is_asked_for(rt: HostRuntime) -> Result<(), Fail> {
    assert_all_come_out(&rt, rt.alloc(), asking::RUNS)?;
    Ok(())
}
