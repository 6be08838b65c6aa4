//! Mail, waits, signals, kills and flock in a session, each call made again where a growth was refused.
mod check;
mod example;
mod judged;
mod worked;

ghost use Rattle.std.specs.Prelude.{◌≤◌, All};

use fd_table::{Access, Limits};
use lock_book::{Held, Owner};
use lock_manager::{FlockOp, LkCmd, Lock, Note, ProcState, Reply, Request, Rules};
use range_core::{Kind, Memory, Mode, OFFMAX, Span, Whence};
use session_core::{ArriveFault, N_MAX, RunAllFault, Session, run_all};
use std::alloc::Global;
use std::fmt::Debug;
use std::process::Abort;
use std::test::Fail;
use wait_core::{Policy, Wait};
use worked::{ARRIVALS, RUNS};

// Each call that may grow is made again where a growth was refused, and then it must succeed: at most one is refused in a run,
// so these tests pass whichever it is, and a run that refuses none meets no `Memory`.

const RULES: Rules = Rules {
    policy: Policy::Held,
    limits: Limits::Small,
};

const OPEN: Request = Request::OpenFile {
    file: 0,
    access: Access::Rw,
};

const FORK: Request = Request::Fork { child: 2 };

/// A lock command on descriptor `fd`, with offsets from the first byte of the file.
fn lock(cmd: LkCmd, fd: u32, kind: Kind, start: i64, len: i64) -> Request {
    let lock = Lock {
        kind,
        whence: Whence::Set,
        start,
        len,
        pid: 0,
    };
    Request::Lk { fd, cmd, lock }
}

/// `F_SETLK`.
fn set(fd: u32, kind: Kind, start: i64, len: i64) -> Request {
    lock(LkCmd::SetLk, fd, kind, start, len)
}

/// `F_SETLKW` on descriptor 0.
fn wait(kind: Kind, start: i64, len: i64) -> Request {
    lock(LkCmd::SetLkW, 0, kind, start, len)
}

/// The request of the process is answered so.
fn answer(p: u8, n: u64, reply: Reply) -> Note {
    Note::Answer { p, n, reply }
}

/// What a process asks for, in short: files are file 0, and ranges are a first byte and a length.
#[derive(Clone, Copy)]
enum Ask {
    Open,
    Dup(u32),
    Fork(u8),
    Exit,
    Signal(u8),
    Kill(u8),
    /// `F_SETLK` on a descriptor.
    Set(u32, Kind, i64, i64),
    /// `F_SETLKW` on descriptor 0.
    Wait(Kind, i64, i64),
    /// `F_GETLK` on descriptor 0.
    Get(Kind, i64, i64),
    /// flock on a descriptor.
    Flock(u32, FlockOp),
    /// The same, with `LOCK_NB`.
    FlockNow(u32, FlockOp),
}

impl Ask {
    fn request(self) -> Request {
        match self {
            Ask::Open => OPEN,
            Ask::Dup(fd) => Request::Dup { fd },
            Ask::Fork(child) => Request::Fork { child },
            Ask::Exit => Request::Exit,
            Ask::Signal(target) => Request::Signal { target },
            Ask::Kill(target) => Request::Kill { target },
            Ask::Set(fd, kind, start, len) => set(fd, kind, start, len),
            Ask::Wait(kind, start, len) => wait(kind, start, len),
            Ask::Get(kind, start, len) => lock(LkCmd::GetLk, 0, kind, start, len),
            Ask::Flock(fd, op) => Request::Flock { fd, op, nb: false },
            Ask::FlockNow(fd, op) => Request::Flock { fd, op, nb: true },
        }
    }
}

/// What a session is told, and what it shows then.
#[derive(Clone, Copy)]
enum Step {
    /// The process' request arrives, and then all that can be taken is taken.
    Asks(u8, Ask),
    /// The process' request arrives, and is its so many-th.
    Sends(u8, Ask, u64),
    /// The next request that can be taken gets this place in the journal.
    Takes(Option<u64>),
    /// The process' request is taken as it comes, and gets this place.
    TakesOne(u8, Ask, u64),
    /// So much was sent, taken and answered of process 1, and of process 2, and there are so many entries.
    Counts([u64; 7]),
    /// The entry at this place, from 1, told just this.
    Told(usize, &'static [Said]),
    /// The process' so many-th request has this answer.
    Answered(u8, u64, Option<Reply>),
    /// The process stands there.
    Stands(u8, ProcState),
    /// Just these locks are held.
    Holds(&'static [Kept]),
}

/// A note, in short.
#[derive(Clone, Copy)]
enum Said {
    /// The process' so many-th request is answered so.
    Answer(u8, u64, Reply),
    /// The process' so many-th request waits.
    Waits(u8, u64),
}

impl Said {
    fn note(self) -> Note {
        match self {
            Said::Answer(p, n, reply) => answer(p, n, reply),
            Said::Waits(p, n) => Note::Waits { p, n },
        }
    }
}

/// A lock on file 0, in short.
#[derive(Clone, Copy)]
enum Kept {
    /// By the process, from the first byte to the last.
    Bytes(u8, Mode, u64, u64),
    /// By flock, of the description.
    Whole(u64, Mode),
}

impl Kept {
    fn held(self) -> Held {
        let (whole, owner, mode, first, last) = match self {
            Kept::Bytes(p, mode, first, last) => (false, Owner::Process(p), mode, first, last),
            Kept::Whole(description, mode) => {
                (true, Owner::Description(description), mode, 0, OFFMAX)
            }
        };
        Held {
            file: 0,
            whole,
            owner,
            mode,
            span: Span { first, last },
        }
    }
}

/// A worked run.
struct Run {
    /// What it shows.
    name: &'static str,
    processes: u8,
    policy: Policy,
    /// What comes first, which other runs begin with too.
    opening: &'static [Step],
    steps: &'static [Step],
}

/// What a call comes to that is made again after a growth was refused.
fn again<T>(rt: &impl Abort, second: Result<T, Memory>) -> T {
    second.expect(rt, "refused again")
}

/// The two are the same.
fn same<T: PartialEq + Debug + Drop>(rt: &impl Abort, left: T, right: T) {
    assert_eq!(rt; left, right);
}

/// A session of 1 to 16 processes.
fn session_of(rt: &impl Abort, alloc: Global, processes: u8, policy: Policy) -> Session {
    assert!(rt; 1 <= processes && processes <= 16);
    let limits = Limits::Small;
    match Session::new(alloc, processes, Rules { policy, limits }) {
        Ok(session) => session,
        Err(_) => again(rt, Session::new(alloc, processes, Rules { policy, limits })),
    }
}

fn all_held(rt: &impl Abort, session: &Session) -> Vec<Held> {
    match session.manager().held() {
        Ok(held) => held,
        Err(_) => again(rt, session.manager().held()),
    }
}

fn all_waits(rt: &impl Abort, session: &Session) -> Vec<Wait> {
    match session.manager().waits() {
        Ok(waits) => waits,
        Err(_) => again(rt, session.manager().waits()),
    }
}

/// What the two processes sent, what was taken and what answered, and how many entries there are.
fn counts(session: &Session) -> [u64; 7] {
    [
        session.sent(1),
        session.taken(1),
        session.answered(1),
        session.sent(2),
        session.taken(2),
        session.answered(2),
        session.journal().len() as u64,
    ]
}

/// What a call that was refused a growth leaves as it was.
#[derive(Drop)]
struct Standing {
    counts: [u64; 7],
    states: [ProcState; 3],
    locks: Vec<Held>,
    waits: Vec<Wait>,
}

fn standing_of(rt: &impl Abort, session: &Session) -> Standing {
    let manager = session.manager();
    Standing {
        counts: counts(session),
        states: [
            manager.state_of(1),
            manager.state_of(2),
            manager.state_of(3),
        ],
        locks: all_held(rt, session),
        waits: all_waits(rt, session),
    }
}

/// The session stands as it did before.
fn assert_stands(rt: &impl Abort, session: &Session, before: &Standing) {
    let after = standing_of(rt, session);
    same(
        rt,
        (after.counts, after.states),
        (before.counts, before.states),
    );
    same(rt, after.locks.as_slice(), before.locks.as_slice());
    same(rt, after.waits.as_slice(), before.waits.as_slice());
}

/// Whether a growth was refused.
fn is_refused(arrived: &Result<u64, ArriveFault>) -> bool {
    matches!(arrived, Err(ArriveFault::Memory(_)))
}

/// [`Session::arrive`].
fn arrive_once(
    rt: &impl Abort,
    session: &mut Session,
    p: u8,
    request: Request,
) -> Result<u64, ArriveFault> {
    assert!(rt; 1 <= p && p <= session.manager().processes());
    session.arrive(p, request)
}

/// The same; a refused growth must leave all as it was.
fn arrive(
    rt: &impl Abort,
    session: &mut Session,
    p: u8,
    request: Request,
) -> Result<u64, ArriveFault> {
    let before = standing_of(rt, session);
    let first = arrive_once(rt, session, p, request);
    if !is_refused(&first) {
        return first;
    }
    assert_stands(rt, session, &before);
    let second = arrive_once(rt, session, p, request);
    same(
        rt,
        ("made again", is_refused(&second)),
        ("made again", false),
    );
    second
}

/// `take_next`, likewise.
fn take_next(rt: &impl Abort, session: &mut Session) -> Option<u64> {
    let before = standing_of(rt, session);
    match session.take_next() {
        Ok(place) => place,
        Err(_) => {
            assert_stands(rt, session, &before);
            again(rt, session.take_next())
        }
    }
}

/// [`Session::take_one`].
fn take_one_once(
    rt: &impl Abort,
    session: &mut Session,
    p: u8,
    request: Request,
) -> Result<u64, Memory> {
    assert!(rt; 1 <= p && p <= session.manager().processes() && session.manager().able(p));
    assert!(rt; session.sent(p) == session.taken(p) && session.sent(p) < N_MAX);
    session.take_one(p, request)
}

/// The same, likewise.
fn take_one(rt: &impl Abort, session: &mut Session, p: u8, request: Request) -> u64 {
    let before = standing_of(rt, session);
    match take_one_once(rt, session, p, request) {
        Ok(place) => place,
        Err(_) => {
            assert_stands(rt, session, &before);
            again(rt, take_one_once(rt, session, p, request))
        }
    }
}

/// Takes until nothing can be taken, 16 times at most.
fn take_all(rt: &impl Abort, session: &mut Session) {
    for _ in 0..16 {
        if take_next(rt, session).is_none() {
            break;
        }
    }
}

/// Just this was told.
fn is_told(notes: &[Note], wanted: &[Said]) -> bool {
    for (note, said) in notes.iter().zip(wanted) {
        if *note != said.note() {
            return false;
        }
    }
    notes.len() == wanted.len()
}

/// The entry at this place of the journal, from 1, told just this.
fn told(session: &Session, place: usize, wanted: &[Said]) -> bool {
    match session.journal().get(place.saturating_sub(1)) {
        Some(entry) => is_told(entry.notes.as_slice(), wanted),
        None => false,
    }
}

/// Just these locks are held.
fn holds(rt: &impl Abort, session: &Session, wanted: &[Kept]) -> bool {
    let locks = all_held(rt, session);
    for (lock, kept) in locks.iter().zip(wanted) {
        if *lock != kept.held() {
            return false;
        }
    }
    locks.len() == wanted.len()
}

/// The request arrives, and all that can be taken is taken.
fn asks(
    rt: &impl Abort,
    session: &mut Session,
    p: u8,
    request: Request,
) -> Result<bool, ArriveFault> {
    arrive(rt, session, p, request)?;
    take_all(rt, session);
    Ok(true)
}

/// The request arrives, and is its process' so many-th.
fn sends(
    rt: &impl Abort,
    session: &mut Session,
    p: u8,
    (request, wanted): (Request, u64),
) -> Result<bool, ArriveFault> {
    let n = arrive(rt, session, p, request)?;
    Ok(n == wanted)
}

/// The session shows this.
fn shows(rt: &impl Abort, session: &Session, step: Step) -> bool {
    match step {
        Step::Counts(wanted) => counts(session) == wanted,
        Step::Told(place, said) => told(session, place, said),
        Step::Answered(p, n, reply) => session.answer_of(p, n) == reply,
        Step::Stands(p, state) => session.manager().state_of(p) == state,
        Step::Holds(locks) => holds(rt, session, locks),
        _ => false,
    }
}

/// The step is made, or looked at: whether it came out so.
fn comes_out(rt: &impl Abort, session: &mut Session, step: Step) -> Result<bool, ArriveFault> {
    match step {
        Step::Asks(p, ask) => asks(rt, session, p, ask.request()),
        Step::Sends(p, ask, n) => sends(rt, session, p, (ask.request(), n)),
        Step::Takes(place) => Ok(take_next(rt, session) == place),
        Step::TakesOne(p, ask, place) => Ok(take_one(rt, session, p, ask.request()) == place),
        other => Ok(shows(rt, session, other)),
    }
}

/// Each of the steps comes out as it says.
fn assert_comes_out(
    rt: &impl Abort,
    session: &mut Session,
    name: &str,
    steps: &[Step],
) -> Result<(), ArriveFault> {
    for (index, step) in steps.iter().enumerate() {
        let came_out = comes_out(rt, session, *step)?;
        same(rt, (name, index, came_out), (name, index, true));
    }
    Ok(())
}

/// The run comes out as its steps say.
fn assert_run(rt: &impl Abort, alloc: Global, run: &Run) -> Result<(), ArriveFault> {
    let mut session = session_of(rt, alloc, run.processes, run.policy);
    assert_comes_out(rt, &mut session, run.name, run.opening)?;
    assert_comes_out(rt, &mut session, run.name, run.steps)
}

/// Each worked run comes out as its steps say.
#[test]
fn worked_runs_come_out(rt: HostRuntime) -> Result<(), Fail> {
    for run in RUNS {
        assert_run(&rt, rt.alloc(), run)?;
    }
    Ok(())
}

fn run_of_two(
    rt: &impl Abort,
    alloc: Global,
    arrivals: &[(u8, Request)],
) -> Result<Session, RunAllFault>
    requires { All (λ arrival. (1 ≤ arrival.0) × (arrival.0 ≤ 2)) arrivals.now }
{
    match run_all(alloc, 2, RULES, arrivals) {
        Err(RunAllFault::Memory(_)) => {
            let second = run_all(alloc, 2, RULES, arrivals);
            same(rt, ("made again", second.is_ok()), ("made again", true));
            second
        }
        first => first,
    }
}

/// Arrivals are run in one call: their journal, and what is held after it.
#[test]
fn arrivals_are_run(rt: HostRuntime) -> Result<(), Fail> {
    let arrivals = [
        (2, OPEN),
        (1, OPEN),
        (1, set(0, Kind::Write, 0, 100)),
        (1, set(0, Kind::Read, 40, 20)),
    ];
    let mut session = run_of_two(&rt, rt.alloc(), &arrivals)?;
    assert_comes_out(&rt, &mut session, "four arrivals", ARRIVALS)?;
    Ok(())
}
