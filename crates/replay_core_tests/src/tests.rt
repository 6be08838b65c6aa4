//! A run in threads with a watch: what no clause says of it.
use lock_manager::Reply;
use replay_core::{Answer, RunFault, Watch, replay_threads};
use script_core::parse;
use std::fmt::Debug;
use std::process::Abort;
use std::sync::atomic::{AtomicBool, AtomicU64, Ordering};
use std::test::Fail;
use std::thread;

/// The two are the same.
fn same<T: PartialEq + Debug + Drop>(rt: &impl Abort, left: T, right: T) {
    assert_eq!(rt; left, right);
}

/// How often a thread looks before it gives up.
const TURNS: u32 = 1000000;

/// Two processes request something, each once, and so each has a thread.
const SCRIPT: &[u8] = b"1 fork 2\n2 open 0 r\n";

/// What is told of one of the two processes.
#[derive(Drop)]
struct Side {
    /// Its request was posted.
    posted: AtomicBool,
    /// Its thread, which stands in the call that tells so, saw the other one's post.
    met: AtomicBool,
}

impl Side {
    fn new() -> Side {
        Side {
            posted: AtomicBool::new(false),
            met: AtomicBool::new(false),
        }
    }
}

/// A watch that holds each of two processes at its first post until the other one has posted too, for so many turns at most.
#[derive(Drop)]
struct Meeting {
    first: Side,
    second: Side,
}

impl Watch for Meeting {
    fn posted(&self, p: u8, n: u64) {
        match (p, n) {
            (1, 1) => hold(&self.first, &self.second),
            (2, 1) => hold(&self.second, &self.first),
            _ => {}
        }
    }
}

/// Marks the one side, and turns until the other one is marked.
fn hold(own: &Side, other: &Side) {
    own.posted.store(true, Ordering::SeqCst);
    for _ in 0..TURNS {
        if other.posted.load(Ordering::SeqCst) {
            own.met.store(true, Ordering::SeqCst);
            return;
        }
        thread::yield_now();
    }
}

/// Each process is in a thread of its own while the other is, and each post is told there.
#[test]
fn two_processes_meet_at_their_watch(rt: HostRuntime) -> Result<(), Fail> {
    let alloc = rt.alloc();
    let script = parse(alloc, SCRIPT).map_err(RunFault::from)?;
    let meeting = Meeting {
        first: Side::new(),
        second: Side::new(),
    };
    let report = replay_threads(&rt, alloc, &script, &meeting)?;
    same(&rt, meeting.first.met.load(Ordering::SeqCst), true);
    same(&rt, meeting.second.met.load(Ordering::SeqCst), true);
    let first: &[Answer] = &[(1, Reply::Ok, 1)];
    let second: &[Answer] = &[(1, Reply::Fd(0), 2)];
    same(&rt, report.collected[0].as_slice(), first);
    same(&rt, report.collected[1].as_slice(), second);
    Ok(())
}

/// Process 1 requests six times, more than it may have posted without an answer, and process 2 twice.
const TWO_AND_SIX: &[u8] =
    b"1 fork 2\n2 open 0 r\n1 open 0 r\n2 close 0\n1 close 0\n1 open 1 r\n1 close 0\n1 open 2 r\n";

/// Counts what it is told of each of two processes.
#[derive(Drop)]
struct Counting {
    first: AtomicU64,
    second: AtomicU64,
    /// It was told of a number that isn't the next one of the process, or of another process.
    astray: AtomicBool,
}

impl Counting {
    /// Whether this is the next number of the process.
    fn is_next(&self, p: u8, n: u64) -> bool {
        let count = match p {
            1 => &self.first,
            2 => &self.second,
            _ => return false,
        };
        count.fetch_add(1, Ordering::SeqCst).checked_add(1) == Some(n)
    }
}

impl Watch for Counting {
    fn posted(&self, p: u8, n: u64) {
        if !self.is_next(p, n) {
            self.astray.store(true, Ordering::SeqCst);
        }
    }
}

/// Each post is told once, by the process and the number of the request, in the order in which the process posts.
#[test]
fn each_post_is_told_once(rt: HostRuntime) -> Result<(), Fail> {
    let alloc = rt.alloc();
    let script = parse(alloc, TWO_AND_SIX).map_err(RunFault::from)?;
    let counting = Counting {
        first: AtomicU64::new(0),
        second: AtomicU64::new(0),
        astray: AtomicBool::new(false),
    };
    let _report = replay_threads(&rt, alloc, &script, &counting)?;
    same(&rt, counting.astray.load(Ordering::SeqCst), false);
    same(&rt, counting.first.load(Ordering::SeqCst), 6);
    same(&rt, counting.second.load(Ordering::SeqCst), 2);
    Ok(())
}
