//! The table with a thread for each side.
use super::table::{Answer, Caller, Open, Server, advance, open_table, with_hub};
use super::{FORK, OPEN, RULES, same};
use call_table::Served;
use lock_manager::{LkCmd, Lock, Note, Reply, Request};
use range_core::{Kind, Memory, Whence};
use session_core::Session;
use std::alloc::Global;
use std::process::Abort;
use std::sync::Wait;
use std::test::Fail;
use std::thread;
use std::thread::Threads;

/// How often a thread looks before it gives up.
pub const TURNS: u32 = 1000000;

/// What two processes request: some of it is taken before their threads begin, and the rest in whatever order comes. All of it is
/// answered in each order.
struct Script {
    before: &'static [(u8, Request)],
    first: &'static [Request],
    second: &'static [Request],
    /// How many these are in all.
    requests: usize,
    /// What each of the two collects, where every order leaves that; else nothing.
    to_first: &'static [Answer],
    to_second: &'static [Answer],
}

const SCRIPTS: &[Script] = &[
    // Each locks a byte and then asks for the other's.
    Script {
        before: &[],
        first: &[
            OPEN,
            FORK,
            lock!(SetLk, Write, 0, 1),
            lock!(SetLkW, Write, 1, 1),
            lock!(SetLk, Unlock, 0, 2),
        ],
        second: &[
            lock!(SetLk, Write, 1, 1),
            lock!(SetLkW, Write, 0, 1),
            lock!(SetLk, Unlock, 0, 2),
        ],
        requests: 8,
        to_first: &[],
        to_second: &[],
    },
    // An unlock answers who waits, at the place of the unlock.
    Script {
        before: &[
            (1, OPEN),
            (1, FORK),
            (1, lock!(SetLk, Write, 0, 1)),
            (2, lock!(SetLkW, Write, 0, 1)),
        ],
        first: &[lock!(SetLk, Unlock, 0, 1)],
        second: &[],
        requests: 5,
        to_first: &[
            (1, Reply::Fd(0), 1),
            (2, Reply::Ok, 2),
            (3, Reply::Ok, 3),
            (4, Reply::Ok, 5),
        ],
        to_second: &[(1, Reply::Ok, 5)],
    },
];

/// Posts the requests and collects the answers, until the desk is closed and nothing is left: `None` where the turns ran out.
/// There is room for the answers.
fn converse(
    mut caller: Caller,
    requests: &[Request],
    mut answers: Vec<Answer>,
) -> Result<Option<Vec<Answer>>, Memory> {
    let mut posted = 0;
    for _ in 0..TURNS {
        if let Some(request) = requests.get(posted) {
            if caller.post(*request).is_ok() {
                posted += 1;
            }
        }
        let closed = caller.closed();
        if let Some(answer) = caller.collect() {
            answers.push(answer).map_err(Memory::from)?;
        } else if closed {
            return Ok(Some(answers));
        } else {
            thread::yield_now();
        }
    }
    Ok(None)
}

/// Serves until so many requests are taken, or the turns run out, and closes.
fn serve_all(rt: &impl Abort, server: &mut Server, requests: usize) {
    for _ in 0..TURNS {
        if server.desk.session().journal().len() == requests {
            break;
        }
        if server.serve(rt, &Open) == Served::Idle {
            thread::yield_now();
        }
    }
    server.close();
}

/// Whether the journal has this answer to the process, at its place.
fn is_told(session: &Session, p: u8, answer: &Answer) -> bool {
    let (n, reply, place) = *answer;
    match session.journal().get((place as usize).saturating_sub(1)) {
        Some(entry) => entry
            .notes
            .as_slice()
            .contains(&Note::Answer { p, n, reply }),
        None => false,
    }
}

/// Looks that these are the journal's answers to the process, and that the last request was granted.
fn look_at_answers(rt: &impl Abort, session: &Session, p: u8, answers: &[Answer]) {
    same(rt, answers.len() as u64, session.answered(p));
    let is_granted = matches!(answers.last(), Some((_, Reply::Ok, _)));
    same(rt, (p, is_granted), (p, true));
    for answer in answers {
        let told = (p, *answer, is_told(session, p, answer));
        same(rt, told, (p, *answer, true));
    }
}

/// What each of the two collected. Refused where no thread can be had.
fn run_both<R: Threads + Wait + Abort + Sync>(
    rt: &R,
    alloc: Global,
    first: Caller,
    second: Caller,
    server: &mut Server,
    script: &Script,
) -> Result<(Vec<Answer>, Vec<Answer>), Fail> {
    let to_first = Vec::with_capacity(alloc, 5).map_err(Memory::from)?;
    let to_second = Vec::with_capacity(alloc, 3).map_err(Memory::from)?;
    thread::scope(thread::scope_env(), rt, |scope| {
        let one = scope.spawn(move || converse(first, script.first, to_first))?;
        let two = scope.spawn(move || converse(second, script.second, to_second))?;
        serve_all(rt, server, script.requests);
        let (one, two) = (one.join(rt), two.join(rt));
        let (one, two) = (one?, two?);
        let one = one.expect(rt, "the turns are enough for process 1");
        Ok((one, two.expect(rt, "the turns are enough for process 2")))
    })
}

/// In whatever order the two ask, all is taken, and each collects the journal's answers to it.
fn run_script<R: Threads + Wait + Abort + Sync>(
    rt: &R,
    alloc: Global,
    mut first: Caller,
    mut second: Caller,
    server: &mut Server,
    script: &Script,
) -> Result<(), Fail> {
    advance(rt, &mut first, &mut second, server, script.before);
    let (one, two) = run_both(rt, alloc, first, second, server, script)?;
    let session = server.desk.session();
    same(rt, session.journal().len(), script.requests);
    look_at_answers(rt, session, 1, &one);
    look_at_answers(rt, session, 2, &two);
    if !script.to_first.is_empty() {
        same(rt, one.as_slice(), script.to_first);
        same(rt, two.as_slice(), script.to_second);
    }
    Ok(())
}

fn run_scripts<R: Threads + Wait + Abort + Sync>(rt: &R, alloc: Global) -> Result<(), Fail> {
    for script in SCRIPTS {
        let (hub, first, last, desk) = open_table(rt, alloc, 2, 4, RULES)?;
        let (first, second, mut server) = with_hub(&hub, first, last, desk);
        run_script(rt, alloc, first, second, &mut server, script)?;
    }
    Ok(())
}

#[test]
fn two_threads_lock_and_wait(rt: HostRuntime) -> Result<(), Fail> {
    run_scripts(&rt, rt.alloc())
}

#[test]
fn pairs_of_threads_lock_and_wait_often(rt: HostRuntime) -> Result<(), Fail> {
    for _ in 0..100 {
        run_scripts(&rt, rt.alloc())?;
    }
    Ok(())
}
