//! A client that acts in a thread of its own while the desk stands at its gate.
use super::table::{Answer, Caller, LOCKED, Server, advance, open_table, with_hub};
use super::threads::TURNS;
use super::{RULES, same};
use call_table::{Busy, Gate, Served};
use lock_manager::{LkCmd, Lock, Reply, Request};
use range_core::{Kind, Mode, Whence};
use std::process::Abort;
use std::sync::Wait;
use std::sync::atomic::{AtomicBool, AtomicU64, Ordering};
use std::test::Fail;
use std::thread::Threads;
use std::{mem, thread};

/// Asks for the lock that process 1 has.
const LOOK: Request = lock!(GetLk, Write, 0, 1);

/// How often a gate was called, and with which place last.
#[derive(Drop)]
struct Calls {
    count: AtomicU64,
    place: AtomicU64,
}

impl Calls {
    fn none() -> Calls {
        Calls {
            count: AtomicU64::new(0),
            place: AtomicU64::new(0),
        }
    }

    fn add(&self, place: u64) {
        self.count.fetch_add(1, Ordering::SeqCst);
        self.place.store(place, Ordering::SeqCst);
    }

    /// How often, and the last place.
    fn seen(&self) -> (u64, u64) {
        (
            self.count.load(Ordering::SeqCst),
            self.place.load(Ordering::SeqCst),
        )
    }
}

/// A gate that counts its calls.
impl Gate for Calls {
    fn between(&self, place: u64) {
        self.add(place);
    }
}

/// A gate that holds the desk until the client has acted, for so many turns at most, and what the two threads tell each other.
#[derive(Drop)]
struct Acting {
    calls: Calls,
    /// The desk stands at the gate.
    entered: AtomicBool,
    /// The client's calls returned.
    acted: AtomicBool,
    /// That was seen at the gate.
    seen: AtomicBool,
    /// The desk has served.
    served: AtomicBool,
}

impl Acting {
    fn new() -> Acting {
        Acting {
            calls: Calls::none(),
            entered: AtomicBool::new(false),
            acted: AtomicBool::new(false),
            seen: AtomicBool::new(false),
            served: AtomicBool::new(false),
        }
    }
}

impl Gate for Acting {
    fn between(&self, place: u64) {
        self.calls.add(place);
        self.entered.store(true, Ordering::SeqCst);
        for _ in 0..TURNS {
            if self.acted.load(Ordering::SeqCst) {
                self.seen.store(true, Ordering::SeqCst);
                return;
            }
            thread::yield_now();
        }
    }
}

/// What came of a request that was posted and of a look for an answer.
type Came = (Result<u64, Busy>, Option<Answer>);

/// Acts once the desk stands at the gate: `None` where it has served without that, or the turns ran out.
fn act<'a>(mut client: Caller<'a>, gate: &Acting) -> Option<(Caller<'a>, Came)> {
    for _ in 0..TURNS {
        if gate.entered.load(Ordering::SeqCst) {
            let came = (client.post(LOOK), client.collect());
            gate.acted.store(true, Ordering::SeqCst);
            return Some((client, came));
        }
        if gate.served.load(Ordering::SeqCst) {
            return None;
        }
        thread::yield_now();
    }
    None
}

/// A client that acts at the gate, by its process: the answers that it collects before, the number of what it posts there, the answer that
/// it collects there, and the next one.
struct Row {
    process: u8,
    before: &'static [Answer],
    posted: u64,
    meanwhile: Option<Answer>,
    next: Option<Answer>,
}

const ROWS: &[Row] = &[
    Row {
        process: 1,
        before: &[(1, Reply::Fd(0), 1), (2, Reply::Ok, 2)],
        posted: 4,
        meanwhile: Some((3, Reply::Ok, 3)),
        next: None,
    },
    // The answer to its request is published only once the gate is passed.
    Row {
        process: 2,
        before: &[],
        posted: 2,
        meanwhile: None,
        next: Some((
            1,
            Reply::Held {
                mode: Mode::Write,
                start: 0,
                len: 1,
                pid: 1,
            },
            4,
        )),
    },
];

/// Process 1 has a lock, and process 2 asks for it, which isn't served.
fn lock_and_look(rt: &impl Abort, first: &mut Caller, second: &mut Caller, server: &mut Server) {
    advance(rt, first, second, server, LOCKED);
    same(rt, second.post(LOOK).is_ok(), true);
}

/// The client collects just these answers, one after another.
fn collect_all(rt: &impl Abort, client: &mut Caller, answers: &[Answer]) {
    for answer in answers {
        same(rt, client.collect(), Some(*answer));
    }
}

/// The desk serves that request, and the client acts meanwhile. Refused where no thread can be had.
fn serve_while_it_acts<'a, R: Threads + Wait + Abort + Sync>(
    rt: &R,
    client: Caller<'a>,
    server: &mut Server,
    gate: &Acting,
) -> Result<(Served, Option<(Caller<'a>, Came)>), Fail> {
    thread::scope(thread::scope_env(), rt, |scope| {
        let acting = scope.spawn(move || act(client, gate))?;
        let served = server.serve(rt, gate);
        gate.served.store(true, Ordering::SeqCst);
        let acted = acting.join(rt);
        Ok((served, acted))
    })
}

/// What came of it is what the row says.
fn act_at_the_gate<R: Threads + Wait + Abort + Sync>(
    rt: &R,
    client: Caller,
    server: &mut Server,
    row: &Row,
) -> Result<(), Fail> {
    let gate = Acting::new();
    let (served, acted) = serve_while_it_acts(rt, client, server, &gate)?;
    same(rt, served, Served::Took(4));
    same(rt, gate.calls.seen(), (1, 4));
    same(rt, gate.seen.load(Ordering::SeqCst), true);
    let (mut client, came) = acted.expect(rt, "the desk stood at its gate");
    same(rt, came, (Ok(row.posted), row.meanwhile));
    same(rt, client.collect(), row.next);
    Ok(())
}

/// While the desk stands between the taking of a request and its answer, a client in another thread can post, and it can collect what was
/// published. The other client is dropped, which leaves its words as they are, and the desk goes on.
#[test]
fn a_client_acts_while_the_desk_serves(rt: HostRuntime) -> Result<(), Fail> {
    for row in ROWS {
        let (hub, first, last, desk) = open_table(&rt, rt.alloc(), 2, 4, RULES)?;
        let (mut first, mut second, mut server) = with_hub(&hub, first, last, desk);
        lock_and_look(&rt, &mut first, &mut second, &mut server);
        if row.process == 2 {
            mem::swap(&mut first, &mut second);
        }
        drop(second);
        collect_all(&rt, &mut first, row.before);
        act_at_the_gate(&rt, first, &mut server, row)?;
    }
    Ok(())
}

/// The gate is called once for a request that is taken, with its place, which is 4 of the fourth; and not where there is none to take, nor
/// where the desk is closed.
#[test]
fn the_gate_is_called_once_for_each_taken_request(rt: HostRuntime) -> Result<(), Fail> {
    let (hub, first, last, desk) = open_table(&rt, rt.alloc(), 2, 4, RULES)?;
    let (mut first, mut second, mut server) = with_hub(&hub, first, last, desk);
    let gate = Calls::none();
    advance(&rt, &mut first, &mut second, &mut server, LOCKED);
    same(&rt, server.serve(&rt, &gate), Served::Idle);
    same(&rt, second.post(LOOK), Ok(1));
    same(&rt, gate.seen(), (0, 0));
    same(&rt, server.serve(&rt, &gate), Served::Took(4));
    same(&rt, gate.seen(), (1, 4));
    same(&rt, server.serve(&rt, &gate), Served::Idle);
    server.close();
    same(&rt, server.serve(&rt, &gate), Served::Closed);
    same(&rt, gate.seen(), (1, 4));
    Ok(())
}
