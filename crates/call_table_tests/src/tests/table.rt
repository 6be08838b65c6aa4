//! The table of words, with each side in this thread.
ghost use Rattle.std.specs.Prelude.{◌≡◌, ◌≤◌, IfOk};
ghost use Rattle.fd_table.specs.Descriptors.{process_limit};
ghost use Rattle.call_table.specs.Desks.{IsDeskOf, IsOpened};
ghost use Rattle.call_table.specs.Shown.{IsClientOf};

use super::{FORK, OPEN, RULES, SEEK, WIDE, again, same};
use call_table::{Busy, Client, Desk, Gate, Hub, Served, open_hub};
use lock_manager::{LkCmd, Lock, Reply, Request, Rules};
use range_core::{Kind, Memory, Whence};
use std::alloc::Global;
use std::process::Abort;
use std::test::Fail;

/// What a client collects: the number, the reply, and its place in the journal.
pub type Answer = (u64, Reply, u64);

/// A gate that does nothing.
pub struct Open;

impl Gate for Open {
    fn between(&self, _place: u64) {}
}

/// A client with its hub.
#[derive(Drop)]
pub struct Caller<'a> {
    hub: &'a Hub,
    client: Client,
    ghost of_hub: { IsClientOf hub.now client },
}

impl Caller<'_> {
    pub fn post(&mut self, request: Request) -> Result<u64, Busy> {
        self.client.post(self.hub, request)
    }

    pub fn collect(&mut self) -> Option<Answer> {
        self.client.collect(self.hub)
    }

    pub fn closed(&mut self) -> bool {
        self.client.closed(self.hub)
    }
}

/// A desk with its hub.
#[derive(Drop)]
pub struct Server<'a> {
    hub: &'a Hub,
    pub desk: Desk,
    ghost of_hub: { IsDeskOf hub.now desk },
}

impl Server<'_> {
    pub fn serve<R: Abort, G: Gate>(&mut self, rt: &R, gate: &G) -> Served {
        match self.desk.serve_one(self.hub, gate) {
            Ok(served) => served,
            Err(_) => again(rt, self.desk.serve_one(self.hub, gate)),
        }
    }

    pub fn close(&mut self) {
        self.desk.close(self.hub);
    }
}

/// [`open_hub`], and once more where a growth was refused.
fn open_again(
    rt: &impl Abort,
    alloc: Global,
    processes: u8,
    depth: u8,
    rules: Rules,
) -> Result<(Hub, Vec<Client>, Desk), Memory>
    requires processes { (1 ≤ processes) × (processes ≤ process_limit rules.limits) }
    requires depth { (1 ≤ depth) × (depth ≤ 32) }
    ensures { IfOk result (λ made. IsOpened (record { processes = processes; depth = depth; rules = rules })
        made.0 made.1.items made.2) }
{
    match open_hub(alloc, processes, depth, rules) {
        Err(_) => {
            let second = open_hub(alloc, processes, depth, rules);
            same(rt, ("made again", second.is_ok()), ("made again", true));
            second
        }
        first => first,
    }
}

/// A table: the hub, the clients of the first process and of the last one, and the desk.
pub fn open_table(
    rt: &impl Abort,
    alloc: Global,
    processes: u8,
    depth: u8,
    rules: Rules,
) -> Result<(Hub, Client, Client, Desk), Memory>
    requires processes { (1 ≤ processes) × (processes ≤ process_limit rules.limits) }
    requires depth { (1 ≤ depth) × (depth ≤ 32) }
    ensures { IfOk result (λ made. IsClientOf made.0 made.1 × IsClientOf made.0 made.2 × IsDeskOf made.0 made.3) }
{
    let (hub, mut clients, desk) = open_again(rt, alloc, processes, depth, rules)?;
    let last = clients.pop().expect(rt, "the last process has a client");
    assert!(rt; !clients.is_empty());
    let first = clients.swap_remove(0);
    Ok((hub, first, last, desk))
}

/// Two clients and the desk, each with the hub.
pub fn with_hub(
    hub: &Hub,
    first: Client,
    last: Client,
    desk: Desk,
) -> (Caller<'_>, Caller<'_>, Server<'_>)
    requires { IsClientOf hub.now first × IsClientOf hub.now last × IsDeskOf hub.now desk }
{
    let last = Caller { hub, client: last };
    (Caller { hub, client: first }, last, Server { hub, desk })
}

/// The desk takes a request.
fn takes_one(rt: &impl Abort, server: &mut Server) {
    let has_taken = matches!(server.serve(rt, &Open), Served::Took(_));
    same(rt, has_taken, true);
}

/// Each request is posted, by the first process or another one, and served.
pub fn advance(
    rt: &impl Abort,
    first: &mut Caller,
    last: &mut Caller,
    server: &mut Server,
    requests: &[(u8, Request)],
) {
    for (process, request) in requests {
        let posted = if *process == 1 {
            first.post(*request)
        } else {
            last.post(*request)
        };
        same(rt, posted.is_ok(), true);
        takes_one(rt, server);
    }
}

/// Process 2 is there, and process 1 has a lock.
pub const LOCKED: &[(u8, Request)] = &[(1, OPEN), (1, FORK), (1, lock!(SetLk, Write, 0, 1))];

/// How many cells each client has, at most.
const DEPTH: u8 = 32;

/// The client posts a request into each of its cells.
fn fill(rt: &impl Abort, caller: &mut Caller) {
    for _ in 0..DEPTH {
        same(rt, caller.post(SEEK).is_ok(), true);
    }
}

/// The desk takes all that both posted.
fn serve_both(rt: &impl Abort, server: &mut Server) {
    for _ in 0..2 * DEPTH {
        takes_one(rt, server);
    }
}

/// The client collects the answer to each of them.
fn empty(rt: &impl Abort, caller: &mut Caller) {
    for _ in 0..DEPTH {
        let is_done = matches!(caller.collect(), Some((_, Reply::Ok, _)));
        same(rt, is_done, true);
    }
}

/// The last process of the largest table is there.
const FORKED: &[(u8, Request)] = &[(1, OPEN), (1, Request::Fork { child: 64 })];

/// Both clients fill their cells and empty them, again and again: 5,056 requests.
fn pass_often(rt: &impl Abort, first: &mut Caller, last: &mut Caller, server: &mut Server) {
    advance(rt, first, last, server, FORKED);
    same(rt, first.collect(), Some((1, Reply::Fd(0), 1)));
    same(rt, first.collect(), Some((2, Reply::Ok, 2)));
    for _ in 0..79 {
        fill(rt, first);
        fill(rt, last);
        serve_both(rt, server);
        empty(rt, first);
        empty(rt, last);
    }
    same(rt, server.desk.session().journal().len(), 5058);
}

/// Thousands of requests of the first client and of the last one pass the largest table, more than any plausible cap of it.
#[test]
fn thousands_pass_the_table_often(rt: HostRuntime) -> Result<(), Fail> {
    let (hub, first, last, desk) = open_table(&rt, rt.alloc(), 64, DEPTH, WIDE)?;
    let (mut first, mut last, mut server) = with_hub(&hub, first, last, desk);
    pass_often(&rt, &mut first, &mut last, &mut server);
    Ok(())
}

/// [`Desk::serve_one`], and once more where a growth was refused: then nothing new is shown to this client, to which nothing was.
fn serve_unseen(rt: &impl Abort, hub: &Hub, desk: &mut Desk, client: &mut Client) -> Served
    requires desk { IsDeskOf hub.now desk.old }
    requires client { IsClientOf hub.now client.old }
    ensures desk { IsDeskOf hub.now desk.new }
    ensures client { IsClientOf hub.now client.new }
{
    match desk.serve_one(hub, &Open) {
        Ok(served) => served,
        Err(_) => {
            same(rt, client.collect(hub).is_none(), true);
            again(rt, desk.serve_one(hub, &Open))
        }
    }
}

/// In a table of one cell each, a client posts a fork and is dropped, which leaves its words as they are: the desk goes on, and what it
/// met the child collects.
#[test]
fn a_dropped_client_is_served(rt: HostRuntime) -> Result<(), Fail> {
    let (hub, mut first, mut last, mut desk) = open_table(&rt, rt.alloc(), 2, 1, RULES)?;
    same(&rt, first.post(&hub, FORK), Ok(1));
    drop(first);
    let served = serve_unseen(&rt, &hub, &mut desk, &mut last);
    same(&rt, served, Served::Took(1));
    same(&rt, last.post(&hub, OPEN), Ok(1));
    let served = serve_unseen(&rt, &hub, &mut desk, &mut last);
    same(&rt, served, Served::Took(2));
    let (_desk, mut last) = desk.meet(&hub, last);
    same(&rt, last.collect(&hub), Some((1, Reply::Fd(0), 2)));
    Ok(())
}
