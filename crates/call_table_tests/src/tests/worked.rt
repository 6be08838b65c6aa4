//! A table of one cell for each of two processes, with each call and its answer as crates/call_table/README.md works it out.
ghost use Rattle.call_table.specs.Desks.{IsDeskOf};

use super::table::{Open, open_table};
use super::{OPEN, RULES, again, same};
use call_table::{Busy, Desk, Hub, Served};
use lock_manager::{Note, Reply, Request};
use session_core::{Entry, Session};
use std::process::Abort;
use std::test::Fail;

const EXIT: Request = Request::Exit;

/// [`Desk::serve_one`], and once more where a growth was refused.
fn serve(rt: &impl Abort, hub: &Hub, desk: &mut Desk) -> Served
    requires { IsDeskOf hub.now desk.old }
    ensures { IsDeskOf hub.now desk.new }
{
    match desk.serve_one(hub, &Open) {
        Ok(served) => served,
        Err(_) => again(rt, desk.serve_one(hub, &Open)),
    }
}

#[test]
fn the_worked_table_answers_so(rt: HostRuntime) -> Result<(), Fail> {
    let (hub, mut first, mut second, mut desk) = open_table(&rt, rt.alloc(), 2, 1, RULES)?;
    same(&rt, first.post(&hub, OPEN), Ok(1));
    same(&rt, first.post(&hub, EXIT), Err(Busy { request: EXIT }));
    same(&rt, second.collect(&hub), None);
    same(&rt, serve(&rt, &hub, &mut desk), Served::Took(1));
    same(&rt, serve(&rt, &hub, &mut desk), Served::Idle);
    let (mut desk, mut first) = desk.meet(&hub, first);
    same(&rt, first.collect(&hub), Some((1, Reply::Fd(0), 1)));
    same(&rt, first.post(&hub, EXIT), Ok(2));
    same(&rt, serve(&rt, &hub, &mut desk), Served::Took(2));
    let (mut desk, mut first) = desk.meet(&hub, first);
    same(&rt, first.collect(&hub), None);
    same(&rt, first.post(&hub, EXIT), Err(Busy { request: EXIT }));
    desk.close(&hub);
    same(&rt, serve(&rt, &hub, &mut desk), Served::Closed);
    same(&rt, first.closed(&hub), true);
    look_at_session(&rt, &desk.into_session());
    Ok(())
}

/// Whether the entry took this request of process 1, and told just this.
fn took(entry: &Entry, n: u64, request: Request, notes: &[Note]) -> bool {
    (entry.p, entry.n, entry.request) == (1, n, request) && entry.notes.as_slice() == notes
}

/// The session that the desk leaves: its journal is `1#1 open 0 rw | 1#1 fd 0` and `1#2 exit`.
fn look_at_session(rt: &impl Abort, session: &Session) {
    let opened = Note::Answer {
        p: 1,
        n: 1,
        reply: Reply::Fd(0),
    };
    let journal = session.journal();
    assert!(rt; journal.len() == 2);
    same(rt, took(&journal[0], 1, OPEN, &[opened]), true);
    same(rt, took(&journal[1], 2, EXIT, &[]), true);
    same(rt, session.taken(1), 2);
    same(rt, session.answered(1), 1);
    same(rt, session.taken(2), 0);
}
