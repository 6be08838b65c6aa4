//! The worked scripts event by event. Where a growth of `take_next` is refused, all is as before, and the same call made again tells the
//! notes of the script: so of each event, whichever growth is refused.
use super::worked::ROWS;
use super::{again, same};
use lock_book::Held;
use lock_manager::{ProcState, Request};
use script_core::{Cause, Script, parse, write_entry};
use session_core::{ArriveFault, Session};
use std::alloc::Global;
use std::process::Abort;
use wait_core::Wait;

/// A worked script.
pub(super) struct Row {
    /// What it shows.
    pub(super) name: &'static str,
    pub(super) script: &'static [u8],
    /// The lines of its entries.
    pub(super) entries: &'static [u8],
}

/// What a refused growth leaves as it was, beside the journal.
#[derive(Drop)]
struct Standing {
    held: Vec<Held>,
    waits: Vec<Wait>,
    /// Of each process that the widest limits have.
    states: [ProcState; 64],
}

fn all_held(rt: &impl Abort, session: &Session) -> Vec<Held> {
    match session.manager().held() {
        Ok(held) => held,
        Err(_) => again(rt, session.manager().held()),
    }
}

fn all_waits(rt: &impl Abort, session: &Session) -> Vec<Wait> {
    match session.manager().waits() {
        Ok(waits) => waits,
        Err(_) => again(rt, session.manager().waits()),
    }
}

fn all_states(session: &Session) -> [ProcState; 64] {
    let mut states = [ProcState::Unborn; 64];
    for p in 1..=64u8 {
        states[usize::from(p) - 1] = session.manager().state_of(p);
    }
    states
}

fn standing_of(rt: &impl Abort, session: &Session) -> Standing {
    Standing {
        held: all_held(rt, session),
        waits: all_waits(rt, session),
        states: all_states(session),
    }
}

/// Appends the line of the entry at this place of the journal, from 0. Refused memory leaves a front of it, which is cut off.
fn push_line(rt: &impl Abort, session: &Session, place: usize, text: &mut Vec<u8>) {
    let entry = session
        .journal()
        .get(place)
        .expect(rt, "there is such an entry");
    let old = text.len();
    if write_entry(entry, text).is_err() {
        text.truncate(old);
        again(rt, write_entry(entry, text));
    }
}

/// The lines of the session's journal.
fn all_lines(rt: &impl Abort, alloc: Global, session: &Session) -> Vec<u8> {
    let mut text = Vec::new(alloc);
    for place in 0..session.journal().len() {
        push_line(rt, session, place, &mut text);
    }
    text
}

/// The session stands as it did before, and its journal has just these lines.
fn assert_stands(
    rt: &impl Abort,
    alloc: Global,
    session: &Session,
    before: &Standing,
    lines: &[u8],
) {
    let after = standing_of(rt, session);
    same(rt, after.held.as_slice(), before.held.as_slice());
    same(rt, after.waits.as_slice(), before.waits.as_slice());
    same(rt, after.states, before.states);
    same(rt, all_lines(rt, alloc, session).as_slice(), lines);
}

/// `take_next` of a session whose journal has these lines; a refused growth must leave all as it was.
fn take_next(rt: &impl Abort, alloc: Global, session: &mut Session, lines: &[u8]) -> Option<u64> {
    let before = standing_of(rt, session);
    match session.take_next() {
        Ok(place) => place,
        Err(_) => {
            assert_stands(rt, alloc, session, &before, lines);
            again(rt, session.take_next())
        }
    }
}

/// Takes all that can be taken, which is no more than so much. Each entry's line is appended, and is the one that is due.
fn take_all(
    rt: &impl Abort,
    alloc: Global,
    session: &mut Session,
    most: usize,
    row: &Row,
    lines: &mut Vec<u8>,
) {
    for _ in 0..most {
        let Some(place) = take_next(rt, alloc, session, lines.as_slice()) else {
            return;
        };
        let entries = session.journal().len();
        same(rt, (row.name, place), (row.name, entries as u64));
        push_line(rt, session, entries.saturating_sub(1), lines);
        let are_due = row.entries.starts_with(lines.as_slice());
        same(rt, (row.name, are_due), (row.name, true));
    }
}

/// [`Session::arrive`].
fn arrive_once(
    rt: &impl Abort,
    session: &mut Session,
    p: u8,
    request: Request,
) -> Result<u64, ArriveFault> {
    assert!(rt; 1 <= p && p <= session.manager().processes());
    session.arrive(p, request)
}

/// The same, which must succeed where it is made again.
fn arrive(rt: &impl Abort, session: &mut Session, p: u8, request: Request) {
    if arrive_once(rt, session, p, request).is_err() {
        same(rt, arrive_once(rt, session, p, request).is_ok(), true);
    }
}

fn session_of(rt: &impl Abort, alloc: Global, script: &Script) -> Session {
    let rules = script.rules;
    let processes = rules.limits.processes();
    assert!(rt; 1 <= processes);
    match Session::new(alloc, processes, rules) {
        Ok(session) => session,
        Err(_) => again(rt, Session::new(alloc, processes, rules)),
    }
}

/// What the script says.
pub(super) fn script_of(rt: &impl Abort, alloc: Global, row: &Row) -> Script {
    match parse(alloc, row.script) {
        Ok(script) => script,
        Err(fault) => {
            let is_refused = matches!(fault.cause, Cause::Memory(_));
            same(rt, (row.name, fault, is_refused), (row.name, fault, true));
            parse(alloc, row.script).expect(rt, "refused again")
        }
    }
}

/// The arrivals of the script, taken in turn, lead to just its entries.
fn run(rt: &impl Abort, alloc: Global, row: &Row) {
    let script = script_of(rt, alloc, row);
    let mut session = session_of(rt, alloc, &script);
    let mut lines = Vec::new(alloc);
    for (p, request) in &script.arrivals {
        arrive(rt, &mut session, *p, *request);
        take_all(
            rt,
            alloc,
            &mut session,
            script.arrivals.len(),
            row,
            &mut lines,
        );
    }
    same(rt, (row.name, lines.as_slice()), (row.name, row.entries));
}

#[test]
fn worked_scripts_are_taken(rt: HostRuntime) {
    for row in ROWS {
        run(&rt, rt.alloc(), row);
    }
}
