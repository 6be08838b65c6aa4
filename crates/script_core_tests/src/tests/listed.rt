//! The lock manager against one whose waits are a plain list, request by request: on the worked scripts, and on scripts that are made by a
//! written rule.
use super::made::{next_process, next_request, next_request_in_sections};
use super::same;
use super::taking::script_of;
use super::worked::ROWS;
use fd_table::{Access, Limits};
use listed_machine::ListedMachine;
use lock_manager::{Errno, FlockOp, LkCmd, Lock, Note, Reply, Request, Rules};
use range_core::{Kind, Memory, Whence};
use session_core::{Entry, Sequencer};
use std::alloc::Global;
use std::process::Abort;
use std::test::Fail;
use wait_core::Policy;
use wait_core_tests::rule::Rule;

/// What came up in the entries that were compared.
#[derive(Clone, Copy, Default)]
struct Seen {
    entries: u64,
    waits: u64,
    grants: u64,
    deadlocks: u64,
    interrupted: u64,
    /// How many conversions by flock let others pass.
    passed: u64,
    /// How many entered a section, and how many left one.
    visits: u64,
    /// How many bails ended their process, and how many were answered.
    ended: u64,
    stayed: u64,
}

impl Seen {
    /// Counts what the entry tells.
    fn count(&mut self, entry: &Entry) {
        let notes = entry.notes.as_slice();
        add_one(&mut self.entries);
        self.count_section(entry.p, entry.request, notes);
        if is_flock_lock(entry.request) && notes.len() > 1 {
            add_one(&mut self.passed);
        }
        for note in notes {
            match note {
                Note::Waits { .. } => add_one(&mut self.waits),
                Note::Answer { p, reply, .. } => self.count_answer(*p == entry.p, *reply),
            }
        }
    }

    /// Counts what a request of a section, or a bail, came to.
    fn count_section(&mut self, caller: u8, request: Request, notes: &[Note]) {
        let own = match notes {
            [Note::Answer { p, reply, .. }, ..] if *p == caller => Some(*reply),
            _ => None,
        };
        match request {
            Request::Enter { .. } | Request::Leave { .. } if own == Some(Reply::Ok) => {
                add_one(&mut self.visits);
            }
            Request::Bail if own.is_none() => add_one(&mut self.ended),
            Request::Bail => add_one(&mut self.stayed),
            _ => {},
        }
    }

    /// Counts an answer to the process of the request or to another one.
    fn count_answer(&mut self, is_own: bool, reply: Reply) {
        match reply {
            Reply::Err(Errno::EDEADLK) => add_one(&mut self.deadlocks),
            Reply::Err(Errno::EINTR) => add_one(&mut self.interrupted),
            Reply::Ok if !is_own => add_one(&mut self.grants),
            _ => {},
        }
    }
}

fn add_one(count: &mut u64) {
    *count = count.saturating_add(1);
}

/// Whether the request is by flock, for a lock.
fn is_flock_lock(request: Request) -> bool {
    matches!(
        request,
        Request::Flock {
            op: FlockOp::Sh | FlockOp::Ex,
            ..
        }
    )
}

/// The lock manager, with the mail of its processes, and the plain one.
#[derive(Drop)]
struct Both {
    alloc: Global,
    sequencer: Sequencer,
    listed: ListedMachine,
}

impl Both {
    /// Process 1 lives, and there is nothing else.
    fn new(alloc: Global, rules: Rules) -> Result<Both, Fail> {
        let sequencer = Sequencer::new(alloc, rules.limits.processes(), rules)?;
        let listed = ListedMachine::new(alloc, rules)?;
        Ok(Both {
            alloc,
            sequencer,
            listed,
        })
    }

    /// The request arrives, and all that can be taken is: both tell the same of each that is.
    fn send(
        &mut self,
        rt: &impl Abort,
        p: u8,
        request: Request,
        seen: &mut Seen,
    ) -> Result<(), Fail> {
        assert!(rt; 1 <= p && p <= self.sequencer.manager().processes());
        let mut told = Vec::new(self.alloc);
        self.sequencer.deliver(p, request, &mut told)?;
        for entry in &told {
            self.take(rt, entry)?;
            seen.count(entry);
        }
        Ok(())
    }

    /// The plain one tells the same of the entry.
    fn take(&mut self, rt: &impl Abort, entry: &Entry) -> Result<(), Memory> {
        let Entry { p, n, request, .. } = *entry;
        assert!(rt; 1 <= p && p <= 64 && self.listed.is_able(p), "{p}#{n}");
        let notes = self.listed.take(p, n, request)?;
        let told = (p, n, request, notes.as_slice());
        same(rt, told, (p, n, request, entry.notes.as_slice()));
        Ok(())
    }
}

/// How many lines the text has.
fn lines_of(text: &[u8]) -> usize {
    text.iter().filter(|byte| **byte == b'\n').count()
}

/// Both tell the same of each entry of each worked script.
#[test]
fn tells_the_worked_notes(rt: HostRuntime) -> Result<(), Fail> {
    for row in ROWS {
        let mut seen = Seen::default();
        let script = script_of(&rt, rt.alloc(), row);
        let mut both = Both::new(rt.alloc(), script.rules)?;
        for (p, request) in &script.arrivals {
            both.send(&rt, *p, *request, &mut seen)?;
        }
        let due = lines_of(row.entries) as u64;
        same(&rt, (row.name, seen.entries), (row.name, due));
    }
    Ok(())
}

/// Process 1 opens both files, and so does each of three children, which shares its descriptions too. Each locks a byte.
fn open_all(rt: &impl Abort, both: &mut Both, seen: &mut Seen) -> Result<(), Fail> {
    for p in 1..=4u8 {
        if p > 1 {
            both.send(rt, 1, Request::Fork { child: p }, seen)?;
        }
        for file in 0..2u8 {
            let access = Access::Rw;
            both.send(rt, p, Request::OpenFile { file, access }, seen)?;
        }
        both.send(rt, p, lock_of_byte(p), seen)?;
    }
    Ok(())
}

/// `F_SETLK` of the byte of this number for writing, by descriptor 0.
fn lock_of_byte(number: u8) -> Request {
    Request::Lk {
        fd: 0,
        cmd: LkCmd::SetLk,
        lock: Lock {
            kind: Kind::Write,
            whence: Whence::Set,
            start: i64::from(number),
            len: 1,
            pid: 0,
        },
    }
}

/// Both tell the same on the script of this number, of 40 requests behind the opening, of which some are of sections where that is wanted.
fn send_script(
    rt: &impl Abort,
    alloc: Global,
    x: u64,
    has_sections: bool,
    seen: &mut Seen,
) -> Result<(), Fail> {
    let mut both = Both::new(alloc, rules_of(x))?;
    open_all(rt, &mut both, seen)?;
    let mut rule = Rule::new(x);
    for _request in 0..40u8 {
        let p = next_process(&mut rule);
        let request = match has_sections {
            false => next_request(&mut rule),
            true => next_request_in_sections(&mut rule),
        };
        both.send(rt, p, request, seen)?;
    }
    Ok(())
}

/// What comes up in 500 such scripts.
fn send_scripts(rt: &impl Abort, alloc: Global, has_sections: bool) -> Result<Seen, Fail> {
    let mut seen = Seen::default();
    for x in 0..500u64 {
        send_script(rt, alloc, x, has_sections, &mut seen)?;
    }
    Ok(seen)
}

/// More than so many came up.
fn has_more(rt: &impl Abort, name: &str, count: u64, least: u64) {
    same(rt, (name, count, count > least), (name, count, true));
}

/// Both tell the same on 500 scripts of 40 requests each behind the opening, in which waits begin, are granted, are interrupted and would
/// close cycles, and conversions by flock let others pass.
#[test]
fn tells_the_same_notes_often(rt: HostRuntime) -> Result<(), Fail> {
    let seen = send_scripts(&rt, rt.alloc(), false)?;
    has_more(&rt, "entries", seen.entries, 20000);
    has_more(&rt, "waits", seen.waits, 1000);
    has_more(&rt, "grants", seen.grants, 250);
    has_more(&rt, "deadlocks", seen.deadlocks, 100);
    has_more(&rt, "interrupted", seen.interrupted, 200);
    has_more(&rt, "passed", seen.passed, 50);
    Ok(())
}

/// So they do on 500 scripts in which processes also enter sections, leave them and bail.
#[test]
fn tells_the_same_of_sections_often(rt: HostRuntime) -> Result<(), Fail> {
    let seen = send_scripts(&rt, rt.alloc(), true)?;
    has_more(&rt, "visits", seen.visits, 1000);
    has_more(&rt, "ended", seen.ended, 250);
    has_more(&rt, "stayed", seen.stayed, 250);
    Ok(())
}

/// Each policy with each of the limits, in turn.
fn rules_of(x: u64) -> Rules {
    Rules {
        policy: if x % 2 == 0 {
            Policy::Held
        } else {
            Policy::Queue
        },
        limits: if x / 2 % 2 == 0 {
            Limits::Small
        } else {
            Limits::Wide
        },
    }
}
