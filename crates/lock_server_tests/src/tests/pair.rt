//! A lock manager and a server that are asked for the same: the server by the calls that stand for a request, without descriptors. A
//! traditional lock is its process', an OFD lock and a flock lock its description's.
use super::calls::{ALL, Bytes, Call, Told, same, serve, stepwise};
use fd_table::{Access, Limits};
use lock_book::{Held, Owner};
use lock_manager::{Errno, Manager, Note, Reply, Request, Rules};
use lock_server::{LockServer, Mode, Policy, Span};
use range_core::{Memory, OFFMAX};
use std::alloc::Global;
use std::process::Abort;
use wait_core::{Family, Wait};

/// How many processes there are. The first takes no lock, and so never waits.
pub(super) const PROCESSES: u8 = 8;

/// A descriptor of a process, for a file, and the description that it refers to.
#[derive(Clone, Copy)]
pub(super) struct Descriptor {
    pub(super) p: u8,
    pub(super) fd: u32,
    pub(super) file: u8,
    pub(super) description: u64,
}

/// How often the scripts came to each kind of answer: refusals, waits, deadlocks, waits that a signal ended, and grants.
pub(super) type Seen = [u64; 5];

/// A manager and a server. Process `p` is told of the server's ticket `16 * n + p` by the number `n` of its request.
#[derive(Drop)]
pub(super) struct Pair {
    policy: Policy,
    pub(super) manager: Manager,
    pub(super) server: LockServer,
    pub(super) descriptors: Vec<Descriptor>,
    pub(super) seen: Seen,
    /// How many requests were left out, since the two may differ there by definition.
    pub(super) left_out: u64,
    alloc: Global,
    opened: u64,
    number: u64,
}

/// The server's number of an owner.
pub(super) fn number_of(owner: Owner) -> u64 {
    match owner {
        Owner::Process(p) => u64::from(p),
        Owner::Description(number) => number.wrapping_add(256),
    }
}

/// The owner that the server knows by this number.
pub(super) fn owner_of(number: u64) -> Owner {
    if number < 256 {
        Owner::Process(number as u8)
    } else {
        Owner::Description(number - 256)
    }
}

/// The call as a request of the manager, and whether it may wait; none of one that gives no lock.
fn claim_of(at: Descriptor, call: Call) -> Option<(Wait, bool)> {
    let (family, number, bytes, mode, may_wait) = match call {
        Call::Set(owner, bytes, Some(mode)) => (Family::Bytes, owner, bytes, mode, false),
        Call::Wait(_, owner, bytes, mode, _) => (Family::Bytes, owner, bytes, mode, true),
        Call::Flock(owner, Some(mode)) => (Family::Whole, owner, ALL, mode, false),
        Call::FlockWait(_, owner, mode) => (Family::Whole, owner, ALL, mode, true),
        _ => return None,
    };
    let (first, last) = bytes;
    let claim = Wait {
        p: at.p,
        n: 0,
        file: at.file,
        family,
        owner: owner_of(number),
        span: Span { first, last },
        mode,
    };
    Some((claim, may_wait))
}

/// Whether two requests on one file could not both be granted.
fn clash(one: &Wait, other: &Wait) -> bool {
    one.file == other.file
        && one.family == other.family
        && one.owner != other.owner
        && (one.mode == Mode::Write || other.mode == Mode::Write)
        && one.span.first <= other.span.last
        && other.span.first <= one.span.last
}

/// Whether the owner of the request has at least its mode on each of its bytes.
fn has_already(held: &[Held], claim: &Wait) -> bool {
    let mut next = claim.span.first;
    for lock in held {
        let is_its = lock.file == claim.file
            && lock.whole == (claim.family == Family::Whole)
            && lock.owner == claim.owner;
        let is_enough = lock.mode == Mode::Write || lock.mode == claim.mode;
        if is_its && is_enough && lock.span.first <= next && next <= lock.span.last {
            if claim.span.last <= lock.span.last {
                return true;
            }
            next = lock.span.last.wrapping_add(1);
        }
    }
    false
}

/// What a get command is told of a lock in the way; its length is 0 where it goes to the largest offset.
fn held_reply(lock: (u64, lock_server::Mode, Bytes)) -> Reply {
    let (owner, mode, (start, last)) = lock;
    Reply::Held {
        mode,
        start,
        len: if last == OFFMAX {
            0
        } else {
            last.wrapping_sub(start).wrapping_add(1)
        },
        pid: if owner < 256 { owner as i64 } else { -1 },
    }
}

/// The reply that stands for what the server tells of a request, where it is answered.
fn reply_of(told: Told) -> Option<Reply> {
    match told {
        Told::Done => Some(Reply::Ok),
        Told::Blocked => Some(Reply::Err(Errno::EAGAIN)),
        Told::Deadlock => Some(Reply::Err(Errno::EDEADLK)),
        Told::Nothing => Some(Reply::Free),
        Told::Lock(owner, mode, bytes) => Some(held_reply((owner, mode, bytes))),
        _ => None,
    }
}

/// The answer to the request with this ticket.
fn answer_to(ticket: u64, reply: Reply) -> Note {
    Note::Answer {
        p: (ticket % 16) as u8,
        n: ticket / 16,
        reply,
    }
}

/// The place among the kinds of answers of a refusal; none of another reply.
fn kind_of_refusal(reply: Reply) -> Option<usize> {
    match reply {
        Reply::Err(Errno::EAGAIN) => Some(0),
        Reply::Err(Errno::EDEADLK) => Some(2),
        Reply::Err(Errno::EINTR) => Some(3),
        _ => None,
    }
}

/// The place among the kinds of answers of what an event of this process told; none where it is of no kind.
fn kind_of(note: &Note, p: u8) -> Option<usize> {
    match *note {
        Note::Waits { .. } => Some(1),
        Note::Answer {
            p: other,
            reply,
            ..
        } => match kind_of_refusal(reply) {
            None if other != p => Some(4),
            kind => kind,
        },
    }
}

impl Pair {
    /// Process 1 lives, and there is nothing else.
    pub(super) fn new(alloc: Global, policy: Policy, seen: Seen) -> Result<Pair, Memory> {
        let rules = Rules {
            policy,
            limits: Limits::Small,
        };
        Ok(Pair {
            policy,
            manager: Manager::new(alloc, PROCESSES, rules)?,
            server: LockServer::new(alloc, stepwise(policy)),
            descriptors: Vec::new(alloc),
            seen,
            left_out: 0,
            alloc,
            opened: 0,
            number: 1,
        })
    }

    /// The ticket of the next request, where it is this process'.
    pub(super) fn ticket(&self, p: u8) -> u64 {
        self.number.wrapping_mul(16).wrapping_add(u64::from(p))
    }

    /// The ticket with which the process waits.
    pub(super) fn wait_of(&self, p: u8) -> Result<Option<u64>, Memory> {
        for wait in self.manager.waits()?.iter() {
            if wait.p == p {
                return Ok(Some(wait.n.wrapping_mul(16).wrapping_add(u64::from(p))));
            }
        }
        Ok(None)
    }

    /// What the manager is to tell the process, where the server tells this of its request; none of what is no answer to a request.
    fn note(&self, p: u8, told: Told) -> Option<Note> {
        if told == Told::Waits {
            return Some(Note::Waits { p, n: self.number });
        }
        Some(answer_to(self.ticket(p), reply_of(told)?))
    }

    /// Appends the answers to the waits that the server grants.
    fn push_grants(&mut self, notes: &mut Vec<Note>) -> Result<(), Memory> {
        for _ in 0..=PROCESSES {
            if let Told::Granted(ticket) = serve(&mut self.server, 0, Call::Grant)? {
                notes.push(answer_to(ticket, Reply::Ok))?;
            }
        }
        Ok(())
    }

    /// The manager's notes on the request are what the server was seen to tell, and then the grants that it tells.
    fn compare(
        &mut self,
        rt: &impl Abort,
        p: u8,
        request: Request,
        told: &[Note],
    ) -> Result<(), Memory> {
        let mut wanted = Vec::from_slice(self.alloc, told)?;
        self.push_grants(&mut wanted)?;
        assert!(rt; self.manager.able(p));
        let notes = self.manager.take(p, self.number, request)?;
        same(rt, notes.as_slice(), wanted.as_slice());
        self.number = self.number.wrapping_add(1);
        self.count(p, &notes);
        Ok(())
    }

    /// Counts what an event of this process told.
    fn count(&mut self, p: u8, notes: &[Note]) {
        for note in notes {
            if let Some(kind) = kind_of(note, p) {
                if kind < 5 {
                    self.seen[kind] = self.seen[kind].wrapping_add(1);
                }
            }
        }
    }

    /// The request is answered so.
    pub(super) fn compare_reply(
        &mut self,
        rt: &impl Abort,
        p: u8,
        request: Request,
        reply: Reply,
    ) -> Result<(), Memory> {
        let note = answer_to(self.ticket(p), reply);
        self.compare(rt, p, request, &[note])
    }

    /// Whether the two may part at the call: under the queue policy the manager has a request wait behind those that conflict with it
    /// also where it is for what its owner has, and the server doesn't. An owner that is given more while it waits on the file may come
    /// to have what its wait is for, so that counts too.
    fn may_part(&self, at: Descriptor, call: Call) -> Result<bool, Memory> {
        let Some((claim, may_wait)) = claim_of(at, call) else {
            return Ok(false);
        };
        let waits = self.manager.waits()?;
        let mut clashes = false;
        for wait in waits.iter() {
            if wait.file == claim.file && wait.family == claim.family && wait.owner == claim.owner {
                return Ok(true);
            }
            clashes = clashes || clash(wait, &claim);
        }
        Ok(may_wait && clashes && has_already(&self.manager.held()?, &claim))
    }

    /// The request of the descriptor's process is answered as the call that stands for it, where the two don't part; else neither is
    /// asked.
    pub(super) fn compare_call(
        &mut self,
        rt: &impl Abort,
        at: Descriptor,
        request: Request,
        call: Call,
    ) -> Result<(), Memory> {
        if self.policy == Policy::Queue && self.may_part(at, call)? {
            self.left_out = self.left_out.wrapping_add(1);
            return Ok(());
        }
        let told = serve(&mut self.server, u64::from(at.file), call)?;
        let note = self.note(at.p, told).expect(rt, "no answer to a request");
        self.compare(rt, at.p, request, &[note])
    }

    /// The process opens the file, under this descriptor.
    pub(super) fn open_file(
        &mut self,
        rt: &impl Abort,
        p: u8,
        fd: u32,
        file: u8,
    ) -> Result<(), Memory> {
        let access = Access::Rw;
        self.compare_reply(rt, p, Request::OpenFile { file, access }, Reply::Fd(fd))?;
        self.opened = self.opened.wrapping_add(1);
        let description = self.opened;
        self.descriptors.push(Descriptor {
            p,
            fd,
            file,
            description,
        })?;
        Ok(())
    }

    /// The process sends a signal to the other one, which ends its wait.
    pub(super) fn signal(&mut self, rt: &impl Abort, p: u8, target: u8) -> Result<(), Memory> {
        let request = Request::Signal { target };
        let caller = answer_to(self.ticket(p), Reply::Ok);
        let Some(ticket) = self.wait_of(target)? else {
            return self.compare(rt, p, request, &[caller]);
        };
        let told = serve(&mut self.server, 0, Call::Cancel(ticket))?;
        same(rt, told == Told::Done, true);
        let interrupted = answer_to(ticket, Reply::Err(Errno::EINTR));
        self.compare(rt, p, request, &[caller, interrupted])
    }

    /// Whether no other descriptor refers to the description.
    fn is_last(&self, at: Descriptor) -> bool {
        for other in &self.descriptors {
            if other.description == at.description && (other.p != at.p || other.fd != at.fd) {
                return false;
            }
        }
        true
    }

    /// Whether a close of the descriptor frees locks of several owners, or both byte locks and a flock lock.
    fn frees_several(&self, at: Descriptor, is_last: bool) -> Result<bool, Memory> {
        let (process, description) = (Owner::Process(at.p), Owner::Description(at.description));
        let mut freed = None;
        for lock in self.manager.held()?.iter() {
            let is_freed = lock.owner == process || is_last && lock.owner == description;
            if lock.file == at.file && is_freed {
                let kind = Some((lock.owner, lock.whole));
                if freed.is_some() && freed != kind {
                    return Ok(true);
                }
                freed = kind;
            }
        }
        Ok(false)
    }

    /// What a close of the descriptor frees goes from the server.
    fn free(&mut self, at: Descriptor, is_last: bool) -> Result<(), Memory> {
        let (file, description) = (u64::from(at.file), at.description.wrapping_add(256));
        serve(&mut self.server, file, Call::Flush(u64::from(at.p)))?;
        if is_last {
            serve(&mut self.server, file, Call::Flush(description))?;
            serve(&mut self.server, file, Call::FlockRelease(description))?;
        }
        Ok(())
    }

    /// The descriptor at this place is closed, and the file is opened again under the same. Not where the close would free several
    /// locks: the manager settles then when all are gone, and a server after each.
    pub(super) fn reopen(
        &mut self,
        rt: &impl Abort,
        at: Descriptor,
        place: usize,
    ) -> Result<(), Memory> {
        let is_last = self.is_last(at);
        if self.frees_several(at, is_last)? {
            return Ok(());
        }
        self.free(at, is_last)?;
        let Descriptor { p, fd, .. } = at;
        self.compare_reply(rt, p, Request::CloseFd { fd }, Reply::Ok)?;
        if place < self.descriptors.len() {
            self.descriptors.remove(place);
        }
        self.open_file(rt, p, fd, at.file)
    }
}
