//! The server against the lock manager, on scripts that are made by a written rule.
ghost use Rattle.std.specs.Prelude.{◌≤◌};
ghost use Rattle.range_core.specs.Ranges.{IsByteRange};
ghost use Rattle.range_core.specs.declared.TheConstants.{OFFMAX};

use super::calls::{ALL, Bytes, Call, Told, same, serve, tells};
use super::pair::{Descriptor, PROCESSES, Pair, number_of, owner_of};
use super::rule::Rule;
use lock_book::Held;
use lock_manager::{FlockOp, LkCmd, Lock, Reply, Request};
use lock_server::{Mode, Policy, Span};
use range_core::{Kind, Memory, OFFMAX, Whence};
use std::process::Abort;
use std::test::Fail;

/// How many files the scripts speak of.
const FILES: u8 = 2;

/// An owner that no lock of a script has.
const STRANGER: u64 = 0;

/// The lock commands, some of them as often as they are wanted.
const COMMANDS: [LkCmd; 10] = [
    LkCmd::GetLk,
    LkCmd::OGetLk,
    LkCmd::SetLk,
    LkCmd::SetLk,
    LkCmd::SetLkW,
    LkCmd::SetLkW,
    LkCmd::SetLkW,
    LkCmd::SetLkW,
    LkCmd::OSetLk,
    LkCmd::OSetLkW,
];

/// What they ask for, and the server's mode of it. Those that ask take one of the first five.
const KINDS: [(Kind, Option<Mode>); 8] = [
    (Kind::Read, Some(Mode::Read)),
    (Kind::Read, Some(Mode::Read)),
    (Kind::Write, Some(Mode::Write)),
    (Kind::Write, Some(Mode::Write)),
    (Kind::Write, Some(Mode::Write)),
    (Kind::Unlock, None),
    (Kind::Unlock, None),
    (Kind::Unlock, None),
];

/// The operations of flock, and the server's mode of each.
const OPERATIONS: [(FlockOp, Option<Mode>); 4] = [
    (FlockOp::Un, None),
    (FlockOp::Sh, Some(Mode::Read)),
    (FlockOp::Ex, Some(Mode::Write)),
    (FlockOp::Ex, Some(Mode::Write)),
];

impl Rule {
    /// Some of the bytes from 0 to 9, once in eight times all from one of them on, and of an unlock half the time all.
    fn span(&mut self, unlocks: bool) -> Span
        ensures { IsByteRange result }
    {
        let first = self.below(7);
        match self.below(8) {
            0 => Span {
                first,
                last: OFFMAX,
            },
            1..=4 if unlocks => Span {
                first: 0,
                last: OFFMAX,
            },
            _ => Span {
                first,
                last: first + self.below(4),
            },
        }
    }
}

/// The owner, the mode and the bytes of the lock that was told, if one was.
fn lock_told(told: Told) -> Option<(u64, Mode, Bytes)> {
    match told {
        Told::Lock(owner, mode, bytes) => Some((owner, mode, bytes)),
        _ => None,
    }
}

/// The length that names the bytes from the first one on: 0 where they go to the largest offset.
fn length_of(span: Span) -> u64
    requires { IsByteRange span }
    ensures { result ≤ OFFMAX }
{
    if span.last == OFFMAX {
        return 0;
    }
    span.last - span.first + 1
}

impl Pair {
    /// Each process but the first opens a description of each file, and has one of file 0 of process 1, which it shares with the others.
    fn open_all(&mut self, rt: &impl Abort) -> Result<(), Memory> {
        self.open_file(rt, 1, 0, 0)?;
        for child in 2..=PROCESSES {
            self.compare_reply(rt, 1, Request::Fork { child }, Reply::Ok)?;
            self.descriptors.push(Descriptor {
                p: child,
                fd: 0,
                file: 0,
                description: 1,
            })?;
            self.open_file(rt, child, 1, 0)?;
            self.open_file(rt, child, 2, 1)?;
        }
        if !self.descriptors.is_empty() {
            self.descriptors.remove(0);
        }
        self.compare_reply(rt, 1, Request::CloseFd { fd: 0 }, Reply::Ok)
    }

    /// One event by the rule, of one of the 21 descriptors; where its process waits, that is interrupted now and then.
    fn event(&mut self, rt: &impl Abort, rule: &mut Rule) -> Result<(), Memory> {
        let chosen = rule.below(21) as usize;
        let at = *self.descriptors.get(chosen).expect(rt, "no descriptor");
        if self.wait_of(at.p)?.is_some() {
            return match rule.below(4) {
                0 => self.signal(rt, 1, at.p),
                _ => Ok(()),
            };
        }
        match rule.below(12) {
            0 | 1 => self.reopen(rt, at, chosen),
            2 => self.flock(rt, at, rule),
            3 => self.signal(rt, at.p, rule.below(7) as u8 + 2),
            _ => self.lock(rt, at, rule),
        }
    }

    /// A lock command by the rule.
    fn lock(&mut self, rt: &impl Abort, at: Descriptor, rule: &mut Rule) -> Result<(), Memory> {
        let (fd, cmd) = (at.fd, COMMANDS[rule.below(10) as usize]);
        let asks = matches!(cmd, LkCmd::GetLk | LkCmd::OGetLk);
        let (kind, mode) = KINDS[rule.below(if asks { 5 } else { 8 }) as usize];
        let (owner, detect) = match cmd {
            LkCmd::GetLk | LkCmd::SetLk | LkCmd::SetLkW => (u64::from(at.p), true),
            _ => (at.description.wrapping_add(256), false),
        };
        let span = rule.span(mode.is_none());
        let bytes = (span.first, span.last);
        let call = match (cmd, mode) {
            (LkCmd::GetLk | LkCmd::OGetLk, Some(mode)) => Call::Get(owner, bytes, mode),
            (LkCmd::SetLkW | LkCmd::OSetLkW, Some(mode)) => {
                Call::Wait(self.ticket(at.p), owner, bytes, mode, detect)
            }
            _ => Call::Set(owner, bytes, mode),
        };
        let lock = Lock {
            kind,
            whence: Whence::Set,
            start: span.first as i64,
            len: length_of(span) as i64,
            pid: 0,
        };
        self.compare_call(rt, at, Request::Lk { fd, cmd, lock }, call)
    }

    /// A request by flock by the rule.
    fn flock(&mut self, rt: &impl Abort, at: Descriptor, rule: &mut Rule) -> Result<(), Memory> {
        let owner = at.description.wrapping_add(256);
        let (op, mode) = OPERATIONS[rule.below(4) as usize];
        let (fd, nb) = (at.fd, rule.below(4) == 0);
        let call = match mode {
            Some(mode) if !nb => Call::FlockWait(self.ticket(at.p), owner, mode),
            mode => Call::Flock(owner, mode),
        };
        self.compare_call(rt, at, Request::Flock { fd, op, nb }, call)
    }

    /// Process 1 ends each wait that is left.
    fn end_waits(&mut self, rt: &impl Abort) -> Result<(), Memory> {
        for p in 2..=PROCESSES {
            self.signal(rt, 1, p)?;
        }
        same(rt, self.manager.waits()?.is_empty(), true);
        Ok(())
    }

    /// Both have the same locks. What the server has is taken away line by line of the manager's report, and then nothing is left.
    fn compare_locks(&mut self, rt: &impl Abort) -> Result<(), Memory> {
        let held = self.manager.held()?;
        for lock in &held {
            if lock.whole {
                self.compare_flock(rt, &held, lock)?;
            } else {
                self.compare_bytes(rt, &held, lock.file)?;
            }
        }
        for file in 0..FILES {
            self.give_flocks(rt, &held, file, STRANGER, false)?;
            self.compare_rest(rt, u64::from(file))?;
        }
        Ok(())
    }

    /// Nothing is left on the file.
    fn compare_rest(&mut self, rt: &impl Abort, file: u64) -> Result<(), Memory> {
        let get = Call::Get(STRANGER, ALL, Mode::Write);
        let flock = Call::Flock(STRANGER, Some(Mode::Write));
        let rows = [(file, get, Told::Nothing), (file, flock, Told::Done)];
        tells(rt, &mut self.server, &rows)
    }

    /// The first byte lock that the server tells of is in the report, and is taken away.
    fn compare_bytes(&mut self, rt: &impl Abort, held: &[Held], file: u8) -> Result<(), Memory> {
        let number = u64::from(file);
        let question = Call::Get(STRANGER, ALL, Mode::Write);
        let told = serve(&mut self.server, number, question)?;
        let (owner, mode, bytes) = lock_told(told).expect(rt, "no lock");
        let (first, last) = bytes;
        let is_there = held.contains(&Held {
            file,
            whole: false,
            owner: owner_of(owner),
            mode,
            span: Span { first, last },
        });
        same(rt, is_there, true);
        serve(&mut self.server, number, Call::Set(owner, bytes, None))?;
        Ok(())
    }

    /// The flock locks of the report on the file are set or taken away, but that of this owner.
    fn give_flocks(
        &mut self,
        rt: &impl Abort,
        held: &[Held],
        file: u8,
        except: u64,
        gives: bool,
    ) -> Result<(), Memory> {
        for lock in held {
            let owner = number_of(lock.owner);
            if lock.whole && lock.file == file && owner != except {
                let mode = if gives { Some(lock.mode) } else { None };
                let row = (u64::from(file), Call::Flock(owner, mode), Told::Done);
                tells(rt, &mut self.server, &[row])?;
            }
        }
        Ok(())
    }

    /// The server has the flock lock of the report in its mode, which shows where those of the others are taken away.
    fn compare_flock(&mut self, rt: &impl Abort, held: &[Held], lock: &Held) -> Result<(), Memory> {
        let (file, owner) = (u64::from(lock.file), number_of(lock.owner));
        let reads = match lock.mode {
            Mode::Read => Told::Done,
            Mode::Write => Told::Blocked,
        };
        self.give_flocks(rt, held, lock.file, owner, false)?;
        let (read, write) = (
            Call::Flock(STRANGER, Some(Mode::Read)),
            Call::Flock(STRANGER, Some(Mode::Write)),
        );
        tells(
            rt,
            &mut self.server,
            &[(file, read, reads), (file, write, Told::Blocked)],
        )?;
        self.give_flocks(rt, held, lock.file, owner, true)
    }
}

/// A script of 96 turns; then the waits are ended, and both have the same locks.
fn script(rt: &impl Abort, pair: &mut Pair, rule: &mut Rule) -> Result<(), Memory> {
    pair.open_all(rt)?;
    for _ in 0..96 {
        pair.event(rt, rule)?;
    }
    pair.end_waits(rt)?;
    pair.compare_locks(rt)
}

/// 2,000 scripts of 96 turns under each policy: of each request both tell the same to the same, in the same order, and at the end
/// both have the same locks. Left out are, under the queue policy, the requests at which the two may part.
#[test]
fn goes_as_the_manager_often(rt: HostRuntime) -> Result<(), Fail> {
    let (mut seen, mut left_out) = ([0; 5], 0u64);
    for x in 0..2000 {
        for policy in [Policy::Held, Policy::Queue] {
            let mut pair = Pair::new(rt.alloc(), policy, seen)?;
            script(&rt, &mut pair, &mut Rule { x })?;
            seen = pair.seen;
            left_out = left_out.wrapping_add(pair.left_out);
        }
    }
    same(&rt, (left_out, left_out > 100), (left_out, true));
    for count in seen {
        same(&rt, (count, count > 1000), (count, true));
    }
    Ok(())
}
