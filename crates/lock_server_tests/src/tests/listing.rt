//! What a server lists: by hand, beside the model, and of many.
use super::calls::{Call, Row, Told, same, stepwise, tells};
use super::model::{BYTES, FILES, Model, OWNERS};
use lock_server::Mode::{Read, Write};
use lock_server::{FlockLock, Lock, LockServer, Memory, Mode, Obstacle, OwnerWait, Policy, Span};
use range_core::OFFMAX;
use std::process::Abort;
use std::test::Fail;

/// Two files, one of the largest number.
const F: u64 = 8;

const G: u64 = u64::MAX;

/// An owner of the largest number.
const LAST: u64 = u64::MAX;

/// Byte locks on the one file and flock locks on the other, and waits on both: one behind a lock that comes first, one behind a wait alone,
/// and one for a flock lock.
const STANDS: &[Row] = &[
    (F, Call::Set(1, (0, 9), Some(Write)), Told::Done),
    (F, Call::Set(1, (4, 5), None), Told::Done),
    (F, Call::Set(3, (20, OFFMAX), Some(Read)), Told::Done),
    (G, Call::Flock(LAST, Some(Read)), Told::Done),
    (G, Call::Flock(2, Some(Read)), Told::Done),
    (F, Call::Wait(70, 2, (5, 30), Write, true), Told::Waits),
    (F, Call::Wait(71, 3, (10, 11), Read, false), Told::Waits),
    (G, Call::FlockWait(7, 3, Write), Told::Waits),
];

/// A byte lock.
fn lock(owner: u64, mode: Mode, first: u64, last: u64) -> Lock {
    Lock {
        owner,
        mode,
        span: Span { first, last },
    }
}

/// A wait of an owner.
fn owner_wait(owner: u64, file: u64, ticket: u64) -> OwnerWait {
    OwnerWait {
        owner,
        file,
        ticket,
    }
}

/// The files and the byte locks, from some places on.
fn lists_files_and_locks(rt: &impl Abort, server: &LockServer) {
    same(rt, server.next_file(0), Some(F));
    same(rt, server.next_file(F), Some(F));
    same(rt, server.next_file(F + 1), Some(G));
    same(rt, server.next_file(G), Some(G));
    same(rt, server.next_lock(F, 0, 0), Some(lock(1, Write, 0, 3)));
    same(rt, server.next_lock(F, 1, 0), Some(lock(1, Write, 0, 3)));
    same(rt, server.next_lock(F, 1, 1), Some(lock(1, Write, 6, 9)));
    same(rt, server.next_lock(F, 1, 6), Some(lock(1, Write, 6, 9)));
    same(
        rt,
        server.next_lock(F, 1, 7),
        Some(lock(3, Read, 20, OFFMAX)),
    );
    same(
        rt,
        server.next_lock(F, 2, 0),
        Some(lock(3, Read, 20, OFFMAX)),
    );
    same(
        rt,
        server.next_lock(F, 3, 20),
        Some(lock(3, Read, 20, OFFMAX)),
    );
    same(rt, server.next_lock(F, 3, 21), None);
    same(rt, server.next_lock(F, LAST, 0), None);
    same(rt, server.next_lock(G, 0, 0), None);
}

/// The flock locks, from some owners on.
fn lists_flocks(rt: &impl Abort, server: &LockServer) {
    let (two, last) = (
        FlockLock {
            owner: 2,
            mode: Read,
        },
        FlockLock {
            owner: LAST,
            mode: Read,
        },
    );
    same(rt, server.next_flock(G, 0), Some(two));
    same(rt, server.next_flock(G, 2), Some(two));
    same(rt, server.next_flock(G, 3), Some(last));
    same(rt, server.next_flock(G, LAST), Some(last));
    same(rt, server.next_flock(F, 0), None);
}

/// The wait on the file at this place has the ticket, and this in its way.
fn is_behind(
    rt: &impl Abort,
    server: &LockServer,
    file: u64,
    place: usize,
    ticket: u64,
    obstacle: Obstacle,
) {
    let waiting = server.wait_at(file, place);
    let told = waiting.map(|waiting| (waiting.pending.ticket, waiting.obstacle));
    same(rt, told, Some((ticket, obstacle)));
}

/// The waits in order of arrival, and those of owners.
fn lists_waits(rt: &impl Abort, server: &LockServer) {
    let two = FlockLock {
        owner: 2,
        mode: Read,
    };
    is_behind(rt, server, F, 0, 70, Obstacle::Lock(lock(1, Write, 6, 9)));
    is_behind(rt, server, F, 1, 71, Obstacle::Wait(70));
    is_behind(rt, server, G, 0, 7, Obstacle::Flock(two));
    same(rt, server.wait_at(F, 2), None);
    same(rt, server.wait_at(G, usize::MAX), None);
    let (one, other, away) = (
        owner_wait(2, F, 70),
        owner_wait(3, F, 71),
        owner_wait(3, G, 7),
    );
    same(rt, server.next_wait(owner_wait(0, 0, 0), LAST), Some(one));
    same(rt, server.next_wait(one, 2), Some(one));
    same(rt, server.next_wait(owner_wait(2, F, 71), 2), None);
    same(
        rt,
        server.next_wait(owner_wait(2, F, 71), LAST),
        Some(other),
    );
    same(rt, server.next_wait(owner_wait(3, F, 72), 3), Some(away));
    same(rt, server.next_wait(owner_wait(3, G, 8), LAST), None);
}

#[test]
fn lists_what_stands(rt: HostRuntime) -> Result<(), Fail> {
    let server = &mut LockServer::new(rt.alloc(), stepwise(Policy::Queue));
    same(&rt, server.next_file(0), None);
    same(&rt, server.next_wait(owner_wait(0, 0, 0), LAST), None);
    tells(&rt, server, STANDS)?;
    lists_files_and_locks(&rt, server);
    lists_flocks(&rt, server);
    lists_waits(&rt, server);
    Ok(())
}

/// Going on from behind each lock, the server lists just the byte locks of the model.
fn locks_as(rt: &impl Abort, server: &LockServer, model: &Model, file: u64) {
    let mut from = (0, 0);
    for owner in 0..OWNERS {
        for byte in 0..BYTES {
            if let Some(lock) = model.lock_from(file, owner, byte) {
                same(rt, server.next_lock(file, from.0, from.1), Some(lock));
                from = (owner, byte.wrapping_add(1));
            }
        }
    }
    same(rt, server.next_lock(file, from.0, from.1), None);
}

/// The same of the flock locks.
fn flocks_as(rt: &impl Abort, server: &LockServer, model: &Model, file: u64) {
    let mut from = 0u64;
    for owner in 0..OWNERS {
        if let Some(lock) = model.flock_of(file, owner) {
            same(rt, server.next_flock(file, from), Some(lock));
            from = owner.wrapping_add(1);
        }
    }
    same(rt, server.next_flock(file, from), None);
}

/// The same of the waits on a file.
fn waits_as(rt: &impl Abort, server: &LockServer, model: &Model, file: u64) {
    for place in 0..9usize {
        let waiting = server.wait_at(file, place);
        let told = waiting.map(|waiting| (waiting.pending.ticket, Some(waiting.obstacle)));
        same(rt, told, model.wait_at(file, place));
    }
}

/// The same of the waits of owners up to the last.
fn owner_waits_as(rt: &impl Abort, server: &LockServer, model: &Model, last: u64) {
    let mut from = owner_wait(0, 0, 0);
    for owner in 0..OWNERS {
        for number in 0..16u64 {
            let (file, ticket) = (number / 8, number % 8);
            if owner <= last && model.waits_by(owner, file, ticket) {
                same(
                    rt,
                    server.next_wait(from, last),
                    Some(owner_wait(owner, file, ticket)),
                );
                from = owner_wait(owner, file, ticket.wrapping_add(1));
            }
        }
    }
    same(rt, server.next_wait(from, last), None);
}

/// The server lists just what the model has, in order.
pub(super) fn lists_as(rt: &impl Abort, server: &LockServer, model: &Model) {
    let mut from = 0u64;
    for file in 0..FILES {
        if model.has_file(file) {
            same(rt, server.next_file(from), Some(file));
            from = file.wrapping_add(1);
        }
        locks_as(rt, server, model, file);
        flocks_as(rt, server, model, file);
        waits_as(rt, server, model, file);
    }
    same(rt, server.next_file(from), None);
    owner_waits_as(rt, server, model, 1);
    owner_waits_as(rt, server, model, OWNERS);
}

/// Owners 0 to 999 have two byte locks and a flock lock each on a file, and owners 1,000 to 1,999 wait there and for the flock lock.
fn many(rt: &impl Abort, server: &mut LockServer) -> Result<(), Memory> {
    for owner in 0..1000u64 {
        let first = owner * 10;
        let (one, other) = ((first, first + 3), (first + 5, first + 8));
        tells(
            rt,
            server,
            &[
                (F, Call::Set(owner, one, Some(Write)), Told::Done),
                (F, Call::Set(owner, other, Some(Read)), Told::Done),
                (F, Call::Flock(owner, Some(Read)), Told::Done),
            ],
        )?;
    }
    for owner in 1000..2000u64 {
        let byte = (owner - 1000) * 10;
        let wait = Call::Wait(owner, owner, (byte, byte), Read, false);
        let flock = Call::FlockWait(owner + 1000, owner, Write);
        tells(
            rt,
            server,
            &[(F, wait, Told::Waits), (F, flock, Told::Waits)],
        )?;
    }
    Ok(())
}

/// All of them are listed, in order, and the waits with what is in their way.
fn lists_many(rt: &impl Abort, server: &LockServer) {
    for owner in 0..1000u64 {
        let first = owner * 10;
        let (one, other) = (
            lock(owner, Write, first, first + 3),
            lock(owner, Read, first + 5, first + 8),
        );
        same(rt, server.next_lock(F, owner, 0), Some(one));
        same(rt, server.next_lock(F, owner, first + 1), Some(other));
        same(
            rt,
            server.next_flock(F, owner),
            Some(FlockLock { owner, mode: Read }),
        );
        let place = (owner * 2) as usize;
        is_behind(rt, server, F, place, owner + 1000, Obstacle::Lock(one));
        let zero = FlockLock {
            owner: 0,
            mode: Read,
        };
        is_behind(
            rt,
            server,
            F,
            place + 1,
            owner + 2000,
            Obstacle::Flock(zero),
        );
    }
    same(rt, server.next_lock(F, 1000, 0), None);
    same(rt, server.next_flock(F, 1000), None);
    same(
        rt,
        server.next_wait(owner_wait(1999, 0, 0), LAST),
        Some(owner_wait(1999, F, 1999)),
    );
    same(
        rt,
        server.next_wait(owner_wait(1999, F, 2000), LAST),
        Some(owner_wait(1999, F, 2999)),
    );
}

#[test]
fn lists_thousands_often(rt: HostRuntime) -> Result<(), Fail> {
    let server = &mut LockServer::new(rt.alloc(), stepwise(Policy::Held));
    many(&rt, server)?;
    lists_many(&rt, server);
    Ok(())
}
