//! Worked runs: calls of a server in turn, each with what it tells by the rules.
use super::calls::{ALL, Call, Row, Told, atomic, same, serve, stepwise, tells};
use lock_server::Mode::{Read, Write};
use lock_server::{LockServer, Memory, Policy};
use std::process::Abort;
use std::test::Fail;

/// The file of a run that has one, with the largest number.
const F: u64 = u64::MAX;

/// An owner that has no lock.
const STRANGER: u64 = 1000;

/// A wait is granted when the lock in its way goes, and is told once; its ticket is free again when it was told.
const GRANTS_IN_ORDER: &[Row] = &[
    (F, Call::Set(1, (0, 9), Some(Write)), Told::Done),
    (F, Call::Set(2, (5, 5), Some(Read)), Told::Blocked),
    (
        F,
        Call::Get(STRANGER, (5, 5), Write),
        Told::Lock(1, Write, (0, 9)),
    ),
    (F, Call::Wait(70, 2, (5, 5), Read, true), Told::Waits),
    (F, Call::Wait(71, 3, (0, 5), Read, true), Told::Waits),
    (F, Call::Wait(71, STRANGER, ALL, Read, true), Told::Taken),
    (F, Call::Grant, Told::Nothing),
    (F, Call::Flush(1), Told::Done),
    (F, Call::Wait(71, STRANGER, ALL, Read, true), Told::Taken),
    (F, Call::Grant, Told::Granted(70)),
    (F, Call::Grant, Told::Granted(71)),
    (F, Call::Grant, Told::Nothing),
    (F, Call::Wait(71, 3, (0, 5), Read, true), Told::Done),
];

/// A grant that makes a write lock a read lock frees a wait that came before it.
const FREES_AN_EARLIER_WAIT: &[Row] = &[
    (F, Call::Set(1, (0, 9), Some(Write)), Told::Done),
    (F, Call::Set(3, (20, 20), Some(Write)), Told::Done),
    (F, Call::Wait(70, 2, (0, 4), Read, true), Told::Waits),
    (F, Call::Wait(71, 1, (0, 25), Read, true), Told::Waits),
    (F, Call::Set(3, (20, 20), None), Told::Done),
    (F, Call::Grant, Told::Granted(71)),
    (F, Call::Grant, Told::Granted(70)),
    (F, Call::Grant, Told::Nothing),
    (
        F,
        Call::Get(STRANGER, (0, 4), Write),
        Told::Lock(1, Read, (0, 25)),
    ),
];

/// A grant that gives an owner the rest of what an earlier wait of its is for frees that wait from the queue.
const FREES_AN_EARLIER_WAIT_OF_ITS_OWNER: &[Row] = &[
    (F, Call::Set(1, (0, 4), Some(Read)), Told::Done),
    (F, Call::Set(4, (7, 7), Some(Write)), Told::Done),
    (F, Call::Wait(60, 3, (0, 2), Write, false), Told::Waits),
    (F, Call::Wait(70, 1, (0, 9), Read, false), Told::Waits),
    (F, Call::Wait(71, 1, (5, 9), Read, false), Told::Waits),
    (F, Call::Set(4, (7, 7), None), Told::Done),
    (F, Call::Grant, Told::Granted(71)),
    (F, Call::Grant, Told::Granted(70)),
    (F, Call::Grant, Told::Nothing),
];

/// A cycle through three owners is refused, and a wait that isn't detected makes no step.
const REFUSES_CYCLES: &[Row] = &[
    (F, Call::Set(1, (1, 1), Some(Write)), Told::Done),
    (F, Call::Set(2, (2, 2), Some(Write)), Told::Done),
    (F, Call::Set(3, (3, 3), Some(Write)), Told::Done),
    (F, Call::Wait(1, 1, (2, 2), Write, true), Told::Waits),
    (F, Call::Wait(2, 2, (3, 3), Write, true), Told::Waits),
    (F, Call::Wait(3, 3, (1, 1), Write, true), Told::Deadlock),
    (F, Call::Wait(3, 3, (1, 1), Write, false), Told::Waits),
    (F, Call::Cancel(1), Told::Done),
    (F, Call::Cancel(1), Told::Nothing),
    (F, Call::Forget(3), Told::Done),
    (F, Call::Grant, Told::Granted(2)),
    (F, Call::Grant, Told::Nothing),
];

/// An owner that is given a lock while it waits comes to stand in a cycle that no request closed. A request that leads there and not back to
/// its own owner waits, and one that would close another cycle through that owner is refused, until its wait is over.
const CROSSES_AN_OWNER: &[Row] = &[
    (F, Call::Set(2, (0, 0), Some(Write)), Told::Done),
    (F, Call::Set(3, (5, 5), Some(Read)), Told::Done),
    (F, Call::Wait(1, 1, (0, 0), Write, true), Told::Waits),
    (F, Call::Wait(2, 2, (5, 5), Write, true), Told::Waits),
    (F, Call::Wait(3, 1, (5, 5), Read, true), Told::Done),
    (F, Call::Wait(4, 4, (0, 0), Read, true), Told::Waits),
    (F, Call::Wait(5, 3, (5, 5), Write, true), Told::Deadlock),
    (F, Call::Cancel(1), Told::Done),
    (F, Call::Wait(5, 3, (5, 5), Write, true), Told::Waits),
    (F, Call::Grant, Told::Nothing),
    (F, Call::Flush(1), Told::Done),
    (F, Call::Grant, Told::Granted(5)),
    (F, Call::Grant, Told::Nothing),
    (F, Call::Flush(3), Told::Done),
    (F, Call::Grant, Told::Granted(2)),
    (F, Call::Grant, Told::Nothing),
    (F, Call::Flush(2), Told::Done),
    (F, Call::Grant, Told::Granted(4)),
];

/// A release while the owner waits keeps the room of its grants.
const KEEPS_WAITS_AT_A_RELEASE: &[Row] = &[
    (F, Call::Set(1, (0, 9), Some(Write)), Told::Done),
    (F, Call::Set(2, (20, 29), Some(Write)), Told::Done),
    (F, Call::Wait(1, 2, (0, 4), Write, true), Told::Waits),
    (F, Call::Wait(2, 2, (5, 9), Write, true), Told::Waits),
    (F, Call::Set(2, (22, 23), None), Told::Done),
    (F, Call::Flush(2), Told::Done),
    (F, Call::Set(3, (20, 29), Some(Write)), Told::Done),
    (F, Call::Set(1, (0, 4), None), Told::Done),
    (F, Call::Grant, Told::Granted(1)),
    (F, Call::Flush(2), Told::Done),
    (F, Call::Flush(1), Told::Done),
    (F, Call::Grant, Told::Granted(2)),
    (F, Call::Get(STRANGER, (0, 0), Write), Told::Nothing),
    (
        F,
        Call::Get(STRANGER, (5, 5), Write),
        Told::Lock(2, Write, (5, 9)),
    ),
];

/// A conversion by flock loses the old lock before it is tested.
const CONVERTS_FLOCKS: &[Row] = &[
    (F, Call::Flock(1, Some(Read)), Told::Done),
    (F, Call::Flock(2, Some(Read)), Told::Done),
    (F, Call::FlockWait(1, 1, Write), Told::Waits),
    (F, Call::FlockWait(2, 2, Write), Told::Waits),
    (F, Call::Grant, Told::Granted(1)),
    (F, Call::Flock(2, Some(Read)), Told::Blocked),
    (F, Call::FlockRelease(1), Told::Done),
    (F, Call::Grant, Told::Granted(2)),
    (F, Call::Flock(2, None), Told::Done),
    (F, Call::Flock(1, Some(Write)), Told::Done),
];

/// An atomic conversion is tested before any wait is granted: a downgrade keeps its place before a writer that waits, and of two readers
/// that ask to write the second one gets the lock, since the first one's went when it asked; who is refused has lost its own lock, and a
/// wait that this lets through is granted.
const CONVERTS_FLOCKS_AT_ONCE: &[Row] = &[
    (F, Call::Flock(1, Some(Write)), Told::Done),
    (F, Call::FlockWait(2, 2, Write), Told::Waits),
    (F, Call::Flock(1, Some(Read)), Told::Done),
    (F, Call::Grant, Told::Nothing),
    (F, Call::Flock(1, None), Told::Done),
    (F, Call::Grant, Told::Granted(2)),
    (F, Call::FlockWait(1, 1, Read), Told::Waits),
    (F, Call::FlockWait(2, 2, Read), Told::Done),
    (F, Call::Grant, Told::Granted(1)),
    (F, Call::FlockWait(1, 1, Write), Told::Waits),
    (F, Call::FlockWait(2, 2, Write), Told::Done),
    (F, Call::Grant, Told::Nothing),
    (F, Call::FlockRelease(2), Told::Done),
    (F, Call::Grant, Told::Granted(1)),
    (F, Call::Flock(1, Some(Read)), Told::Done),
    (F, Call::Flock(2, Some(Read)), Told::Done),
    (F, Call::FlockWait(3, 3, Write), Told::Waits),
    (F, Call::Flock(2, Some(Write)), Told::Blocked),
    (F, Call::Grant, Told::Nothing),
    (F, Call::FlockRelease(1), Told::Done),
    (F, Call::Grant, Told::Granted(3)),
    (F, Call::FlockRelease(3), Told::Done),
    (F, Call::Flock(1, Some(Read)), Told::Done),
    (F, Call::Flock(2, Some(Read)), Told::Done),
    (F, Call::FlockWait(4, 2, Write), Told::Waits),
    (F, Call::FlockRelease(1), Told::Done),
    (F, Call::Grant, Told::Granted(4)),
    (F, Call::Flock(STRANGER, Some(Read)), Told::Blocked),
];

/// Under the queue policy an atomic conversion that waits stands behind the waits, but for a downgrade, of whose mode the owner had more
/// before; one that doesn't wait stands behind none.
const CONVERTS_FLOCKS_AT_ONCE_IN_A_QUEUE: &[Row] = &[
    (F, Call::Flock(1, Some(Write)), Told::Done),
    (F, Call::FlockWait(2, 2, Write), Told::Waits),
    (F, Call::FlockWait(1, 1, Read), Told::Done),
    (F, Call::Grant, Told::Nothing),
    (F, Call::FlockWait(3, 3, Read), Told::Waits),
    (F, Call::FlockWait(1, 1, Write), Told::Waits),
    (F, Call::Grant, Told::Granted(2)),
    (F, Call::Grant, Told::Nothing),
    (F, Call::FlockRelease(2), Told::Done),
    (F, Call::Grant, Told::Granted(3)),
    (F, Call::Grant, Told::Nothing),
    (F, Call::Flock(3, Some(Write)), Told::Done),
    (F, Call::Grant, Told::Nothing),
    (F, Call::FlockRelease(3), Told::Done),
    (F, Call::Grant, Told::Granted(1)),
];

/// Under the queue policy a reader waits behind a writer, and goes on where the writer gives up.
const QUEUES: &[Row] = &[
    (F, Call::Set(1, (0, 9), Some(Read)), Told::Done),
    (F, Call::Wait(1, 2, (0, 9), Write, true), Told::Waits),
    (F, Call::Wait(2, 3, (0, 9), Read, true), Told::Waits),
    (F, Call::Cancel(1), Told::Done),
    (F, Call::Grant, Told::Granted(2)),
];

/// The flock lock of the owner that is named goes with the byte locks, and no other one; what stood in line is granted, and a wait of an
/// owner that is released stays.
const A_LAST_CLOSE_SETTLES_ONCE: &[Row] = &[
    (F, Call::Note(1, 50), Told::Done),
    (F, Call::Set(1, (1, 1), Some(Write)), Told::Done),
    (F, Call::Note(2, 50), Told::Done),
    (F, Call::Set(2, (2, 2), Some(Write)), Told::Done),
    (F, Call::Note(3, 51), Told::Done),
    (F, Call::Set(3, (3, 3), Some(Write)), Told::Done),
    (F, Call::Flock(1, Some(Read)), Told::Done),
    (F, Call::Flock(2, Some(Read)), Told::Done),
    (F, Call::Wait(90, 2, (1, 1), Write, true), Told::Waits),
    (F, Call::Wait(91, 4, (2, 2), Write, true), Told::Waits),
    (F, Call::Wait(92, 4, (3, 3), Write, true), Told::Waits),
    (F, Call::FlockWait(93, 3, Write), Told::Waits),
    (F, Call::Release(50, Some(1)), Told::Done),
    (F, Call::Grant, Told::Granted(90)),
    (F, Call::Grant, Told::Granted(91)),
    (F, Call::Grant, Told::Nothing),
    (F, Call::Release(51, Some(2)), Told::Done),
    (F, Call::Grant, Told::Granted(92)),
    (F, Call::Grant, Told::Granted(93)),
];

/// An owner that is forgotten was seen nowhere.
const A_FORGOTTEN_OWNER_IS_NOT_RELEASED: &[Row] = &[
    (F, Call::Note(1, 50), Told::Done),
    (F, Call::Set(1, (1, 1), Some(Write)), Told::Done),
    (F, Call::Note(2, 50), Told::Done),
    (F, Call::Set(2, (2, 2), Some(Write)), Told::Done),
    (F, Call::Forget(1), Told::Done),
    (F, Call::Set(1, (1, 1), Some(Write)), Told::Done),
    (F, Call::Release(50, None), Told::Done),
    (
        F,
        Call::Get(STRANGER, (1, 1), Write),
        Told::Lock(1, Write, (1, 1)),
    ),
    (F, Call::Get(STRANGER, (2, 2), Write), Told::Nothing),
];

/// Those that came last through the open file lose their locks on its file, and who was flushed or came through another one since doesn't.
const A_LAST_CLOSE_TAKES_WHO_CAME_THROUGH: &[Row] = &[
    (7, Call::Note(1, 50), Told::Done),
    (7, Call::Set(1, (1, 1), Some(Write)), Told::Done),
    (7, Call::Note(2, 50), Told::Done),
    (7, Call::Set(2, (2, 2), Some(Write)), Told::Done),
    (7, Call::Note(3, 50), Told::Done),
    (7, Call::Set(3, (3, 3), Some(Write)), Told::Done),
    (7, Call::Note(4, 50), Told::Done),
    (7, Call::Set(4, (4, 4), Some(Write)), Told::Done),
    (7, Call::Note(2, 51), Told::Done),
    (8, Call::Note(1, 50), Told::Done),
    (8, Call::Set(1, (1, 1), Some(Write)), Told::Done),
    (7, Call::Flush(3), Told::Done),
    (7, Call::Set(3, (3, 3), Some(Write)), Told::Done),
    (7, Call::Release(50, None), Told::Done),
    (7, Call::Get(STRANGER, (1, 1), Write), Told::Nothing),
    (
        7,
        Call::Get(STRANGER, (2, 2), Write),
        Told::Lock(2, Write, (2, 2)),
    ),
    (
        7,
        Call::Get(STRANGER, (3, 3), Write),
        Told::Lock(3, Write, (3, 3)),
    ),
    (7, Call::Get(STRANGER, (4, 4), Write), Told::Nothing),
    (
        8,
        Call::Get(STRANGER, (1, 1), Write),
        Told::Lock(1, Write, (1, 1)),
    ),
    (7, Call::Set(4, (4, 4), Some(Write)), Told::Done),
    (7, Call::Release(50, None), Told::Done),
    (
        7,
        Call::Get(STRANGER, (4, 4), Write),
        Told::Lock(4, Write, (4, 4)),
    ),
    (7, Call::Release(51, None), Told::Done),
    (7, Call::Get(STRANGER, (2, 2), Write), Told::Nothing),
];

/// A lock, a split, waits, flock locks and a conversion are each refused for want of memory at some growth.
const GROWS: &[Row] = &[
    (3, Call::Set(1, (0, 9), Some(Write)), Told::Done),
    (3, Call::Set(1, (5, 5), None), Told::Done),
    (4, Call::Wait(10, 1, (0, 9), Write, true), Told::Done),
    (3, Call::Wait(11, 2, (0, 4), Read, false), Told::Waits),
    (4, Call::Wait(12, 2, (0, 4), Read, true), Told::Waits),
    (3, Call::Flock(1, Some(Read)), Told::Done),
    (3, Call::FlockWait(15, 1, Write), Told::Done),
    (4, Call::FlockWait(13, 1, Write), Told::Done),
    (4, Call::FlockWait(14, 2, Write), Told::Waits),
    (
        3,
        Call::Get(9, (0, 63), Write),
        Told::Lock(1, Write, (0, 4)),
    ),
    (
        3,
        Call::Get(9, (5, 63), Write),
        Told::Lock(1, Write, (6, 9)),
    ),
    (3, Call::Get(9, (10, 63), Write), Told::Nothing),
    (
        4,
        Call::Get(9, (0, 63), Write),
        Told::Lock(1, Write, (0, 9)),
    ),
    (4, Call::Get(9, (10, 63), Write), Told::Nothing),
    (4, Call::Grant, Told::Nothing),
    (4, Call::FlockRelease(1), Told::Done),
    (4, Call::Forget(1), Told::Done),
    (4, Call::Grant, Told::Granted(14)),
    (4, Call::Grant, Told::Granted(11)),
    (4, Call::Grant, Told::Granted(12)),
    (4, Call::Grant, Told::Nothing),
];

/// What an owner without locks is told of the file: from three of its bytes on, and where it asks for a flock lock, which it gives back.
fn seen(rt: &impl Abort, server: &mut LockServer, file: u64) -> Result<[Told; 4], Memory> {
    Ok([
        serve(server, file, Call::Get(STRANGER, (0, 63), Write))?,
        serve(server, file, Call::Get(STRANGER, (5, 63), Write))?,
        serve(server, file, Call::Get(STRANGER, (10, 63), Write))?,
        flock_seen(rt, server, file)?,
    ])
}

/// Whether an owner without locks would be given a flock lock. The question is asked again where a growth is refused.
fn flock_seen(rt: &impl Abort, server: &mut LockServer, file: u64) -> Result<Told, Memory> {
    let question = Call::Flock(STRANGER, Some(Write));
    let told = match serve(server, file, question) {
        Ok(told) => told,
        Err(_) => serve_again(rt, server, file, question),
    };
    if told == Told::Done {
        serve(server, file, Call::Flock(STRANGER, None))?;
    }
    Ok(told)
}

/// A call that is made again after a refused growth: it must be answered, for at most one growth is refused in a run.
fn serve_again(rt: &impl Abort, server: &mut LockServer, file: u64, call: Call) -> Told {
    serve(server, file, call).expect(rt, "refused again")
}

/// What the call tells. Where a growth is refused, as by a test run with one allocation failing, all is as before and the next try goes
/// through.
fn follow_one(
    rt: &impl Abort,
    server: &mut LockServer,
    file: u64,
    call: Call,
) -> Result<Told, Memory> {
    let before = seen(rt, server, file)?;
    if let Ok(told) = serve(server, file, call) {
        return Ok(told);
    }
    same(rt, seen(rt, server, file)? == before, true);
    Ok(serve_again(rt, server, file, call))
}

/// Each call tells what its row says.
fn follow(rt: &impl Abort, server: &mut LockServer, rows: &[Row]) -> Result<(), Memory> {
    for (place, (file, call, wanted)) in rows.iter().enumerate() {
        let told = follow_one(rt, server, *file, *call)?;
        same(rt, (place, told == *wanted), (place, true));
    }
    Ok(())
}

/// The runs by whose rules conversions go step by step.
const BY_STEPS: &[(Policy, &[Row])] = &[
    (Policy::Held, GRANTS_IN_ORDER),
    (Policy::Held, FREES_AN_EARLIER_WAIT),
    (Policy::Queue, FREES_AN_EARLIER_WAIT_OF_ITS_OWNER),
    (Policy::Held, REFUSES_CYCLES),
    (Policy::Held, CROSSES_AN_OWNER),
    (Policy::Held, KEEPS_WAITS_AT_A_RELEASE),
    (Policy::Held, CONVERTS_FLOCKS),
    (Policy::Queue, QUEUES),
    (Policy::Held, A_LAST_CLOSE_SETTLES_ONCE),
    (Policy::Held, A_FORGOTTEN_OWNER_IS_NOT_RELEASED),
    (Policy::Held, A_LAST_CLOSE_TAKES_WHO_CAME_THROUGH),
    (Policy::Held, GROWS),
];

/// Those by whose rules they are atomic.
const AT_ONCE: &[(Policy, &[Row])] = &[
    (Policy::Held, CONVERTS_FLOCKS_AT_ONCE),
    (Policy::Queue, CONVERTS_FLOCKS_AT_ONCE_IN_A_QUEUE),
    (Policy::Held, GROWS),
];

/// Each call tells what its row says.
#[test]
fn worked_runs_come_out(rt: HostRuntime) -> Result<(), Fail> {
    for (policy, rows) in BY_STEPS {
        let rules = stepwise(*policy);
        follow(&rt, &mut LockServer::new(rt.alloc(), rules), rows)?;
    }
    for (policy, rows) in AT_ONCE {
        let rules = atomic(*policy);
        follow(&rt, &mut LockServer::new(rt.alloc(), rules), rows)?;
    }
    Ok(())
}

/// An owner whose note was refused isn't known by the open file.
fn note_twice(rt: &impl Abort, server: &mut LockServer, lock: Row) {
    for open_file in [20, 21] {
        let (note, release) = (Call::Note(1, open_file), Call::Release(open_file, None));
        if serve(server, 3, note).is_err() {
            let rows = [(3, release, Told::Done), lock, (3, note, Told::Done)];
            tells(rt, server, &rows).expect(rt, "refused again");
        }
    }
}

/// A lock goes with the last close of the open file through which its owner came last, and with none through which it didn't come.
fn release_twice(rt: &impl Abort, server: &mut LockServer) -> Result<(), Memory> {
    let question = Call::Get(STRANGER, ALL, Write);
    let lock = (3, question, Told::Lock(1, Write, (0, 9)));
    tells(
        rt,
        server,
        &[(3, Call::Set(1, (0, 9), Some(Write)), Told::Done)],
    )?;
    note_twice(rt, server, lock);
    tells(
        rt,
        server,
        &[
            (3, Call::Release(20, None), Told::Done),
            lock,
            (3, Call::Release(21, None), Told::Done),
            (3, question, Told::Nothing),
        ],
    )
}

#[test]
fn refused_note_is_not_released(rt: HostRuntime) -> Result<(), Fail> {
    Ok(release_twice(
        &rt,
        &mut LockServer::new(rt.alloc(), stepwise(Policy::Held)),
    )?)
}
