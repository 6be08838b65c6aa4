//! Clients and files that are gone, and what clients have. A client here is a range of owner numbers.
use super::calls::{ALL, Call, Row, Told, stepwise, tells};
use super::model::{FILES, Model, OWNERS};
use super::rule::Rule;
use lock_server::Mode::{Read, Write};
use lock_server::{LockServer, Memory, Policy};
use std::process::Abort;
use std::test::Fail;

/// Owners 10 to 19 are one client, and owners 20 to 29 another.
const LOCKS_OF_TWO: &[Row] = &[
    (7, Call::Set(10, (0, 9), Some(Write)), Told::Done),
    (7, Call::Set(10, (4, 5), Some(Read)), Told::Done),
    (9, Call::Set(19, (0, 9), Some(Write)), Told::Done),
    (7, Call::Set(20, (20, 29), Some(Write)), Told::Done),
    (7, Call::Flock(15, Some(Write)), Told::Done),
    (8, Call::Flock(20, Some(Read)), Told::Done),
    (8, Call::Flock(19, Some(Read)), Told::Done),
];

/// Waits of both for what the other one has, and of one for what it has itself.
const WAITS_OF_TWO: &[Row] = &[
    (9, Call::Wait(1, 21, (9, 9), Read, true), Told::Waits),
    (7, Call::FlockWait(2, 20, Read), Told::Waits),
    (9, Call::Wait(3, 11, (0, 0), Write, true), Told::Waits),
    (7, Call::Wait(4, 12, (20, 20), Read, true), Told::Waits),
    (8, Call::FlockWait(5, 10, Write), Told::Waits),
    (7, Call::Wait(6, 22, (0, 0), Write, true), Told::Waits),
    (7, Call::Wait(7, 22, (3, 6), Write, false), Told::Waits),
];

/// What each has.
const COUNTS_OF_TWO: &[Row] = &[
    (0, Call::Counts(10, 19), Told::Counts(4, 2, 3)),
    (0, Call::Counts(20, 29), Told::Counts(1, 1, 4)),
    (0, Call::Counts(0, u64::MAX), Told::Counts(5, 3, 7)),
    (0, Call::Counts(11, 14), Told::Counts(0, 0, 2)),
    (0, Call::Counts(19, 10), Told::Counts(0, 0, 0)),
    (0, Call::HasLocks(10, 10), Told::Having(true)),
    (0, Call::HasLocks(15, 15), Told::Having(true)),
    (0, Call::HasLocks(11, 14), Told::Having(false)),
    (0, Call::HasLocks(20, 10), Told::Having(false)),
    (0, Call::HasLocks(21, u64::MAX), Told::Having(false)),
];

/// The client is gone: each file is settled once all of it has left, so ticket 7 isn't granted before ticket 6, the files rise, and in a
/// file the order is that of arrival. Its own waits are told no more.
const ONE_GOES: &[Row] = &[
    (0, Call::ForgetOwners(19, 10), Told::Done),
    (0, Call::Grant, Told::Nothing),
    (0, Call::ForgetOwners(10, 19), Told::Done),
    (0, Call::Grant, Told::Granted(2)),
    (0, Call::Grant, Told::Granted(6)),
    (0, Call::Grant, Told::Granted(7)),
    (0, Call::Grant, Told::Granted(1)),
    (0, Call::Grant, Told::Nothing),
    (0, Call::Counts(10, 19), Told::Counts(0, 0, 0)),
    (0, Call::HasLocks(10, 19), Told::Having(false)),
    (0, Call::Counts(20, 29), Told::Counts(4, 2, 0)),
    (7, Call::Cancel(4), Told::Nothing),
    (8, Call::Flock(20, Some(Write)), Told::Done),
    (7, Call::Get(1, ALL, Read), Told::Lock(22, Write, (0, 0))),
];

/// A grant that wasn't fetched stays, though its owner is gone, and its ticket is taken as long.
const GRANTS_STAY: &[Row] = &[
    (7, Call::Set(1, (0, 9), Some(Write)), Told::Done),
    (7, Call::Wait(1, 2, (0, 9), Write, true), Told::Waits),
    (7, Call::Flush(1), Told::Done),
    (0, Call::ForgetOwners(2, 2), Told::Done),
    (7, Call::Wait(1, 3, (0, 9), Write, true), Told::Taken),
    (0, Call::Grant, Told::Granted(1)),
    (0, Call::Grant, Told::Nothing),
    (7, Call::Set(3, (0, 9), Some(Write)), Told::Done),
    (7, Call::Wait(1, 4, (0, 9), Write, true), Told::Waits),
    (7, Call::Flush(3), Told::Done),
    (7, Call::ForgetFile, Told::Done),
    (0, Call::Grant, Told::Granted(1)),
    (7, Call::Set(5, ALL, Some(Write)), Told::Done),
];

/// A file is gone with its locks, its waits and what was noted, and nothing is granted; other files stay.
const FILE_GOES: &[Row] = &[
    (7, Call::Note(1, 50), Told::Done),
    (7, Call::Set(1, (0, 9), Some(Write)), Told::Done),
    (8, Call::Set(1, (0, 9), Some(Write)), Told::Done),
    (7, Call::Flock(1, Some(Write)), Told::Done),
    (7, Call::Wait(1, 2, (0, 0), Write, true), Told::Waits),
    (7, Call::Wait(2, 3, (0, 0), Write, true), Told::Waits),
    (7, Call::FlockWait(3, 2, Write), Told::Waits),
    (8, Call::Wait(4, 2, (0, 0), Write, true), Told::Waits),
    (7, Call::ForgetFile, Told::Done),
    (0, Call::Grant, Told::Nothing),
    (0, Call::Counts(0, u64::MAX), Told::Counts(1, 0, 1)),
    (7, Call::Set(1, (0, 9), Some(Read)), Told::Done),
    (7, Call::Release(50, None), Told::Done),
    (7, Call::Set(3, (0, 9), Some(Write)), Told::Blocked),
    (7, Call::Wait(1, 3, (0, 9), Write, true), Told::Waits),
];

/// A note of an owner that is gone is gone too: its number may be used again.
const NOTES_GO: &[Row] = &[
    (7, Call::Note(10, 50), Told::Done),
    (7, Call::Note(20, 50), Told::Done),
    (0, Call::ForgetOwners(10, 19), Told::Done),
    (7, Call::Set(10, (0, 0), Some(Write)), Told::Done),
    (7, Call::Set(20, (1, 1), Some(Write)), Told::Done),
    (7, Call::Release(50, None), Told::Done),
    (0, Call::HasLocks(10, 10), Told::Having(true)),
    (0, Call::HasLocks(20, 20), Told::Having(false)),
];

/// Two clients come, and one of them goes.
fn two_clients(rt: &impl Abort, server: &mut LockServer) -> Result<(), Memory> {
    tells(rt, server, LOCKS_OF_TWO)?;
    tells(rt, server, WAITS_OF_TWO)?;
    tells(rt, server, COUNTS_OF_TWO)?;
    tells(rt, server, ONE_GOES)
}

#[test]
fn clients_and_files_go(rt: HostRuntime) -> Result<(), Fail> {
    for policy in [Policy::Held, Policy::Queue] {
        let rules = stepwise(policy);
        two_clients(&rt, &mut LockServer::new(rt.alloc(), rules))?;
        for rows in [GRANTS_STAY, FILE_GOES, NOTES_GO] {
            tells(&rt, &mut LockServer::new(rt.alloc(), rules), rows)?;
        }
    }
    Ok(())
}

/// A wait that is gone closes no cycle, and a lock that is gone blocks none.
const NO_CYCLE: &[Row] = &[
    (1, Call::Set(1, (0, 0), Some(Write)), Told::Done),
    (2, Call::Set(2, (0, 0), Some(Write)), Told::Done),
    (1, Call::Wait(1, 2, (0, 0), Write, true), Told::Waits),
    (2, Call::Wait(2, 1, (0, 0), Write, true), Told::Deadlock),
    (0, Call::ForgetOwners(2, 2), Told::Done),
    (2, Call::Wait(2, 1, (0, 0), Write, true), Told::Done),
    (0, Call::Grant, Told::Nothing),
];

#[test]
fn gone_owners_close_no_cycle(rt: HostRuntime) -> Result<(), Fail> {
    let server = &mut LockServer::new(rt.alloc(), stepwise(Policy::Held));
    Ok(tells(&rt, server, NO_CYCLE)?)
}

/// Two thousand owners of a client, each with a lock on a file of its own, and one of each family and a wait on a file that all share.
fn many_come(rt: &impl Abort, server: &mut LockServer) -> Result<(), Memory> {
    for number in 0..2000u64 {
        let (owner, at) = (1000 + number, (2 * number, 2 * number));
        tells(
            rt,
            server,
            &[
                (
                    u64::MAX - number,
                    Call::Set(owner, at, Some(Write)),
                    Told::Done,
                ),
                (7, Call::Set(owner, at, Some(Write)), Told::Done),
                (7, Call::Flock(owner, Some(Read)), Told::Done),
                (
                    8,
                    Call::Wait(number, owner, (0, 0), Read, true),
                    Told::Waits,
                ),
            ],
        )?;
    }
    Ok(())
}

/// Another owner has locks on the file that they share, and on the one for whose bytes they wait.
const IN_THEIR_WAY: &[Row] = &[
    (8, Call::Set(1, (0, 9), Some(Write)), Told::Done),
    (7, Call::Set(1, (1, 1), Some(Write)), Told::Done),
];

/// They are counted, and are gone at once; who waited for them is granted.
const MANY_GO: &[Row] = &[
    (7, Call::FlockWait(5000, 1, Write), Told::Waits),
    (0, Call::Counts(1000, 2999), Told::Counts(4000, 2000, 2000)),
    (0, Call::Counts(2999, 2999), Told::Counts(2, 1, 1)),
    (0, Call::ForgetOwners(1000, 2998), Told::Done),
    (0, Call::Grant, Told::Nothing),
    (0, Call::Counts(0, u64::MAX), Told::Counts(4, 1, 2)),
    (0, Call::ForgetOwners(2999, 2999), Told::Done),
    (0, Call::Grant, Told::Granted(5000)),
    (0, Call::Counts(0, u64::MAX), Told::Counts(2, 1, 0)),
    (0, Call::HasLocks(2, u64::MAX), Told::Having(false)),
];

/// They come, and go.
fn come_and_go(rt: &impl Abort, server: &mut LockServer) -> Result<(), Memory> {
    tells(rt, server, IN_THEIR_WAY)?;
    many_come(rt, server)?;
    tells(rt, server, MANY_GO)
}

#[test]
fn two_thousand_owners_go_often(rt: HostRuntime) -> Result<(), Fail> {
    Ok(come_and_go(
        &rt,
        &mut LockServer::new(rt.alloc(), stepwise(Policy::Held)),
    )?)
}

impl Rule {
    /// A call of a server whose clients mostly go, or a question of what they have.
    fn client_call(&mut self) -> Call {
        let (first, more) = (self.below(OWNERS), self.below(3));
        match self.below(8) {
            0 | 1 => Call::ForgetOwners(first, first + more),
            2 => Call::ForgetFile,
            3 => Call::Counts(first, first + more),
            4 => Call::HasLocks(first, first + more),
            5 => Call::Grant,
            6 => Call::Note(first, more),
            _ => self.request(),
        }
    }
}

/// A sequence of 60 calls, of which every other one is a request, and then all grants that are left.
fn sequence(
    rt: &impl Abort,
    server: &mut LockServer,
    model: &mut Model,
    rule: &mut Rule,
) -> Result<(), Memory> {
    for step in 0..76u64 {
        let call = match (step / 60, step % 2) {
            (0, 0) => rule.request(),
            (0, _) => rule.client_call(),
            _ => Call::Grant,
        };
        let file = rule.below(FILES);
        let told = model.serve(file, call)?;
        tells(rt, server, &[(file, call, told)])?;
    }
    Ok(())
}

/// Two thousand sequences under each policy in which clients and files come and go.
#[test]
fn clients_go_as_the_model_often(rt: HostRuntime) -> Result<(), Fail> {
    let mut rule = Rule { x: 59 };
    for _ in 0..2000 {
        for policy in [Policy::Held, Policy::Queue] {
            let mut model = Model::new(rt.alloc(), stepwise(policy));
            let server = &mut LockServer::new(rt.alloc(), stepwise(policy));
            sequence(&rt, server, &mut model, &mut rule)?;
        }
    }
    Ok(())
}
