//! The server at sizes that a real one may have, and more of each than a small limit allows.
use super::calls::{ALL, Call, Told, stepwise, tells};
use lock_server::Mode::{Read, Write};
use lock_server::{LockServer, Memory, Policy};
use std::process::Abort;
use std::test::Fail;

/// The grants of these tickets are told, one after another, and then none.
fn grants(rt: &impl Abort, server: &mut LockServer, first: u64, last: u64) -> Result<(), Memory> {
    for ticket in first..=last {
        tells(rt, server, &[(0, Call::Grant, Told::Granted(ticket))])?;
    }
    tells(rt, server, &[(0, Call::Grant, Told::Nothing)])
}

/// Owners 1 to 1,000 wait to write a byte that owner 0 has, and are granted one after another.
fn exclude(rt: &impl Abort, server: &mut LockServer, detect: bool) -> Result<(), Memory> {
    tells(
        rt,
        server,
        &[(7, Call::Set(0, (0, 9), Some(Write)), Told::Done)],
    )?;
    for owner in 1..=1000u64 {
        let call = Call::Wait(owner, owner, (5, 5), Write, detect);
        tells(rt, server, &[(7, call, Told::Waits)])?;
    }
    for owner in 0..1000u64 {
        tells(rt, server, &[(7, Call::Flush(owner), Told::Done)])?;
        grants(rt, server, owner + 1, owner + 1)?;
    }
    Ok(())
}

/// Owners 1 to 999 wait to read a byte that owner 1,000 has, and are granted all at once.
fn share(rt: &impl Abort, server: &mut LockServer) -> Result<(), Memory> {
    for owner in 1..1000u64 {
        let call = Call::Wait(owner, owner, (5, 5), Read, true);
        tells(rt, server, &[(7, call, Told::Waits)])?;
    }
    tells(rt, server, &[(7, Call::Flush(1000), Told::Done)])?;
    grants(rt, server, 1, 999)
}

/// A thousand owners wait for a byte, and are granted in order of arrival. Under the queue policy each of them would be followed over
/// all before it, again for each that joins, so there the waits to write are not looked at for deadlocks.
fn grant_a_thousand(rt: &impl Abort, server: &mut LockServer, detect: bool) -> Result<(), Memory> {
    exclude(rt, server, detect)?;
    share(rt, server)
}

#[test]
fn grants_a_thousand_waits_in_order_often(rt: HostRuntime) -> Result<(), Fail> {
    grant_a_thousand(
        &rt,
        &mut LockServer::new(rt.alloc(), stepwise(Policy::Held)),
        true,
    )?;
    grant_a_thousand(
        &rt,
        &mut LockServer::new(rt.alloc(), stepwise(Policy::Queue)),
        false,
    )?;
    Ok(())
}

/// More files and owners than a small limit allows, each pair with a lock of its own, that come and go.
fn come_and_go(rt: &impl Abort, server: &mut LockServer) -> Result<(), Memory> {
    for number in 0..2000u64 {
        let (file, set) = (
            u64::MAX - number % 1000,
            Call::Set(number, (number, number), Some(Write)),
        );
        let flock = Call::Flock(number % 1000, Some(Write));
        tells(
            rt,
            server,
            &[(file, set, Told::Done), (file, flock, Told::Done)],
        )?;
    }
    for number in 0..2000u64 {
        let (file, bytes) = (u64::MAX - number % 1000, (number, number));
        let question = Call::Get(5000, bytes, Read);
        tells(
            rt,
            server,
            &[
                (file, question, Told::Lock(number, Write, bytes)),
                (file, Call::Flock(5000, Some(Read)), Told::Blocked),
                (file, Call::Forget(number), Told::Done),
                (file, question, Told::Nothing),
            ],
        )?;
    }
    Ok(())
}

#[test]
fn many_files_and_owners_come_and_go_often(rt: HostRuntime) -> Result<(), Fail> {
    Ok(come_and_go(
        &rt,
        &mut LockServer::new(rt.alloc(), stepwise(Policy::Held)),
    )?)
}

/// A thousand owners through one open file, of whom every other one came again through another one.
fn close(rt: &impl Abort, server: &mut LockServer) -> Result<(), Memory> {
    for owner in 1..=1000u64 {
        let (note, set) = (
            Call::Note(owner, 50),
            Call::Set(owner, (owner, owner), Some(Write)),
        );
        tells(rt, server, &[(7, note, Told::Done), (7, set, Told::Done)])?;
    }
    for owner in 1..=500u64 {
        tells(rt, server, &[(7, Call::Note(2 * owner, 51), Told::Done)])?;
    }
    tells(rt, server, &[(7, Call::Release(50, None), Told::Done)])?;
    for owner in 1..=1000u64 {
        let bytes = (owner, owner);
        let told = if owner % 2 == 0 {
            Told::Lock(owner, Write, bytes)
        } else {
            Told::Nothing
        };
        tells(rt, server, &[(7, Call::Get(0, bytes, Read), told)])?;
    }
    tells(
        rt,
        server,
        &[
            (7, Call::Release(51, None), Told::Done),
            (7, Call::Get(0, ALL, Write), Told::Nothing),
        ],
    )
}

#[test]
fn a_last_close_takes_a_thousand_owners_often(rt: HostRuntime) -> Result<(), Fail> {
    Ok(close(
        &rt,
        &mut LockServer::new(rt.alloc(), stepwise(Policy::Held)),
    )?)
}

/// A hundred thousand files, each locked by one of ten thousand owners, each of whom waits for the next: the chain is followed to its
/// end, and each wait is granted where the lock in its way goes.
fn serve_files(rt: &impl Abort, server: &mut LockServer) -> Result<(), Memory> {
    for file in 0..100_000u64 {
        let call = Call::Set(file % 10_000, (0, 9), Some(Write));
        tells(rt, server, &[(file, call, Told::Done)])?;
    }
    for owner in 0..9_999u64 {
        let call = Call::Wait(owner, owner, (5, 5), Read, true);
        tells(rt, server, &[(owner + 1, call, Told::Waits)])?;
    }
    tells(
        rt,
        server,
        &[
            (
                10_000,
                Call::Wait(9_999, 9_999, (5, 5), Read, true),
                Told::Deadlock,
            ),
            (
                10_000,
                Call::Wait(9_999, 9_999, (5, 5), Read, false),
                Told::Waits,
            ),
        ],
    )?;
    for file in 0..100_000u64 {
        tells(
            rt,
            server,
            &[(file, Call::Flush(file % 10_000), Told::Done)],
        )?;
    }
    grants(rt, server, 0, 9_999)
}

#[test]
fn serves_a_hundred_thousand_files_often(rt: HostRuntime) -> Result<(), Fail> {
    Ok(serve_files(
        &rt,
        &mut LockServer::new(rt.alloc(), stepwise(Policy::Queue)),
    )?)
}
