//! The state of a server as bytes: what these are is derived by hand from the grammar in `lock_server/specs/Bytes.antt`.
use super::calls::{Call, Row, Told, atomic, same, stepwise, tells};
use lock_server::Mode::{Read, Write};
use lock_server::{LockServer, Memory, Policy, Rules};
use range_core::OFFMAX;
use std::alloc::Global;
use std::process::Abort;
use std::test::Fail;

/// On file 7 owner 2 waits for a byte of owner 1, and owner 4 for the flock lock of owner 3; on file 8 owner 2 was given a lock since, so
/// it is crossed; on file 9 the wait of owner 6 was granted, and that wasn't fetched. Three owners are noted.
pub(super) const SITUATION: &[Row] = &[
    (7, Call::Note(2, 12), Told::Done),
    (7, Call::Set(2, (20, 29), Some(Read)), Told::Done),
    (7, Call::Note(1, 11), Told::Done),
    (7, Call::Set(1, (0, 9), Some(Write)), Told::Done),
    (7, Call::Flock(3, Some(Write)), Told::Done),
    (7, Call::Wait(90, 2, (5, 5), Read, true), Told::Waits),
    (7, Call::FlockWait(80, 4, Read), Told::Waits),
    (8, Call::Set(2, (0, 0), Some(Read)), Told::Done),
    (9, Call::Set(5, (0, 0), Some(Write)), Told::Done),
    (9, Call::Wait(60, 6, (0, 0), Write, false), Told::Waits),
    (9, Call::Flush(5), Told::Done),
    (5, Call::Note(9, 13), Told::Done),
    (
        7,
        Call::Get(1, (20, 20), Write),
        Told::Lock(2, Read, (20, 29)),
    ),
];

/// The same by another way: in another order, in pieces, and with locks, waits, grants and notes that come and go.
const OTHER_WAY: &[Row] = &[
    (9, Call::Set(6, (0, 0), Some(Read)), Told::Done),
    (9, Call::Set(5, (0, 0), Some(Read)), Told::Done),
    (9, Call::Wait(60, 6, (0, 0), Write, false), Told::Waits),
    (3, Call::Set(8, (1, 1), Some(Write)), Told::Done),
    (3, Call::Wait(61, 2, (1, 1), Write, true), Told::Waits),
    (7, Call::Set(1, (5, 40), Some(Write)), Told::Done),
    (3, Call::Flush(8), Told::Done),
    (3, Call::Grant, Told::Granted(61)),
    (3, Call::Flush(2), Told::Done),
    (7, Call::Set(1, (0, 4), Some(Write)), Told::Done),
    (7, Call::Set(1, (10, 40), None), Told::Done),
    (7, Call::Set(2, (25, 29), Some(Read)), Told::Done),
    (7, Call::Set(2, (20, 24), Some(Read)), Told::Done),
    (5, Call::Note(9, 13), Told::Done),
    (7, Call::Note(1, 19), Told::Done),
    (7, Call::Note(1, 11), Told::Done),
    (7, Call::Note(2, 12), Told::Done),
    (7, Call::Wait(90, 2, (5, 5), Read, true), Told::Waits),
    (8, Call::Set(2, (0, 0), Some(Read)), Told::Done),
    (7, Call::Flock(3, Some(Write)), Told::Done),
    (7, Call::FlockWait(80, 4, Read), Told::Waits),
    (9, Call::Flush(5), Told::Done),
];

/// What it is as words.
pub(super) const WORDS: &[u64] = &[
    1, 0, 0, // the version, the policy and the conversion
    3, // files
    7, 2, 1, 0, 9, 2, 2, 20, 29, 1, // file 7: two byte locks
    1, 3, 2, // a flock lock
    2, 90, 2, 0, 5, 5, 1, 1, 80, 4, 1, 0, OFFMAX, 1, 0, // and two waits, the first of which came first
    8, 1, 2, 0, 0, 1, 0, 0, // file 8
    9, 1, 6, 0, 0, 2, 0, 0, // file 9
    1, 60, // a grant
    1, 2, // a crossed owner
    3, 5, 9, 13, 7, 1, 11, 7, 2, 12, // notes
];

/// The words as bytes, of each the lowest first.
pub(super) fn bytes_of(alloc: Global, words: &[u64]) -> Result<Vec<u8>, Memory> {
    let mut bytes = Vec::new(alloc);
    for word in words {
        for byte in word.to_le_bytes() {
            bytes.push(byte)?;
        }
    }
    Ok(bytes)
}

/// The export of the server.
pub(super) fn exported(
    rt: &impl Abort,
    alloc: Global,
    server: &LockServer,
) -> Result<Vec<u8>, Memory> {
    let size = server.export_size();
    let mut out = Vec::from_elem(alloc, 0u8, size)?;
    same(rt, server.export(&mut out), size);
    Ok(out)
}

/// The export of the server is these words.
fn exports(
    rt: &impl Abort,
    alloc: Global,
    server: &LockServer,
    words: &[u64],
) -> Result<(), Memory> {
    let (told, wanted) = (exported(rt, alloc, server)?, bytes_of(alloc, words)?);
    same(rt, told.as_slice(), wanted.as_slice());
    Ok(())
}

/// A server that was told these rows exports the words of the situation.
fn exports_situation(rt: &impl Abort, alloc: Global, rows: &[Row]) -> Result<(), Memory> {
    let mut server = LockServer::new(alloc, stepwise(Policy::Held));
    tells(rt, &mut server, rows)?;
    exports(rt, alloc, &server, WORDS)
}

#[test]
fn exports_all_that_there_is(rt: HostRuntime) -> Result<(), Fail> {
    Ok(exports_situation(&rt, rt.alloc(), SITUATION)?)
}

#[test]
fn exports_whatever_the_history_was(rt: HostRuntime) -> Result<(), Fail> {
    Ok(exports_situation(&rt, rt.alloc(), OTHER_WAY)?)
}

/// An empty server exports these words, and no file, grant, crossed owner or note.
fn exports_empty(
    rt: &impl Abort,
    alloc: Global,
    rules: Rules,
    words: &[u64],
) -> Result<(), Memory> {
    let mut wanted = Vec::from_slice(alloc, words)?;
    wanted.resize(7, 0)?;
    exports(rt, alloc, &LockServer::new(alloc, rules), &wanted)
}

#[test]
fn exports_an_empty_server(rt: HostRuntime) -> Result<(), Fail> {
    exports_empty(&rt, rt.alloc(), stepwise(Policy::Held), &[1, 0, 0])?;
    exports_empty(&rt, rt.alloc(), stepwise(Policy::Queue), &[1, 1, 0])?;
    Ok(exports_empty(&rt, rt.alloc(), atomic(Policy::Queue), &[1, 1, 1])?)
}

/// A buffer with one byte too few stays as it was, and one with more keeps what stands behind.
#[test]
fn exports_into_the_room_that_there_is(rt: HostRuntime) {
    let server = LockServer::new(rt.alloc(), stepwise(Policy::Held));
    let mut out = [7u8; 60];
    same(&rt, server.export(&mut out[..55]), 56);
    same(&rt, out, [7u8; 60]);
    same(&rt, server.export(&mut out), 56);
    same(&rt, [out[0], out[1], out[55]], [1, 0, 0]);
    same(&rt, [out[56], out[59]], [7, 7]);
}

/// Two thousand files of two locks each, with a wait behind each, and as many notes; `from` and `step` say in which order they come.
pub(super) fn fill(
    rt: &impl Abort,
    server: &mut LockServer,
    from: u64,
    step: u64,
) -> Result<(), Memory> {
    for i in 0..2000u64 {
        let number = from.wrapping_add(step.wrapping_mul(i)) % 2000;
        let rows = [
            (number, Call::Set(1, (0, 0), Some(Write)), Told::Done),
            (number, Call::Set(number, (9, 9), Some(Read)), Told::Done),
            (
                number,
                Call::Wait(number, 5000, (0, 0), Read, true),
                Told::Waits,
            ),
            (number, Call::Note(number, 3), Told::Done),
        ];
        tells(rt, server, &rows)?;
    }
    Ok(())
}

/// What two servers export that were filled in rising and in falling order; a wait less is told.
fn export_alike(
    rt: &impl Abort,
    alloc: Global,
    rising: &LockServer,
    falling: &mut LockServer,
) -> Result<(), Memory> {
    let one = exported(rt, alloc, rising)?;
    same(rt, one.len(), 8 * (7 + 2000 * 22));
    let other = exported(rt, alloc, falling)?;
    same(rt, other.as_slice(), one.as_slice());
    falling.cancel(77);
    let other = exported(rt, alloc, falling)?;
    same(rt, other.as_slice() == one.as_slice(), false);
    Ok(())
}

/// By the grammar a file takes 4 words beside what stands on it, a byte lock 4, a wait 7 and a note 3: with two locks, a wait and a note
/// to each of 2,000 files that is 22 words for each, behind the first three and the counts of files, grants, crossed owners and notes.
#[test]
fn exports_thousands_in_any_order(rt: HostRuntime) -> Result<(), Fail> {
    let rising = &mut LockServer::new(rt.alloc(), stepwise(Policy::Queue));
    let falling = &mut LockServer::new(rt.alloc(), stepwise(Policy::Queue));
    fill(&rt, rising, 0, 1)?;
    fill(&rt, falling, 1999, 1999)?;
    Ok(export_alike(&rt, rt.alloc(), rising, falling)?)
}
