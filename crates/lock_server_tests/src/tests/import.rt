//! Servers from bytes: what is refused, and where, is derived by hand from the grammar in `lock_server/specs/Bytes.antt`.
use super::calls::{Call, Row, Told, atomic, same, stepwise, tells};
use super::export::{SITUATION, WORDS, bytes_of, exported, fill};
use super::model::{FILES, Model, OWNERS};
use super::rule::Rule;
use lock_server::Mode::{Read, Write};
use lock_server::{Fault, Flaw, ImportFault, LockServer, Memory, Policy, Rules};
use range_core::OFFMAX;
use std::alloc::Global;
use std::process::Abort;
use std::test::Fail;

/// What is wrong, with which of the words, and these.
type Case<'a> = (Flaw, usize, &'a [u64]);

/// Words that are no export, each with what is wrong first.
const CASES: &[Case<'static>] = &[
    // the version, the policy, the conversion; a count of files, grants, crossed owners and notes that are not there; words that are too many
    (Flaw::Form, 0, &[2, 0, 0, 0, 0, 0, 0]),
    (Flaw::Form, 1, &[1, 2, 0, 0, 0, 0, 0]),
    (Flaw::Form, 2, &[1, 0, 2, 0, 0, 0, 0]),
    (Flaw::Form, 3, &[1, 0, 0, u64::MAX, 0, 0, 0]),
    (Flaw::Form, 4, &[1, 0, 0, 0, 3, 0, 0]),
    (Flaw::Form, 6, &[1, 0, 0, 0, 0, 0, 1, 0]),
    (Flaw::Form, 7, &[1, 0, 0, 0, 0, 0, 0, 0]),
    (Flaw::Form, 0, &[]),
    // a file with nothing on it
    (Flaw::Form, 4, &[1, 0, 0, 1, 5, 0, 0, 0, 0, 0, 0]),
    // a mode, an empty range, a range that is too long, more locks than are there
    (
        Flaw::Form,
        9,
        &[1, 0, 0, 1, 5, 1, 1, 0, 9, 3, 0, 0, 0, 0, 0],
    ),
    (
        Flaw::Form,
        7,
        &[1, 0, 0, 1, 5, 1, 1, 9, 8, 1, 0, 0, 0, 0, 0],
    ),
    (
        Flaw::Form,
        7,
        &[1, 0, 0, 1, 5, 1, 1, 0, OFFMAX + 1, 1, 0, 0, 0, 0, 0],
    ),
    (
        Flaw::Form,
        5,
        &[1, 0, 0, 1, 5, 3, 1, 0, 9, 1, 0, 0, 0, 0, 0],
    ),
    // the mode of a flock lock; the family and the last word of a wait
    (Flaw::Form, 8, &[1, 0, 0, 1, 5, 0, 1, 1, 0, 0, 0, 0, 0]),
    (
        Flaw::Form,
        10,
        &[1, 0, 0, 1, 5, 0, 0, 1, 9, 1, 2, 0, 0, 1, 0, 0, 0, 0],
    ),
    (
        Flaw::Form,
        14,
        &[1, 0, 0, 1, 5, 0, 0, 1, 9, 1, 0, 0, 0, 1, 2, 0, 0, 0],
    ),
    // files that don't rise
    (
        Flaw::Order,
        12,
        &[
            1, 0, 0, 2, 5, 1, 1, 0, 9, 1, 0, 0, 4, 1, 1, 0, 9, 1, 0, 0, 0, 0, 0,
        ],
    ),
    (
        Flaw::Order,
        12,
        &[
            1, 0, 0, 2, 5, 1, 1, 0, 9, 1, 0, 0, 5, 1, 1, 0, 9, 1, 0, 0, 0, 0, 0,
        ],
    ),
    // byte locks: of a lesser owner, of a lesser byte, that overlap, that touch and are one
    (
        Flaw::Order,
        10,
        &[1, 0, 0, 1, 5, 2, 2, 0, 9, 1, 1, 0, 9, 1, 0, 0, 0, 0, 0],
    ),
    (
        Flaw::Order,
        10,
        &[1, 0, 0, 1, 5, 2, 1, 20, 29, 1, 1, 0, 9, 1, 0, 0, 0, 0, 0],
    ),
    (
        Flaw::Order,
        10,
        &[1, 0, 0, 1, 5, 2, 1, 0, 9, 1, 1, 9, 19, 2, 0, 0, 0, 0, 0],
    ),
    (
        Flaw::Order,
        10,
        &[1, 0, 0, 1, 5, 2, 1, 0, 9, 1, 1, 10, 19, 1, 0, 0, 0, 0, 0],
    ),
    // flock locks, crossed owners, and notes of one file and of two
    (
        Flaw::Order,
        9,
        &[1, 0, 0, 1, 5, 0, 2, 3, 1, 3, 1, 0, 0, 0, 0],
    ),
    (Flaw::Order, 7, &[1, 0, 0, 0, 0, 2, 4, 4, 0]),
    (Flaw::Order, 10, &[1, 0, 0, 0, 0, 0, 2, 5, 1, 7, 5, 1, 8]),
    (Flaw::Order, 10, &[1, 0, 0, 0, 0, 0, 2, 5, 1, 7, 4, 2, 8]),
    // locks that conflict
    (
        Flaw::Conflict,
        10,
        &[1, 0, 0, 1, 5, 2, 1, 0, 9, 2, 2, 9, 9, 1, 0, 0, 0, 0, 0],
    ),
    (
        Flaw::Conflict,
        9,
        &[1, 0, 0, 1, 5, 0, 2, 1, 1, 2, 2, 0, 0, 0, 0],
    ),
    // a ticket twice: of waits on one file and on two, of a wait and a grant, of grants
    (
        Flaw::Ticket,
        19,
        &[
            1, 0, 0, 1, 5, 1, 1, 0, 9, 2, 0, 2, 7, 2, 0, 0, 0, 1, 0, 7, 3, 0, 0, 0, 1, 0, 0, 0, 0,
        ],
    ),
    (
        Flaw::Ticket,
        27,
        &[
            1, 0, 0, 2, 5, 1, 1, 0, 9, 2, 0, 1, 7, 2, 0, 0, 0, 1, 0, 6, 1, 1, 0, 9, 2, 0, 1, 7, 2,
            0, 0, 0, 1, 0, 0, 0, 0,
        ],
    ),
    (
        Flaw::Ticket,
        20,
        &[
            1, 0, 0, 1, 5, 1, 1, 0, 9, 2, 0, 1, 7, 2, 0, 0, 0, 1, 0, 1, 7, 0, 0,
        ],
    ),
    (Flaw::Ticket, 6, &[1, 0, 0, 0, 2, 6, 6, 0, 0]),
    // waits that nothing blocks: of a read lock, and behind a wait under the policy of held locks alone
    (
        Flaw::Unblocked,
        12,
        &[
            1, 0, 0, 1, 5, 1, 1, 0, 9, 1, 0, 1, 7, 2, 0, 0, 0, 1, 0, 0, 0, 0,
        ],
    ),
    (
        Flaw::Unblocked,
        19,
        &[
            1, 0, 0, 1, 5, 1, 1, 0, 9, 1, 0, 2, 7, 2, 0, 0, 0, 2, 0, 8, 3, 0, 0, 0, 1, 0, 0, 0, 0,
        ],
    ),
    // two owners that wait for each other
    (
        Flaw::Cycle,
        27,
        &[
            1, 0, 0, 2, 5, 1, 1, 0, 9, 2, 0, 1, 7, 2, 0, 0, 0, 1, 1, 6, 1, 2, 0, 9, 2, 0, 1, 8, 1,
            0, 0, 0, 1, 1, 0, 0, 0,
        ],
    ),
    // crossed owners: without a wait, and with one that isn't detected
    (Flaw::Crossed, 6, &[1, 0, 0, 0, 0, 1, 4, 0]),
    (
        Flaw::Crossed,
        21,
        &[
            1, 0, 0, 1, 5, 1, 1, 0, 9, 2, 0, 1, 7, 2, 0, 0, 0, 1, 0, 0, 1, 2, 0,
        ],
    ),
    // of two flaws the one that comes first in the order of flaws
    (
        Flaw::Form,
        17,
        &[
            1, 0, 0, 2, 5, 1, 1, 0, 9, 1, 0, 0, 5, 1, 1, 0, 9, 3, 0, 0, 0, 0, 0,
        ],
    ),
];

/// What is wrong with the bytes, and where; nothing, where a server is made of them.
fn fault_of(alloc: Global, bytes: &[u8]) -> Result<Option<Fault>, Memory> {
    match LockServer::import(alloc, bytes) {
        Ok(_) => Ok(None),
        Err(ImportFault::Invalid(fault)) => Ok(Some(fault)),
        Err(ImportFault::Memory(memory)) => Err(memory),
    }
}

/// What is wrong with the words is this, at the word of this number.
fn is_wrong(
    rt: &impl Abort,
    alloc: Global,
    words: &[u64],
    flaw: Flaw,
    word: usize,
) -> Result<(), Memory> {
    let fault = fault_of(alloc, &bytes_of(alloc, words)?)?;
    let offset = word.saturating_mul(8);
    same(rt, fault, Some(Fault { flaw, offset }));
    Ok(())
}

#[test]
fn names_what_is_wrong(rt: HostRuntime) -> Result<(), Fail> {
    for (flaw, word, words) in CASES {
        is_wrong(&rt, rt.alloc(), words, *flaw, *word)?;
    }
    Ok(())
}

/// The server that the bytes tell of, whose export they are.
fn imported(rt: &impl Abort, alloc: Global, bytes: &[u8]) -> Result<LockServer, Fail> {
    let server = LockServer::import(alloc, bytes)?;
    same(rt, exported(rt, alloc, &server)?.as_slice(), bytes);
    Ok(server)
}

/// What is told of the situation from then on: a wait for owner 2 would close a cycle, the grant of owner 6 is fetched, and the waits are
/// granted as the locks before them go.
const AFTERWARDS: &[Row] = &[
    (7, Call::Wait(91, 1, (20, 20), Write, true), Told::Deadlock),
    (9, Call::Grant, Told::Granted(60)),
    (9, Call::Grant, Told::Nothing),
    (9, Call::Get(5, (0, 0), Read), Told::Lock(6, Write, (0, 0))),
    (7, Call::FlockRelease(3), Told::Done),
    (7, Call::Grant, Told::Granted(80)),
    (7, Call::Release(11, None), Told::Done),
    (7, Call::Grant, Told::Granted(90)),
    (7, Call::Grant, Told::Nothing),
];

/// Both servers export the same.
fn export_alike(
    rt: &impl Abort,
    alloc: Global,
    one: &LockServer,
    other: &LockServer,
) -> Result<(), Memory> {
    let (one, other) = (exported(rt, alloc, one)?, exported(rt, alloc, other)?);
    same(rt, one.as_slice(), other.as_slice());
    Ok(())
}

#[test]
fn imports_all_that_there_is(rt: HostRuntime) -> Result<(), Fail> {
    let bytes = bytes_of(rt.alloc(), WORDS)?;
    let mut server = imported(&rt, rt.alloc(), &bytes)?;
    tells(&rt, &mut server, AFTERWARDS)?;
    let mut other = LockServer::new(rt.alloc(), stepwise(Policy::Held));
    tells(&rt, &mut other, SITUATION)?;
    tells(&rt, &mut other, AFTERWARDS)?;
    Ok(export_alike(&rt, rt.alloc(), &server, &other)?)
}

/// The flaw of the bytes, and whether they go up to it or farther.
fn flaw_of(alloc: Global, bytes: &[u8]) -> Result<Option<(Flaw, bool)>, Memory> {
    let Some(fault) = fault_of(alloc, bytes)? else {
        return Ok(None);
    };
    Ok(Some((fault.flaw, fault.offset <= bytes.len())))
}

/// The bytes aren't in the form of an export, and that is told of a place in them or of their end.
fn ends_early(rt: &impl Abort, alloc: Global, bytes: &[u8]) -> Result<(), Memory> {
    let (length, flaw) = (bytes.len(), flaw_of(alloc, bytes)?);
    same(rt, (length, flaw), (length, Some((Flaw::Form, true))));
    Ok(())
}

/// Bytes that end too early tell that where they end; the last ones may be part of a word.
#[test]
fn refuses_each_beginning(rt: HostRuntime) -> Result<(), Fail> {
    let bytes = bytes_of(rt.alloc(), WORDS)?;
    for length in 0..bytes.len() {
        ends_early(&rt, rt.alloc(), &bytes[..length])?;
    }
    Ok(())
}

/// Whether the bytes are the export of what is made of them; they are refused where not.
fn is_export(rt: &impl Abort, alloc: Global, bytes: &[u8]) -> Result<bool, Memory> {
    match LockServer::import(alloc, bytes) {
        Ok(server) => {
            same(rt, exported(rt, alloc, &server)?.as_slice(), bytes);
            Ok(true)
        }
        Err(ImportFault::Invalid(_)) => Ok(false),
        Err(ImportFault::Memory(memory)) => Err(memory),
    }
}

/// How many of the bytes with another bit are an export.
fn taken_flips(rt: &impl Abort, alloc: Global, bytes: &mut [u8]) -> Result<u64, Memory> {
    let mut taken = 0u64;
    for place in 0..bytes.len() {
        for bit in 0..8u32 {
            let was = bytes[place];
            bytes[place] = was ^ (1 << bit);
            if is_export(rt, alloc, bytes)? {
                taken = taken.saturating_add(1);
            }
            bytes[place] = was;
        }
    }
    Ok(taken)
}

/// Whatever bit of the bytes is another one: they are refused, or they are the export of what is made. A note's open file, for one, may be
/// any number.
#[test]
fn refuses_or_exports_each_flip(rt: HostRuntime) -> Result<(), Fail> {
    let mut bytes = bytes_of(rt.alloc(), WORDS)?;
    let taken = taken_flips(&rt, rt.alloc(), &mut bytes)?;
    same(&rt, (taken, taken >= 3 * 64), (taken, true));
    Ok(())
}

/// Under the queue policy a wait behind another one is blocked by it, and by nothing else.
#[test]
fn imports_a_queue(rt: HostRuntime) -> Result<(), Fail> {
    let words = [
        1, 1, 0, 1, 5, 1, 1, 0, 9, 1, 0, 2, 7, 2, 0, 0, 0, 2, 0, 8, 3, 0, 0, 0, 1, 0, 0, 0, 0,
    ];
    let mut server = imported(&rt, rt.alloc(), &bytes_of(rt.alloc(), &words)?)?;
    let rows = [
        (5, Call::Flush(1), Told::Done),
        (5, Call::Grant, Told::Granted(7)),
        (5, Call::Grant, Told::Nothing),
        (5, Call::Flush(2), Told::Done),
        (5, Call::Grant, Told::Granted(8)),
    ];
    tells(&rt, &mut server, &rows)?;
    Ok(())
}

/// Owners that wait for each other, one of which was given a lock since it waits.
#[test]
fn imports_a_cycle_through_a_crossed_owner(rt: HostRuntime) -> Result<(), Fail> {
    let words = [
        1, 0, 0, 2, 5, 1, 1, 0, 9, 2, 0, 1, 7, 2, 0, 0, 0, 1, 1, 6, 1, 2, 0, 9, 2, 0, 1, 8, 1, 0,
        0, 0, 1, 1, 0, 1, 2, 0,
    ];
    imported(&rt, rt.alloc(), &bytes_of(rt.alloc(), &words)?)?;
    Ok(())
}

/// Appends these words.
fn push_words(words: &mut Vec<u64>, more: &[u64]) -> Result<(), Memory> {
    for word in more {
        words.push(*word)?;
    }
    Ok(())
}

/// A ring of owners, each of which waits for the next, and behind it a row of owners that wait for its first: `closed` says whether the
/// last of the ring waits for the first.
fn ring(alloc: Global, length: u64, closed: bool) -> Result<Vec<u64>, Memory> {
    let mut words = vec![in alloc; 1, 0, 0, length]?;
    for i in 0..length {
        // Owner i holds file i, for which owner i - 1 waits: the owner before 0 is the last.
        let (waits, waiter) = match i.checked_sub(1) {
            Some(before) => (1, before),
            None => (u64::from(closed), length.saturating_sub(1)),
        };
        push_words(&mut words, &[i, 1, i, 0, 0, 2, 0, waits])?;
        if waits == 1 {
            push_words(&mut words, &[i, waiter, 0, 0, 0, 2, 1])?;
        }
    }
    push_words(&mut words, &[0, 0, 0])?;
    Ok(words)
}

#[test]
fn finds_a_cycle_of_thousands(rt: HostRuntime) -> Result<(), Fail> {
    let row = bytes_of(rt.alloc(), &ring(rt.alloc(), 3000, false)?)?;
    imported(&rt, rt.alloc(), &row)?;
    let ring = bytes_of(rt.alloc(), &ring(rt.alloc(), 3000, true)?)?;
    let flaw = flaw_of(rt.alloc(), &ring)?;
    same(&rt, flaw, Some((Flaw::Cycle, true)));
    Ok(())
}

/// Two thousand files with locks, waits and notes, and then other ones in the same server.
#[test]
fn imports_thousands(rt: HostRuntime) -> Result<(), Fail> {
    let mut server = LockServer::new(rt.alloc(), stepwise(Policy::Queue));
    fill(&rt, &mut server, 0, 1)?;
    let bytes = exported(&rt, rt.alloc(), &server)?;
    let mut other = imported(&rt, rt.alloc(), &bytes)?;
    server.forget_owners(0, 900);
    other.forget_owners(0, 900);
    Ok(export_alike(&rt, rt.alloc(), &server, &other)?)
}

/// A sequence of 80 calls; after every fourth the server is one that was made of its bytes.
fn sequence(rt: &impl Abort, alloc: Global, rules: Rules, rule: &mut Rule) -> Result<(), Fail> {
    let mut model = Model::new(alloc, rules);
    let mut server = LockServer::new(alloc, rules);
    for step in 0..80u64 {
        let file = rule.below(FILES);
        let call = match step % 4 {
            3 => Call::Get(rule.below(OWNERS), rule.bytes(), rule.mode()),
            _ => rule.call(),
        };
        let told = model.serve(file, call)?;
        tells(rt, &mut server, &[(file, call, told)])?;
        if step % 4 == 1 {
            server = imported(rt, alloc, &exported(rt, alloc, &server)?)?;
        }
    }
    Ok(())
}

/// Sequences by each of the rules: a server that is made anew from its bytes, again and again, tells what the model does.
#[test]
fn goes_on_from_bytes_often(rt: HostRuntime) -> Result<(), Fail> {
    let mut rule = Rule { x: 47 };
    for _ in 0..40 {
        for rules in [
            stepwise(Policy::Held),
            stepwise(Policy::Queue),
            atomic(Policy::Held),
            atomic(Policy::Queue),
        ] {
            sequence(&rt, rt.alloc(), rules, &mut rule)?;
        }
    }
    Ok(())
}
