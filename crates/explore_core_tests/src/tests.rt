//! Keys of standings that are one situation, and of some that differ in one thing.
use explore_core::{Scope, key_of};
use fd_table::{Access, Limits};
use lock_manager::{FlockOp, LkCmd, Lock, Manager, Request, Rules, Visit};
use range_core::{Kind, Memory, Whence};
use std::alloc::Global;
use std::fmt::Debug;
use std::process::Abort;
use std::test::Fail;
use wait_core::Policy;

const SCOPE: Scope = Scope {
    rules: Rules {
        policy: Policy::Held,
        limits: Limits::Small,
    },
    processes: 3,
    files: 2,
    sections: 2,
    bails: true,
};

/// The two are the same.
fn same<T: PartialEq + Debug + Drop>(rt: &impl Abort, left: T, right: T) {
    assert_eq!(rt; left, right);
}

/// Two children beside process 1.
const FAMILY: &[(u8, Request)] = &[
    (1, Request::Fork { child: 2 }),
    (1, Request::Fork { child: 3 }),
];

/// That no request of so many processes was taken.
fn none_taken(alloc: Global, processes: u8) -> Result<Vec<u64>, Memory> {
    let mut taken = Vec::new(alloc);
    for _process in 0..processes {
        taken.push(0_u64)?;
    }
    Ok(taken)
}

/// Takes these requests, and counts those of each process.
fn take_each(
    rt: &impl Abort,
    manager: &mut Manager,
    taken: &mut [u64],
    requests: &[(u8, Request)],
) -> Result<(), Memory> {
    for (p, request) in requests {
        let place = usize::from(*p).saturating_sub(1);
        assert!(rt; manager.able(*p) && place < taken.len());
        let number = taken[place].saturating_add(1);
        manager.take(*p, number, *request)?;
        taken[place] = number;
    }
    Ok(())
}

/// The key behind these requests, each of which must be taken.
fn key_behind(
    rt: &impl Abort,
    alloc: Global,
    scope: &Scope,
    runs: &[&[(u8, Request)]],
) -> Result<Vec<u8>, Memory> {
    let limits = scope.rules.limits;
    let mut manager = Manager::new(alloc, limits.processes(), scope.rules)?;
    let mut taken = none_taken(alloc, scope.processes)?;
    for run in runs {
        take_each(rt, &mut manager, &mut taken, run)?;
    }
    assert!(rt; scope.files <= 64 && taken.len() == usize::from(scope.processes));
    key_of(alloc, scope, &manager, &taken)
}

fn open(file: u8) -> Request {
    Request::OpenFile {
        file,
        access: Access::Rw,
    }
}

/// A wait, or a lock at once, for writing on the bytes from one on.
fn set(start: i64, len: i64) -> Request {
    Request::Lk {
        fd: 0,
        cmd: LkCmd::SetLkW,
        lock: Lock {
            kind: Kind::Write,
            whence: Whence::Set,
            start,
            len,
            pid: 0,
        },
    }
}

/// The two have one key, behind the forks, or have two.
fn are_one(
    rt: &impl Abort,
    alloc: Global,
    one: &[(u8, Request)],
    other: &[(u8, Request)],
    due: bool,
) -> Result<(), Memory> {
    are_one_in(rt, alloc, &SCOPE, one, other, due)
}

/// The same, of a script that names this.
fn are_one_in(
    rt: &impl Abort,
    alloc: Global,
    scope: &Scope,
    one: &[(u8, Request)],
    other: &[(u8, Request)],
    due: bool,
) -> Result<(), Memory> {
    let key = key_behind(rt, alloc, scope, &[FAMILY, one])?;
    let another = key_behind(rt, alloc, scope, &[FAMILY, other])?;
    same(rt, key.as_slice() == another.as_slice(), due);
    Ok(())
}

/// Descriptions have other numbers in another order of opens, locks on them too, and nobody can tell.
#[test]
fn numbers_make_no_difference(rt: HostRuntime) -> Result<(), Memory> {
    let lock = Request::Flock {
        fd: 0,
        op: FlockOp::Ex,
        nb: true,
    };
    let one = [(1, open(0)), (2, open(1)), (3, open(0)), (3, lock)];
    let other = [(3, open(0)), (3, lock), (2, open(1)), (1, open(0))];
    are_one(&rt, rt.alloc(), &one, &other, true)
}

/// What the processes asked for is the same, but in one thing.
#[test]
fn each_difference_is_told(rt: HostRuntime) -> Result<(), Memory> {
    let alloc = rt.alloc();
    let at = |offset| [(1, open(0)), (1, Request::Seek { fd: 0, offset })];
    let sized = |size| [(1, open(0)), (1, Request::Resize { fd: 0, size })];
    let locked = |len| [(1, open(0)), (1, set(7, len))];
    are_one(&rt, alloc, &at(254), &at(255), false)?;
    are_one(&rt, alloc, &at(255), &at(256), false)?;
    are_one(&rt, alloc, &at(1 << 40), &at(1 << 40), true)?;
    are_one(&rt, alloc, &sized(1 << 40), &sized((1 << 40) + 1), false)?;
    are_one(&rt, alloc, &locked(1), &locked(2), false)
}

/// Two descriptors of one file share a description or don't.
#[test]
fn sharing_is_told(rt: HostRuntime) -> Result<(), Memory> {
    let shared = [(1, open(0)), (1, Request::Dup { fd: 0 })];
    let apart = [(1, open(0)), (1, open(0))];
    are_one(&rt, rt.alloc(), &shared, &apart, false)
}

/// Who is in which section is told, by whichever visit, and not how that came about.
#[test]
fn sections_are_told(rt: HostRuntime) -> Result<(), Memory> {
    let alloc = rt.alloc();
    let enter = |p, section, visit| [(p, Request::Enter { section, visit })];
    let sole = enter(2, 0, Visit::Sole);
    are_one(&rt, alloc, &sole, &enter(2, 0, Visit::Shared), false)?;
    are_one(&rt, alloc, &sole, &enter(2, 1, Visit::Sole), false)?;
    are_one(&rt, alloc, &sole, &enter(3, 0, Visit::Sole), false)?;
    let both = [sole[0], enter(3, 0, Visit::Sole)[0]];
    let turned = [both[1], both[0]];
    are_one(&rt, alloc, &both, &turned, true)
}

/// Whose last answer was an error is told where the script has a bail, and else it isn't.
#[test]
fn refusals_are_told(rt: HostRuntime) -> Result<(), Memory> {
    let alloc = rt.alloc();
    let refused = [
        (2, Request::CloseFd { fd: 0 }),
        (2, Request::Leave { section: 0 }),
    ];
    let answered = [
        (2, Request::Leave { section: 0 }),
        (2, Request::Signal { target: 2 }),
    ];
    are_one(&rt, alloc, &refused, &answered, false)?;
    let heedless = Scope {
        bails: false,
        ..SCOPE
    };
    are_one_in(&rt, alloc, &heedless, &refused, &answered, true)
}

/// Two wait for the byte that a third has: who came first is told.
#[test]
fn the_order_of_waits_is_told(rt: HostRuntime) -> Result<(), Memory> {
    let opened = [(1, open(0)), (2, open(0)), (3, open(0)), (1, set(0, 1))];
    let alloc = rt.alloc();
    let (second_first, third_first) = (
        [(2, set(0, 1)), (3, set(0, 1))],
        [(3, set(0, 1)), (2, set(0, 1))],
    );
    let second = key_behind(&rt, alloc, &SCOPE, &[FAMILY, &opened, &second_first])?;
    let third = key_behind(&rt, alloc, &SCOPE, &[FAMILY, &opened, &third_first])?;
    same(&rt, second.as_slice() == third.as_slice(), false);
    Ok(())
}

/// As many processes, files and sections as there may be.
const WIDE: Scope = Scope {
    rules: Rules {
        policy: Policy::Queue,
        limits: Limits::Wide,
    },
    processes: 64,
    files: 64,
    sections: 64,
    bails: true,
};

/// Each process opens a file and forks the next one.
fn open_and_fork(alloc: Global) -> Result<Vec<(u8, Request)>, Memory> {
    let mut requests = Vec::new(alloc);
    for p in 1..64 {
        requests.push((p, open(p)))?;
        requests.push((p, Request::Fork { child: p + 1 }))?;
    }
    Ok(requests)
}

/// Each process has a copy of the descriptors of the one before it and another one.
#[test]
fn many_descriptors(rt: HostRuntime) -> Result<(), Memory> {
    let requests = open_and_fork(rt.alloc())?;
    let key = key_behind(&rt, rt.alloc(), &WIDE, &[&requests])?;
    // Process p has p descriptors, and process 64 has 63: at least three numbers each; 64 files have a size and 64 lists of locks; and 64
    // processes are in one or none of 64 sections.
    let least = (63 * 64 / 2 + 63) * 3 + 64 * 65 + 64 * 64;
    same(&rt, key.len() > least, true);
    Ok(())
}
