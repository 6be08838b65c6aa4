//! Orders of effects, and the locks that they leave: of each of these histories no other order is possible.
use super::lines::Line::{Refused, Sent, Told};
use super::lines::{ENOUGH, FIRST, Line, MIDST, TEN, WIDE, read, same};
use history_core::Action::{Close, Flock, FlockWait, Get, Gone, Set, Unlock, Wait};
use history_core::Answer::{Busy, Done, Free, Held, Interrupted};
use history_core::{Action, ByteLock, Deed, FileHistory, FlockLock, Happening, HeldLocks, Request};
use range_core::Mode::{Read, Write};
use range_core::{Memory, Mode, Span};
use std::alloc::AllocGlobal;
use std::process::Abort;

/// Whose happening it was, by its ID, what it was, and behind how many lines it came.
type Happened = (u64, Deed, u64);

const EFFECT: Deed = Deed::Effect;

/// One request after another: each has its effect between its own lines. A wait that was interrupted has none, and a refused answer is no line.
const IN_TURN: &[Line] = &[
    Sent(1, 1, Set(Write, TEN)),
    Told(1, Done),
    Sent(2, 2, Set(Read, FIRST)),
    Refused(2, Done),
    Told(2, Busy),
    Sent(3, 2, Wait(Read, FIRST)),
    Told(3, Interrupted),
    Sent(4, 1, Close),
    Told(4, Done),
    Sent(5, 2, Get(Read, MIDST)),
    Told(5, Free),
];

const ONE_BY_ONE: &[Happened] = &[
    (1, EFFECT, 1),
    (2, EFFECT, 3),
    (4, EFFECT, 7),
    (5, EFFECT, 9),
];

/// A wait is granted before the unlock is answered that it waited for, and the unlock was sent behind it.
const GRANTED: &[Line] = &[
    Sent(1, 1, Set(Write, TEN)),
    Told(1, Done),
    Sent(2, 2, Wait(Write, FIRST)),
    Sent(3, 1, Unlock(TEN)),
    Told(2, Done),
    Told(3, Done),
];

const UNLOCKED_FIRST: &[Happened] = &[(1, EFFECT, 1), (3, EFFECT, 4), (2, EFFECT, 4)];

/// A set that isn't answered was in the way of another, which was sent before it.
const UNANSWERED: &[Line] = &[
    Sent(2, 2, Set(Read, FIRST)),
    Sent(1, 1, Set(Write, TEN)),
    Told(2, Busy),
];

const HAPPENED: &[Happened] = &[(1, EFFECT, 2), (2, EFFECT, 2)];

/// A get saw a set that was sent behind it, and is answered behind it.
const SEEN: &[Line] = &[
    Sent(1, 1, Get(Write, TEN)),
    Sent(2, 2, Set(Read, MIDST)),
    Told(1, Held(Some(2), Read, MIDST)),
    Told(2, Done),
];

const SET_FIRST: &[Happened] = &[(2, EFFECT, 2), (1, EFFECT, 2)];

/// A conversion that waits has let its owner's old lock go, since another got an exclusive one.
const CONVERTED: &[Line] = &[
    Sent(1, 1, Flock(Read)),
    Told(1, Done),
    Sent(2, 2, Flock(Write)),
    Sent(3, 1, FlockWait(Write)),
    Told(2, Done),
];

const LET_GO: &[Happened] = &[(1, EFFECT, 1), (3, Deed::LetGo, 4), (2, EFFECT, 4)];

/// A death made room before it was answered.
const DIED: &[Line] = &[
    Sent(1, 1, Set(Write, TEN)),
    Told(1, Done),
    Sent(2, 2, Set(Write, WIDE)),
    Sent(3, 1, Gone),
    Told(2, Done),
    Told(3, Done),
];

const DEAD_FIRST: &[Happened] = &[(1, EFFECT, 1), (3, EFFECT, 4), (2, EFFECT, 4)];

/// A lock on bytes.
fn lock(owner: u64, mode: Mode, first: u64, last: u64) -> ByteLock {
    ByteLock {
        owner,
        mode,
        span: Span { first, last },
    }
}

/// The effect of a request on its own.
fn effect(id: u64, owner: u64, action: Action) -> Happening {
    Happening {
        behind: 1,
        request: Request { id, owner, action },
        deed: EFFECT,
    }
}

/// Looks that just these happened, in this order, of which each was possible behind what is held then.
fn apply_each(rt: &impl Abort, held: &mut HeldLocks, order: &[Happening], wanted: &[Happened]) {
    same(rt, order.len(), wanted.len());
    for (happening, wanted) in order.iter().zip(wanted) {
        let happened = (happening.request.id, happening.deed, happening.behind);
        same(rt, happened, *wanted);
        same(rt, held.apply(*happening), Ok(true));
    }
}

/// Looks that the order of the lines is this one, and that it leaves these byte locks and flock locks.
fn is_order(
    rt: &(impl Abort + AllocGlobal),
    lines: &[Line],
    wanted: &[Happened],
    bytes: &[ByteLock],
    flocks: &[FlockLock],
) -> Result<(), Memory> {
    let mut file = FileHistory::keeping_order(rt.alloc(), false)?;
    read(rt, &mut file, lines);
    let order = file.order()?.expect(rt, "an order is kept");
    let mut held = HeldLocks::new(rt.alloc());
    apply_each(rt, &mut held, &order, wanted);
    same(rt, held.byte_locks(), bytes);
    same(rt, held.flock_locks(rt.alloc())?.as_slice(), flocks);
    Ok(())
}

/// Lines, what happened, and the byte locks and flock locks that this leaves.
type Order = (
    &'static [Line],
    &'static [Happened],
    &'static [ByteLock],
    &'static [FlockLock],
);

const ORDERS: &[Order] = &[
    (&[], &[], &[], &[]),
    (IN_TURN, ONE_BY_ONE, &[], &[]),
    (
        GRANTED,
        UNLOCKED_FIRST,
        &[ByteLock {
            owner: 2,
            mode: Write,
            span: FIRST,
        }],
        &[],
    ),
    (
        UNANSWERED,
        HAPPENED,
        &[ByteLock {
            owner: 1,
            mode: Write,
            span: TEN,
        }],
        &[],
    ),
    (
        SEEN,
        SET_FIRST,
        &[ByteLock {
            owner: 2,
            mode: Read,
            span: MIDST,
        }],
        &[],
    ),
    (
        CONVERTED,
        LET_GO,
        &[],
        &[FlockLock {
            owner: 2,
            mode: Write,
        }],
    ),
    (
        DIED,
        DEAD_FIRST,
        &[ByteLock {
            owner: 2,
            mode: Write,
            span: WIDE,
        }],
        &[],
    ),
];

#[test]
fn of_orders(rt: HostRuntime) -> Result<(), Memory> {
    for (lines, wanted, bytes, flocks) in ORDERS {
        is_order(&rt, lines, wanted, bytes, flocks)?;
    }
    Ok(())
}

/// Where no order is kept, none is told.
#[test]
fn of_no_order(rt: HostRuntime) -> Result<(), Memory> {
    let mut file = FileHistory::new(rt.alloc(), false)?;
    read(&rt, &mut file, GRANTED);
    same(&rt, file.order()?.is_none(), true);
    Ok(())
}

/// The bytes of a range by its first and its last one.
fn span(first: u64, last: u64) -> Span {
    Span { first, last }
}

/// The request has its effect, or can't have it, and then it changes nothing.
fn is_effect(rt: &impl Abort, held: &mut HeldLocks, happening: Happening, is_possible: bool) {
    let id = happening.request.id;
    same(rt, (id, held.apply(happening)), (id, Ok(is_possible)));
}

/// Effects in turn, each with whether it is possible.
fn take_effect(rt: &impl Abort, held: &mut HeldLocks) {
    is_effect(rt, held, effect(1, 2, Set(Read, span(5, 9))), true);
    is_effect(rt, held, effect(2, 1, Wait(Write, span(0, 3))), true);
    is_effect(rt, held, effect(3, 1, Set(Write, span(4, 4))), true);
    is_effect(rt, held, effect(4, 1, Set(Read, span(2, 2))), true);
    is_effect(rt, held, effect(5, 3, Set(Write, span(9, 9))), true);
    is_effect(rt, held, effect(6, 3, Flock(Read)), true);
    is_effect(rt, held, effect(7, 2, Flock(Read)), true);
    is_effect(rt, held, effect(8, 4, FlockWait(Write)), false);
    is_effect(rt, held, effect(9, 4, Wait(Read, span(0, 0))), false);
}

/// An owner that waits for a flock lets its old lock go, where it has one.
fn let_go(rt: &impl Abort, held: &mut HeldLocks) {
    let mut loss = effect(10, 4, FlockWait(Write));
    loss.deed = Deed::LetGo;
    same(rt, held.apply(loss), Ok(false));
    loss.request.owner = 3;
    same(rt, held.apply(loss), Ok(true));
}

/// The locks that happenings leave, by owner and first byte, in largest ranges; what isn't possible changes nothing.
#[test]
fn of_locks(rt: HostRuntime) -> Result<(), Memory> {
    let mut held = HeldLocks::new(rt.alloc());
    take_effect(&rt, &mut held);
    let_go(&rt, &mut held);
    let bytes = [
        lock(1, Write, 0, 1),
        lock(1, Read, 2, 2),
        lock(1, Write, 3, 4),
        lock(2, Read, 5, 9),
    ];
    same(&rt, held.byte_locks(), bytes.as_slice());
    let shared = [FlockLock {
        owner: 2,
        mode: Read,
    }];
    let flocks = held.flock_locks(rt.alloc())?;
    same(&rt, flocks.as_slice(), shared.as_slice());
    Ok(())
}

/// Owners in turn set a lock and remove it, each request by the same ID.
fn set_and_unlock(rt: &impl Abort, file: &mut FileHistory, requests: u64) {
    for number in 0..requests {
        let action = if number % 2 == 0 {
            Set(Write, TEN)
        } else {
            Unlock(TEN)
        };
        let request = Request {
            id: 7,
            owner: number / 2,
            action,
        };
        assert!(rt; !file.has_open(7));
        same(rt, file.send(request, ENOUGH), Ok(()));
        same(rt, file.answer(7, Done, ENOUGH), Ok(true));
    }
}

/// The order is that of the requests, and each happening comes behind the line of its own.
fn are_in_turn(rt: &impl Abort, held: &mut HeldLocks, order: &[Happening]) {
    for (number, happening) in order.iter().enumerate() {
        let (owner, behind) = (happening.request.owner, happening.behind);
        let number = number as u64;
        same(rt, (owner, behind / 2, behind % 2), (number / 2, number, 1));
        same(rt, held.apply(*happening), Ok(true));
    }
}

/// Tens of thousands of requests, one after another.
#[test]
fn of_long_orders(rt: HostRuntime) -> Result<(), Memory> {
    let mut file = FileHistory::keeping_order(rt.alloc(), false)?;
    set_and_unlock(&rt, &mut file, 30_000);
    let order = file.order()?.expect(&rt, "an order is kept");
    same(&rt, order.len(), 30_000);
    let mut held = HeldLocks::new(rt.alloc());
    are_in_turn(&rt, &mut held, &order);
    same(&rt, held.byte_locks().len(), 0);
    Ok(())
}
