//! Orders of effects on several files, of histories that leave one alone, and the locks that they leave.
use super::lines::{FIRST, Line, TEN, read, same};
use history_core::{Action, Answer, ByteLock, Deed};
use history_judge::{FileHappening, HeldFiles, HistoryJudge};
use range_core::{Memory, Mode, Span};
use std::process::Abort;
use std::test::Fail;

/// One owner's lock on file 3, another's wait for it, a lock on file 5 beside them, and the removal that lets the wait have its lock.
const LINES: &[Line] = &[
    Line::Sent(1, 3, 1, Action::Set(Mode::Write, TEN)),
    Line::Told(1, Answer::Done),
    Line::Sent(2, 3, 2, Action::Wait(Mode::Read, FIRST)),
    Line::Sent(4, 5, 2, Action::Set(Mode::Write, TEN)),
    Line::Told(4, Answer::Done),
    Line::Sent(5, 3, 1, Action::Unlock(TEN)),
    Line::Told(2, Answer::Done),
    Line::Told(5, Answer::Done),
    Line::Sent(6, 5, 3, Action::Wait(Mode::Read, TEN)),
];

/// The order that the judge keeps, who has read nothing, once these lines are read.
fn order_of(rt: &impl Abort, judge: &mut HistoryJudge) -> Result<Vec<FileHappening>, Memory> {
    read(rt, judge, LINES);
    Ok(judge.order()?.expect(rt, "an order is kept"))
}

/// Behind how many lines each happening comes, on which file, and whose it is, by its ID.
const HAPPENED: &[(u64, u64, u64)] = &[(1, 3, 1), (4, 5, 4), (6, 3, 5), (6, 3, 2)];

/// Looks that just these effects are told, in this order.
fn is_told(rt: &impl Abort, order: &[FileHappening]) {
    same(rt, order.len(), HAPPENED.len());
    for (told, due) in order.iter().zip(HAPPENED) {
        let happened = (told.behind, told.file, told.request.id);
        same(rt, (happened, told.deed), (*due, Deed::Effect));
    }
}

/// They come by line, each on its file.
#[test]
fn of_two_files(rt: HostRuntime) -> Result<(), Fail> {
    let judge = &mut HistoryJudge::keeping_order(rt.alloc(), false);
    let order = order_of(&rt, judge)?;
    same(&rt, judge.keeps_order(), true);
    is_told(&rt, &order);
    Ok(())
}

/// All that was told happens.
fn apply_each(
    rt: &impl Abort,
    held: &mut HeldFiles,
    order: &[FileHappening],
) -> Result<(), Memory> {
    for told in order {
        same(rt, (*told, held.apply(*told)?), (*told, true));
    }
    Ok(())
}

/// Looks that the file has this byte lock and no other.
fn has_lock(rt: &impl Abort, held: &HeldFiles, file: u64, lock: ByteLock) {
    let locks = held.files().get(&file).expect(rt, "the file has locks");
    same(rt, locks.byte_locks(), [lock].as_slice());
}

/// A lock of the owner.
fn lock(owner: u64, mode: Mode, span: Span) -> ByteLock {
    ByteLock { owner, mode, span }
}

/// What they leave: on file 3 the one that waited has its byte, on file 5 the lock stands.
#[test]
fn of_the_locks_that_they_leave(rt: HostRuntime) -> Result<(), Fail> {
    let judge = &mut HistoryJudge::keeping_order(rt.alloc(), false);
    let order = order_of(&rt, judge)?;
    let held = &mut HeldFiles::new(rt.alloc());
    apply_each(&rt, held, &order)?;
    same(&rt, held.files().len(), 2);
    has_lock(&rt, held, 3, lock(2, Mode::Read, FIRST));
    has_lock(&rt, held, 5, lock(2, Mode::Write, TEN));
    Ok(())
}

/// The first one's lock is set, and then the second one's, which is in its way, isn't.
fn apply_two(rt: &impl Abort, held: &mut HeldFiles, order: &[FileHappening]) -> Result<(), Memory> {
    for told in order {
        let id = told.request.id;
        if id == 1 || id == 2 {
            same(rt, (id, held.apply(*told)?), (id, id == 1));
        }
    }
    Ok(())
}

/// What isn't possible leaves the locks as they were.
#[test]
fn that_are_not_possible(rt: HostRuntime) -> Result<(), Fail> {
    let judge = &mut HistoryJudge::keeping_order(rt.alloc(), false);
    let order = order_of(&rt, judge)?;
    let held = &mut HeldFiles::new(rt.alloc());
    apply_two(&rt, held, &order)?;
    has_lock(&rt, held, 3, lock(1, Mode::Write, TEN));
    Ok(())
}

/// No order is told where none is kept.
#[test]
fn that_are_not_kept(rt: HostRuntime) -> Result<(), Fail> {
    let judge = &mut HistoryJudge::new(rt.alloc(), false);
    read(&rt, judge, LINES);
    same(&rt, judge.order()?.is_none(), true);
    Ok(())
}

/// On each of eighty files one owner sets a lock and removes it.
fn read_eighty(rt: &impl Abort, judge: &mut HistoryJudge) {
    for file in 0..80u64 {
        let lines = [
            Line::Sent(1, file, 1, Action::Set(Mode::Write, TEN)),
            Line::Told(1, Answer::Done),
            Line::Sent(1, file, 1, Action::Unlock(TEN)),
            Line::Told(1, Answer::Done),
        ];
        read(rt, judge, &lines);
    }
}

/// Looks that the happenings come file by file, each behind the line of its request.
fn are_in_turn(rt: &impl Abort, order: &[FileHappening]) {
    for (place, told) in order.iter().enumerate() {
        let place = place as u64;
        same(rt, (told.behind / 2, told.behind % 2), (place, 1));
        same(rt, (place, told.file), (place, place / 2));
    }
}

#[test]
fn of_eighty_files(rt: HostRuntime) -> Result<(), Fail> {
    let judge = &mut HistoryJudge::keeping_order(rt.alloc(), false);
    read_eighty(&rt, judge);
    let order = judge.order()?.expect(&rt, "an order is kept");
    same(&rt, order.len(), 160);
    are_in_turn(&rt, &order);
    Ok(())
}
