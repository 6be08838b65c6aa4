//! Ranges by the table of the rules, and lists against one that keeps every change.
ghost use Rattle.std.specs.Prelude.{◌≡◌, ◌≤◌};
ghost use Rattle.range_core.specs.declared.TheConstants.{OFFMAX};
ghost use Rattle.range_core.specs.Ranges.{IsByteRange};

mod change_list;

use change_list::ChangeList;
use range_core::{Memory, Mode, OFFMAX, RangeFault, RangeList, Span, Whence, resolve};
use std::fmt::Debug;
use std::process::Abort;

/// The bytes of a range by its first and its last one.
fn bytes(first: u64, last: u64) -> Span
    ensures { (result.first ≡ first) × (result.last ≡ last) }
{
    Span { first, last }
}

/// The two are the same.
fn same<T: PartialEq + Debug + Drop>(rt: &impl Abort, left: T, right: T) {
    assert_eq!(rt; left, right);
}

/// The run at the byte is this one.
fn assert_run_at(rt: &impl Abort, list: &RangeList, byte: u64, wanted: Option<(Mode, Span)>) {
    same(rt, (byte, list.run_at(byte)), (byte, wanted));
}

/// The mode of the byte is this one.
fn assert_mode_at(rt: &impl Abort, list: &RangeList, byte: u64, wanted: Option<Mode>) {
    same(rt, (byte, list.mode_at(byte)), (byte, wanted));
}

/// The first byte of the span that conflicts is this one.
fn assert_first_hit(
    rt: &impl Abort,
    list: &RangeList,
    (span, against): (Span, Mode),
    wanted: Option<u64>,
) {
    assert!(rt; span.first <= span.last && span.last <= OFFMAX);
    same(rt, (span, list.first_hit(span, against)), (span, wanted));
}

/// [`RangeList::set`] of bytes that a file has.
fn set(
    rt: &impl Abort,
    list: &mut RangeList,
    span: Span,
    mode: Option<Mode>,
) -> Result<(), Memory> {
    assert!(rt; span.first <= span.last && span.last <= OFFMAX);
    list.set(span, mode)
}

/// What a lock description names, in a file of 50 bytes at the offset 100.
fn names(
    rt: &impl Abort,
    (whence, start, len): (Whence, i64, i64),
    wanted: Result<Span, RangeFault>,
) {
    let named = resolve(whence, start, len, 100, 50);
    same(
        rt,
        (whence, start, len, named),
        (whence, start, len, wanted),
    );
}

/// What lock descriptions name, by the rules of `struct flock`.
#[test]
fn names_ranges(rt: HostRuntime) {
    let whole = OFFMAX as i64;
    names(&rt, (Whence::Set, 10, 5), Ok(bytes(10, 14)));
    names(&rt, (Whence::Set, 10, -10), Ok(bytes(0, 9)));
    names(&rt, (Whence::Set, 10, -11), Err(RangeFault::Invalid));
    names(&rt, (Whence::Set, 7, 0), Ok(bytes(7, OFFMAX)));
    names(&rt, (Whence::Set, whole, 1), Ok(bytes(OFFMAX, OFFMAX)));
    names(&rt, (Whence::Set, whole, 2), Err(RangeFault::Overflow));
    names(&rt, (Whence::Cur, -100, 1), Ok(bytes(0, 0)));
    names(&rt, (Whence::Cur, whole, 0), Err(RangeFault::Overflow));
    names(&rt, (Whence::End, 0, -50), Ok(bytes(0, 49)));
    names(
        &rt,
        (Whence::End, i64::MIN, i64::MIN),
        Err(RangeFault::Invalid),
    );
}

/// The set leaves these runs.
fn leaves(
    rt: &impl Abort,
    list: &mut RangeList,
    (span, mode): (Span, Option<Mode>),
    wanted: &[(Mode, Span)],
) -> Result<(), Memory> {
    set(rt, list, span, mode)?;
    same(rt, list.runs(), wanted);
    Ok(())
}

/// A read lock inside a write lock leaves three, and an unlock in the middle both sides.
fn sets_cut_runs(rt: &impl Abort, list: &mut RangeList) -> Result<(), Memory> {
    let (read, write) = (Mode::Read, Mode::Write);
    leaves(
        rt,
        list,
        (bytes(0, 99), Some(write)),
        &[(write, bytes(0, 99))],
    )?;
    let three = [
        (write, bytes(0, 39)),
        (read, bytes(40, 59)),
        (write, bytes(60, 99)),
    ];
    leaves(rt, list, (bytes(40, 59), Some(read)), &three)?;
    let two = [(read, bytes(40, 59)), (write, bytes(60, 99))];
    leaves(rt, list, (bytes(0, 39), None), &two)?;
    let sides = [
        (read, bytes(40, 59)),
        (write, bytes(60, 69)),
        (write, bytes(80, 99)),
    ];
    leaves(rt, list, (bytes(70, 79), None), &sides)
}

/// Behind them, touching ranges of one mode are one run, also to the largest offset; and an unlock of all leaves none.
fn sets_join_runs(rt: &impl Abort, list: &mut RangeList) -> Result<(), Memory> {
    let (read, write) = (Mode::Read, Mode::Write);
    let joined = [(read, bytes(40, 59)), (write, bytes(60, 99))];
    leaves(rt, list, (bytes(60, 79), Some(write)), &joined)?;
    let longer = [(read, bytes(40, 59)), (write, bytes(60, OFFMAX))];
    leaves(rt, list, (bytes(100, OFFMAX), Some(write)), &longer)?;
    let over = [(read, bytes(10, 200)), (write, bytes(201, OFFMAX))];
    leaves(rt, list, (bytes(10, 200), Some(read)), &over)?;
    leaves(rt, list, (bytes(0, OFFMAX), None), &[])
}

#[test]
fn sets_leave_runs(rt: HostRuntime) -> Result<(), Memory> {
    let list = &mut RangeList::new(rt.alloc());
    same(&rt, list.runs(), [].as_slice());
    sets_cut_runs(&rt, list)?;
    sets_join_runs(&rt, list)
}

/// A list with room for two changes more, in which two bytes are read.
fn read_two(rt: &impl Abort, list: &mut RangeList) -> Result<(), Memory> {
    list.reserve(2)?;
    set(rt, list, bytes(5, 6), Some(Mode::Read))
}

/// A growth that is refused leaves the list as it was, and the room serves a set of one of the bytes.
fn set_in_the_room(rt: &impl Abort, list: &mut RangeList) {
    let room = list.room();
    assert!(rt; room >= 2);
    same(rt, list.reserve(usize::MAX).is_err(), true);
    same(rt, list.room(), room);
    assert_run_at(rt, list, 5, Some((Mode::Read, bytes(5, 6))));
    list.set_reserved(bytes(6, 6), None);
    same(rt, list.room() >= room - 1, true);
    assert_run_at(rt, list, 5, Some((Mode::Read, bytes(5, 5))));
}

/// Room that is held serves that many sets.
#[test]
fn holds_room(rt: HostRuntime) -> Result<(), Memory> {
    let list = &mut RangeList::new(rt.alloc());
    read_two(&rt, list)?;
    set_in_the_room(&rt, list);
    Ok(())
}

/// Every second byte is written, a thousand of them.
fn write_every_second(rt: &impl Abort, list: &mut RangeList) -> Result<(), Memory> {
    for index in 0..1000 {
        let byte = bytes(2 * index, 2 * index);
        set(rt, list, byte, Some(Mode::Write))?;
    }
    Ok(())
}

/// A set uses room up and leaves as much as there was, however many there are.
#[test]
fn many_sets_leave_the_room(rt: HostRuntime) -> Result<(), Memory> {
    let list = &mut RangeList::new(rt.alloc());
    list.reserve(2)?;
    write_every_second(&rt, list)?;
    same(&rt, list.room(), 2);
    assert_run_at(&rt, list, 1998, Some((Mode::Write, bytes(1998, 1998))));
    Ok(())
}

/// Thousands of runs apart from one another are read, and each is cut in three.
fn cut_runs(rt: &impl Abort, list: &mut RangeList) -> Result<(), Memory> {
    for index in 0..5000 {
        let first = 10 * index;
        set(rt, list, bytes(first, first + 4), Some(Mode::Read))?;
        let second = bytes(first + 1, first + 1);
        set(rt, list, second, Some(Mode::Write))?;
    }
    Ok(())
}

/// They go at once where all is unlocked.
#[test]
fn thousands_of_runs_go_at_once(rt: HostRuntime) -> Result<(), Memory> {
    let list = &mut RangeList::new(rt.alloc());
    cut_runs(&rt, list)?;
    same(&rt, list.runs().len(), 15_000);
    set(&rt, list, bytes(0, OFFMAX), None)?;
    same(&rt, list.runs(), [].as_slice());
    Ok(())
}

/// The mode of the set number `k` of the comparisons.
fn mode_of_set(k: u64) -> Option<Mode> {
    match k % 3 {
        0 => Some(Mode::Read),
        1 => Some(Mode::Write),
        _ => None,
    }
}

/// The range of the set number `k` of the comparisons: so far from byte 0.
fn range_of_set(k: u64) -> Span
    requires { k ≤ 2000 }
    ensures { IsByteRange result }
{
    let first = (k * 37) % 101;
    bytes(first, first + k % 11)
}

/// The range that lies as far from the largest offset as this one from byte 0.
fn mirrored(span: Span) -> Span
    requires { IsByteRange span }
    ensures { IsByteRange result }
{
    bytes(OFFMAX - span.last, OFFMAX - span.first)
}

/// Both bodies answer the same of the bytes near this one.
fn assert_same_near(rt: &impl Abort, list: &RangeList, changes: &ChangeList, end: u64)
    requires { end ≤ OFFMAX }
{
    for byte in end.saturating_sub(2)..=(end + 2).min(OFFMAX) {
        assert_mode_at(rt, list, byte, changes.mode_at(byte));
        assert_run_at(rt, list, byte, changes.run_at(byte));
        for against in [Mode::Read, Mode::Write] {
            let span = bytes(byte, (byte + 20).min(OFFMAX));
            let hit = changes.first_hit(span, against);
            assert_first_hit(rt, list, (span, against), hit);
        }
    }
}

/// The runs answer as the list of all changes does, near the ends of each set, at both ends of the largest file; both begin anew where
/// the list of all changes has grown long.
#[test]
fn answers_as_the_changes_do(rt: HostRuntime) -> Result<(), Memory> {
    let mut list = RangeList::new(rt.alloc());
    let mut changes = ChangeList::new(rt.alloc());
    for k in 0..2000 {
        if k % 250 == 0 {
            list = RangeList::new(rt.alloc());
            changes = ChangeList::new(rt.alloc());
        }
        let low = range_of_set(k);
        let span = if k % 2 == 0 { low } else { mirrored(low) };
        set(&rt, &mut list, span, mode_of_set(k))?;
        changes.set(span, mode_of_set(k))?;
        assert_same_near(&rt, &list, &changes, span.first);
        assert_same_near(&rt, &list, &changes, span.last);
    }
    Ok(())
}
