//! An index against a list of runs that is searched from its front.
use interval_index::{FirstInTheWay, Holder, Run, RunIndex};
use range_core::{Memory, Mode, Span};
use std::alloc::Global;
use std::fmt::Debug;
use std::mem::size_of;
use std::process::Abort;
use std::test::Fail;

/// Bytes that are locked. Owners of even numbers are of one class, and the others of the next.
fn run(owner: u64, first: u64, last: u64, mode: Mode) -> Run {
    let holder = holder(owner);
    Run {
        span: Span { first, last },
        number: holder.number,
        class: holder.class,
        mode,
    }
}

/// The owner of a number.
fn holder(owner: u64) -> Holder {
    Holder {
        class: if owner % 2 == 0 { 0 } else { 1 },
        number: owner,
    }
}

/// Puts a run into an index that may lack room.
fn put(rt: &impl Abort, index: &mut RunIndex, run: Run) -> Result<(), Memory> {
    index.reserve(1)?;
    assert!(rt; run.span.first <= run.span.last);
    index.put(run);
    Ok(())
}

/// Whether some run stands in the way.
fn conflicts(rt: &impl Abort, index: &RunIndex, owner: u64, span: Span, wanted: Mode) -> bool {
    assert!(rt; span.first <= span.last);
    index.is_blocked(holder(owner), span, wanted)
}

/// The two are the same.
fn same<T: PartialEq + Debug + Drop>(rt: &impl Abort, left: T, right: T) {
    assert_eq!(rt; left, right);
}

/// Two owners read, and a third one writes.
fn put_three(rt: &impl Abort, index: &mut RunIndex) -> Result<(), Memory> {
    put(rt, index, run(1, 0, 9, Mode::Read))?;
    put(rt, index, run(2, 5, 20, Mode::Read))?;
    put(rt, index, run(3, 30, 30, Mode::Write))
}

/// The bytes of the first reader, those behind the second one, and the writer's with the one before.
const FRONT: Span = Span { first: 0, last: 9 };

const GAP: Span = Span {
    first: 21,
    last: 29,
};

const LAST: Span = Span {
    first: 29,
    last: 30,
};

/// Owners, bytes and modes, and whether some run stands in the way.
const CONFLICTS: &[(u64, Span, Mode, bool)] = &[
    (1, FRONT, Mode::Read, false),
    (1, GAP, Mode::Write, false),
    (1, LAST, Mode::Read, true),
    (3, LAST, Mode::Write, false),
];

/// Each of these stands in the way of what it should.
fn stand_in_the_way(rt: &impl Abort, index: &RunIndex) {
    for (owner, span, wanted, due) in CONFLICTS {
        let found = conflicts(rt, index, *owner, *span, *wanted);
        same(rt, (*owner, *span, found), (*owner, *span, *due));
    }
    let first = index.first(holder(1), FRONT, Mode::Write);
    same(rt, first, Some(run(2, 5, 20, Mode::Read)));
    let first = index.first(holder(2), FRONT, Mode::Write);
    same(rt, first, Some(run(1, 0, 9, Mode::Read)));
}

/// Who writes the bytes from the one to the other has this first in the way.
fn is_told(rt: &impl Abort, index: &RunIndex, bytes: (u64, u64), due: FirstInTheWay) {
    let asked = run(5, bytes.0, bytes.1, Mode::Write);
    let first = first_in_the_way(rt, index, &asked);
    same(rt, (bytes, first), (bytes, Some(due)));
}

/// The owner blocks the byte, and the run is told, or none.
fn at(byte: u64, owner: u64, run: Option<Run>) -> FirstInTheWay {
    let holder = holder(owner);
    FirstInTheWay { byte, holder, run }
}

/// The run of the least owner is told, but for where another's begins before it.
fn runs_are_told(rt: &impl Abort, index: &RunIndex) {
    let [one, two] = [run(1, 0, 9, Mode::Read), run(2, 5, 20, Mode::Read)];
    let three = run(3, 30, 30, Mode::Write);
    is_told(rt, index, (0, 6), at(0, 1, Some(one)));
    is_told(rt, index, (6, 7), at(6, 2, None));
    is_told(rt, index, (15, 40), at(15, 2, Some(two)));
    is_told(rt, index, (21, 40), at(30, 3, Some(three)));
}

/// The writer goes, once.
fn writer_goes(rt: &impl Abort, index: &mut RunIndex) {
    let writer = run(3, 30, 30, Mode::Write);
    same(rt, index.take(30, holder(3)), Some(writer));
    same(rt, index.take(30, holder(3)), None);
    same(rt, conflicts(rt, index, 1, LAST, Mode::Read), false);
}

#[test]
fn two_readers_and_a_writer(rt: HostRuntime) -> Result<(), Fail> {
    let index = &mut RunIndex::new(rt.alloc());
    put_three(&rt, index)?;
    same(&rt, index.len(), 3);
    stand_in_the_way(&rt, index);
    runs_are_told(&rt, index);
    writer_goes(&rt, index);
    Ok(())
}

/// The next number of a sequence that looks random.
fn next(seed: u64) -> u64 {
    seed.wrapping_mul(6364136223846793005)
        .wrapping_add(1442695040888963407)
}

/// The run that a number spells.
fn spelled(seed: u64) -> Run {
    let first = (seed >> 33) % 200;
    let len = (seed >> 41) % 12;
    let mode = if (seed >> 45) % 3 == 0 {
        Mode::Write
    } else {
        Mode::Read
    };
    run((seed >> 50) % 5, first, first + len, mode)
}

/// Whether the run stands in the way of the wanted one.
fn blocks(run: &Run, wanted: &Run) -> bool {
    run.holder() != wanted.holder()
        && (run.mode == Mode::Write || wanted.mode == Mode::Write)
        && run.span.first <= wanted.span.last
        && wanted.span.first <= run.span.last
}

/// The run comes before the other, or stands at its place.
fn is_no_later(run: &Run, other: &Run) -> bool {
    (run.span.first, run.class, run.number) <= (other.span.first, other.class, other.number)
}

/// The first run of a list that stands in the way.
fn first_of(runs: &[Run], wanted: &Run) -> Option<Run> {
    let mut first: Option<Run> = None;
    for run in runs {
        if blocks(run, wanted) {
            first = match first {
                Some(known) if is_no_later(&known, run) => Some(known),
                _ => Some(*run),
            };
        }
    }
    first
}

/// The run, if it is the owner's.
fn run_of(run: Option<Run>, holder: Holder) -> Option<Run> {
    match run {
        Some(run) if run.holder() == holder => Some(run),
        _ => None,
    }
}

/// The least byte of the wanted range that a run of the list blocks, the least owner that blocks there, and the first run in the
/// way, if it is that owner's.
fn in_the_way(runs: &[Run], wanted: &Run) -> Option<FirstInTheWay> {
    let mut least: Option<(u64, u8, u64)> = None;
    for run in runs {
        if blocks(run, wanted) {
            let byte = run.span.first.max(wanted.span.first);
            let place = (byte, run.class, run.number);
            if least.is_none_or(|found| place < found) {
                least = Some(place);
            }
        }
    }
    let (byte, class, number) = least?;
    let holder = Holder { class, number };
    let run = run_of(first_of(runs, wanted), holder);
    Some(FirstInTheWay { byte, holder, run })
}

/// The same of the index.
fn first_in_the_way(rt: &impl Abort, index: &RunIndex, wanted: &Run) -> Option<FirstInTheWay> {
    assert!(rt; wanted.span.first <= wanted.span.last);
    index.first_in_the_way(wanted.holder(), wanted.span, wanted.mode)
}

/// How many runs of the index stand in the way, told one after another.
fn told(index: &RunIndex, wanted: &Run) -> u64 {
    let mut run = index.first(wanted.holder(), wanted.span, wanted.mode);
    let mut count: u64 = 0;
    for _ in 0..index.len() {
        let Some(last) = run else { break };
        count = count.saturating_add(1);
        run = index.next(&last, wanted.holder(), wanted.span, wanted.mode);
    }
    count
}

/// How many runs of the list do.
fn counted(runs: &[Run], wanted: &Run) -> u64 {
    let mut count: u64 = 0;
    for run in runs {
        if blocks(run, wanted) {
            count = count.saturating_add(1);
        }
    }
    count
}

/// The runs without the one of this key.
fn without(alloc: Global, runs: &[Run], first: u64, holder: Holder) -> Result<Vec<Run>, Memory> {
    let mut rest = Vec::new(alloc);
    for run in runs {
        if run.span.first != first || run.holder() != holder {
            rest.push(*run)?;
        }
    }
    Ok(rest)
}

/// The run comes into the index and into the list, or goes from both.
fn change(
    rt: &impl Abort,
    alloc: Global,
    index: &mut RunIndex,
    runs: &mut Vec<Run>,
    wanted: Run,
    comes: bool,
) -> Result<(), Memory> {
    *runs = without(alloc, runs, wanted.span.first, wanted.holder())?;
    if comes {
        put(rt, index, wanted)?;
        runs.push(wanted)?;
    } else {
        let _ = index.take(wanted.span.first, wanted.holder());
    }
    Ok(())
}

/// Both tell the same of what stands in the way of a run.
fn compare(rt: &impl Abort, index: &RunIndex, runs: &[Run], asked: &Run, step: u64) {
    let first = first_of(runs, asked);
    let told_first = index.first(asked.holder(), asked.span, asked.mode);
    same(rt, ("step", step, told_first), ("step", step, first));
    let is_blocked = conflicts(rt, index, asked.number, asked.span, asked.mode);
    same(
        rt,
        ("step", step, is_blocked),
        ("step", step, first.is_some()),
    );
    same(rt, told(index, asked), counted(runs, asked));
    let (least, due) = (first_in_the_way(rt, index, asked), in_the_way(runs, asked));
    same(rt, ("step", step, least), ("step", step, due));
    same(rt, index.len(), runs.len() as u64);
}

/// Runs that look random come and go.
fn come_and_go(
    rt: &impl Abort,
    alloc: Global,
    index: &mut RunIndex,
    runs: &mut Vec<Run>,
) -> Result<(), Memory> {
    let mut seed = 88172645463325252;
    for step in 0..3000u64 {
        seed = next(seed);
        change(rt, alloc, index, runs, spelled(seed), step % 1000 < 600)?;
        seed = next(seed);
        compare(rt, index, runs, &spelled(seed), step);
    }
    Ok(())
}

#[test]
fn as_a_list_does(rt: HostRuntime) -> Result<(), Fail> {
    let index = &mut RunIndex::new(rt.alloc());
    let runs = &mut Vec::new(rt.alloc());
    Ok(come_and_go(&rt, rt.alloc(), index, runs)?)
}

/// Owner n reads the bytes up to n. They come in an order that goes to and fro.
fn put_readers(rt: &impl Abort, index: &mut RunIndex) -> Result<(), Memory> {
    index.reserve(2000)?;
    for step in 0..2000u64 {
        let owner = step.wrapping_mul(7919) % 2000;
        put(rt, index, run(owner, 0, owner, Mode::Read))?;
    }
    Ok(())
}

/// In the way of the run is first this.
fn is_first(rt: &impl Abort, index: &RunIndex, asked: Run, due: Option<(u64, Holder)>) {
    let first = first_in_the_way(rt, index, &asked).map(|hit| (hit.byte, hit.holder));
    same(rt, (asked, first), (asked, due));
}

/// Who writes a byte has the owners from its number on in the way, and even ones come first.
fn even_ones_come_first(rt: &impl Abort, index: &RunIndex) {
    for byte in 0..1997u64 {
        let even = byte.wrapping_add(byte % 2);
        let (asked, own) = (
            run(5000, byte, byte, Mode::Write),
            run(even, byte, byte, Mode::Write),
        );
        is_first(rt, index, asked, Some((byte, holder(even))));
        let next = holder(even.wrapping_add(2));
        is_first(rt, index, own, Some((byte, next)));
    }
}

#[test]
fn the_least_of_many_readers(rt: HostRuntime) -> Result<(), Fail> {
    let index = &mut RunIndex::new(rt.alloc());
    put_readers(&rt, index)?;
    even_ones_come_first(&rt, index);
    let last = run(5000, 1999, 1999, Mode::Write);
    is_first(&rt, index, last, Some((1999, holder(1999))));
    is_first(&rt, index, run(1999, 1999, 1999, Mode::Write), None);
    is_first(&rt, index, run(5000, 0, 1999, Mode::Read), None);
    Ok(())
}

/// What a block of runs takes rests on this.
#[test]
fn a_run_takes_32_bytes(rt: HostRuntime) {
    same(&rt, size_of::<Run>(), 32);
}

/// In an order that goes to and fro: owner n has byte 3n, and the last one a read lock of all.
fn put_many(rt: &impl Abort, index: &mut RunIndex) -> Result<(), Memory> {
    for step in 0..19999u64 {
        let owner = step.wrapping_mul(7919) % 19999;
        let byte = owner.wrapping_mul(3);
        put(rt, index, run(owner, byte, byte, Mode::Write))?;
    }
    put(rt, index, run(19999, 1, 60000, Mode::Read))
}

/// An owner's byte and the next are kept from it by the last one alone, which only reads; and the owner is in the last one's way.
fn has_its_byte(rt: &impl Abort, index: &RunIndex, owner: u64) {
    let byte = owner.wrapping_mul(3);
    let span = Span {
        first: byte,
        last: byte.wrapping_add(1),
    };
    same(rt, conflicts(rt, index, owner, span, Mode::Read), false);
    same(rt, conflicts(rt, index, owner, span, Mode::Write), true);
    let first = index.first(holder(19999), span, Mode::Read);
    same(rt, first, Some(run(owner, byte, byte, Mode::Write)));
}

/// All owners but the last one have their bytes.
fn have_their_bytes(rt: &impl Abort, index: &RunIndex) {
    for owner in 0..19999u64 {
        has_its_byte(rt, index, owner);
    }
}

/// They go.
fn take_many(rt: &impl Abort, index: &mut RunIndex) {
    for owner in 0..19999u64 {
        let taken = index.take(owner.wrapping_mul(3), holder(owner));
        same(rt, (owner, taken.is_some()), (owner, true));
    }
}

#[test]
fn of_many_owners(rt: HostRuntime) -> Result<(), Fail> {
    let index = &mut RunIndex::new(rt.alloc());
    index.reserve(20000)?;
    same(&rt, index.room(), 20000);
    put_many(&rt, index)?;
    same(&rt, index.len(), 20000);
    have_their_bytes(&rt, index);
    take_many(&rt, index);
    same(&rt, index.len(), 1);
    Ok(())
}
