//! Runs against a plain list of the modes of bytes.
use owner_runs::OwnerRuns;
use range_core::{Memory, Mode, OFFMAX, Span};
use std::alloc::Global;
use std::process::Abort;
use std::test::Fail;

/// How many bytes the plain list has.
const BYTES: u64 = 600;

/// [`OwnerRuns::set`] of bytes that a file has.
fn set(
    rt: &impl Abort,
    runs: &mut OwnerRuns,
    span: Span,
    mode: Option<Mode>,
) -> Result<(), Memory> {
    assert!(rt; span.first <= span.last && span.last <= OFFMAX);
    runs.set(span, mode)
}

/// The first byte of the span that conflicts.
fn first_hit(rt: &impl Abort, runs: &OwnerRuns, span: Span, against: Mode) -> Option<u64> {
    assert!(rt; span.first <= span.last && span.last <= OFFMAX);
    runs.first_hit(span, against)
}

/// How many runs share a byte with the span or lie right beside it.
fn touching(rt: &impl Abort, runs: &OwnerRuns, span: Span) -> usize {
    assert!(rt; span.first <= span.last && span.last <= OFFMAX);
    let mut count: usize = 0;
    for _ in runs.touching(span) {
        count = count.wrapping_add(1);
    }
    count
}

/// The bytes of a range by its first and its last one.
fn bytes(first: u64, last: u64) -> Span {
    Span { first, last }
}

/// The next number of a sequence that looks random.
fn next(seed: u64) -> u64 {
    seed.wrapping_mul(6364136223846793005)
        .wrapping_add(1442695040888963407)
}

/// The span that a number spells, within the plain list and mostly short.
fn spelled(seed: u64) -> Span {
    let first = (seed >> 33) % BYTES;
    let len = if (seed >> 43) % 50 == 0 {
        (seed >> 50) % BYTES
    } else {
        (seed >> 50) % 4
    };
    bytes(first, first.saturating_add(len).min(BYTES - 1))
}

/// The mode that a number spells; an unlock one time in so many.
fn spelled_mode(seed: u64, unlocks: u64) -> Option<Mode> {
    if (seed >> 40) % unlocks.max(1) == 0 {
        return None;
    }
    if (seed >> 44) % 2 == 0 {
        Some(Mode::Read)
    } else {
        Some(Mode::Write)
    }
}

/// No mode on any byte.
fn plain(alloc: Global) -> Result<Vec<Option<Mode>>, Fail> {
    let mut modes = Vec::new(alloc);
    for _ in 0..BYTES {
        modes.push(None)?;
    }
    Ok(modes)
}

/// Sets the mode of the bytes of a plain list.
fn set_plain(modes: &mut [Option<Mode>], span: Span, mode: Option<Mode>) {
    for (byte, held) in modes.iter_mut().enumerate() {
        if span.first <= byte as u64 && byte as u64 <= span.last {
            *held = mode;
        }
    }
}

/// The first byte of the span whose mode in the plain list conflicts.
fn first_hit_plain(modes: &[Option<Mode>], span: Span, against: Mode) -> Option<u64> {
    for (byte, held) in modes.iter().enumerate() {
        let byte = byte as u64;
        if span.first <= byte && byte <= span.last {
            if let Some(held) = held {
                if *held == Mode::Write || against == Mode::Write {
                    return Some(byte);
                }
            }
        }
    }
    None
}

/// The runs of the plain list.
fn all_runs_plain(alloc: Global, modes: &[Option<Mode>]) -> Result<Vec<(Mode, Span)>, Fail> {
    let mut runs: Vec<(Mode, Span)> = Vec::new(alloc);
    let mut open: Option<(Mode, Span)> = None;
    for (byte, held) in modes.iter().enumerate() {
        let byte = byte as u64;
        open = match (open, held) {
            (Some((mode, run)), Some(held)) if mode == *held => Some((
                mode,
                bytes(run.first, byte),
            )),
            (ended, held) => {
                if let Some(run) = ended {
                    runs.push(run)?;
                }
                match held {
                    Some(held) => Some((*held, bytes(byte, byte))),
                    None => None,
                }
            }
        };
    }
    if let Some(run) = open {
        runs.push(run)?;
    }
    Ok(runs)
}

/// Those of them that share a byte with the span or lie right beside it.
fn runs_plain(
    alloc: Global,
    modes: &[Option<Mode>],
    span: Span,
) -> Result<Vec<(Mode, Span)>, Fail> {
    let mut touching = Vec::new(alloc);
    for run in &all_runs_plain(alloc, modes)? {
        if run.1.first <= span.last.saturating_add(1)
            && span.first <= run.1.last.saturating_add(1)
        {
            touching.push(*run)?;
        }
    }
    Ok(touching)
}

/// The runs that an owner has.
fn listed(alloc: Global, runs: &OwnerRuns) -> Result<Vec<(Mode, Span)>, Fail> {
    let mut list = Vec::new(alloc);
    for run in runs.runs() {
        list.push(run)?;
    }
    Ok(list)
}

/// Those of them that touch the span.
fn listed_touching(
    rt: &impl Abort,
    alloc: Global,
    runs: &OwnerRuns,
    span: Span,
) -> Result<Vec<(Mode, Span)>, Fail> {
    assert!(rt; span.first <= span.last && span.last <= OFFMAX);
    let mut list = Vec::new(alloc);
    for run in runs.touching(span) {
        list.push(run)?;
    }
    Ok(list)
}

/// The runs have on each byte the mode that the plain list has.
fn assert_modes(rt: &impl Abort, runs: &OwnerRuns, modes: &[Option<Mode>]) {
    for (byte, held) in modes.iter().enumerate() {
        assert_eq!(rt; runs.mode_at(byte as u64), *held, "the mode at {byte}");
    }
}

/// What the runs tell of a span is what the plain list tells.
fn assert_asked(
    rt: &impl Abort,
    alloc: Global,
    runs: &OwnerRuns,
    modes: &[Option<Mode>],
    span: Span,
) -> Result<(), Fail> {
    for against in [Mode::Read, Mode::Write] {
        let hit = first_hit(rt, runs, span, against);
        assert_eq!(rt; hit, first_hit_plain(modes, span, against), "in {span:?}");
    }
    let touching = listed_touching(rt, alloc, runs, span)?;
    assert_eq!(rt; touching, runs_plain(alloc, modes, span)?, "at {span:?}");
    Ok(())
}

/// The runs are those of the plain list.
fn assert_runs(
    rt: &impl Abort,
    alloc: Global,
    runs: &OwnerRuns,
    modes: &[Option<Mode>],
) -> Result<(), Fail> {
    let all = all_runs_plain(alloc, modes)?;
    assert_eq!(rt; listed(alloc, runs)?, all);
    assert_eq!(rt; runs.len(), all.len());
    assert_modes(rt, runs, modes);
    Ok(())
}

/// Random sets of short spans make some hundred runs, so the list becomes a tree; then unlocks make few again.
#[test]
fn as_bytes_do(rt: HostRuntime) -> Result<(), Fail> {
    let mut runs = OwnerRuns::new(rt.alloc());
    let mut modes = plain(rt.alloc())?;
    let mut seed = 88172645463325252;
    for step in 0..3000u64 {
        seed = next(seed);
        let span = spelled(seed);
        let mode = spelled_mode(next(seed), if step % 1000 < 700 { 4 } else { 1 });
        set(&rt, &mut runs, span, mode)?;
        set_plain(&mut modes, span, mode);
        seed = next(seed);
        assert_asked(&rt, rt.alloc(), &runs, &modes, spelled(seed))?;
        if step % 20 == 0 {
            assert_runs(&rt, rt.alloc(), &runs, &modes)?;
        }
    }
    runs.clear();
    assert!(rt; runs.is_empty());
    Ok(())
}

/// Read locks on so many single bytes, each fourth.
fn fill(
    rt: &impl Abort,
    runs: &mut OwnerRuns,
    modes: &mut [Option<Mode>],
    count: u64,
) -> Result<(), Memory> {
    for place in 0..count {
        let byte = place.saturating_mul(4);
        set(rt, runs, bytes(byte, byte), Some(Mode::Read))?;
        set_plain(modes, bytes(byte, byte), Some(Mode::Read));
    }
    Ok(())
}

/// A set in room that was held, which uses some up.
fn set_held(rt: &impl Abort, runs: &mut OwnerRuns, span: Span, mode: Option<Mode>) {
    assert!(rt; span.first <= span.last && span.last <= OFFMAX);
    let room = runs.room();
    assert!(rt; room > 0);
    runs.set_reserved(span, mode);
    assert!(rt; runs.room() < room);
}

/// Room for 300 sets is held, and then used up by as many.
fn use_held_room(
    rt: &impl Abort,
    runs: &mut OwnerRuns,
    modes: &mut [Option<Mode>],
) -> Result<(), Memory> {
    runs.reserve(300)?;
    assert_eq!(rt; runs.room(), 300);
    let mut seed = 12;
    for _ in 0..300 {
        seed = next(seed);
        let span = spelled(seed);
        let mode = spelled_mode(next(seed), 3);
        set_held(rt, runs, span, mode);
        set_plain(modes, span, mode);
    }
    assert_eq!(rt; runs.room(), 0);
    Ok(())
}

/// Sets in room that was held are made while the list is one and when it is a tree, and use the room up.
#[test]
fn sets_in_room_that_was_held(rt: HostRuntime) -> Result<(), Fail> {
    for before in [0u64, 50, 100] {
        let mut runs = OwnerRuns::new(rt.alloc());
        let mut modes = plain(rt.alloc())?;
        fill(&rt, &mut runs, &mut modes, before)?;
        use_held_room(&rt, &mut runs, &mut modes)?;
        assert_modes(&rt, &runs, &modes);
    }
    Ok(())
}

/// Each second byte of the first 20,000, in an order that goes to and fro.
fn to_and_fro(step: u64) -> u64 {
    (step.wrapping_mul(7919) % 10000).wrapping_mul(2)
}

/// The byte is a run of its own, read by its owner; one of another owner that wants to write beside it meets the next one.
fn assert_one_of_many(rt: &impl Abort, runs: &OwnerRuns, byte: u64) {
    assert_eq!(rt; runs.run_at(byte), Some((Mode::Read, bytes(byte, byte))));
    let beside = touching(rt, runs, bytes(byte, byte.wrapping_add(1)));
    assert_eq!(rt; beside, if byte == 19998 { 1 } else { 2 });
    let hit = first_hit(rt, runs, bytes(byte, OFFMAX), Mode::Read);
    assert_eq!(rt; hit, None);
}

/// An unlock of the byte, and a lock again.
fn change(rt: &impl Abort, runs: &mut OwnerRuns, byte: u64) -> Result<(), Memory> {
    set(rt, runs, bytes(byte, byte), None)?;
    set(rt, runs, bytes(byte, byte), Some(Mode::Read))
}

/// Ten thousand runs, put in by an order that goes to and fro, and changed in the middle: each call goes down one path.
#[test]
fn of_many_runs(rt: HostRuntime) -> Result<(), Fail> {
    let mut runs = OwnerRuns::new(rt.alloc());
    for step in 0..10000u64 {
        change(&rt, &mut runs, to_and_fro(step))?;
    }
    assert_eq!(rt; runs.len(), 10000);
    for step in 0..10000u64 {
        assert_one_of_many(&rt, &runs, to_and_fro(step));
        change(&rt, &mut runs, to_and_fro(step))?;
    }
    set(&rt, &mut runs, bytes(15000, 15000), Some(Mode::Write))?;
    let hit = first_hit(&rt, &runs, Span::WHOLE_FILE, Mode::Read);
    assert_eq!(rt; hit, Some(15000));
    set(&rt, &mut runs, bytes(1, 19997), None)?;
    assert_eq!(rt; runs.len(), 2);
    Ok(())
}

/// A set, behind which the runs reach from where to where they should.
fn reaches(
    rt: &impl Abort,
    runs: &mut OwnerRuns,
    span: Span,
    mode: Option<Mode>,
    wanted: Option<Span>,
) -> Result<(), Memory> {
    set(rt, runs, span, mode)?;
    assert_eq!(rt; runs.extent(), wanted);
    Ok(())
}

/// One set after another: its span, its mode, and from where to where the runs then reach.
fn each_reaches(
    rt: &impl Abort,
    runs: &mut OwnerRuns,
    sets: &[(Span, Option<Mode>, Option<Span>)],
) -> Result<(), Memory> {
    for (span, mode, wanted) in sets {
        reaches(rt, runs, *span, *mode, *wanted)?;
    }
    Ok(())
}

/// A list reaches from the first byte of its first run to the last byte of its last one, as sets add bytes at its ends and unlocks cut
/// them off.
#[test]
fn from_where_to_where_a_list_reaches(rt: HostRuntime) -> Result<(), Fail> {
    let mut runs = OwnerRuns::new(rt.alloc());
    let all = Span::WHOLE_FILE;
    let (read, write) = (Some(Mode::Read), Some(Mode::Write));
    each_reaches(
        &rt,
        &mut runs,
        &[
            (all, None, None),
            (bytes(20, 29), read, Some(bytes(20, 29))),
            (bytes(5, 9), write, Some(bytes(5, 29))),
            (bytes(25, OFFMAX), None, Some(bytes(5, 24))),
            (bytes(0, 7), None, Some(bytes(8, 24))),
            (bytes(0, 9), None, Some(bytes(20, 24))),
            (all, write, Some(all)),
            (all, None, None),
        ],
    )?;
    Ok(())
}

/// A hundred runs of two bytes, which begin at bytes 7, 17 and so on up to 997.
fn put_a_hundred(rt: &impl Abort, runs: &mut OwnerRuns) -> Result<(), Memory> {
    for place in 0..100u64 {
        let first = place.saturating_mul(10).saturating_add(7);
        let last = first.saturating_add(1);
        let wanted = Some(bytes(7, last));
        reaches(rt, runs, bytes(first, last), Some(Mode::Read), wanted)?;
    }
    Ok(())
}

/// So does a tree.
#[test]
fn from_where_to_where_a_tree_reaches(rt: HostRuntime) -> Result<(), Fail> {
    let mut runs = OwnerRuns::new(rt.alloc());
    put_a_hundred(&rt, &mut runs)?;
    each_reaches(
        &rt,
        &mut runs,
        &[
            (bytes(0, 7), None, Some(bytes(8, 998))),
            (bytes(998, OFFMAX), None, Some(bytes(8, 997))),
            (bytes(0, 16), None, Some(bytes(17, 997))),
            (bytes(18, OFFMAX), None, Some(bytes(17, 17))),
            (bytes(17, 17), None, None),
        ],
    )?;
    Ok(())
}

/// One run alone grows by what touches it, is cut at its ends, goes for a longer one, and is split at last.
#[test]
fn one_run_alone(rt: HostRuntime) -> Result<(), Fail> {
    let mut runs = OwnerRuns::new(rt.alloc());
    let (read, write) = (Some(Mode::Read), Some(Mode::Write));
    each_reaches(
        &rt,
        &mut runs,
        &[
            (bytes(10, 19), read, Some(bytes(10, 19))),
            (bytes(20, 24), read, Some(bytes(10, 24))),
            (bytes(5, 9), read, Some(bytes(5, 24))),
            (bytes(0, 5), None, Some(bytes(6, 24))),
            (bytes(24, 30), None, Some(bytes(6, 23))),
            (bytes(40, 50), None, Some(bytes(6, 23))),
            (bytes(0, 40), write, Some(bytes(0, 40))),
        ],
    )?;
    assert_eq!(rt; runs.len(), 1);
    assert_eq!(rt; runs.run_at(0), Some((Mode::Write, bytes(0, 40))));
    set(&rt, &mut runs, bytes(10, 10), None)?;
    assert_eq!(rt; runs.len(), 2);
    assert_eq!(rt; runs.run_at(11), Some((Mode::Write, bytes(11, 40))));
    Ok(())
}

/// Room for one set, held where there is no run, makes one run.
#[test]
fn one_run_in_room_that_was_held(rt: HostRuntime) -> Result<(), Fail> {
    let mut runs = OwnerRuns::new(rt.alloc());
    runs.reserve(1)?;
    assert_eq!(rt; runs.room(), 1);
    set_held(&rt, &mut runs, bytes(3, 4), Some(Mode::Write));
    assert_eq!(rt; runs.run_at(4), Some((Mode::Write, bytes(3, 4))));
    runs.clear();
    assert!(rt; runs.is_empty());
    Ok(())
}
