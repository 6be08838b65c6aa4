//! Which entries are a run, by [`check_journal`] and entry by entry.
ghost use Rattle.std.specs.Prelude.{◌≤◌};

use super::judged::{CASES, THIRD_UNLOCKS, WORKED};
use super::{Ask, RULES, Said, again, is_told, same};
use lock_manager::{ProcState, Reply};
use range_core::{Kind, Memory};
use session_core::{CheckFault, Entry, Expected, JournalChecker, Notes, check_journal};
use std::alloc::Global;
use std::process::Abort;
use std::test::Fail;

/// An entry, in short.
#[derive(Clone, Copy)]
pub(super) struct Line {
    pub(super) p: u8,
    pub(super) n: u64,
    pub(super) ask: Ask,
    pub(super) said: &'static [Said],
}

/// What was expected in place of an entry.
#[derive(Clone, Copy)]
pub(super) enum Expects {
    /// Each entry is legal.
    Nothing,
    /// These notes.
    Notes(&'static [Said]),
    /// The number behind this count.
    NumberAfter(u64),
    /// No entry of this process, which stands there.
    NoRequest(ProcState),
}

/// A journal, and how it is judged.
#[derive(Clone, Copy)]
pub(super) struct Case {
    /// What it shows.
    pub(super) name: &'static str,
    pub(super) processes: u8,
    /// So many of the first entries of the worked journal, and then these.
    pub(super) front: usize,
    pub(super) rest: &'static [Line],
    /// How many entries are legal in turn, and what was expected in place of the next one.
    pub(super) legal: usize,
    pub(super) expects: Expects,
}

fn entry(alloc: Global, line: &Line) -> Result<Entry, Memory> {
    let mut notes = Vec::new(alloc);
    for said in line.said {
        notes.push(said.note()).map_err(Memory::from)?;
    }
    Ok(Entry {
        p: line.p,
        n: line.n,
        request: line.ask.request(),
        notes: Notes::of(notes),
    })
}

/// The first entries of the worked journal, and then others.
fn journal(alloc: Global, front: usize, rest: &[Line]) -> Result<Vec<Entry>, Memory> {
    let mut entries = Vec::new(alloc);
    for line in WORKED.iter().take(front).chain(rest) {
        entries.push(entry(alloc, line)?).map_err(Memory::from)?;
    }
    Ok(entries)
}

/// Whether the entries are a run of so many processes.
fn is_run(rt: &impl Abort, alloc: Global, processes: u8, entries: &[Entry]) -> bool
    requires { (1 ≤ processes) × (processes ≤ 16) }
{
    match check_journal(alloc, processes, RULES, entries) {
        Ok(is_run) => is_run,
        Err(_) => again(rt, check_journal(alloc, processes, RULES, entries)),
    }
}

/// At the opening, with so many processes.
fn checker_of(rt: &impl Abort, alloc: Global, processes: u8) -> JournalChecker
    requires { (1 ≤ processes) × (processes ≤ 16) }
{
    match JournalChecker::new(alloc, processes, RULES) {
        Ok(checker) => checker,
        Err(_) => again(rt, JournalChecker::new(alloc, processes, RULES)),
    }
}

/// What the checker says of the next entry. A refused growth must leave all as it was.
fn next(rt: &impl Abort, checker: &mut JournalChecker, entry: &Entry) -> Result<(), CheckFault> {
    let answer = match checker.next(entry) {
        Err(CheckFault::Memory(_)) => checker.next(entry),
        first => first,
    };
    let is_refused = matches!(answer, Err(CheckFault::Memory(_)));
    same(rt, ("made again", is_refused), ("made again", false));
    answer
}

/// How many of the entries are accepted in turn before one is illegal.
fn accepted(rt: &impl Abort, checker: &mut JournalChecker, entries: &[Entry]) -> usize {
    for (place, entry) in entries.iter().enumerate() {
        if next(rt, checker, entry).is_err() {
            return place;
        }
    }
    entries.len()
}

/// Whether the checker expected that.
fn is_expected(checker: &JournalChecker, wanted: Expects) -> bool {
    match checker.expected() {
        Some(expected) => is_so_expected(expected, wanted),
        None => matches!(wanted, Expects::Nothing),
    }
}

/// Whether it is that.
fn is_so_expected(expected: &Expected, wanted: Expects) -> bool {
    match expected {
        Expected::Notes(notes) => match wanted {
            Expects::Notes(said) => is_told(notes.as_slice(), said),
            _ => false,
        },
        Expected::NumberAfter(taken) => match wanted {
            Expects::NumberAfter(count) => *taken == count,
            _ => false,
        },
        Expected::NoRequest(stands) => match wanted {
            Expects::NoRequest(state) => *stands == state,
            _ => false,
        },
    }
}

/// Whether a checker that found an illegal entry accepts none of the worked journal.
fn is_spent(rt: &impl Abort, alloc: Global, checker: &mut JournalChecker) -> Result<bool, Memory> {
    let worked = journal(alloc, 8, &[])?;
    Ok(accepted(rt, checker, &worked) == 0)
}

/// Whether the entries are judged so, and a checker that found an illegal one accepts nothing more, for the sake of that one.
fn is_judged(
    rt: &impl Abort,
    alloc: Global,
    checker: &mut JournalChecker,
    case: &Case,
    entries: &[Entry],
) -> Result<bool, Memory>
    requires { (1 ≤ case.now.processes) × (case.now.processes ≤ 16) }
{
    let all_legal = case.legal == entries.len();
    if is_run(rt, alloc, case.processes, entries) != all_legal {
        return Ok(false);
    }
    if accepted(rt, checker, entries) != case.legal || !is_expected(checker, case.expects) {
        return Ok(false);
    }
    Ok(all_legal || is_spent(rt, alloc, checker)? && is_expected(checker, case.expects))
}

/// The same, of the entries of the case.
fn is_case_judged(rt: &impl Abort, alloc: Global, case: &Case) -> Result<bool, Memory>
    requires { (1 ≤ case.now.processes) × (case.now.processes ≤ 16) }
{
    let entries = journal(alloc, case.front, case.rest)?;
    let mut checker = checker_of(rt, alloc, case.processes);
    is_judged(rt, alloc, &mut checker, case, &entries)
}

fn assert_judged(rt: &impl Abort, alloc: Global, case: &Case) -> Result<(), Memory> {
    assert!(rt; 1 <= case.processes && case.processes <= 16);
    let is_judged = is_case_judged(rt, alloc, case)?;
    same(rt, (case.name, is_judged), (case.name, true));
    Ok(())
}

#[test]
fn journals_are_judged(rt: HostRuntime) -> Result<(), Fail> {
    for case in CASES {
        assert_judged(&rt, rt.alloc(), case)?;
    }
    Ok(())
}

#[test]
fn each_front_of_a_worked_journal_is_a_run(rt: HostRuntime) -> Result<(), Fail> {
    for front in 0..=8 {
        let case = Case {
            name: "a front",
            processes: 3,
            front,
            rest: &[],
            legal: front,
            expects: Expects::Nothing,
        };
        assert_judged(&rt, rt.alloc(), &case)?;
    }
    Ok(())
}

/// Where a process stands, and how many of its requests were taken and answered.
#[derive(Clone, Copy)]
struct Seen {
    p: u8,
    state: ProcState,
    taken: u64,
    answered: u64,
}

/// Whether the checker tells that of each of these processes.
fn is_seen(checker: &JournalChecker, processes: &[Seen]) -> bool {
    processes.iter().all(|seen| {
        checker.manager().state_of(seen.p) == seen.state
            && checker.taken(seen.p) == seen.taken
            && checker.answered(seen.p) == seen.answered
    })
}

/// Before the unlock two of the three processes wait, and a fourth isn't there.
const BEFORE: &[Seen] = &[
    Seen {
        p: 0,
        state: ProcState::Unborn,
        taken: 0,
        answered: 0,
    },
    Seen {
        p: 1,
        state: ProcState::Waiting,
        taken: 4,
        answered: 3,
    },
    Seen {
        p: 2,
        state: ProcState::Waiting,
        taken: 2,
        answered: 1,
    },
    Seen {
        p: 3,
        state: ProcState::Live,
        taken: 1,
        answered: 1,
    },
    Seen {
        p: 4,
        state: ProcState::Unborn,
        taken: 0,
        answered: 0,
    },
];

/// Behind it each is answered.
const BEHIND: &[Seen] = &[
    Seen {
        p: 1,
        state: ProcState::Live,
        taken: 4,
        answered: 4,
    },
    Seen {
        p: 2,
        state: ProcState::Live,
        taken: 2,
        answered: 2,
    },
    Seen {
        p: 3,
        state: ProcState::Live,
        taken: 2,
        answered: 2,
    },
];

/// Whether the checker accepts so many entries of the worked journal, and these behind them, and tells that of the processes.
fn goes_on(
    rt: &impl Abort,
    alloc: Global,
    checker: &mut JournalChecker,
    front: usize,
    rest: &[Line],
    processes: &[Seen],
) -> Result<bool, Memory> {
    let entries = journal(alloc, front, rest)?;
    Ok(accepted(rt, checker, &entries) == entries.len() && is_seen(checker, processes))
}

/// Whether the checker tells so before the unlock, and behind it.
fn tells_both(
    rt: &impl Abort,
    alloc: Global,
    checker: &mut JournalChecker,
) -> Result<bool, Memory> {
    Ok(
        goes_on(rt, alloc, checker, 7, &[], BEFORE)?
            && goes_on(rt, alloc, checker, 0, &[THIRD_UNLOCKS], BEHIND)?,
    )
}

#[test]
fn a_checker_tells_the_state_and_the_counts(rt: HostRuntime) -> Result<(), Fail> {
    let mut checker = checker_of(&rt, rt.alloc(), 3);
    same(&rt, tells_both(&rt, rt.alloc(), &mut checker)?, true);
    Ok(())
}

/// The `n`-th entry of process 1, which locks and unlocks in turn.
fn locks_or_unlocks(alloc: Global, n: u64) -> Result<Entry, Memory> {
    let kind = if n % 2 == 0 {
        Kind::Write
    } else {
        Kind::Unlock
    };
    let done = Said::Answer(1, n, Reply::Ok);
    Ok(Entry {
        p: 1,
        n,
        request: Ask::Set(0, kind, 0, 10).request(),
        notes: Notes::of(Vec::from_slice(alloc, &[done.note()])?),
    })
}

/// Whether the checker accepts that entry.
fn accepts(
    rt: &impl Abort,
    alloc: Global,
    checker: &mut JournalChecker,
    n: u64,
) -> Result<bool, Memory> {
    let one = [locks_or_unlocks(alloc, n)?];
    Ok(accepted(rt, checker, &one) == 1)
}

/// Whether the checker accepts the first 3000 entries, and the last of them no second time.
fn accepts_often(
    rt: &impl Abort,
    alloc: Global,
    checker: &mut JournalChecker,
) -> Result<bool, Memory> {
    let open = journal(alloc, 1, &[])?;
    if accepted(rt, checker, &open) != 1 {
        return Ok(false);
    }
    for n in 2..=3000 {
        if !accepts(rt, alloc, checker, n)? {
            return Ok(false);
        }
    }
    Ok(!accepts(rt, alloc, checker, 3000)? && is_expected(checker, Expects::NumberAfter(3000)))
}

/// A checker keeps no entry, so a journal may be of any length: here each entry is dropped as soon as it was accepted.
#[test]
fn a_checker_accepts_entries_often(rt: HostRuntime) -> Result<(), Fail> {
    let mut checker = checker_of(&rt, rt.alloc(), 3);
    same(&rt, accepts_often(&rt, rt.alloc(), &mut checker)?, true);
    Ok(())
}
