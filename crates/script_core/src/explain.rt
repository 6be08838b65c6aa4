//! The lines that explain a run: behind each entry which wait ended and which locks went with it, and what was in its way.
ghost use Rattle.std.specs.Prelude.{◌≡◌, ◌≤◌, ◌∷◌, ◌++◌, ℕ, List, [], MatchResult, IfOk, codes, decimal, flat_map, OnOk, OnErr, length};
ghost use Rattle.fd_table.specs.Descriptors.{descriptor_limit, process_limit};
ghost use Rattle.lock_manager.specs.declared.request.ProcState.TheVariants.{Live};
ghost use Rattle.lock_manager.specs.State.{State, opening_state};
ghost use Rattle.lock_manager.specs.Settling.{IsSettled};
ghost use Rattle.lock_manager.specs.ManagerView.{StandsFor, rules_of, processes_of, state_at};
ghost use Rattle.wait_core.specs.Cycles.{IsTraditional};
ghost use Rattle.wait_core.specs.WaitsView.{wait_of};
ghost use Rattle.session_core.specs.Runs.{IsStep, Leads};
ghost use Rattle.script_core.specs.EntryText.{entry_line, tag};
ghost use Rattle.script_core.specs.Output.{Extends};
ghost use Rattle.script_core.specs.Files.{IsWithinFiles};
ghost use Rattle.script_core.specs.Deadlocks.{TellsCycleIfAny, first_step_text, next_step_text, step_text};
ghost use Rattle.script_core.specs.Explaining.{Explains, ExplainsRun, StandsInTheWay, IsCycleOf, comment, deadlock_line, ended_line, in_the_way_line, obstacle_line, loss_line, loss_lines, together_line, together_lines, lines_together};
ghost use Rattle.script_core.specs.Losses.{AreReleased, lost_of, closed_by as spec_closed_by};
ghost use Rattle.script_core.specs.Explaining as spec;

use crate::deadlock::{Link, cycle_of};
use crate::entry_text::push_entry;
use crate::losses::{closed_by, flock_before, has_flock, released};
use crate::pieces::{push_first_number, push_number, push_str};
use crate::report_text::{push_held, push_held_text, push_wait, push_wait_text};
use crate::states::{States, push_state_behind};
use fd_table::Limits;
use lock_book::{Held, Owner};
use lock_manager::{
    Errno, InTheWay, Manager, Note, Reply, Request, Rules, Visit, step_has_one_outcome,
};
use range_core::Memory;
use session_core::Entry;
use std::alloc::Global;
use wait_core::{Policy, Wait};

/// Appends the lines of a journal, which is a run of `processes` processes from the opening, and behind each what explains it: which
/// wait a kill ended, which locks went, what was the first in the way, which cycle a wait would have closed, and with whom a process is in
/// the section that it entered; and where it is asked for
/// the whole state that it left, or what it changed. The run is made again, step by step, which takes the memory of a lock manager, of the
/// locks that go with an entry, and of the lines of a state that is told, or of two whose difference is; for the end of a process and for a
/// cycle that of a report, and for a cycle also that of the waits and of a set of processes for each step.
/// After `Memory` the vector has its old bytes.
#[tactic(auto, using(crate::proofs::ExplainLemmas::cut_whole))]
pub fn write_explained(
    alloc: Global,
    processes: u8,
    rules: Rules,
    states: States,
    journal: &[Entry],
    out: &mut Vec<u8>,
) -> Result<(), Memory>
    requires processes { (1 ≤ processes) × (processes ≤ process_limit rules.limits) }
    requires run { (T : State) × Leads rules processes opening_state journal.now T }
    ensures ok { OnOk result ((T : State) → Leads rules processes opening_state journal.now T → (text : List ℕ)
        × ExplainsRun states rules processes 1 opening_state journal.now T text × (out.new.items ≡ out.old.items ++ text)) }
    ensures err { OnErr result (out.new.items ≡ out.old.items) }
{
    let len = out.len();
    if let Err(memory) = push_explained(alloc, processes, rules, states, journal, out) {
        out.truncate(len);
        return Err(memory);
    }
    Ok(())
}

/// Appends the lines of a journal, each with what explains it behind it, and the states that are asked for.
fn push_explained(
    alloc: Global,
    processes: u8,
    rules: Rules,
    states: States,
    journal: &[Entry],
    text: &mut Vec<u8>,
) -> Result<(), Memory>
    requires processes { (1 ≤ processes) × (processes ≤ process_limit rules.limits) }
    requires run { (T : State) × Leads rules processes opening_state journal.now T }
    ensures ok { OnOk result ((T : State) → Leads rules processes opening_state journal.now T → (more : List ℕ)
        × ExplainsRun states rules processes 1 opening_state journal.now T more × (text.new.items ≡ text.old.items ++ more)) }
    ensures err { OnErr result (Extends text.old.items text.new.items) }
{
    // A law, and nothing to run.
    step_has_one_outcome();
    let mut manager = Manager::new(alloc, processes, rules)?;
    let mut before = Vec::new(alloc);
    let mut number = 0;
    for entry in journal {
        number += 1;
        push_step(alloc, rules, text, &mut manager, entry)?;
        push_state_behind(number, states, text, &mut before, &manager, rules)?;
    }
    Ok(())
}

/// Makes the step of an entry again, and appends its line, with what explains it behind it.
fn push_step(
    alloc: Global,
    rules: Rules,
    text: &mut Vec<u8>,
    manager: &mut Manager,
    entry: &Entry,
) -> Result<(), Memory>
    requires live { state_at manager.old entry.now.p ≡ Live }
    requires rules { rules ≡ rules_of manager.old }
    ensures ok { OnOk result ((S T : State) → StandsFor manager.old S → IsWithinFiles S → IsSettled rules.policy S
        → IsStep (rules_of manager.old) (processes_of manager.old) S entry.now T → StandsFor manager.new T
        × (own : List ℕ) × Explains (rules_of manager.old) (processes_of manager.old) S entry.now T own
        × (text.new.items ≡ text.old.items ++ (entry_line entry.now ++ own))) }
    ensures rules { rules_of manager.new ≡ rules_of manager.old }
    ensures processes { processes_of manager.new ≡ processes_of manager.old }
    ensures err { OnErr result (Extends text.old.items text.new.items) }
{
    // A law, and nothing to run.
    step_has_one_outcome();
    push_entry(text, entry)?;
    push_ended(text, manager, entry)?;
    push_released(alloc, rules.limits, text, manager, entry)?;
    let flock = flock_before(manager, entry.p, entry.request);
    manager.take(entry.p, entry.n, entry.request)?;
    push_lost(text, manager, entry, flock)?;
    let obstacle = obstacle_of(manager, entry)?;
    push_obstacle(text, entry, obstacle)?;
    let links = deadlock_of(alloc, rules.policy, manager, entry)?;
    push_deadlock(text, entry, &links)?;
    push_together(text, manager, entry)
}

/// Appends a line for each lock that the entry's request releases.
fn push_released(
    alloc: Global,
    limits: Limits,
    text: &mut Vec<u8>,
    manager: &Manager,
    entry: &Entry,
) -> Result<(), Memory>
    ensures ok { OnOk result ((S : State) → StandsFor manager.now S → (locks : List Held)
        × AreReleased (processes_of manager.now) (descriptor_limit limits) S (spec_closed_by limits S entry.now.p entry.now.request) locks
        × (text.new.items ≡ text.old.items ++ loss_lines entry.now (codes "released ") locks)) }
    ensures kept { Extends text.old.items text.new.items }
{
    let closed = closed_by(manager, limits, entry.p, entry.request);
    let locks = released(alloc, manager, limits, closed)?;
    push_losses(text, entry, "released ", &locks)
}

/// Appends the line of the wait that the entry's request ends with its process, if it ends one.
fn push_ended(text: &mut Vec<u8>, manager: &Manager, entry: &Entry) -> Result<(), Memory>
    ensures ok { OnOk result ((S : State) → StandsFor manager.now S → text.new.items ≡ text.old.items ++ ended_line entry.now (spec.ended_wait S entry.now.request)) }
    ensures kept { Extends text.old.items text.new.items }
{
    match entry.request {
        Request::Kill { target } => push_ended_of(text, entry, &manager.waits()?, target),
        _ => Ok(()),
    }
}

/// Appends the line of the wait of this process, if it is among these.
fn push_ended_of(
    text: &mut Vec<u8>,
    entry: &Entry,
    waits: &[Wait],
    target: u8,
) -> Result<(), Memory>
    ensures ok { OnOk result (text.new.items ≡ text.old.items ++ ended_line entry.now (wait_of waits.now target)) }
    ensures kept { Extends text.old.items text.new.items }
{
    match wait_among(waits, target) {
        Some(wait) => push_ended_wait(text, entry, &wait),
        None => Ok(()),
    }
}

/// The wait of the process among these, where it has one.
fn wait_among(waits: &[Wait], p: u8) -> Option<Wait>
    ensures { result ≡ wait_of waits.now p }
{
    waits.iter().find(|wait| wait.p == p).copied()
}

/// Appends the line of a wait that ended with its process.
fn push_ended_wait(text: &mut Vec<u8>, entry: &Entry, wait: &Wait) -> Result<(), Memory>
    ensures { MatchResult result (λ unit. text.new.items ≡ text.old.items
        ++ comment entry.now.p entry.now.n (codes "ended the wait of " ++ tag wait.now.p wait.now.n ++ 10 ∷ []))
        (λ error. Extends text.old.items text.new.items) }
{
    push_comment(text, entry, "ended the wait of ")?;
    push_request_name(text, wait.p, wait.n)?;
    push_str(text, "\n")
}

/// What is in the way of the entry's request, once its step was made: none where it wasn't refused with EAGAIN and doesn't wait.
fn obstacle_of(manager: &Manager, entry: &Entry) -> Result<Option<InTheWay>, Memory>
    ensures { IfOk result (λ obstacle. (T : State) → StandsFor manager.now T → StandsInTheWay (rules_of manager.now) T entry.now obstacle) }
{
    if !is_stopped(entry.notes.as_slice()) {
        return Ok(None);
    }
    match manager.wanted(entry.p, entry.n, entry.request) {
        Some(wait) => manager.first_in_the_way(&wait),
        None => Ok(None),
    }
}

/// Whether the first of these notes, the caller's, says EAGAIN or that it waits.
fn is_stopped(notes: &[Note]) -> bool
    ensures { result ≡ spec.is_stopped notes.now }
{
    match notes {
        [Note::Answer { reply, .. }, ..] => is_again(*reply),
        [Note::Waits { .. }, ..] => true,
        [] => false,
    }
}

/// Whether a reply says that a lock was in the way.
fn is_again(reply: Reply) -> bool
    ensures { result ≡ spec.is_again reply }
{
    match reply {
        Reply::Err(Errno::EAGAIN) => true,
        Reply::Ok | Reply::Fd(_) | Reply::Free | Reply::Held { .. } | Reply::Err(_) => false,
    }
}

/// The steps of the cycle that the entry's request would have closed, by the report of the locks that it left: none where it wasn't
/// refused with EDEADLK.
fn deadlock_of(
    alloc: Global,
    policy: Policy,
    manager: &Manager,
    entry: &Entry,
) -> Result<Vec<Link>, Memory>
    ensures { IfOk result (λ links. (T : State) → StandsFor manager.now T → IsCycleOf policy T entry.now links.items) }
{
    if !is_deadlock(entry.notes.as_slice()) {
        return Ok(Vec::new(alloc));
    }
    let Some(wait) = manager.wanted(entry.p, entry.n, entry.request) else {
        return Ok(Vec::new(alloc));
    };
    cycle_of_traditional(alloc, policy, &manager.held()?, &manager.waits()?, &wait)
}

/// The steps of the cycle that a wait would close: none of one that isn't for a traditional lock.
fn cycle_of_traditional(
    alloc: Global,
    policy: Policy,
    report: &[Held],
    waits: &[Wait],
    wait: &Wait,
) -> Result<Vec<Link>, Memory>
    ensures { IfOk result (λ links. IsTraditional wait.now → TellsCycleIfAny policy report.now waits.now wait.now links.items) }
{
    if wait.owner == Owner::Process(wait.p) {
        cycle_of(alloc, policy, report, waits, wait)
    } else {
        Ok(Vec::new(alloc))
    }
}

/// Whether the first of these notes, the caller's, says EDEADLK.
fn is_deadlock(notes: &[Note]) -> bool
    ensures { result ≡ spec.is_deadlock notes.now }
{
    match notes {
        [Note::Answer { reply, .. }, ..] => is_edeadlk(*reply),
        [Note::Waits { .. }, ..] | [] => false,
    }
}

/// Whether a reply says that the wait would have closed a cycle.
fn is_edeadlk(reply: Reply) -> bool
    ensures { result ≡ spec.is_edeadlk reply }
{
    match reply {
        Reply::Err(Errno::EDEADLK) => true,
        Reply::Ok | Reply::Fd(_) | Reply::Free | Reply::Held { .. } | Reply::Err(_) => false,
    }
}

/// Appends the line of the cycle that these steps tell, if there are any.
fn push_deadlock(text: &mut Vec<u8>, entry: &Entry, links: &[Link]) -> Result<(), Memory>
    ensures { MatchResult result (λ unit. text.new.items ≡ text.old.items ++ deadlock_line entry.now links.now)
        (λ error. Extends text.old.items text.new.items) }
{
    match links {
        [first, rest @ ..] => push_cycle(text, entry, first, rest),
        [] => Ok(()),
    }
}

/// Appends the line of the cycle that the first step and those behind it tell.
fn push_cycle(text: &mut Vec<u8>, entry: &Entry, first: &Link, rest: &[Link]) -> Result<(), Memory>
    ensures { MatchResult result (λ unit. text.new.items ≡ text.old.items
        ++ comment entry.now.p entry.now.n (first_step_text first.now ++ flat_map next_step_text rest.now ++ 10 ∷ []))
        (λ error. Extends text.old.items text.new.items) }
{
    push_comment(text, entry, "would wait for ")?;
    push_first_number(text, u64::from(first.process))?;
    push_str(text, " (")?;
    push_step_text(text, &first.step)?;
    push_str(text, ")")?;
    push_next_steps(text, rest)?;
    push_str(text, "\n")
}

/// Appends the steps behind the first.
fn push_next_steps(text: &mut Vec<u8>, links: &[Link]) -> Result<(), Memory>
    ensures { MatchResult result (λ unit. text.new.items ≡ text.old.items ++ flat_map next_step_text links.now)
        (λ error. Extends text.old.items text.new.items) }
{
    for link in links {
        push_next_step(text, link)?;
    }
    Ok(())
}

/// Appends a step behind the first: the process, the request that waits for it, and what of it blocks that.
fn push_next_step(text: &mut Vec<u8>, link: &Link) -> Result<(), Memory>
    ensures { MatchResult result (λ unit. text.new.items ≡ text.old.items ++ next_step_text link.now) (λ error. Extends text.old.items text.new.items) }
{
    push_str(text, ", which waits for ")?;
    push_first_number(text, u64::from(link.process))?;
    push_str(text, " (")?;
    push_request_name(text, link.wait.p, link.wait.n)?;
    push_str(text, ", ")?;
    push_step_text(text, &link.step)?;
    push_str(text, ")")
}

/// Appends what makes a step, a lock or a wait, as the report says it.
fn push_step_text(text: &mut Vec<u8>, step: &InTheWay) -> Result<(), Memory>
    ensures { MatchResult result (λ unit. text.new.items ≡ text.old.items ++ step_text step.now) (λ error. Extends text.old.items text.new.items) }
{
    match step {
        InTheWay::Lock(held) => push_held_text(text, held),
        InTheWay::Wait(wait) => push_wait_text(text, wait),
    }
}

/// Appends a line for each process with which the entry's is in the section that it entered, and isn't meant to be.
fn push_together(text: &mut Vec<u8>, manager: &Manager, entry: &Entry) -> Result<(), Memory>
    ensures ok { OnOk result ((T : State) → StandsFor manager.now T
        → text.new.items ≡ text.old.items ++ lines_together (processes_of manager.now) entry.now T) }
    ensures kept { Extends text.old.items text.new.items }
{
    match entry.request {
        Request::Enter { section, visit } if is_done(entry.notes.as_slice()) => {
            push_all_together(text, manager, entry, section, visit)
        }
        _ => Ok(()),
    }
}

/// Appends a line for each process with which the entry's is in the section by this visit, and isn't meant to be.
fn push_all_together(
    text: &mut Vec<u8>,
    manager: &Manager,
    entry: &Entry,
    section: u8,
    visit: Visit,
) -> Result<(), Memory>
    ensures ok { OnOk result ((T : State) → StandsFor manager.now T
        → text.new.items ≡ text.old.items ++ together_lines entry.now T.visits section visit (processes_of manager.now)) }
    ensures kept { Extends text.old.items text.new.items }
{
    for index in 0..manager.processes() {
        let q = index + 1;
        if manager.is_together(entry.p, section, visit, q) {
            push_together_with(text, entry, section, q)?;
        }
    }
    Ok(())
}

/// Appends the line of another process that is in the section.
fn push_together_with(text: &mut Vec<u8>, entry: &Entry, section: u8, q: u8) -> Result<(), Memory>
    ensures { MatchResult result (λ unit. text.new.items ≡ text.old.items ++ together_line entry.now section q) (λ error. Extends text.old.items text.new.items) }
{
    push_comment(text, entry, "together with ")?;
    push_first_number(text, u64::from(q))?;
    push_str(text, " in ")?;
    push_first_number(text, u64::from(section))?;
    push_str(text, "\n")
}

/// Whether the first of these notes, the caller's, says Ok.
fn is_done(notes: &[Note]) -> bool
    ensures { result ≡ spec.is_done notes.now }
{
    matches!(
        notes,
        [
            Note::Answer {
                reply: Reply::Ok,
                ..
            },
            ..
        ]
    )
}

/// Appends the line of what is in the way, if anything is.
fn push_obstacle(
    text: &mut Vec<u8>,
    entry: &Entry,
    obstacle: Option<InTheWay>,
) -> Result<(), Memory>
    ensures { MatchResult result (λ unit. text.new.items ≡ text.old.items
        ++ obstacle_line entry.now obstacle) (λ error. Extends text.old.items text.new.items) }
{
    match obstacle {
        Some(obstacle) => push_in_the_way(text, entry, obstacle),
        None => Ok(()),
    }
}

/// Appends the line of what is in the way.
fn push_in_the_way(text: &mut Vec<u8>, entry: &Entry, obstacle: InTheWay) -> Result<(), Memory>
    ensures { MatchResult result (λ unit. text.new.items ≡ text.old.items ++ comment entry.now.p entry.now.n (in_the_way_line obstacle))
        (λ error. Extends text.old.items text.new.items) }
{
    match obstacle {
        InTheWay::Lock(held) => {
            push_comment(text, entry, "blocked by ")?;
            push_held(text, &held)
        }
        InTheWay::Wait(wait) => {
            push_comment(text, entry, "behind ")?;
            push_wait(text, &wait)
        }
    }
}

/// Appends a line with this word for each of the locks, which went with the entry.
fn push_losses(text: &mut Vec<u8>, entry: &Entry, word: &str, locks: &[Held]) -> Result<(), Memory>
    ensures { MatchResult result (λ unit. text.new.items ≡ text.old.items ++ loss_lines entry.now word.now locks.now)
        (λ error. Extends text.old.items text.new.items) }
{
    for held in locks {
        push_loss(text, entry, word, held)?;
    }
    Ok(())
}

/// Appends the line of a lock that went with the entry, with this word.
fn push_loss(text: &mut Vec<u8>, entry: &Entry, word: &str, held: &Held) -> Result<(), Memory>
    ensures { MatchResult result (λ unit. text.new.items ≡ text.old.items ++ loss_line entry.now word.now held.now)
        (λ error. Extends text.old.items text.new.items) }
{
    push_comment(text, entry, word)?;
    push_held(text, held)
}

/// Appends the line of the flock lock that there was before the entry, where its owner has none now.
fn push_lost(
    text: &mut Vec<u8>,
    manager: &Manager,
    entry: &Entry,
    before: Option<Held>,
) -> Result<(), Memory>
    ensures ok { OnOk result ((T : State) → StandsFor manager.now T
        → text.new.items ≡ text.old.items ++ loss_lines entry.now (codes "lost ") (lost_of T before)) }
    ensures kept { Extends text.old.items text.new.items }
{
    let Some(held) = before else {
        return Ok(());
    };
    if has_flock(manager, held.file, held.owner) {
        return Ok(());
    }
    push_loss(text, entry, "lost ", &held)
}

/// Appends the beginning of a line that explains a request: `#`, the request, and these words.
fn push_comment(text: &mut Vec<u8>, entry: &Entry, words: &str) -> Result<(), Memory>
    ensures { MatchResult result (λ unit. text.new.items ≡ text.old.items
        ++ comment entry.now.p entry.now.n words.now) (λ error. Extends text.old.items text.new.items) }
{
    push_tag(text, entry.p, entry.n)?;
    push_str(text, " ")?;
    push_str(text, words)
}

/// Appends `#`, a space and the process and the number of a request.
pub fn push_tag(text: &mut Vec<u8>, p: u8, n: u64) -> Result<(), Memory>
    ensures { MatchResult result (λ unit. text.new.items ≡ text.old.items ++ (codes "# " ++ tag p n)) (λ error. Extends text.old.items text.new.items) }
{
    push_str(text, "# ")?;
    push_request_name(text, p, n)
}

/// Appends the process and the number of a request.
fn push_request_name(text: &mut Vec<u8>, p: u8, n: u64) -> Result<(), Memory>
    ensures { MatchResult result (λ unit. text.new.items ≡ text.old.items ++ tag p n) (λ error. Extends text.old.items text.new.items) }
{
    push_first_number(text, u64::from(p))?;
    push_number(text, b'#', n)
}
