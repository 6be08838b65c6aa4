//! Entries and reports behind the text that there is, or the text as it was.
ghost use Rattle.std.specs.Prelude.{◌≡◌, ℕ, ◌≤◌, List, ◌++◌, MatchResult, OnOk, OnErr, length, flat_map};
ghost use Rattle.lock_manager.specs.State.{State};
ghost use Rattle.lock_manager.specs.ManagerView.{StandsFor, processes_of, state_at};
ghost use Rattle.session_core.specs.Event.{Event};
ghost use Rattle.session_core.specs.SequencerView.{manager_in, HasTold};
ghost use Rattle.script_core.specs.Reading.{IsReadBack};
ghost use Rattle.script_core.specs.EntryText.{entry_line};
ghost use Rattle.script_core.specs.EntryReading.{IsEntryReadBack};
ghost use Rattle.script_core.specs.ReportText.{held_line, wait_line, reported_line, process_lines, AreCounts, IsReportOf, WritesReport};
ghost use Rattle.script_core.specs.ReportText as spec;
ghost use Rattle.script_core.specs.Output.{AppendsPartOf, Extends};

use crate::entry_text::push_entry;
use crate::report_text::{ProcessLine, push_held, push_process, push_wait};
use lock_book::Held;
use lock_manager::ProcState;
use range_core::Memory;
use session_core::{Entry, Sequencer};
use wait_core::Wait;

/// Appends the line of an entry. After `Memory` the vector has its old bytes and a front of the text.
#[tactic(auto, using(crate::proofs::RoundTripLemmas::reads_back, crate::proofs::EntryRoundTripLemmas::entry_reads_back))]
pub fn write_entry(entry: &Entry, out: &mut Vec<u8>) -> Result<(), Memory>
    ensures ok { OnOk result (out.new.items ≡ out.old.items ++ entry_line entry.now) }
    ensures err { OnErr result (AppendsPartOf out.old.items out.new.items (entry_line entry.now)) }

    // What is written of a request is what a script writes: behind its process it is a line that is read as this arrival,
    // in each script whose limits have its numbers.
    ensures read_back { IsReadBack entry.now.p entry.now.request }

    // The line of an entry with at most 64 notes is read back as this entry, under all limits that have its numbers.
    ensures entry_read_back { IsEntryReadBack entry.now }
{
    let len = out.len();
    if let Err(memory) = push_entry(out, entry) {
        out.truncate(len);
        return Err(memory);
    }
    Ok(())
}

/// Appends the report of what a sequencer ran: the locks that are held, then the requests that wait, and then each process that was
/// ever alive or has sent something, with what it sent by the counts in `sent`, one for each process from process 1 on. After
/// `Memory` the vector has its old bytes and a front of the text.
pub fn write_report(sequencer: &Sequencer, sent: &[u64], out: &mut Vec<u8>) -> Result<(), Memory>
    requires { length sent.now ≡ processes_of (manager_in sequencer.now) }

    // One text is the report of whatever state the manager stands for, behind the journal that was told.
    ensures ok { OnOk result ((journal : List Event) → HasTold sequencer.now journal → (text : List ℕ)
        × ((S : State) → StandsFor (manager_in sequencer.now) S → IsReportOf sequencer.now journal sent.now S text)
        × (out.new.items ≡ out.old.items ++ text)) }
    ensures err { OnErr result ((journal : List Event) → HasTold sequencer.now journal → (S : State) → StandsFor (manager_in sequencer.now) S
        → (text : List ℕ) → IsReportOf sequencer.now journal sent.now S text → AppendsPartOf out.old.items out.new.items text) }
{
    let locks = sequencer.manager().held()?;
    let waits = sequencer.manager().waits()?;
    append_report(out, sequencer, sent, &locks, &waits)
}

/// Appends those lines, or leaves the text as it was.
fn append_report(
    text: &mut Vec<u8>,
    sequencer: &Sequencer,
    sent: &[u64],
    locks: &[Held],
    waits: &[Wait],
) -> Result<(), Memory>
    requires { length sent.now ≡ processes_of (manager_in sequencer.now) }
    ensures ok { OnOk result (WritesReport sequencer.now sent.now locks.now waits.now text.old.items text.new.items) }
    ensures err { OnErr result (text.new.items ≡ text.old.items) }
{
    let len = text.len();
    if let Err(memory) = push_report(text, sequencer, sent, locks, waits) {
        text.truncate(len);
        return Err(memory);
    }
    Ok(())
}

/// Appends the lines of the locks that are held, of the requests that wait and of the processes.
fn push_report(
    text: &mut Vec<u8>,
    sequencer: &Sequencer,
    sent: &[u64],
    locks: &[Held],
    waits: &[Wait],
) -> Result<(), Memory>
    requires { length sent.now ≡ processes_of (manager_in sequencer.now) }
    ensures { MatchResult result (λ unit. WritesReport sequencer.now sent.now locks.now waits.now text.old.items text.new.items)
        (λ error. Extends text.old.items text.new.items) }
{
    push_locks(text, locks)?;
    push_waits(text, waits)?;
    push_processes(text, sequencer, sent)
}

/// Appends a line for each lock that is held.
fn push_locks(text: &mut Vec<u8>, locks: &[Held]) -> Result<(), Memory>
    ensures { MatchResult result (λ unit. text.new.items ≡ text.old.items ++ flat_map held_line locks.now) (λ error. Extends text.old.items text.new.items) }
{
    for held in locks {
        push_held(text, held)?;
    }
    Ok(())
}

/// Appends a line for each request that waits.
fn push_waits(text: &mut Vec<u8>, waits: &[Wait]) -> Result<(), Memory>
    ensures { MatchResult result (λ unit. text.new.items ≡ text.old.items ++ flat_map wait_line waits.now) (λ error. Extends text.old.items text.new.items) }
{
    for wait in waits {
        push_wait(text, wait)?;
    }
    Ok(())
}

/// Appends a line for each process that was ever alive or has sent something.
fn push_processes(text: &mut Vec<u8>, sequencer: &Sequencer, sent: &[u64]) -> Result<(), Memory>
    requires { length sent.now ≡ processes_of (manager_in sequencer.now) }
    ensures { MatchResult result (λ unit. (journal : List Event) (counts : ℕ → ℕ) → HasTold sequencer.now journal → AreCounts sent.now counts
        → text.new.items ≡ text.old.items ++ process_lines (state_at (manager_in sequencer.now)) journal counts 1 (processes_of (manager_in sequencer.now)))
        (λ error. Extends text.old.items text.new.items) }
{
    for index in 0..sequencer.manager().processes() {
        let line = line_of(sequencer, index + 1, sent[usize::from(index)]);
        push_reported(text, &line)?;
    }
    Ok(())
}

/// What there is to tell of a process that sent so much.
pub fn line_of(sequencer: &Sequencer, p: u8, sent: u64) -> ProcessLine
    requires { (1 ≤ p) × (p ≤ processes_of (manager_in sequencer.now)) }
    ensures { (journal : List Event) → HasTold sequencer.now journal → result ≡ spec.line_of (state_at (manager_in sequencer.now)) journal (λ q. sent) p }
{
    ProcessLine {
        p,
        sent,
        taken: sequencer.taken(p),
        answered: sequencer.answered(p),
        state: sequencer.manager().state_of(p),
    }
}

/// Appends the line of a process, where the report has one.
fn push_reported(text: &mut Vec<u8>, line: &ProcessLine) -> Result<(), Memory>
    ensures { MatchResult result (λ unit. text.new.items ≡ text.old.items ++ reported_line line.now) (λ error. Extends text.old.items text.new.items) }
{
    if is_reported(line) {
        push_process(text, line)
    } else {
        Ok(())
    }
}

/// Whether the process was ever alive, or has sent something.
pub fn is_reported(line: &ProcessLine) -> bool
    ensures { result ≡ spec.is_reported line.now.state line.now.sent }
{
    match line.state {
        ProcState::Unborn => line.sent > 0,
        ProcState::Live | ProcState::Waiting | ProcState::Ended => true,
    }
}
