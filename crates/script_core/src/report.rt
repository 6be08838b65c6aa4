//! Reading a report line by line, against the state that a checked journal leaves.
ghost use Rattle.std.specs.Prelude.{◌≡◌, ◌↔◌, ◌^◌, ◌<◌, ◌≤◌, ◌++◌, ℕ, List, [], ◌∷◌, Err, Some, IfOk, OnOk, IsTrue, MatchOption, MatchResult, All, map, drop, length, decimal};
ghost use Rattle.lock_manager.specs.declared.request.Rules.{Rules};
ghost use Rattle.lock_manager.specs.State.{State};
ghost use Rattle.lock_manager.specs.ManagerView.{processes_of, state_at};
ghost use Rattle.session_core.specs.Event.{Event};
ghost use Rattle.session_core.specs.Runs.{IsRun};
ghost use Rattle.session_core.specs.Checking.{HasAccepted};
ghost use Rattle.script_core.specs.Words.{texts};
ghost use Rattle.script_core.specs.ReportText.{process_text};
ghost use Rattle.script_core.specs.ReportReading.{AreTextsOf, IsFirstDue, GoesOn, AreLastOf, AreReportLines, HasFewTaken, least_line, lines_from};
ghost use Rattle.script_core.specs.declared.report.ReportLine.{ReportLine};
ghost use Rattle.script_core.specs.declared.report.ReportLine.TheVariants as report_lines;
ghost use Rattle.script_core.specs.Output.{Extends};

use crate::numbers::natural_of;
use crate::report_text::{ProcessLine, push_held_text, push_process_text, push_wait_text};
use crate::words::{WORDS_MAX, first_words};
use crate::write::is_reported;
use lock_book::Held;
use lock_manager::ProcState;
use range_core::Memory;
use session_core::JournalChecker;
use std::alloc::Global;
use std::marker::Model;
use thiserror::Error;
use wait_core::Wait;

/// A line of a report (this project's choice).
#[derive(Clone, Copy, Debug)]
pub enum ReportLine {
    /// Of a lock that is held.
    Held(Held),
    /// Of a request that waits.
    Waits(Wait),
    /// Of a process. What it sent may be any count from that of what was taken on; an unborn process has no line where it sent nothing.
    Process(ProcessLine),
}

impl ReportLine {
    ghost use Rattle.script_core.specs.ReportReading.{line_text, IsLineOf, MayBeLeftOut};

    /// Appends the text of the line, without a line feed. After `Memory` the vector has its old bytes at its front.
    pub fn write(&self, out: &mut Vec<u8>) -> Result<(), Memory>
        ensures { MatchResult result (λ unit. out.new.items ≡ out.old.items ++ line_text self.now) (λ error. Extends out.old.items out.new.items) }
    {
        match self {
            ReportLine::Held(held) => push_held_text(out, held),
            ReportLine::Waits(wait) => push_wait_text(out, wait),
            ReportLine::Process(told) => push_process_text(out, told),
        }
    }

    /// Whether the text is this line's, whatever its process sent beside what was taken.
    fn is_line(&self, alloc: Global, text: &str) -> Result<bool, Memory>
        ensures { IfOk result (λ is. IsTrue is ↔ IsLineOf self.now text.now) }
    {
        let Some(line) = self.as_sent_in(text) else {
            return Ok(false);
        };
        let mut bytes = Vec::new(alloc);
        line.write(&mut bytes)?;
        Ok(bytes.as_slice() == text.as_bytes())
    }

    /// The line with what the text says that its process sent, where the report has that line.
    fn as_sent_in(&self, text: &str) -> Option<ReportLine>
        ensures { MatchOption result (¬ IsLineOf self.now text.now) (λ line. (text.now ≡ line_text line) ↔ IsLineOf self.now text.now) }
    {
        match self {
            ReportLine::Process(told) => {
                let sent = sent_in(told.p, text)?;
                if sent < told.taken {
                    return None;
                }
                let told = ProcessLine { sent, ..*told };
                is_reported(&told).then_some(ReportLine::Process(told))
            }
            ReportLine::Held(_) | ReportLine::Waits(_) => Some(*self),
        }
    }

    /// Whether the report may leave it out.
    fn may_be_left_out(&self) -> bool
        ensures { IsTrue result ↔ MayBeLeftOut self.now }
    {
        match self {
            ReportLine::Process(told) => !is_reported(&ProcessLine {
                sent: told.taken,
                ..*told
            }),
            ReportLine::Held(_) | ReportLine::Waits(_) => false,
        }
    }
}

/// What the text says that this process sent, where it is a line of it.
fn sent_in(p: u8, text: &str) -> Option<u64>
    ensures { (told : ProcessLine) → told.p ≡ p → told.sent < 2 ^ 64 → text.now ≡ process_text told → result ≡ Some told.sent }
{
    let mut room = [""; WORDS_MAX];
    fourth_number(first_words(text, &mut room))
}

/// The number that the fourth of the words is, if it is one.
fn fourth_number(words: &[&str]) -> Option<u64>
    ensures { (first second third : List ℕ) (n : ℕ) (more : List (List ℕ)) → n < 2 ^ 64 →
        texts words.now ≡ first ∷ second ∷ third ∷ decimal n ∷ more → result ≡ Some n }
{
    match words {
        [_, _, _, fourth, ..] => natural_of(fourth),
        _ => None,
    }
}

/// Why a line of a report isn't accepted.
#[derive(Clone, Copy, Debug, PartialEq, Eq, Error)]
pub enum ReportFault {
    /// No report goes on with this line. What it would have there is [`ReportReader::due`].
    #[error("the report doesn't go on with this line")]
    Illegal,
    /// A growth was refused.
    #[error(transparent)]
    Memory(Memory),
}

impl From<Memory> for ReportFault {
    ghost use Rattle.script_core.specs.declared.report.ReportFault.{ReportFault};

    ghost from_gives = { λ memory fault. fault ≡ ReportFault.Memory memory };

    fn from(memory: Memory) -> ReportFault {
        ReportFault::Memory(memory)
    }
}

/// Takes the lines of a report one after another, and tells the first with which it no longer is the report of a state
/// (this project's choice). It is the lines that are still to come.
#[derive(Drop)]
pub struct ReportReader {
    alloc: Global,
    lines: Vec<ReportLine>,
    /// So many lines came, or were left out.
    place: usize,
}

impl Model for ReportReader {
    ghost Value = { List ReportLine };

    ghost view = { λ reader. drop reader.place reader.lines.items };

    ghost invariant = { λ reader. reader.place ≤ length reader.lines.items };
}

impl ReportReader {
    /// The report of the state that the accepted entries leave, of which no line came.
    pub fn new(alloc: Global, checker: &JournalChecker) -> Result<ReportReader, Memory>
        ensures are { IfOk result (λ reader. (rules : Rules) (processes : ℕ) (accepted : List Event) (S : State)
            → HasAccepted rules processes checker.now accepted → IsRun rules processes accepted S → AreReportLines processes S accepted reader) }
        ensures few { IfOk result (λ reader. All HasFewTaken reader) }
    {
        let manager = checker.manager();
        let mut lines = Vec::new(alloc);
        push_locks(&mut lines, &manager.held()?)?;
        push_waits(&mut lines, &manager.waits()?)?;
        push_processes(&mut lines, checker)?;
        Ok(ReportReader {
            alloc,
            lines,
            place: 0,
        })
    }

    /// Accepts the text of a line, without its line feed, where the report goes on with it; what is to come then are the lines behind.
    ///
    /// `Illegal` where it doesn't, whatever would follow. `Memory` may come in place of either answer. Both leave the reader as it was.
    pub fn next(&mut self, text: &str) -> Result<(), ReportFault>
        ensures goes_on { OnOk result (GoesOn self.old text.now self.new) }
        ensures last { AreLastOf self.old self.new }
        ensures illegal { result ≡ Err ReportFault.Illegal → (more : List (List ℕ)) → ¬ AreTextsOf self.old (text.now ∷ more) }
        ensures refused { (fault : ReportFault) → result ≡ Err fault → self.new ≡ self.old }
    {
        match passed(self.alloc, &self.lines[self.place..], text)? {
            Some(count) => {
                self.place += count;
                Ok(())
            }
            None => Err(ReportFault::Illegal),
        }
    }

    /// The next line of the report that may not be left out; `None` where the report may end here.
    pub fn due(&self) -> Option<ReportLine>
        ensures { MatchOption result (AreTextsOf self.now []) (λ line. IsFirstDue self.now line) }
    {
        first_due(&self.lines[self.place..])
    }
}

/// How many of the lines are passed once this text came; `None` where the report doesn't go on with it.
fn passed(alloc: Global, lines: &[ReportLine], text: &str) -> Result<Option<usize>, Memory>
    ensures { IfOk result (λ passed. MatchOption passed ((more : List (List ℕ)) → ¬ AreTextsOf lines.now (text.now ∷ more))
        (λ count. (count ≤ length lines.now) × GoesOn lines.now text.now (drop count lines.now))) }
{
    for (index, line) in lines.iter().enumerate() {
        if line.is_line(alloc, text)? {
            return Ok(Some(index + 1));
        }
        if !line.may_be_left_out() {
            return Ok(None);
        }
    }
    Ok(None)
}

/// The first of the lines that may not be left out.
fn first_due(lines: &[ReportLine]) -> Option<ReportLine>
    ensures { MatchOption result (AreTextsOf lines.now []) (λ line. IsFirstDue lines.now line) }
{
    for line in lines {
        if !line.may_be_left_out() {
            return Some(*line);
        }
    }
    None
}

/// Appends a line for each lock that is held.
fn push_locks(lines: &mut Vec<ReportLine>, locks: &[Held]) -> Result<(), Memory>
    ensures { OnOk result (lines.new.items ≡ lines.old.items ++ map report_lines.Held locks.now) }
{
    for held in locks {
        lines.push(ReportLine::Held(*held))?;
    }
    Ok(())
}

/// Appends a line for each request that waits.
fn push_waits(lines: &mut Vec<ReportLine>, waits: &[Wait]) -> Result<(), Memory>
    ensures { OnOk result (lines.new.items ≡ lines.old.items ++ map report_lines.Waits waits.now) }
{
    for wait in waits {
        lines.push(ReportLine::Waits(*wait))?;
    }
    Ok(())
}

/// Appends a line for each process.
fn push_processes(lines: &mut Vec<ReportLine>, checker: &JournalChecker) -> Result<(), Memory>
    ensures are { OnOk result ((rules : Rules) (processes : ℕ) (accepted : List Event) (S : State)
        → HasAccepted rules processes checker.now accepted → IsRun rules processes accepted S
        → lines.new.items ≡ lines.old.items ++ lines_from S.states accepted 1 processes) }
    ensures few { All HasFewTaken lines.old.items → All HasFewTaken lines.new.items }
{
    for index in 0..checker.manager().processes() {
        lines.push(ReportLine::Process(line_of(checker, index + 1)))?;
    }
    Ok(())
}

/// What there is to tell of a process. It sent at least what was taken of it.
fn line_of(checker: &JournalChecker, p: u8) -> ProcessLine
    ensures is { (rules : Rules) (processes : ℕ) (accepted : List Event) (S : State)
        → HasAccepted rules processes checker.now accepted → IsRun rules processes accepted S → result ≡ least_line S.states accepted p }
    ensures few { result.taken < 2 ^ 64 }
{
    let taken = checker.taken(p);
    ProcessLine {
        p,
        sent: taken,
        taken,
        answered: checker.answered(p),
        state: checker.manager().state_of(p),
    }
}
