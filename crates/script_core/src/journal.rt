//! A journal, read and checked line by line.
ghost use Rattle.std.specs.Prelude.{◌≡◌, ◌++◌, ℕ, List, [], Result, Ok, Err, IfOk, OnOk, OnErr, MatchResult, if◌then◌else◌, true};
ghost use Rattle.session_core.specs.Checking.{HasAccepted};
ghost use Rattle.script_core.specs.declared.place.Place.{Place};
ghost use Rattle.script_core.specs.declared.place.JournalLine.{JournalLine};
ghost use Rattle.script_core.specs.declared.place.JournalLine.TheVariants as lines;
ghost use Rattle.script_core.specs.Reading.{IsOfScript};
ghost use Rattle.script_core.specs.JournalReading.{TextGives, JournalLineGives, rules_at, processes_at};
ghost use Rattle.script_core.specs.Output.{AppendsPartOf, Extends};

use crate::expected::{push_due, push_expected};
use crate::place::{JournalLine, Place, Stage};
use crate::report::{ReportFault, ReportReader};
use crate::words::printable_text;
use crate::{Cause, ENTRY_MAX};
use lock_book::locks_have_one_report;
use range_core::Memory;
use session_core::{CheckFault, Entry, JournalChecker};
use std::alloc::Global;
use thiserror::Error;

/// Why a journal doesn't go on with a line.
#[derive(Clone, Copy, Debug, PartialEq, Eq, Error)]
pub enum JournalFault {
    /// The line is none of a journal there. The cause is never want of memory.
    #[error("{0}")]
    Grammar(Cause),
    /// The journal may not go on with the line: no run begins with the entries and this one, or no report of their state with the lines of
    /// it and this one. What would be there is written by [`JournalReader::write_expected`].
    #[error("no run goes on with this line")]
    Illegal,
    /// A growth was refused.
    #[error(transparent)]
    Memory(Memory),
}

impl From<Memory> for JournalFault {
    ghost use Rattle.script_core.specs.declared.journal.JournalFault.{JournalFault};

    ghost from_gives = { λ memory fault. fault ≡ JournalFault.Memory memory };

    fn from(memory: Memory) -> JournalFault {
        JournalFault::Memory(memory)
    }
}

impl From<ReportFault> for JournalFault {
    ghost use Rattle.script_core.specs.JournalView.{report_fault_of};

    ghost from_gives = { λ cause fault. fault ≡ report_fault_of cause };

    fn from(fault: ReportFault) -> JournalFault {
        match fault {
            ReportFault::Illegal => JournalFault::Illegal,
            ReportFault::Memory(memory) => JournalFault::Memory(memory),
        }
    }
}

impl From<Cause> for JournalFault {
    ghost use Rattle.script_core.specs.JournalView.{fault_of};

    ghost from_gives = { λ cause fault. fault ≡ fault_of cause };

    fn from(cause: Cause) -> JournalFault {
        match cause {
            Cause::Memory(memory) => JournalFault::Memory(memory),
            cause => JournalFault::Grammar(cause),
        }
    }
}

/// Reads a journal line by line, and tells the first line that is faulty, or with which the entries no longer begin a run from the
/// opening state under the rules of the header lines, or its lines of a report no longer begin the report of the state that the entries
/// leave (this project's choice).
///
/// It keeps no entry: its memory is that of a [`JournalChecker`], of a [`ReportReader`] once a line of the report came, and of the line at
/// hand, however many lines come.
#[derive(Drop)]
pub struct JournalReader {
    alloc: Global,
    place: Place,
    checker: JournalChecker,
    /// The first entry that wasn't legal.
    illegal: Option<Entry>,
    /// The report of the state that the entries leave, once a line of it came.
    report: Option<ReportReader>,
}

#[tactic(auto, unfolding(crate::specs::JournalView::is_spent, crate::specs::JournalView::expected_in, crate::specs::JournalView::place_of, crate::specs::JournalView::HasChecked, crate::specs::JournalView::HasReported, crate::specs::JournalView::cuts))]
impl JournalReader {
    ghost use Rattle.script_core.specs.JournalReading.{JournalReading, journal_start, HasOneMeaning, IsBeforeReport};
    ghost use Rattle.script_core.specs.JournalView.{HasRead, IsAtOpening, Takes, TakesSaid, Finishes, is_spent, cuts, expected_in};

    /// Nothing was read.
    pub fn new(alloc: Global) -> Result<JournalReader, Memory>
        ensures { IfOk result (λ reader. HasRead reader journal_start) }
    {
        let place = Place::opening();
        Ok(JournalReader {
            alloc,
            place,
            checker: checker_at(alloc, place)?,
            illegal: None,
            report: None,
        })
    }

    /// Reads one more line, without its line feed, of at most [`ENTRY_MAX`] bytes: header lines, entries, and then lines of the report,
    /// among them lines without words and comments.
    ///
    /// `Illegal` where the journal may not go on with the line. Where that is an entry the reader is spent, and each later line is answered
    /// `Illegal` for that one's sake. `Memory` may come in place of any answer while the reader isn't spent. It, a fault of the grammar and
    /// an illegal line of the report leave what was read.
    pub fn next(&mut self, line: &[u8]) -> Result<(), JournalFault>
        // Whatever was read so far.
        ensures takes { (reading : JournalReading) → HasRead self.old reading → Takes self.new reading line.now result }

        // Once an entry was illegal, what was expected in its place stays.
        ensures spent { is_spent self.old ≡ true →
            (result ≡ Err JournalFault.Illegal) × (is_spent self.new ≡ true) × (expected_in self.new ≡ expected_in self.old) }

        // The line has no other meaning, wherever it stands.
        ensures determined { (place : Place) → HasOneMeaning place line.now }
    {
        if self.illegal.is_some() {
            return Err(JournalFault::Illegal);
        }
        let text = text_of(line)?;
        let said = self.place.parse_text(self.alloc, text)?;
        self.take(said, text)
    }

    /// At the end, where no line follows: `Illegal` where the report was begun and isn't whole, or where an entry was illegal.
    pub fn finish(&self) -> Result<(), JournalFault>
        ensures spent { is_spent self.now ≡ true → result ≡ Err JournalFault.Illegal }
        ensures finishes { (reading : JournalReading) → HasRead self.now reading → Finishes self.now reading result }
    {
        // A law, and nothing to run.
        locks_have_one_report();
        if self.illegal.is_some() {
            Err(JournalFault::Illegal)
        } else if self.is_cut() {
            Err(JournalFault::Illegal)
        } else {
            Ok(())
        }
    }

    /// Whether the report was begun and isn't whole.
    fn is_cut(&self) -> bool
        ensures { result ≡ cuts self.now }
    {
        match (self.place.stage, &self.report) {
            (Stage::Report, Some(report)) => report.due().is_some(),
            _ => false,
        }
    }

    /// Appends what a run would have in place of the entry that was illegal, as `2#2 setlkw 0 w set 0 1 | 2#2 EDEADLK expected`, `1#6
    /// expected` (a number out of turn) or `process 3 is unborn`; or in place of a line of the report, as `lock 0 process 1 w 0 1 expected` or
    /// `no line expected`. After `Memory` the vector has its old bytes and a front of the text.
    pub fn write_expected(&self, out: &mut Vec<u8>) -> Result<(), Memory>
        ensures ok { OnOk result (out.new.items ≡ out.old.items ++ expected_in self.now) }
        ensures err { OnErr result (AppendsPartOf out.old.items out.new.items (expected_in self.now)) }
    {
        let len = out.len();
        if let Err(memory) = self.push_expected(out) {
            out.truncate(len);
            return Err(memory);
        }
        Ok(())
    }

    /// Appends what a run would have in place of the entry that was illegal.
    fn push_expected(&self, text: &mut Vec<u8>) -> Result<(), Memory>
        ensures { MatchResult result (λ unit. text.new.items ≡ text.old.items ++ expected_in self.now) (λ error. Extends text.old.items text.new.items) }
    {
        match (&self.illegal, self.checker.expected(), &self.report) {
            (Some(entry), Some(expected), _) => push_expected(text, entry, expected),
            (None, _, Some(report)) => push_due(text, report.due()),
            _ => Ok(()),
        }
    }

    /// Takes down what this line says, which stands there.
    fn take(&mut self, said: JournalLine, line: &str) -> Result<(), JournalFault>
        ensures { (reading : JournalReading) → HasRead self.old reading → JournalLineGives reading.place line.now (Ok said) →
            TakesSaid self.new reading line.now said result }
    {
        match said {
            JournalLine::Skipped => Ok(()),
            JournalLine::Header(header) => self.go_to(Place {
                header,
                ..self.place
            }),
            JournalLine::Entry(entry) => self.check(entry),
            JournalLine::Report => self.judge(line),
        }
    }

    /// Takes down a line of the report. Its reader is made where there is none since the last entry.
    fn judge(&mut self, text: &str) -> Result<(), JournalFault>
        ensures { (reading : JournalReading) → HasRead self.old reading → TakesSaid self.new reading text.now lines.Report result }
    {
        // A law, and nothing to run.
        locks_have_one_report();
        let mut report = match self.report.take() {
            Some(report) => report,
            None => ReportReader::new(self.alloc, &self.checker)?,
        };
        let answer = report.next(text);
        self.report = Some(report);
        answer?;
        self.place.stage = Stage::Report;
        Ok(())
    }

    /// Goes to the place behind a header line: no entry came, and the rules are those of the place.
    fn go_to(&mut self, place: Place) -> Result<(), JournalFault>
        ensures { IsAtOpening self.old self.new place result }
    {
        self.checker = checker_at(self.alloc, place)?;
        self.place = place;
        self.report = None;
        Ok(())
    }

    /// Takes down an entry.
    fn check(&mut self, entry: Entry) -> Result<(), JournalFault>
        ensures { (reading : JournalReading) (line : List ℕ) → HasRead self.old reading → IsBeforeReport reading.place.stage →
            TakesSaid self.new reading line (lines.Entry entry) result }
    {
        match self.checker.next(&entry) {
            Ok(()) => {
                self.place.stage = Stage::Entries;
                self.report = None;
                Ok(())
            }
            Err(CheckFault::Illegal) => {
                self.illegal = Some(entry);
                Err(JournalFault::Illegal)
            }
            Err(CheckFault::Memory(memory)) => Err(JournalFault::Memory(memory)),
        }
    }
}

/// A checker of entries under the rules of the place, before the first one.
fn checker_at(alloc: Global, place: Place) -> Result<JournalChecker, Memory>
    ensures { IfOk result (λ checker. HasAccepted (rules_at place) (processes_at place) checker []) }
{
    JournalChecker::new(
        alloc,
        place.header.limits().processes(),
        place.header.rules(),
    )
}

/// The text of a line, where it isn't too long and each byte is printable.
fn text_of(line: &[u8]) -> Result<&str, Cause>
    ensures { (place : Place) → MatchResult result
        (λ text. (text.now ≡ line.now) × ((said : Result JournalLine Cause) → TextGives place line.now said → JournalLineGives place line.now said))
        (λ cause. JournalLineGives place line.now (Err cause) × IsOfScript cause) }
{
    if line.len() > ENTRY_MAX {
        return Err(Cause::TooLong);
    }
    printable_text(line).ok_or(Cause::Byte)
}
