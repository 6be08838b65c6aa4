//! A history that is judged byte by byte.
ghost use Rattle.std.specs.Prelude.{◌≡◌, ◌≢◌, ◌≤◌, ◌<◌, ◌+◌, ◌++◌, ◌∷◌, ◌^◌, [], ℕ, List, None, Ok, Err, true, IsTrue, IfOk, OnOk, length, option_map};
ghost use Rattle.history_core.specs.declared.search.SearchFault.{SearchFault};
ghost use Rattle.history_judge.specs.JudgeView.{Exceeds, Knows, keeps_order, open_in};
ghost use Rattle.history_text.specs.declared.line.HistoryLine.{HistoryLine};
ghost use Rattle.history_text.specs.HistoryReading.{LineGives};
ghost use Rattle.history_check.specs.declared.judging.Judging.{Judging};
ghost use Rattle.history_check.specs.Verdicts.{AreJudged, IsSound, LegalComes, OrderComes, history_limit};
ghost use Rattle.history_check.specs.Checked.{HasChecked, HasJudged, HasRead, HasReadLines, IsLimited, Judges, Passes, legal_of, lines_in, requested_in, verdict_in};
ghost use Rattle.history_check.specs.Told.{IsTold, outcome_of};

use crate::judging::{HistoryOutcome, Judging, LockStates};
use crate::open_waits::{OpenWait, read_waits};
use crate::order::{by_number, read_number};
use crate::order_text::push_order;
use crate::reading::{answer, read_line, send};
use crate::told::{push_illegal, push_waits};
use history_core::{Answer, SearchFault};
use history_judge::{FileHappening, HistoryJudge};
use history_text::HistoryLine;
use range_core::Memory;
use script_core::{Cause, LINE_MAX, ScriptFault};
use std::alloc::Global;

/// What was found of a history, which decides.
#[derive(Clone, Copy)]
enum Finding {
    /// The answer of the line at hand isn't possible.
    Illegal(Answer),
    /// The line at hand is none of a history.
    Faulty(Cause),
    /// No order leaves all that wait at the end waiting.
    LostWakeUps,
    /// The history is longer than one may be.
    TooLong,
}

/// A history that is judged byte by byte. It keeps the line at hand, of that no more than [`LINE_MAX`] bytes, and what a [`HistoryJudge`] keeps.
#[derive(Drop)]
pub struct HistoryCheck {
    judging: Judging,
    /// What was read of the lines before the one at hand.
    judge: HistoryJudge,
    /// The requests that may wait and are open, in the order in which they were sent.
    waits: Vec<OpenWait>,
    /// The line at hand, as far as it came.
    line: Vec<u8>,
    /// How many lines came before it.
    before: u64,
    /// The number of each line that told something, where an order is kept.
    numbers: Vec<u64>,
    /// An order of the effects, each behind the number of a line, once a legal history was judged of which one is kept.
    order: Option<Vec<FileHappening>>,
    /// What was found. Once something is, what follows changes nothing.
    found: Option<Finding>,
}

impl HistoryCheck {
    /// No byte came. It takes no memory.
    pub fn new(alloc: Global, judging: Judging) -> HistoryCheck
        ensures checked { HasChecked judging result [] }
        ensures lines { lines_in result ≡ 0 }
    {
        HistoryCheck {
            judging,
            judge: judge_for(alloc, judging),
            waits: Vec::new(alloc),
            line: Vec::new(alloc),
            before: 0,
            numbers: Vec::new(alloc),
            order: None,
            found: None,
        }
    }

    /// Whether the bytes that came decide what the history comes to, whatever follows.
    pub fn is_decided(&self) -> bool
        ensures decides { IsTrue result → (judging : Judging) (bytes : List ℕ) → length bytes ≤ history_limit → HasChecked judging self.now bytes
            → AreJudged judging bytes (verdict_in self.now) }
        ensures sound { IsTrue result → (judging : Judging) → IsSound judging (verdict_in self.now) }
    {
        self.found.is_some()
    }

    /// Judges more bytes.
    ///
    /// `Limit` where more possibilities than the limit would be kept behind lines with which the bytes begin. After a fault it is spent.
    pub fn take_all(&mut self, bytes: &[u8]) -> Result<(), SearchFault>
        requires { lines_in self.old + length bytes.now < 2 ^ 64 }
        ensures checked { (judging : Judging) (front : List ℕ) → HasChecked judging self.old front
            → OnOk result (HasChecked judging self.new (front ++ bytes.now)) }
        ensures limit { result ≡ Err SearchFault.Limit → (judging : Judging) (front rest : List ℕ) → HasChecked judging self.old front
            → IsLimited judging (front ++ bytes.now ++ rest) }
        ensures lines { OnOk result (lines_in self.new ≤ lines_in self.old + length bytes.now) }
    {
        for byte in bytes {
            if self.found.is_some() {
                return Ok(());
            }
            self.take(*byte)?;
        }
        Ok(())
    }

    /// Judges the history as a whole, of which no byte follows.
    ///
    /// `Limit` as `take_all`, also behind its last line.
    pub fn end(&mut self) -> Result<(), SearchFault>
        requires { lines_in self.old + 1 < 2 ^ 64 }
        ensures judged { (judging : Judging) (bytes : List ℕ) → length bytes ≤ history_limit → HasChecked judging self.old bytes
            → OnOk result (HasJudged judging self.new bytes) }
        ensures sound { (judging : Judging) (bytes : List ℕ) → HasChecked judging self.old bytes → OnOk result (IsSound judging (verdict_in self.new)) }
        ensures limit { result ≡ Err SearchFault.Limit → (judging : Judging) (bytes : List ℕ) → HasChecked judging self.old bytes
            → IsLimited judging bytes }
        ensures lines { OnOk result (lines_in self.new ≤ lines_in self.old + 1) }
    {
        self.end_last_line()?;
        if self.found.is_some() {
            return Ok(());
        }
        if !self.judging.open_waits {
            return Ok(self.keep_order()?);
        }
        if !self.judge.may_end(self.judging.limit)? {
            self.found = Some(Finding::LostWakeUps);
            return Ok(());
        }
        Ok(self.keep_order()?)
    }

    /// Judges the history where one byte more follows than a history may have: what came decides, or else it is too long.
    pub fn cut_off(&mut self)
        ensures judged { (judging : Judging) (bytes : List ℕ) (byte : ℕ) → length bytes ≡ history_limit → HasChecked judging self.old bytes
            → AreJudged judging (bytes ++ byte ∷ []) (verdict_in self.new) }
        ensures sound { (judging : Judging) → IsSound judging (verdict_in self.new) }
        ensures lines { lines_in self.new ≡ lines_in self.old }
    {
        if self.found.is_some() {
            return;
        }
        self.found = Some(Finding::TooLong);
    }

    /// What the history comes to, where it is decided, or judged as a whole.
    pub fn outcome(&self) -> HistoryOutcome
        requires { lines_in self.now + 1 < 2 ^ 64 }
        ensures { result ≡ outcome_of (verdict_in self.now) }
    {
        match self.found {
            None => HistoryOutcome::Legal,
            Some(Finding::Illegal(_)) => HistoryOutcome::Illegal,
            Some(Finding::LostWakeUps) => HistoryOutcome::LostWakeUps,
            Some(Finding::Faulty(cause)) => HistoryOutcome::Faulty(ScriptFault {
                line: self.before + 1,
                cause,
            }),
            Some(Finding::TooLong) => HistoryOutcome::Faulty(ScriptFault {
                line: 0,
                cause: Cause::TooLong,
            }),
        }
    }

    /// What is printed of it: nothing of one that is faulty, or legal with no order kept; of an order the locks too, behind these lines.
    pub fn told(&self, alloc: Global, states: LockStates) -> Result<Vec<u8>, Memory>
        requires { lines_in self.now + 1 < 2 ^ 64 }
        ensures { (judging : Judging) → IsSound judging (verdict_in self.now) → IfOk result (λ text. IsTold states (verdict_in self.now) text.items) }
    {
        let mut text = Vec::new(alloc);
        match self.found {
            Some(Finding::Illegal(answer)) => {
                push_illegal(
                    &mut text,
                    self.before + 1,
                    answer,
                    self.judge.open_requests(),
                )?;
            }
            Some(Finding::LostWakeUps) => push_waits(&mut text, &self.waits)?,
            None => {
                if let Some(order) = &self.order {
                    push_order(&mut text, order, states)?;
                }
            }
            Some(Finding::Faulty(_) | Finding::TooLong) => {}
        }
        Ok(text)
    }

    /// Judges one more byte, where nothing was found.
    fn take(&mut self, byte: u8) -> Result<(), SearchFault>
        requires few { lines_in self.old + 1 < 2 ^ 64 }
        requires unfound { self.old.found ≡ None }
        ensures checked { (judging : Judging) (front : List ℕ) → HasChecked judging self.old front
            → OnOk result (HasChecked judging self.new (front ++ byte ∷ [])) }
        ensures limit { result ≡ Err SearchFault.Limit → (judging : Judging) (front rest : List ℕ) → HasChecked judging self.old front
            → IsLimited judging (front ++ rest) }
        ensures lines { OnOk result (lines_in self.new ≤ lines_in self.old + 1) }
    {
        if byte == b'\n' {
            self.end_line()
        } else {
            self.grow(byte)?;
            Ok(())
        }
    }

    /// The line at hand has one more byte, which doesn't end it.
    fn grow(&mut self, byte: u8) -> Result<(), Memory>
        requires goes_on { byte ≢ 10 }
        requires unfound { self.old.found ≡ None }
        ensures checked { (judging : Judging) (front : List ℕ) → HasChecked judging self.old front
            → OnOk result (HasChecked judging self.new (front ++ byte ∷ [])) }
        ensures lines { OnOk result (lines_in self.new ≡ lines_in self.old) }
    {
        if self.line.len() >= LINE_MAX {
            self.found = Some(Finding::Faulty(Cause::TooLong));
            return Ok(());
        }
        Ok(self.line.push(byte)?)
    }

    /// No byte follows. What came behind the last line feed is a line too, where anything did.
    fn end_last_line(&mut self) -> Result<(), SearchFault>
        requires { lines_in self.old + 1 < 2 ^ 64 }
        ensures read { (judging : Judging) (bytes : List ℕ) → HasChecked judging self.old bytes → OnOk result (HasReadLines judging self.new bytes) }
        ensures limit { result ≡ Err SearchFault.Limit → (judging : Judging) (bytes : List ℕ) → HasChecked judging self.old bytes
            → IsLimited judging bytes }
        ensures lines { OnOk result (lines_in self.new ≤ lines_in self.old + 1) }
    {
        if self.found.is_some() {
            return Ok(());
        }
        if self.line.is_empty() {
            return Ok(());
        }
        self.end_line()
    }

    /// Keeps an order of the effects, where one is asked for.
    fn keep_order(&mut self) -> Result<(), Memory>
        requires { self.old.found ≡ None }
        ensures legal { (judging : Judging) (before : List HistoryLine) → HasRead judging self.old before
            → OnOk result (LegalComes judging before (verdict_in self.new)) }
        ensures lines { lines_in self.new ≡ lines_in self.old }
    {
        if !self.judging.order {
            self.order = None;
            return Ok(());
        }
        self.order = self.text_order()?;
        Ok(())
    }

    /// An order of the effects, each behind the number of a line, where one is kept.
    fn text_order(&self) -> Result<Option<Vec<FileHappening>>, Memory>
        ensures { (judging : Judging) (before : List HistoryLine) → HasRead judging self.now before → judging.order ≡ true
            → IfOk result (λ told. OrderComes judging before (legal_of (option_map (λ order. order.items) told))) }
    {
        let Some(order) = self.judge.order()? else {
            return Ok(None);
        };
        let told = by_number(*self.line.allocator(), &order, &self.numbers)?;
        Ok(Some(told))
    }

    /// The line at hand has come to its end.
    fn end_line(&mut self) -> Result<(), SearchFault>
        requires few { lines_in self.old + 1 < 2 ^ 64 }
        requires unfound { self.old.found ≡ None }
        ensures judges { (judging : Judging) (before : List HistoryLine) → HasRead judging self.old before
            → OnOk result (Judges judging self.old self.new before) }
        ensures limit { result ≡ Err SearchFault.Limit → Exceeds self.old.judge self.old.judging.limit }
        ensures lines { OnOk result (lines_in self.new ≤ lines_in self.old + 1) }
    {
        match read_line(&self.judge, &self.line) {
            Ok(said) => self.go_on(said),
            Err(cause) => {
                self.found = Some(Finding::Faulty(cause));
                Ok(())
            }
        }
    }

    /// The history goes on with what the line at hand says.
    fn go_on(&mut self, said: HistoryLine) -> Result<(), SearchFault>
        requires few { lines_in self.old + 1 < 2 ^ 64 }
        requires unfound { self.old.found ≡ None }
        requires says { LineGives (requested_in self.old.judge) self.old.line.items (Ok said) }
        ensures judges { (judging : Judging) (before : List HistoryLine) → HasRead judging self.old before
            → OnOk result (Judges judging self.old self.new before) }
        ensures limit { result ≡ Err SearchFault.Limit → Exceeds self.old.judge self.old.judging.limit }
        ensures lines { OnOk result (lines_in self.new ≤ lines_in self.old + 1) }
    {
        let number = self.before + 1;
        match said {
            HistoryLine::Skipped => self.read(number, said)?,
            HistoryLine::Sent { file, request } => {
                send(&mut self.judge, number, file, request, self.judging.limit)?;
                self.read(number, said)?;
            }
            HistoryLine::Answered { id, answer: told } => {
                if answer(&mut self.judge, id, told, self.judging.limit)? {
                    self.read(number, said)?;
                } else {
                    self.found = Some(Finding::Illegal(told));
                }
            }
        }
        Ok(())
    }

    /// The line at hand, of this number, was read, and said this.
    fn read(&mut self, number: u64, said: HistoryLine) -> Result<(), Memory>
        ensures ok { OnOk result (Passes self.old self.new number said) }
    {
        read_waits(&mut self.waits, number, said)?;
        if self.judging.order {
            read_number(&mut self.numbers, number, said)?;
        }
        self.line.clear();
        self.before = number;
        Ok(())
    }
}

/// A judge that has read no line.
fn judge_for(alloc: Global, judging: Judging) -> HistoryJudge
    ensures knows { Knows judging.runs result [] }
    ensures open { (id : ℕ) → open_in result id ≡ None }
    ensures keeps { judging.order ≡ true → keeps_order result ≡ true }
{
    if judging.order {
        HistoryJudge::keeping_order(alloc, judging.runs)
    } else {
        HistoryJudge::new(alloc, judging.runs)
    }
}
