//! A journal that is checked byte by byte.
ghost use Rattle.std.specs.Prelude.{◌≡◌, ◌≢◌, ◌≤◌, ◌<◌, ◌+◌, ◌++◌, ◌∷◌, ◌^◌, [], ℕ, List, None, IfOk, OnOk, length};
ghost use Rattle.script_core.specs.JournalReading.{JournalReading};
ghost use Rattle.script_core.specs.JournalView.{HasRead};
ghost use Rattle.replay_core.specs.Checks.{HasChecked, HasJudged, HasReadLines, Judges};

use range_core::Memory;
use script_core::{Cause, ENTRY_MAX, JournalFault, JournalReader};
use std::alloc::Global;

/// What is wrong with a line of a journal.
#[derive(Clone, Copy)]
pub enum Finding {
    /// The journal may not go on with it, or at the end may not end before it. What is expected there is told by the reader.
    Illegal,
    /// It is none of a journal there.
    Faulty(Cause),
}

/// A journal that is checked byte by byte. It keeps the line at hand alone, and of that no more than [`ENTRY_MAX`] bytes.
#[derive(Drop)]
pub struct Checking {
    /// What was read of the lines before the one at hand.
    pub reader: JournalReader,
    /// The line at hand, as far as it came.
    pub line: Vec<u8>,
    /// How many lines came before it.
    pub before: u64,
    /// What is wrong with the line at hand. Once something is, what follows changes nothing.
    pub found: Option<Finding>,
}

impl Checking {
    /// No byte came.
    pub fn new(alloc: Global) -> Result<Checking, Memory>
        ensures checked { IfOk result (λ checking. HasChecked checking []) }
        ensures first { IfOk result (λ checking. checking.before ≡ 0) }
    {
        Ok(Checking {
            reader: JournalReader::new(alloc)?,
            line: Vec::new(alloc),
            before: 0,
            found: None,
        })
    }

    /// Checks more bytes.
    pub fn take_all(&mut self, bytes: &[u8]) -> Result<(), Memory>
        requires { self.old.before + length bytes.now < 2 ^ 64 }
        ensures checked { (front : List ℕ) → HasChecked self.old front → OnOk result (HasChecked self.new (front ++ bytes.now)) }
        ensures lines { OnOk result (self.new.before ≤ self.old.before + length bytes.now) }
    {
        for byte in bytes {
            if self.found.is_some() {
                return Ok(());
            }
            self.take(*byte)?;
        }
        Ok(())
    }

    /// Checks one more byte, where nothing was found.
    fn take(&mut self, byte: u8) -> Result<(), Memory>
        requires few { self.old.before + 1 < 2 ^ 64 }
        requires unfound { self.old.found ≡ None }
        ensures checked { (front : List ℕ) → HasChecked self.old front → OnOk result (HasChecked self.new (front ++ byte ∷ [])) }
        ensures lines { OnOk result (self.new.before ≤ self.old.before + 1) }
    {
        if byte == b'\n' {
            self.end_line()
        } else {
            self.grow(byte)
        }
    }

    /// The line at hand has one more byte, which doesn't end it.
    fn grow(&mut self, byte: u8) -> Result<(), Memory>
        requires goes_on { byte ≢ 10 }
        requires unfound { self.old.found ≡ None }
        ensures checked { (front : List ℕ) → HasChecked self.old front → OnOk result (HasChecked self.new (front ++ byte ∷ [])) }
        ensures lines { OnOk result (self.new.before ≡ self.old.before) }
    {
        if self.line.len() >= ENTRY_MAX {
            self.found = Some(Finding::Faulty(Cause::TooLong));
            return Ok(());
        }
        Ok(self.line.push(byte)?)
    }

    /// The line at hand has come to its end.
    fn end_line(&mut self) -> Result<(), Memory>
        requires few { self.old.before + 1 < 2 ^ 64 }
        requires unfound { self.old.found ≡ None }
        ensures judges { (reading : JournalReading) → HasRead self.old.reader reading → OnOk result (Judges self.old self.new reading) }
        ensures lines { OnOk result (self.new.before ≤ self.old.before + 1) }
    {
        match self.reader.next(&self.line) {
            Ok(()) => {
                self.line.clear();
                self.before += 1;
                Ok(())
            }
            Err(JournalFault::Illegal) => {
                self.found = Some(Finding::Illegal);
                Ok(())
            }
            Err(JournalFault::Grammar(cause)) => {
                self.found = Some(Finding::Faulty(cause));
                Ok(())
            }
            Err(JournalFault::Memory(memory)) => Err(memory),
        }
    }

    /// No byte follows. What came behind the last line feed is a line too, where anything did.
    fn end_last_line(&mut self) -> Result<(), Memory>
        requires { self.old.before + 1 < 2 ^ 64 }
        ensures lines_read { (bytes : List ℕ) → HasChecked self.old bytes → OnOk result (HasReadLines self.new bytes) }
        ensures lines { OnOk result (self.new.before ≤ self.old.before + 1) }
    {
        if self.found.is_some() {
            return Ok(());
        }
        if self.line.is_empty() {
            return Ok(());
        }
        self.end_line()
    }

    /// Judges the journal as a whole, of which no byte follows.
    pub fn end(&mut self) -> Result<(), Memory>
        requires { self.old.before + 1 < 2 ^ 64 }
        ensures judged { (bytes : List ℕ) → HasChecked self.old bytes → OnOk result (HasJudged self.new bytes) }
        ensures lines { OnOk result (self.new.before ≤ self.old.before + 1) }
    {
        self.end_last_line()?;
        if self.found.is_some() {
            return Ok(());
        }
        match self.reader.finish() {
            Ok(()) => Ok(()),
            Err(_) => {
                self.found = Some(Finding::Illegal);
                Ok(())
            }
        }
    }
}
