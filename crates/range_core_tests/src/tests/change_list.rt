//! Another body of the same promises: the list of every change, the newest last, each reader looking through all of it.
ghost use Rattle.range_core.specs.Ranges.{Covers, IsByteRange};

use range_core::{Memory, Mode, OFFMAX, Span};
use std::alloc::Global;

/// The modes of one lock owner, as the changes that were made to them.
#[derive(Drop)]
pub struct ChangeList {
    changes: Vec<(Span, Option<Mode>)>,
}

impl ChangeList {
    pub fn new(alloc: Global) -> ChangeList {
        ChangeList {
            changes: Vec::new(alloc),
        }
    }

    pub fn set(&mut self, span: Span, mode: Option<Mode>) -> Result<(), Memory> {
        self.changes.push((span, mode))?;
        Ok(())
    }

    /// The mode of the last change that covers the byte.
    pub fn mode_at(&self, byte: u64) -> Option<Mode> {
        let mut found = None;
        for change in &self.changes {
            if change.0.first <= byte && byte <= change.0.last {
                found = change.1;
            }
        }
        found
    }

    /// The least byte of the span whose mode conflicts with the other one.
    pub fn first_hit(&self, span: Span, against: Mode) -> Option<u64>
        requires { IsByteRange span }
    {
        let mut byte = span.first;
        loop {
            if self.hits(byte, against) {
                return Some(byte);
            }
            let same = self.stretch(byte);
            if span.last <= same.last {
                return None;
            }
            byte = same.last + 1;
        }
    }

    /// The mode of the byte, and the bytes round it that have this mode throughout.
    pub fn run_at(&self, byte: u64) -> Option<(Mode, Span)> {
        let mode = self.mode_at(byte)?;
        let first = self.run_first(byte, mode);
        let last = self.run_last(byte, mode);
        Some((mode, Span { first, last }))
    }

    fn hits(&self, byte: u64, against: Mode) -> bool {
        match self.mode_at(byte) {
            Some(held) => held.conflicts_with(against),
            None => false,
        }
    }

    fn has_mode(&self, byte: u64, mode: Mode) -> bool {
        self.mode_at(byte) == Some(mode)
    }

    /// A range round the byte that no change cuts.
    fn stretch(&self, byte: u64) -> Span
        ensures { Covers result byte }
    {
        let mut stretch = Span {
            first: 0,
            last: u64::MAX,
        };
        for change in &self.changes {
            stretch = one_side(stretch, change.0, byte);
        }
        stretch
    }

    fn run_first(&self, byte: u64, mode: Mode) -> u64 {
        let mut first = self.stretch(byte).first;
        while first > 0 && self.has_mode(first - 1, mode) {
            first = self.stretch(first - 1).first;
        }
        first
    }

    fn run_last(&self, byte: u64, mode: Mode) -> u64 {
        let mut last = self.stretch(byte).last;
        while last < OFFMAX && self.has_mode(last + 1, mode) {
            last = self.stretch(last + 1).last;
        }
        last
    }
}

/// The part of a range round the byte on which the other range covers all bytes or none.
fn one_side(whole: Span, span: Span, byte: u64) -> Span
    requires { Covers whole byte }
    ensures { Covers result byte }
{
    let mut part = whole;
    if byte < span.first {
        part.last = part.last.min(span.first - 1);
    } else if span.last < byte {
        part.first = part.first.max(span.last + 1);
    } else {
        part.first = part.first.max(span.first);
        part.last = part.last.min(span.last);
    }
    part
}
