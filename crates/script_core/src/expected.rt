//! The text of what a run would have in place of an entry with which none goes on.
ghost use Rattle.std.specs.Prelude.{◌≡◌, ◌+◌, ◌++◌, MatchResult, codes, decimal};
ghost use Rattle.script_core.specs.EntryText.{tag};
ghost use Rattle.script_core.specs.ExpectedText.{expected_text, due_text};
ghost use Rattle.script_core.specs.ReportText as spec;
ghost use Rattle.script_core.specs.Output.{Extends};

use crate::entry_text::push_event;
use crate::pieces::{push_first_number, push_str};
use crate::report::ReportLine;
use crate::report_text::spaced_state;
use itoa::Buffer;
use lock_manager::ProcState;
use range_core::Memory;
use session_core::{Entry, Expected};

/// Appends what was expected in place of the entry.
pub fn push_expected(text: &mut Vec<u8>, entry: &Entry, expected: &Expected) -> Result<(), Memory>
    ensures { MatchResult result (λ unit. text.new.items ≡ text.old.items ++ expected_text entry.now expected.now)
        (λ error. Extends text.old.items text.new.items) }
{
    match expected {
        Expected::NoRequest(state) => push_standing(text, entry.p, *state),
        Expected::NumberAfter(taken) => {
            push_next_tag(text, entry.p, *taken)?;
            push_str(text, " expected")
        }
        Expected::Notes(notes) => {
            push_event(text, entry, notes)?;
            push_str(text, " expected")
        }
    }
}

/// Appends how a process stands.
fn push_standing(text: &mut Vec<u8>, p: u8, state: ProcState) -> Result<(), Memory>
    ensures { MatchResult result (λ unit. text.new.items ≡ text.old.items ++ (codes "process " ++ decimal p ++ codes " is " ++ spec.state_word state))
        (λ error. Extends text.old.items text.new.items) }
{
    push_str(text, "process ")?;
    push_first_number(text, u64::from(p))?;
    push_str(text, " is")?;
    push_str(text, spaced_state(state))
}

/// Appends the tag of the request behind so many of a process.
fn push_next_tag(text: &mut Vec<u8>, p: u8, taken: u64) -> Result<(), Memory>
    ensures { MatchResult result (λ unit. text.new.items ≡ text.old.items ++ tag p (taken + 1)) (λ error. Extends text.old.items text.new.items) }
{
    push_first_number(text, u64::from(p))?;
    push_str(text, "#")?;
    push_str(text, Buffer::new().format(u128::from(taken) + 1))
}

/// Appends what a report would have in place of a line: this one, or none.
pub fn push_due(text: &mut Vec<u8>, due: Option<ReportLine>) -> Result<(), Memory>
    ensures { MatchResult result (λ unit. text.new.items ≡ text.old.items ++ due_text due) (λ error. Extends text.old.items text.new.items) }
{
    match due {
        Some(line) => {
            line.write(text)?;
            push_str(text, " expected")
        }
        None => push_str(text, "no line expected"),
    }
}
