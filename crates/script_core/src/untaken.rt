//! The lines that tell at the end of an explained run what was never taken.
ghost use Rattle.std.specs.Prelude.{◌≡◌, ◌<◌, ◌+◌, ◌-◌, ◌∷◌, ◌++◌, ℕ, List, [], MatchResult, codes, decimal, OnOk, OnErr, length, option_map};
ghost use Rattle.lock_manager.specs.ManagerView.{processes_of, state_at};
ghost use Rattle.session_core.specs.Event.{Event};
ghost use Rattle.session_core.specs.SequencerView.{manager_in, HasTold};
ghost use Rattle.script_core.specs.EntryText.{tag};
ghost use Rattle.script_core.specs.ReportText.{AreCounts};
ghost use Rattle.script_core.specs.Output.{Extends};
ghost use Rattle.script_core.specs.Explaining.{more_text, untaken_line, untaken_lines};
ghost use Rattle.script_core.specs.Explaining as spec;

use crate::explain::push_tag;
use crate::pieces::{push_first_number, push_str};
use crate::report_text::ProcessLine;
use crate::write::line_of;
use lock_manager::ProcState;
use range_core::Memory;
use session_core::Sequencer;

/// Appends a line for each process of which not all that it sent was taken, with what each sent by the counts in `sent`, one for each
/// process from process 1 on: it was never born, waits or has ended. After `Memory` the vector has its old bytes.
#[tactic(auto, using(crate::proofs::ExplainLemmas::cut_whole))]
pub fn write_untaken(sequencer: &Sequencer, sent: &[u64], out: &mut Vec<u8>) -> Result<(), Memory>
    requires { length sent.now ≡ processes_of (manager_in sequencer.now) }
    ensures ok { OnOk result ((journal : List Event) (counts : ℕ → ℕ) → HasTold sequencer.now journal → AreCounts sent.now counts → out.new.items
        ≡ out.old.items ++ untaken_lines (state_at (manager_in sequencer.now)) journal counts 1 (processes_of (manager_in sequencer.now))) }
    ensures err { OnErr result (out.new.items ≡ out.old.items) }
{
    let len = out.len();
    if let Err(memory) = push_all_untaken(out, sequencer, sent) {
        out.truncate(len);
        return Err(memory);
    }
    Ok(())
}

/// Appends a line for each process of which not all that it sent was taken.
fn push_all_untaken(text: &mut Vec<u8>, sequencer: &Sequencer, sent: &[u64]) -> Result<(), Memory>
    requires { length sent.now ≡ processes_of (manager_in sequencer.now) }
    ensures { MatchResult result (λ unit. (journal : List Event) (counts : ℕ → ℕ) → HasTold sequencer.now journal → AreCounts sent.now counts
        → text.new.items ≡ text.old.items ++ untaken_lines (state_at (manager_in sequencer.now)) journal counts 1 (processes_of (manager_in sequencer.now)))
        (λ error. Extends text.old.items text.new.items) }
{
    for index in 0..sequencer.manager().processes() {
        let line = line_of(sequencer, index + 1, sent[usize::from(index)]);
        push_untaken(text, &line)?;
    }
    Ok(())
}

/// Appends the line of a process, where not all that it sent was taken.
fn push_untaken(text: &mut Vec<u8>, line: &ProcessLine) -> Result<(), Memory>
    ensures { MatchResult result (λ unit. text.new.items ≡ text.old.items ++ untaken_line line.now) (λ error. Extends text.old.items text.new.items) }
{
    if line.sent <= line.taken {
        return Ok(());
    }
    match untaken_reason(line.state) {
        Some(reason) => push_never_taken(text, line, reason),
        None => Ok(()),
    }
}

/// Why what the process sent is never taken, by where it stands: of one that lives nothing is left to take.
fn untaken_reason(state: ProcState) -> Option<&'static str>
    ensures { option_map (λ reason. reason.now) result ≡ spec.untaken_reason state }
{
    match state {
        ProcState::Unborn => Some(" was never born"),
        ProcState::Live => None,
        ProcState::Waiting => Some(" waits"),
        ProcState::Ended => Some(" has ended"),
    }
}

/// Appends the line of a process that sent more than was taken, for this reason.
fn push_never_taken(text: &mut Vec<u8>, line: &ProcessLine, reason: &str) -> Result<(), Memory>
    requires { line.now.taken < line.now.sent }
    ensures { MatchResult result (λ unit. text.new.items ≡ text.old.items
        ++ (codes "# " ++ tag line.now.p (line.now.taken + 1) ++ more_text (line.now.sent - line.now.taken - 1) ++ codes " never taken: process "
        ++ decimal line.now.p ++ reason.now ++ 10 ∷ [])) (λ error. Extends text.old.items text.new.items) }
{
    push_tag(text, line.p, line.taken + 1)?;
    push_more(text, line.sent - line.taken - 1)?;
    push_str(text, " never taken: process ")?;
    push_first_number(text, u64::from(line.p))?;
    push_str(text, reason)?;
    push_str(text, "\n")
}

/// Appends how many more requests there are, if any.
fn push_more(text: &mut Vec<u8>, more: u64) -> Result<(), Memory>
    ensures { MatchResult result (λ unit. text.new.items ≡ text.old.items ++ more_text more) (λ error. Extends text.old.items text.new.items) }
{
    if more == 0 {
        return Ok(());
    }
    push_str(text, " and ")?;
    push_first_number(text, more)?;
    push_str(text, " more")
}
