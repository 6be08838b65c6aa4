//! What is printed of a search.
ghost use Rattle.std.specs.Prelude.{◌≡◌, ◌≤◌, ◌+◌, ◌++◌, ◌∷◌, [], ℕ, true, List, Some, IfOk, OnOk, length, decimal, flat_map, option_map};
ghost use Rattle.lock_manager.specs.State.{State, opening_state};
ghost use Rattle.lock_manager.specs.ManagerView.{processes_of};
ghost use Rattle.session_core.specs.Event.{Event};
ghost use Rattle.session_core.specs.SessionView.{manager_of};
ghost use Rattle.script_core.specs.HeaderText.{limits_word as limits_word_of, policy_word as policy_word_of};
ghost use Rattle.script_core.specs.Output.{processes_in};
ghost use Rattle.script_core.specs.Explaining.{ExplainsRun};
ghost use Rattle.explore_core.specs.Orders.{IsFront};
ghost use Rattle.script_core.specs.declared.TheConstants.{SCRIPT_MAX};
ghost use Rattle.replay_core.specs.Checks.{header_lines};
ghost use Rattle.explore_core.specs.declared.finding.Finding.{Finding};
ghost use Rattle.script_search.specs.Told.{IsTold, IsLeastRun};
ghost use Rattle.explore_run.specs.FindingWords.{all_findings, is_of_end as is_of_end_by, is_usual as is_usual_by};
ghost use Rattle.explore_run.specs.Explorations.{AreRunsPrinted, IsBehindEvents, IsOutcomeOf, IsPrintedOf, IsRunPrinted, IsRunAlone, TellsFront, count_line, finding_line, found_text, heading_line, run_in as run_by, table_text};
ghost use Rattle.explore_run.specs.Replayed.{HasReplayed};

use crate::exploring::{ExploreOutcome, Printed};
use crate::replaying::replay_order;
use crate::words::word_of;
use explore_core::Finding;
use fd_table::Limits;
use itoa::Buffer;
use lock_manager::Rules;
use range_core::Memory;
use replay_core::sent_counts;
use script_core::{Script, States, write_explained, write_report, write_untaken};
use script_search::Explored;
use session_core::Session;
use std::alloc::Global;
use wait_core::Policy;

/// All findings, in the order in which they are told.
const FINDINGS: [Finding; 9] = [
    Finding::Deadlock,
    Finding::Stuck,
    Finding::Together,
    Finding::Dropped,
    Finding::Lost,
    Finding::Busy,
    Finding::Interrupted,
    Finding::Killed,
    Finding::Unborn,
];

/// What comes of a search of which none of these findings is to be found.
pub fn outcome_of(fail_on: &[Finding], explored: &Explored) -> ExploreOutcome
    requires { length explored.now.runs.items ≡ 9 }
    ensures { IsOutcomeOf fail_on.now explored.now result }
{
    for finding in fail_on {
        if run_in(explored, *finding).is_some() {
            return ExploreOutcome::Found;
        }
    }
    if explored.is_complete {
        ExploreOutcome::NotFound
    } else {
        ExploreOutcome::Limited
    }
}

/// What is printed of a search.
pub fn printed_text(
    alloc: Global,
    script: &Script,
    explored: &Explored,
    printed: Printed,
) -> Result<Vec<u8>, Memory>
    requires few { length script.now.arrivals ≤ SCRIPT_MAX + 1 }
    requires runs { length explored.now.runs.items ≡ 9 }
    requires told { (finding : Finding) → IsTold script.now explored.now.is_complete finding (run_by explored.now finding) }
    ensures { IfOk result (λ text. IsPrintedOf script.now explored.now printed text.items) }
{
    match printed {
        Printed::Table => whole_text(alloc, script, explored),
        Printed::RunOf { finding, states } => text_alone(alloc, script, explored, finding, states),
    }
}

/// What is told of each finding, the counts, and the runs.
fn whole_text(alloc: Global, script: &Script, explored: &Explored) -> Result<Vec<u8>, Memory>
    requires few { length script.now.arrivals ≤ SCRIPT_MAX + 1 }
    requires runs { length explored.now.runs.items ≡ 9 }
    requires told { (finding : Finding) → IsTold script.now explored.now.is_complete finding (run_by explored.now finding) }
    ensures { IfOk result (λ text. IsPrintedOf script.now explored.now Printed.Table text.items) }
{
    let mut text = Vec::new(alloc);
    push_table(&mut text, explored)?;
    push_runs(alloc, &mut text, script, explored)?;
    Ok(text)
}

/// The run of this finding alone, with the state behind these of its events.
fn text_alone(
    alloc: Global,
    script: &Script,
    explored: &Explored,
    finding: Finding,
    states: States,
) -> Result<Vec<u8>, Memory>
    requires few { length script.now.arrivals ≤ SCRIPT_MAX + 1 }
    requires runs { length explored.now.runs.items ≡ 9 }
    requires told { IsTold script.now explored.now.is_complete finding (run_by explored.now finding) }
    ensures { IfOk result (λ text. IsPrintedOf script.now explored.now (Printed.RunOf finding states) text.items) }
{
    let mut text = Vec::new(alloc);
    push_run_alone(alloc, &mut text, script, explored, finding, states)?;
    Ok(text)
}

/// Appends what is told of each finding, and the counts.
#[tactic(auto, using(crate::proofs::TextLemmas::joined_four))]
fn push_table(text: &mut Vec<u8>, explored: &Explored) -> Result<(), Memory>
    requires { length explored.now.runs.items ≡ 9 }
    ensures { OnOk result (text.new.items ≡ text.old.items ++ table_text explored.now) }
{
    push_findings(text, explored)?;
    push_count(text, "situations ", explored.situations)?;
    push_count(text, "ends ", explored.ends)?;
    push_count(text, "longest ", explored.longest)
}

/// Appends what is told of each finding.
fn push_findings(text: &mut Vec<u8>, explored: &Explored) -> Result<(), Memory>
    requires { length explored.now.runs.items ≡ 9 }
    ensures { OnOk result (text.new.items ≡ text.old.items ++ flat_map (finding_line explored.now) all_findings) }
{
    for finding in FINDINGS {
        push_str(text, word_of(finding))?;
        push_found(text, explored, run_in(explored, finding))?;
    }
    Ok(())
}

/// Appends what is told of a finding with this run, or with none.
#[tactic(auto, using(crate::proofs::TextLemmas::joined_two))]
fn push_found(text: &mut Vec<u8>, explored: &Explored, run: Option<&[u8]>) -> Result<(), Memory>
    ensures { OnOk result (text.new.items ≡ text.old.items
        ++ found_text explored.now.is_complete explored.now.situations (option_map (λ run. run.now) run.entry)) }
{
    match run {
        Some(run) => push_counted(text, " possible in ", run.len(), " events"),
        None if explored.is_complete => {
            push_str(text, " never")?;
            push_str(text, "\n")
        }
        None => push_counted(text, " not found in ", explored.situations, " situations"),
    }
}

/// Appends the run of each finding that was found, but of those that are usual.
fn push_runs(
    alloc: Global,
    text: &mut Vec<u8>,
    script: &Script,
    explored: &Explored,
) -> Result<(), Memory>
    requires few { length script.now.arrivals ≤ SCRIPT_MAX + 1 }
    requires runs { length explored.now.runs.items ≡ 9 }
    requires told { (finding : Finding) → IsTold script.now explored.now.is_complete finding (run_by explored.now finding) }
    ensures { OnOk result ((more : List ℕ) × AreRunsPrinted script.now explored.now all_findings more × (text.new.items ≡ text.old.items ++ more)) }
{
    for finding in FINDINGS {
        push_run(alloc, text, script, finding, run_in(explored, finding))?;
    }
    Ok(())
}

/// Appends the run of a finding, if one was found, and it isn't usual.
fn push_run(
    alloc: Global,
    text: &mut Vec<u8>,
    script: &Script,
    finding: Finding,
    run: Option<&[u8]>,
) -> Result<(), Memory>
    requires few { length script.now.arrivals ≤ SCRIPT_MAX + 1 }
    requires told { (told : List ℕ) → option_map (λ r. r.now) run ≡ Some told → IsLeastRun script.now finding told }
    ensures { OnOk result ((more : List ℕ) × IsRunPrinted script.now finding (option_map (λ run. run.now) run.entry) more
        × (text.new.items ≡ text.old.items ++ more)) }
{
    match run {
        Some(run) if !is_usual(finding) => {
            push_heading(text, finding)?;
            push_front(alloc, text, script, finding, run, States::Nowhere)
        }
        _ => Ok(()),
    }
}

/// Appends the run of this finding behind the header lines of the script, if one was found.
fn push_run_alone(
    alloc: Global,
    text: &mut Vec<u8>,
    script: &Script,
    explored: &Explored,
    finding: Finding,
    states: States,
) -> Result<(), Memory>
    requires few { length script.now.arrivals ≤ SCRIPT_MAX + 1 }
    requires runs { length explored.now.runs.items ≡ 9 }
    requires told { IsTold script.now explored.now.is_complete finding (run_by explored.now finding) }
    ensures { OnOk result ((more : List ℕ) × IsRunAlone states script.now finding (run_by explored.now finding) more × (text.new.items ≡ text.old.items ++ more)) }
{
    match run_in(explored, finding) {
        Some(run) => {
            push_headers(text, script.rules)?;
            push_front(alloc, text, script, finding, run, states)
        }
        None => Ok(()),
    }
}

/// Appends a run that shows the finding: its events with what explains them, and its end where that shows it.
fn push_front(
    alloc: Global,
    text: &mut Vec<u8>,
    script: &Script,
    finding: Finding,
    run: &[u8],
    states: States,
) -> Result<(), Memory>
    requires few { length script.now.arrivals ≤ SCRIPT_MAX + 1 }
    requires run { IsLeastRun script.now finding run.now }
    ensures { OnOk result ((more : List ℕ) × TellsFront states script.now finding run.now more × (text.new.items ≡ text.old.items ++ more)) }
{
    let session = replay_order(alloc, script, run)?;
    push_events(alloc, text, script, &session, states)?;
    if is_of_end(finding) {
        push_end(alloc, text, script, &session)
    } else {
        Ok(())
    }
}

/// Appends the events of a session with what explains them, and the state behind these of them.
fn push_events(
    alloc: Global,
    text: &mut Vec<u8>,
    script: &Script,
    session: &Session,
    states: States,
) -> Result<(), Memory>
    requires { (journal : List Event) × (S : State) × IsFront script.now journal S × HasReplayed script.now session.now journal S }
    ensures { OnOk result ((journal : List Event) (S : State) → IsFront script.now journal S → HasReplayed script.now session.now journal S
        → (more : List ℕ) × ExplainsRun states script.now.rules (processes_in script.now) 1 opening_state journal S more
        × (text.new.items ≡ text.old.items ++ more)) }
{
    write_explained(
        alloc,
        script.rules.limits.processes(),
        script.rules,
        states,
        session.journal(),
        text,
    )
}

/// Appends what a session leaves, with the script's counts of what each process sent, and what was never taken.
fn push_end(
    alloc: Global,
    text: &mut Vec<u8>,
    script: &Script,
    session: &Session,
) -> Result<(), Memory>
    requires { processes_of (manager_of session.now) ≡ processes_in script.now }
    ensures { OnOk result ((journal : List Event) (S : State) → HasReplayed script.now session.now journal S
        → (more : List ℕ) × IsBehindEvents true script.now journal S more × (text.new.items ≡ text.old.items ++ more)) }
{
    let sent = sent_counts(alloc, script.rules.limits.processes(), &script.arrivals)?;
    write_report(session.sequencer(), &sent, text)?;
    write_untaken(session.sequencer(), &sent, text)
}

/// The run that is told for the finding, if one was found.
fn run_in(explored: &Explored, finding: Finding) -> Option<&[u8]>
    requires { length explored.now.runs.items ≡ 9 }
    ensures { option_map (λ run. run.now) result ≡ run_by explored.now finding }
{
    match &explored.runs[finding as usize] {
        Some(run) => Some(run),
        None => None,
    }
}

/// Whether it is no fault of a script that some order shows it.
fn is_usual(finding: Finding) -> bool
    ensures { result ≡ is_usual_by finding }
{
    matches!(
        finding,
        Finding::Busy | Finding::Interrupted | Finding::Killed
    )
}

/// Whether the end of a complete run shows it, and no event.
fn is_of_end(finding: Finding) -> bool
    ensures { result ≡ is_of_end_by finding }
{
    matches!(finding, Finding::Stuck | Finding::Unborn)
}

/// Appends the line before the run of a finding.
#[tactic(auto, using(crate::proofs::TextLemmas::joined_three))]
fn push_heading(text: &mut Vec<u8>, finding: Finding) -> Result<(), Memory>
    ensures { OnOk result (text.new.items ≡ text.old.items ++ heading_line finding) }
{
    push_str(text, "# ")?;
    push_str(text, word_of(finding))?;
    push_str(text, "\n")
}

/// Appends the header lines that say these rules.
#[tactic(auto, using(crate::proofs::TextLemmas::joined_six))]
fn push_headers(text: &mut Vec<u8>, rules: Rules) -> Result<(), Memory>
    ensures { OnOk result (text.new.items ≡ text.old.items ++ header_lines rules) }
{
    push_str(text, "policy ")?;
    push_str(text, policy_word(rules.policy))?;
    push_str(text, "\n")?;
    push_str(text, "limits ")?;
    push_str(text, limits_word(rules.limits))?;
    push_str(text, "\n")
}

/// The word of a policy.
fn policy_word(policy: Policy) -> &'static str
    ensures { result.now ≡ policy_word_of policy }
{
    match policy {
        Policy::Held => "held",
        Policy::Queue => "queue",
    }
}

/// The word of limits.
fn limits_word(limits: Limits) -> &'static str
    ensures { result.now ≡ limits_word_of limits }
{
    match limits {
        Limits::Small => "small",
        Limits::Wide => "wide",
    }
}

/// Appends a line that counts.
#[tactic(auto, using(crate::proofs::TextLemmas::joined_three))]
fn push_count(text: &mut Vec<u8>, word: &str, count: usize) -> Result<(), Memory>
    ensures { OnOk result (text.new.items ≡ text.old.items ++ count_line word.now count) }
{
    push_str(text, word)?;
    push_number(text, count)?;
    push_str(text, "\n")
}

/// Appends a number between two pieces, and ends the line.
#[tactic(auto, using(crate::proofs::TextLemmas::joined_four))]
fn push_counted(text: &mut Vec<u8>, before: &str, number: usize, behind: &str) -> Result<(), Memory>
    ensures { OnOk result (text.new.items ≡ text.old.items ++ (before.now ++ decimal number ++ behind.now ++ 10 ∷ [])) }
{
    push_str(text, before)?;
    push_number(text, number)?;
    push_str(text, behind)?;
    push_str(text, "\n")
}

/// Appends a number.
fn push_number(text: &mut Vec<u8>, number: usize) -> Result<(), Memory>
    ensures { OnOk result (text.new.items ≡ text.old.items ++ decimal number) }
{
    push_str(text, Buffer::new().format(number))
}

/// Appends a piece.
fn push_str(text: &mut Vec<u8>, piece: &str) -> Result<(), Memory>
    ensures { OnOk result (text.new.items ≡ text.old.items ++ piece.now) }
{
    Ok(text.extend_from_slice(piece.as_bytes())?)
}
