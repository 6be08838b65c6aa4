//! The run of a script, and its report.
ghost use Rattle.std.specs.Prelude.{◌≡◌, ◌≤◌, ◌+◌, All, IfOk, length};
ghost use Rattle.lock_manager.specs.State.{State};
ghost use Rattle.lock_manager.specs.ManagerView.{StandsFor, processes_of};
ghost use Rattle.session_core.specs.Mail.{requests_sent};
ghost use Rattle.session_core.specs.Draining.{IsDrain};
ghost use Rattle.session_core.specs.SessionView.{events_in, manager_of};
ghost use Rattle.script_core.specs.declared.TheConstants.{SCRIPT_MAX};
ghost use Rattle.script_core.specs.ScriptText.{IsProcess};
ghost use Rattle.script_core.specs.ReportText.{IsReport};
ghost use Rattle.script_core.specs.Output.{processes_in};
ghost use Rattle.expectations.specs.Judging.{RunsTo};

use range_core::Memory;
use replay_core::sent_counts;
use script_core::{Script, write_report};
use session_core::{RunAllFault, Session, run_all};
use std::alloc::Global;

/// A script that was run.
#[derive(Drop)]
pub struct Run {
    /// The session that ran it.
    pub session: Session,
    /// The report of the state that is left.
    pub report: Vec<u8>,
}

/// Runs a script.
pub fn run_of(alloc: Global, script: &Script) -> Result<Run, Memory>
    requires processes { All (λ arrival. IsProcess script.now.rules.limits arrival.0) script.now.arrivals }
    requires few { length script.now.arrivals ≤ SCRIPT_MAX + 1 }
    ensures { IfOk result (λ run. RunsTo script.now (events_in run.session) run.report.items) }
{
    let session = session_of(alloc, script)?;
    let report = report_of(alloc, script, &session)?;
    Ok(Run { session, report })
}

/// Runs a script under its rules, with as many processes as its limits have.
fn session_of(alloc: Global, script: &Script) -> Result<Session, Memory>
    requires processes { All (λ arrival. IsProcess script.now.rules.limits arrival.0) script.now.arrivals }
    requires few { length script.now.arrivals ≤ SCRIPT_MAX + 1 }
    ensures drained { IfOk result (λ session. (S : State) × IsDrain script.now.rules (processes_in script.now) script.now.arrivals (events_in session) S
        × StandsFor (manager_of session) S) }
    ensures processes { IfOk result (λ session. processes_of (manager_of session) ≡ processes_in script.now) }
{
    match run_all(
        alloc,
        script.rules.limits.processes(),
        script.rules,
        &script.arrivals,
    ) {
        Ok(session) => Ok(session),
        Err(RunAllFault::Memory(memory)) => Err(memory),
        // A script has fewer lines than a process may send requests.
        Err(RunAllFault::Full) => unreachable!(),
    }
}

/// The report of the script's run, with the script's counts of what each process sent.
fn report_of(alloc: Global, script: &Script, session: &Session) -> Result<Vec<u8>, Memory>
    requires { processes_of (manager_of session.now) ≡ processes_in script.now }
    ensures { IfOk result (λ report. (S : State) → StandsFor (manager_of session.now) S
        → IsReport (processes_in script.now) S (events_in session.now) (λ p. length (requests_sent p script.now.arrivals)) report.items) }
{
    let processes = script.rules.limits.processes();
    let sent = sent_counts(alloc, processes, &script.arrivals)?;
    let mut report = Vec::new(alloc);
    write_report(session.sequencer(), &sent, &mut report)?;
    Ok(report)
}
