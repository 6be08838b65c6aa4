//! Replays a script of requests to the lock manager: prints each event, also what explains it, and then what is held. Or searches every
//! order of its requests. Or judges what the script expects. Or checks such a journal. Or judges a concurrent history of locks.
#![tactic(auto)]

ghost use Rattle.std.specs.Prelude.{◌≤◌};
ghost use Rattle.lockreplay.specs.Faults.{StatusTells};

mod command_line;
mod devices;
mod explore_line;
mod faults;
mod given_words;
mod history_line;
mod notes;
mod options;
mod progress;

use devices::{drawn, fault_of, input, output, picture};
use diagnosis::Language;
use expectations::judge_expectations;
use explore_line::explore_options;
use explore_run::{Exploring, Watch, explore_script};
use faults::Fault;
use given_words::{asks_for, take_flag};
use history_check::{HistoryOutcome, Judging};
use history_run::judge_history;
use notes::Notes;
use options::{judged_detail, path_of, run_failures_of};
use progress::Progress;
use range_core::Memory;
use replay_core::{Detail, Job, RunFault, perform};
use shown_run::{RunFinding, replay_judged};
use std::env;
use std::env::Env;
use std::fs::Files;
use std::io::Stderr;
use std::process::ExitCode;
use std::sync::Wait;
use std::thread::Threads;
use std::time::Clock;

/// A fault is told on standard error, behind it what `--diagnose` asks for, and its status is the program's.
fn main(rt: HostRuntime) -> ExitCode {
    let mut notes = Notes::new(rt.alloc());
    let ended = run(&rt, rt.stderr(), &mut notes);
    if let Err(fault) = &ended {
        let _ = eprint!(rt; "{fault}");
    }
    if let Ok(Some(told)) = notes.told(rt.alloc(), &ended) {
        let _ = eprint!(rt; "{told}");
    }
    match ended {
        Ok(status) => ExitCode::from(status),
        Err(fault) => ExitCode::from(fault.status()),
    }
}

/// Judges the command line, and then does what it asks for; says the exit status.
fn run(
    rt: &(impl AllocGlobal + Clock + Env + Files + Input + Print + Sync + Threads + Wait),
    stderr: Stderr,
    notes: &mut Notes,
) -> Result<u8, Fault> {
    let mut words: Vec<String> = env::args(rt)
        .map_err(Fault::of_input)?
        .collect(rt.alloc())
        .map_err(Memory::from)
        .map_err(RunFault::Memory)?;
    let json = take_flag(&mut words, "--json");
    notes.input.asked = take_flag(&mut words, "--diagnose");
    if asks_for(&words, "--explore") {
        explore_once(rt, &Progress::new(rt, stderr), words, json, notes)
    } else if asks_for(&words, "--history") {
        let options = history_line::history_options(rt.alloc(), &words).map_err(
            Fault::of_command_line,
        )?;
        let judging = options.judging().map_err(Fault::Misuse)?;
        notes.language = Language::History;
        judge(rt, judging, path_of(options.file), json, notes)
    } else {
        run_once(rt, words, json, notes)
    }
}

/// Does what a command line asks for that takes a script in every order.
fn explore_once(
    rt: &(impl AllocGlobal + Files + Input + Print + Sync + Threads),
    progress: &impl Watch,
    mut words: Vec<String>,
    json: bool,
    notes: &mut Notes,
) -> Result<u8, Fault> {
    let timeline = take_flag(&mut words, "--timeline");
    let options = explore_options(rt.alloc(), &words).map_err(Fault::of_command_line)?;
    let states = options.states(timeline, json).map_err(Fault::Misuse)?;
    let exploring = options.exploring(rt.alloc(), states)?;
    let path = path_of(options.file);
    if timeline {
        explore_drawn(rt, progress, &exploring, path, notes)
    } else {
        explore(rt, progress, &exploring, path, json, notes)
    }
}

/// Does what a command line asks for that takes a script in its one order, or checks a journal.
fn run_once(
    rt: &(impl AllocGlobal + Clock + Files + Input + Print + Sync + Threads + Wait),
    mut words: Vec<String>,
    json: bool,
    notes: &mut Notes,
) -> Result<u8, Fault> {
    let timeline = take_flag(&mut words, "--timeline");
    let expect = take_flag(&mut words, "--expect");
    let options = command_line::options(rt.alloc(), &words).map_err(Fault::of_command_line)?;
    let path = path_of(options.file);
    if expect {
        options.expecting(timeline).map_err(Fault::Misuse)?;
        return judge_expected(rt, path, json, notes);
    }
    if timeline {
        let job = options.drawn_job(json).map_err(Fault::Misuse)?;
        return replay_drawn(rt, job, path, notes);
    }
    let job = options.job().map_err(Fault::Misuse)?;
    if job == Job::Check {
        notes.language = Language::Journal;
    }
    match options.fail_on {
        Some(list) => {
            let detail = judged_detail(job).map_err(Fault::Misuse)?;
            let fail_on = run_failures_of(rt.alloc(), list)?;
            replay_failing(rt, detail, &fail_on, path, json, notes)
        }
        None => replay(rt, job, path, json, notes),
    }
}

/// Does the job on the file, or on standard input where there is none, and writes to standard output.
fn replay(
    rt: &(impl AllocGlobal + Clock + Files + Input + Print + Sync + Threads + Wait),
    job: Job,
    path: Option<&str>,
    json: bool,
    notes: &mut Notes,
) -> Result<u8, Fault> {
    let mut source = input(rt, path, notes)?;
    let mut sink = output(rt, json);
    let performed = perform(rt, job, &mut source, &mut sink);
    notes.input = source.into_kept();
    match performed {
        Ok(outcome) => Ok(outcome.status()),
        Err(fault) => Err(fault_of(sink, fault, notes)),
    }
}

/// Replays the file, or standard input where there is none, and draws the run on standard output.
fn replay_drawn(
    rt: &(impl AllocGlobal + Clock + Files + Input + Print + Sync + Threads + Wait),
    job: Job,
    path: Option<&str>,
    notes: &mut Notes,
) -> Result<u8, Fault> {
    let mut source = input(rt, path, notes)?;
    let mut lines = picture(rt);
    let performed = perform(rt, job, &mut source, &mut lines);
    notes.input = source.into_kept();
    drawn(rt, lines, performed.map(|outcome| outcome.status()), notes)
}

/// Replays the script in the file, or on standard input where there is none, and writes to standard output; what the run shows decides the
/// status.
fn replay_failing(
    rt: &(impl AllocGlobal + Files + Input + Print),
    detail: Detail,
    fail_on: &[RunFinding],
    path: Option<&str>,
    json: bool,
    notes: &mut Notes,
) -> Result<u8, Fault> {
    let mut source = input(rt, path, notes)?;
    let mut sink = output(rt, json);
    let replayed = replay_judged(rt.alloc(), detail, fail_on, &mut source, &mut sink);
    notes.input = source.into_kept();
    match replayed {
        Ok(outcome) => Ok(outcome.status()),
        Err(fault) => Err(fault_of(sink, fault, notes)),
    }
}

/// Judges the expectations of the script in the file, or on standard input where there is none, and writes what isn't met to standard output.
fn judge_expected(
    rt: &(impl AllocGlobal + Files + Input + Print),
    path: Option<&str>,
    json: bool,
    notes: &mut Notes,
) -> Result<u8, Fault> {
    let mut source = input(rt, path, notes)?;
    let mut sink = output(rt, json);
    let judged = judge_expectations(rt.alloc(), &mut source, &mut sink);
    notes.input = source.into_kept();
    match judged {
        Ok(outcome) => Ok(outcome.status()),
        Err(fault) => Err(fault_of(sink, fault, notes)),
    }
}

/// Searches every order of the script in the file, or on standard input where there is none, and writes to standard output.
fn explore(
    rt: &(impl AllocGlobal + Files + Input + Print + Sync + Threads),
    progress: &impl Watch,
    exploring: &Exploring,
    path: Option<&str>,
    json: bool,
    notes: &mut Notes,
) -> Result<u8, Fault>
    requires { 1 ≤ exploring.now.limit }
{
    let mut source = input(rt, path, notes)?;
    let mut sink = output(rt, json);
    let explored = explore_script(rt, rt.alloc(), exploring, &mut source, &mut sink, progress);
    notes.input = source.into_kept();
    match explored {
        Ok(outcome) => Ok(outcome.status()),
        Err(fault) => Err(fault_of(sink, fault, notes)),
    }
}

/// Searches every order of the script in the file, or on standard input where there is none, and draws the run of a finding on standard output.
fn explore_drawn(
    rt: &(impl AllocGlobal + Files + Input + Print + Sync + Threads),
    progress: &impl Watch,
    exploring: &Exploring,
    path: Option<&str>,
    notes: &mut Notes,
) -> Result<u8, Fault>
    requires { 1 ≤ exploring.now.limit }
{
    let mut source = input(rt, path, notes)?;
    let mut lines = picture(rt);
    let explored = explore_script(rt, rt.alloc(), exploring, &mut source, &mut lines, progress);
    notes.input = source.into_kept();
    drawn(rt, lines, explored.map(|outcome| outcome.status()), notes)
}

/// Judges the history in the file, or on standard input where there is none, and writes to standard output.
fn judge(
    rt: &(impl AllocGlobal + Files + Input + Print),
    judging: Judging,
    path: Option<&str>,
    json: bool,
    notes: &mut Notes,
) -> Result<u8, Fault> {
    let mut source = input(rt, path, notes)?;
    let mut sink = output(rt, json);
    let judged = judge_history(rt.alloc(), judging, &mut source, &mut sink);
    notes.input = source.into_kept();
    match judged {
        Ok(outcome) => status_of(outcome),
        Err(fault) => Err(fault_of(sink, fault, notes)),
    }
}

/// The exit status of a history that was judged, or the fault of one that is none.
fn status_of(outcome: HistoryOutcome) -> Result<u8, Fault>
    ensures { StatusTells outcome result }
{
    match outcome {
        HistoryOutcome::Legal => Ok(0),
        HistoryOutcome::Illegal | HistoryOutcome::LostWakeUps => Ok(3),
        HistoryOutcome::Faulty(fault) => Err(Fault::Run(RunFault::Script(fault))),
    }
}
