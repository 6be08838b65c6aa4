//! What a command line asks for.
ghost use Rattle.std.specs.Prelude.{◌≡◌, ◌≢◌, ◌≤◌, Some, None, IfOk, MatchResult, codes, option_map};
ghost use Rattle.lockreplay.specs.Jobs.{IsDetailOf, IsDrawnJobOf, IsExpecting, IsJobOf};
ghost use Rattle.lockreplay.specs.JudgedRuns.{AreRunFailures, IsJudgedDetail};
ghost use Rattle.lockreplay.specs.Judgings.{AreStatesAsked, AreStatesOf, IsJudgingOf, IsLimitAsked, IsLimitOf};
ghost use Rattle.lockreplay.specs.Explorings.{AreFailures, AreStatesDrawn, IsExploringFault, IsExploringOf, IsPrintedAsked, IsSituationLimit};

use crate::faults::Fault;
use explore_core::Finding;
use explore_run::{Exploring, Printed, finding_of, findings_of};
use history_check::{Judging, LockStates};
use range_core::Memory;
use replay_core::{Detail, Job};
use script_core::{States, natural_of};
use shown_run::RunFinding;
use std::alloc::Global;
use thiserror::Error;

/// What a command line can't ask for. The text is as clap's.
#[derive(Clone, Copy, Debug, PartialEq, Eq, Error)]
pub enum Misuse {
    /// `--threads` beside `--check`: a journal is checked in no thread of its own.
    #[error("error: the argument '--threads' cannot be used with '--check'\n\nFor more information, try '--help'.\n")]
    Threads,
    /// `--explain` beside `--check`: of a journal nothing is told but whether it is legal.
    #[error("error: the argument '--explain' cannot be used with '--check'\n\nFor more information, try '--help'.\n")]
    Explain,
    /// `--state` beside `--check`, as `--explain`.
    #[error("error: the argument '--state <N>' cannot be used with '--check'\n\nFor more information, try '--help'.\n")]
    State,
    /// `--timeline` beside another flag than `--threads`, or `--explore` with `--run`.
    #[error("error: the argument '--timeline' can only be used with '--threads', or with '--explore' and '--run'\n\nFor more information, try '--help'.\n")]
    Timeline,
    /// `--expect` beside another flag than `--json`.
    #[error("error: the argument '--expect' can only be used with '--json' or '--diagnose'\n\nFor more information, try '--help'.\n")]
    Expect,
    /// `--fail-on` beside `--threads`: which run is printed is open there.
    #[error("error: the argument '--fail-on <LIST>' cannot be used with '--threads'\n\nFor more information, try '--help'.\n")]
    FailOnThreads,
    /// `--fail-on` beside `--check`: a journal is legal or not.
    #[error("error: the argument '--fail-on <LIST>' cannot be used with '--check'\n\nFor more information, try '--help'.\n")]
    FailOnCheck,
    /// `--state` with what is neither `all`, `changes` nor the number of an entry.
    #[error("error: invalid value for '--state <N>': the number of an entry, from 1 on, or all, or changes\n\nFor more information, try '--help'.\n")]
    Entry,
    /// `--state` beside `--history`, without `--order`.
    #[error("error: the argument '--state <N>' cannot be used without '--order'\n\nFor more information, try '--help'.\n")]
    Unordered,
    /// `--state` beside `--history`, with what is neither `all` nor the number of a line.
    #[error("error: invalid value for '--state <N>': the number of a line of the order, from 1 on, or all\n\nFor more information, try '--help'.\n")]
    Line,
    /// `--limit` with what is no number from 1 on.
    #[error("error: invalid value for '--limit <N>': a number, from 1 on\n\nFor more information, try '--help'.\n")]
    Limit,
    /// `--run` with what is no finding.
    #[error("error: invalid value for '--run <FINDING>': deadlock, stuck, together, dropped, lost, busy, interrupted, killed or unborn\n\nFor more information, try '--help'.\n")]
    Run,
    /// `--fail-on` with what is no list of findings.
    #[error("error: invalid value for '--fail-on <LIST>': deadlock, stuck, together, dropped, lost, busy, interrupted, killed, unborn or, without --explore, badfd, with commas between them\n\nFor more information, try '--help'.\n")]
    FailOn,
}

/// What a command line asks for.
#[derive(Clone, Copy, Debug, PartialEq, Eq)]
pub struct Options<'a> {
    /// Whether each process of the script that requests something runs in a thread of its own.
    pub threads: bool,
    /// Whether it is told what explains each event of the run.
    pub explain: bool,
    /// Whether a journal is checked, in place of a script that is replayed.
    pub check: bool,
    /// Behind which entries the state is told, as it stands on the command line.
    pub state: Option<&'a str>,
    /// What the run isn't to show, as it stands there.
    pub fail_on: Option<&'a str>,
    /// FILE, as it stands on the command line.
    pub file: Option<&'a str>,
}

impl<'a> Options<'a> {
    /// What to do. `--check` stands beside no other flag. It is judged here and not by clap, whose conditions for a refusal are stated
    /// for arguments that have no rule on others (this project's choice).
    pub fn job(self) -> Result<Job, Misuse>
        ensures { IsJobOf self.entry.threads self.entry.explain self.entry.check (option_map (λ word. word.now) self.entry.state) result }
    {
        match (self.threads, self.explain, self.check, self.state) {
            (false, _, false, _) => Ok(Job::Replay(self.detail()?)),
            (true, _, false, _) => Ok(Job::ReplayInThreads(self.detail()?)),
            (false, false, true, None) => Ok(Job::Check),
            (true, _, true, _) => Err(Misuse::Threads),
            (false, true, true, _) => Err(Misuse::Explain),
            (false, false, true, Some(_)) => Err(Misuse::State),
        }
    }

    /// The run that a picture is drawn of, told with the state behind each event. `--timeline` stands beside `--threads` alone, and so not
    /// beside `--json`.
    pub fn drawn_job(self, json: bool) -> Result<Job, Misuse>
        ensures { IsDrawnJobOf json self.entry.threads self.entry.explain self.entry.check (option_map (λ word. word.now) self.entry.state)
            (option_map (λ word. word.now) self.entry.fail_on) result }
    {
        let detail = Detail::Explained(States::Everywhere);
        let others = json || self.explain || self.check;
        match (others, self.threads, self.state, self.fail_on) {
            (false, false, None, None) => Ok(Job::Replay(detail)),
            (false, true, None, None) => Ok(Job::ReplayInThreads(detail)),
            _ => Err(Misuse::Timeline),
        }
    }

    /// Whether a script's expectations may be judged: `--expect` stands beside `--json` alone.
    pub fn expecting(self, timeline: bool) -> Result<(), Misuse>
        ensures { IsExpecting timeline self.entry.threads self.entry.explain self.entry.check (option_map (λ word. word.now) self.entry.state)
            (option_map (λ word. word.now) self.entry.fail_on) result }
    {
        let others = timeline || self.threads || self.explain || self.check;
        match (others, self.state, self.fail_on) {
            (false, None, None) => Ok(()),
            _ => Err(Misuse::Expect),
        }
    }

    /// How much is told of a run. Who asks for states has the run explained too.
    fn detail(self) -> Result<Detail, Misuse>
        ensures { IsDetailOf self.entry.explain (option_map (λ word. word.now) self.entry.state) result }
    {
        match self.state {
            Some(word) => match States::of_word(word) {
                Some(states) => Ok(Detail::Explained(states)),
                None => Err(Misuse::Entry),
            },
            None if self.explain => Ok(Detail::Explained(States::Nowhere)),
            None => Ok(Detail::Plain),
        }
    }
}

/// The detail in which a run is told whose findings decide the status: it is no job in threads, and no check.
pub fn judged_detail(job: Job) -> Result<Detail, Misuse>
    ensures { IsJudgedDetail job result }
{
    match job {
        Job::Replay(detail) => Ok(detail),
        Job::ReplayInThreads(_) => Err(Misuse::FailOnThreads),
        Job::Check => Err(Misuse::FailOnCheck),
    }
}

/// What a run isn't to show.
pub fn run_failures_of(alloc: Global, list: &str) -> Result<Vec<RunFinding>, Fault>
    ensures { AreRunFailures list.now result }
{
    match findings_of(alloc, list)? {
        Some(findings) => Ok(findings),
        None => Err(Fault::Misuse(Misuse::FailOn)),
    }
}

/// What a command line with `--history` asks for.
#[derive(Clone, Copy, Debug, PartialEq, Eq)]
pub struct HistoryOptions<'a> {
    /// Whether each wait that is open at the end has to be one that may wait still.
    pub open_waits: bool,
    /// Whether a get tells largest ranges alone.
    pub runs: bool,
    /// Whether an order of a legal history's effects is told.
    pub order: bool,
    /// Behind which of its lines the locks are told, as it stands on the command line.
    pub state: Option<&'a str>,
    /// How many possibilities may be kept at once, as it stands on the command line.
    pub limit: Option<&'a str>,
    /// FILE, as it stands on the command line.
    pub file: Option<&'a str>,
}

impl HistoryOptions<'_> {
    /// How the history is judged.
    pub fn judging(self) -> Result<Judging, Misuse>
        ensures { IsJudgingOf self.entry.open_waits self.entry.runs self.entry.order (option_map (λ word. word.now) self.entry.state)
            (option_map (λ word. word.now) self.entry.limit) result }
    {
        let limit = self.limit()?;
        let states = self.states()?;
        Ok(Judging {
            runs: self.runs,
            open_waits: self.open_waits,
            order: self.order,
            states,
            limit,
        })
    }

    /// How many possibilities may be kept at once.
    fn limit(self) -> Result<usize, Misuse>
        ensures { IsLimitAsked (option_map (λ word. word.now) self.entry.limit) result }
    {
        match self.limit {
            Some(word) => limit_of(word),
            None => Ok(LIMIT),
        }
    }

    /// Behind which lines of the order the locks are told. Only an order has any.
    fn states(self) -> Result<LockStates, Misuse>
        ensures { AreStatesAsked self.entry.order (option_map (λ word. word.now) self.entry.state) result }
    {
        match self.state {
            None => Ok(LockStates::Nowhere),
            Some(_) if !self.order => Err(Misuse::Unordered),
            Some(word) => states_of(word),
        }
    }
}

/// The lines of an order behind which a word asks for the locks: `all`, or the number of a line, from 1 on, without leading zeros.
fn states_of(word: &str) -> Result<LockStates, Misuse>
    ensures { AreStatesOf word.now result }
{
    if word == "all" {
        return Ok(LockStates::Everywhere);
    }
    match natural_of(word) {
        Some(0) | None => Err(Misuse::Line),
        Some(place) => Ok(LockStates::Behind(place)),
    }
}

/// How many possibilities may be kept at once, where it isn't said (this project's choice).
const LIMIT: usize = 1_000_000;

/// The limit that a word asks for, from 1 on, without leading zeros.
fn limit_of(word: &str) -> Result<usize, Misuse>
    ensures { IsLimitOf word.now result }
{
    match natural_of(word) {
        Some(0) | None => Err(Misuse::Limit),
        Some(limit) => Ok(limit as usize),
    }
}

/// What a command line with `--explore` asks for.
#[derive(Clone, Copy, Debug, PartialEq, Eq)]
pub struct ExploreOptions<'a> {
    /// How many situations may be kept, as it stands on the command line.
    pub limit: Option<&'a str>,
    /// The findings that are to fail, as they stand there.
    pub fail_on: Option<&'a str>,
    /// The finding whose run is printed alone, as it stands there.
    pub run: Option<&'a str>,
    /// FILE, as it stands on the command line.
    pub file: Option<&'a str>,
}

impl ExploreOptions<'_> {
    /// The states that are told behind the events of the run of a finding: a picture wants each. `--timeline` stands beside `--run`, and not
    /// beside `--json`.
    pub fn states(self, timeline: bool, json: bool) -> Result<States, Misuse>
        ensures { AreStatesDrawn timeline json (option_map (λ word. word.now) self.entry.run) result }
    {
        match (timeline, json, self.run) {
            (false, _, _) => Ok(States::Nowhere),
            (true, false, Some(_)) => Ok(States::Everywhere),
            _ => Err(Misuse::Timeline),
        }
    }

    /// What the search is asked for; with these states the run of a finding is told.
    pub fn exploring(self, alloc: Global, states: States) -> Result<Exploring, Fault>
        ensures asked { MatchResult result (IsExploringOf states (option_map (λ word. word.now) self.entry.limit)
            (option_map (λ word. word.now) self.entry.run) (option_map (λ word. word.now) self.entry.fail_on))
            (IsExploringFault states (option_map (λ word. word.now) self.entry.limit)
            (option_map (λ word. word.now) self.entry.run) (option_map (λ word. word.now) self.entry.fail_on)) }
        ensures limit { IfOk result (λ exploring. 1 ≤ exploring.limit) }
    {
        Ok(Exploring {
            limit: situation_limit(self.limit).map_err(Fault::Misuse)?,
            printed: printed_of(self.run, states).map_err(Fault::Misuse)?,
            fail_on: fail_on_of(alloc, self.fail_on)?,
        })
    }
}

/// How many situations may be kept, where it isn't said (this project's choice).
const SITUATIONS: usize = 10_000_000;

/// How many situations may be kept.
fn situation_limit(word: Option<&str>) -> Result<usize, Misuse>
    ensures { IsSituationLimit (option_map (λ word. word.now) word.entry) result }
{
    match word {
        Some(word) => limit_of(word),
        None => Ok(SITUATIONS),
    }
}

/// What is printed of a search.
fn printed_of(word: Option<&str>, states: States) -> Result<Printed, Misuse>
    ensures { IsPrintedAsked states (option_map (λ word. word.now) word.entry) result }
{
    match word {
        Some(word) => match finding_of(word) {
            Some(finding) => Ok(Printed::RunOf { finding, states }),
            None => Err(Misuse::Run),
        },
        None => Ok(Printed::Table),
    }
}

/// The findings that are to fail.
fn fail_on_of(alloc: Global, list: Option<&str>) -> Result<Vec<Finding>, Fault>
    ensures { AreFailures (option_map (λ list. list.now) list.entry) result }
{
    match list {
        Some(list) => match findings_of(alloc, list)? {
            Some(findings) => Ok(findings),
            None => Err(Fault::Misuse(Misuse::FailOn)),
        },
        None => Ok(FAILURES.to_vec(alloc).map_err(Memory::from)?),
    }
}

/// The findings that are to fail, where it isn't said (this project's choice).
const FAILURES: [Finding; 6] = [
    Finding::Deadlock,
    Finding::Stuck,
    Finding::Together,
    Finding::Dropped,
    Finding::Lost,
    Finding::Unborn,
];

/// The file to open; there is none where standard input is read, which FILE names by `-` (POSIX.1-2017, Utility Syntax Guidelines).
pub fn path_of(file: Option<&str>) -> Option<&str>
    ensures input { option_map (λ file. file.now) file.entry ≡ Some (codes "-") → result ≡ None }
    ensures path { option_map (λ file. file.now) file.entry ≢ Some (codes "-") → result ≡ file.entry }
{
    match file {
        Some("-") => None,
        file => file,
    }
}
