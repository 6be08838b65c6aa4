//! What is done with a source and a sink: a script is replayed, also in threads, or a journal is checked.
ghost use Rattle.std.specs.Prelude.{◌≡◌, ◌≢◌, ◌≤◌, ◌+◌, IfOk, IfErr, Err, IsTrue};
ghost use Rattle.replay_core.specs.Jobs.{outputs_of, ReadsFaultyFor, limit_of};
ghost use Rattle.replay_core.specs.Replays.{WritesOutput, WritesFront};

use crate::checks::{Outcome, check};
use crate::devices::{Sink, Source};
use crate::in_threads::replay_in_threads;
use crate::replays::{RunFault, replay};
use script_core::{ScriptFault, States};
use std::alloc::AllocGlobal;
use std::sync::Wait;
use std::thread::Threads;
use std::time::Clock;

/// How much is told of a run (this project's choice).
#[derive(Clone, Copy, Debug, PartialEq, Eq)]
pub enum Detail {
    /// The line of each event, and then the report.
    Plain,
    /// The same, with what explains each event behind its line, and what is asked for of the states, and what was never taken at the end: lines
    /// that begin with `#`.
    Explained(States),
}

/// What the program does.
#[derive(Clone, Copy, Debug, PartialEq, Eq)]
pub enum Job {
    /// Replays a script.
    Replay(Detail),
    /// Replays a script with a thread for each process that requests something.
    ReplayInThreads(Detail),
    /// Checks a journal.
    Check,
}

/// Does the job on what the source gives, and writes to the sink.
pub fn perform<T: AllocGlobal + Clock + Sync + Threads + Wait, R: Source, W: Sink>(
    rt: &T,
    job: Job,
    source: &mut R,
    sink: &mut W,
) -> Result<Outcome, RunFault>
    // All that the source had was read, and just an output of that was written.
    ensures ok { IfOk result (λ outcome. WritesOutput (outputs_of job outcome)
        (R.remaining source.old) (R.remaining source.new) (W.written sink.old) (W.written sink.new)) }

    // Else it is told what went wrong, and nothing was written, or where writing failed a front of an output.
    ensures script { (fault : ScriptFault) → result ≡ Err (RunFault.Script fault) →
        ReadsFaultyFor job (R.remaining source.old) (R.remaining source.new) fault }
    ensures read { result ≡ Err RunFault.Read → IsTrue (R.failed source.new) }
    ensures write { result ≡ Err RunFault.Write → IsTrue (W.failed sink.new)
        × (outcome : Outcome) × WritesFront (outputs_of job outcome)
        (R.remaining source.old) (R.remaining source.new) (W.written sink.old) (W.written sink.new) }
    ensures unwritten { IfErr result (λ fault. fault ≢ RunFault.Write → sink.new ≡ sink.old) }
    ensures source { result ≢ Err RunFault.Read → R.failed source.new ≡ R.failed source.old }
    ensures sink { result ≢ Err RunFault.Write → W.failed sink.new ≡ W.failed sink.old }
    ensures calls { R.calls source.new ≤ R.calls source.old + (limit_of job + 1) }
{
    match job {
        Job::Replay(detail) => {
            replay(rt.alloc(), detail, source, sink)?;
            Ok(Outcome::Done)
        }
        Job::ReplayInThreads(detail) => {
            replay_in_threads(rt, rt.alloc(), detail, source, sink)?;
            Ok(Outcome::Done)
        }
        Job::Check => check(rt.alloc(), source, sink),
    }
}
