//! What the program tells on standard error, and the exit status that goes with it.
ghost use Rattle.std.specs.Prelude.{◌≡◌, ◌≢◌};
ghost use Rattle.std.specs.IoError.{error_kind};
ghost use Rattle.clap.specs.Words.{kind_of};
ghost use Rattle.lockreplay.specs.Faults.{exit_status};

use crate::options::Misuse;
use clap::error::ErrorKind;
use history_run::HistoryFault;
use line_writer::Untaken;
use range_core::Memory;
use replay_core::RunFault;
use std::io;
use std::io::ErrorKind as InputErrorKind;
use thiserror::Error;

/// Why the program ends with another status than 0. Its text is what goes to standard error.
#[derive(Debug, Drop, Error)]
pub enum Fault {
    /// The command line is refused, or asks for help or the version. The text is clap's.
    #[error("{0}")]
    CommandLine(clap::Error),
    /// The command line asks for what can't be had.
    #[error("{0}")]
    Misuse(#[from] Misuse),
    /// A growth was refused before the run, as clap or a call for input tells it. The text is that of a run.
    #[error("lockreplay: no memory\n")]
    OutOfMemory,
    /// The run has no output, or only a front of it.
    #[error("lockreplay: {0}\n")]
    Run(#[from] RunFault),
    /// Nothing is claimed of the history.
    #[error("lockreplay: {0}\n")]
    History(#[from] HistoryFault),
}

impl From<Memory> for Fault {
    ghost use Rattle.lockreplay.specs.declared.faults.Fault.{Fault};
    ghost use Rattle.replay_core.specs.declared.replays.RunFault.{RunFault};

    ghost from_gives = { λ memory fault. fault ≡ Fault.Run (RunFault.Memory memory) };

    fn from(memory: Memory) -> Fault {
        Fault::Run(RunFault::Memory(memory))
    }
}

impl Fault {
    /// The fault where clap gives this error: want of memory is told as the program tells it elsewhere.
    pub fn of_command_line(error: clap::Error) -> Fault
        ensures memory { kind_of error ≡ ErrorKind.OutOfMemory → result ≡ Fault.OutOfMemory }
        ensures text { kind_of error ≢ ErrorKind.OutOfMemory → result ≡ Fault.CommandLine error }
    {
        match error.kind() {
            ErrorKind::OutOfMemory => Fault::OutOfMemory,
            _ => Fault::CommandLine(error),
        }
    }

    /// The fault where a call for input gives this error: want of memory, or else that reading failed.
    pub fn of_input(error: io::Error) -> Fault
        ensures memory { error_kind error ≡ InputErrorKind.OutOfMemory → result ≡ Fault.OutOfMemory }
        ensures read { error_kind error ≢ InputErrorKind.OutOfMemory → result ≡ Fault.Run RunFault.Read }
    {
        match error.kind() {
            InputErrorKind::OutOfMemory => Fault::OutOfMemory,
            _ => Fault::Run(RunFault::Read),
        }
    }

    /// The fault where a line of the output isn't taken for this reason.
    pub fn of_line(untaken: Untaken) -> Fault {
        match untaken {
            Untaken::Memory(refused) => Fault::from(refused),
            Untaken::Write(_) => Fault::Run(RunFault::Write),
        }
    }

    /// The exit status of the program: 2 for the command line and for a faulty script or history, 4 where the limit was reached, and else 1.
    pub fn status(&self) -> u8
        ensures { result ≡ exit_status self.now }
    {
        match self {
            Fault::CommandLine(_) | Fault::Misuse(_) => 2,
            Fault::OutOfMemory => 1,
            Fault::Run(fault) => fault.status(),
            Fault::History(fault) => fault.status(),
        }
    }
}
