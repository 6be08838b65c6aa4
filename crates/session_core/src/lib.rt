//! A lock manager with the mail of its processes and the journal of what was taken.
#![tactic(auto)]

mod answers;
mod check;
mod entry;
mod laws;
mod mailbox;
mod run;
mod sequencer;
mod session;

pub use check::{CheckFault, Expected, JournalChecker, check_journal};
pub use entry::{Entry, Notes};
pub use laws::{
    arrivals_have_one_drain, every_run_goes_on, requests_join_the_queue, waits_are_granted_in_turn,
};
pub use run::{RunAllFault, run_all};
pub use sequencer::Sequencer;
pub use session::{ArriveFault, Session};

/// How many requests one process may send (this project's choice).
pub const N_MAX: u64 = 1 << 40;
