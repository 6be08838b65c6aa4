//! Replays of scripts and checks of journals, from a source to a sink: in one thread, or with a thread for each process of the script.
#![tactic(auto)]

mod caller;
mod checking;
mod checks;
mod devices;
mod in_threads;
mod job;
mod laws;
mod pause;
mod replays;
mod threads;
mod watch;

pub use caller::{Answer, requests_of};
pub use checks::{Outcome, check};
pub use devices::{DeviceFault, FromReader, Sink, Source, ToWriter};
pub use in_threads::{Nobody, replay_in_threads};
pub use job::{Detail, Job, perform};
pub use laws::{journals_have_one_verdict, outputs_are_judged_legal};
pub use replays::{RunFault, parse_script, read_script, replay, sent_counts, text_in, write_all};
pub use threads::{ThreadReport, replay_threads};
pub use watch::Watch;
