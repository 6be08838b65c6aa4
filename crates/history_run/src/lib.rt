//! Concurrent histories of locks, judged from a source to a sink.
#![tactic(auto)]

mod runs;

pub use runs::{HistoryFault, judge_history};
