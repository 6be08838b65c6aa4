//! Scripts replayed from a source to a sink, with a status by what their runs show.
#![tactic(auto)]

mod finding;
mod runs;

pub use finding::RunFinding;
pub use runs::{RunOutcome, replay_judged};
