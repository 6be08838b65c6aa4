//! Scripts explored in every order, from a source to a sink.
#![tactic(auto)]

mod exploring;
mod laws;
mod replaying;
mod runs;
mod text;
mod words;

pub use exploring::{ExploreOutcome, Exploring, Printed};
pub use laws::complete_runs_are_interleavings;
pub use runs::explore_script;
pub use script_search::{Nobody, Watch};
pub use words::{Named, finding_of, findings_of, word_of};
