//! The runs of one owner of a file: a list while they are few, and a tree beyond that, so that a call in the middle of many
//! takes a number of steps that grows with the logarithm of their number, and with what it replaces or hands out.
#![tactic(auto)]

mod cuts;
mod laws;
mod lone_run;
mod owner_runs;
mod run_tree;
mod runs;
mod set_tree;
mod writes;

pub use crate::owner_runs::OwnerRuns;
pub use laws::owners_stand_for_runs;
pub use runs::Runs;
