//! Expectations that stand in a script: each looks at the run of what stands in front of it, and what it doesn't find there is told.
#![tactic(auto)]

mod expectation;
mod judged;
mod run;
mod runs;
mod seen;
mod text;

pub use runs::{ExpectOutcome, judge_expectations};
