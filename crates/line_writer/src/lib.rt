//! A writer that hands on each line of what is written, once it is whole.
#![tactic(auto)]

mod writer;

pub use writer::{LineWriter, TakeLine, Untaken};
