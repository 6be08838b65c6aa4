//! The protocol by which nodes keep one lock table, over every sequence of rings: laws of its definitions, each the contract of a function
//! that does nothing.
#![tactic(auto)]

mod laws;

pub use laws::{majorities_meet, told_locks_outlive_views};
