//! The tests of `wait_core`, which stand apart: a crate with tests is proved twice, with them and without. What the tests of another
//! crate use too is public: a plain list of waits, and the written rule by which sequences are made.
#![tactic(auto)]

pub mod listed;
pub mod rule;
#[cfg(test)]
mod tests;
