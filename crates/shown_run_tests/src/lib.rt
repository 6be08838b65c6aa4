//! The tests of `shown_run`, which stand apart: a crate with tests is proved twice, with them and without.
#![tactic(auto)]

#[cfg(test)]
mod tests;
