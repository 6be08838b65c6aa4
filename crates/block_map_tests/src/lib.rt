//! The tests of `block_map`, which stand apart: a crate with tests is proved twice, with them and without.
#![tactic(auto)]

#[cfg(test)]
mod tests;
