//! A map whose keys are kept in order, and whose entries lie in blocks: an entry takes little more room than its own.
#![tactic(auto)]

mod block;
mod blocks;
mod bounded;
mod entries;
mod iter;
mod map;

pub use iter::Iter;
pub use map::BlockMap;

/// How many entries a block has at most.
const BLOCK: usize = 32;

/// How many keys of a block a search steps over at a time.
const STEP: usize = 8;
