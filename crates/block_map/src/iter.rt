//! The entries in order.
use crate::bounded::BoundedIter;
use crate::entries::Entries;
use std::marker::Model;

/// Entries by rising keys.
#[derive(Drop)]
pub struct Iter<'a, K: Ord + Copy, V> {
    /// What is left of the block that is gone through.
    pub(crate) left: Entries<'a, K, V>,
    /// The blocks behind it.
    pub(crate) blocks: BoundedIter<'a, K, V>,
}

impl<'a, K: Ord + Copy, V> Model for Iter<'a, K, V> {
    ghost use Rattle.std.specs.Prelude.{List, ◌++◌};
    ghost use Rattle.block_map.specs.Blocks.{entries_of};

    ghost Value = { List (K × V) };

    ghost view = { λ a. a.left ++ entries_of a.blocks };
}

impl<'a, K: Ord + Copy, V: Drop> Iterator for Iter<'a, K, V> {
    ghost use Rattle.std.specs.Prelude.{length};
    ghost use Rattle.std.specs.Iterator.{at_most};
    ghost use Rattle.std.specs.Map.Iter.{TakesFirst, deref_pair};

    type Item = (&'a K, &'a V);

    ghost next_gives = { TakesFirst deref_pair };

    ghost remaining = { λ entries. at_most (length entries) };

    fn next(&mut self) -> Option<(&'a K, &'a V)> {
        loop {
            if let Some(entry) = self.left.take_first() {
                return Some(entry);
            }
            let (_, block) = self.blocks.take_first()?;
            self.left = block.entries();
        }
    }
}
