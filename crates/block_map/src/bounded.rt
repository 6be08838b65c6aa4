//! Blocks behind their bounds.
ghost use Rattle.std.specs.Prelude.{◌≡◌, [], None, IfSome, Some, OnErr, OnOk, option_map};
ghost use Rattle.std.specs.Borrow.{sem};
ghost use Rattle.std.specs.Map.{lookup, remove_entry};
ghost use Rattle.std.specs.Map.Iter.{TakesFirst, deref_pair};
ghost use Rattle.std.specs.BTreeMap.{insert_entry, is_at};
ghost use Rattle.std.specs.BTreeMap.Range.{entries_between};
ghost use Rattle.std.specs.Option.{option_copied, option_copied_mut};
ghost use Rattle.std.specs.declared.ops.Bound.TheVariants.{Included, Unbounded};
ghost use Rattle.block_map.specs.Places.{behind_bound, IsPlace, last_bound};

use crate::block::Block;
use range_core::Memory;
use slab::Slab;
use std::alloc::Global;
use std::collections::BTreeMap;
use std::collections::btree_map::Range;
use std::marker::Model;
use std::ops::Bound;

/// Blocks by rising bounds.
///
/// Each block stands at a place of its own in a slab, and stays there while other bounds come and go.
/// So what tells a key's bound tells its block's place too, and no second way down leads to the block.
#[derive(Drop)]
pub(crate) struct Bounded<K: Ord + Copy, V> {
    places: BTreeMap<K, usize>,
    blocks: Slab<Block<K, V>>,
}

impl<K: Ord + Copy, V> Model for Bounded<K, V> {
    ghost use Rattle.block_map.specs.Places.{ArePlaced, placed_blocks, PlacedBlocks};

    ghost Value = { PlacedBlocks K (K × V) };

    ghost view = { λ a. placed_blocks a.places.entries a.blocks };

    ghost invariant = { λ a. ArePlaced a.places.entries a.blocks };
}

impl<K: Ord + Copy, V: Drop> Bounded<K, V> {
    ghost use Rattle.block_map.specs.Lending.{LendsBehind, LendsPlace};

    /// No block. It takes no memory.
    pub(crate) fn new(alloc: Global) -> Self
        ensures { result.entries ≡ [] }
    {
        Bounded {
            places: BTreeMap::new(alloc),
            blocks: Slab::new(alloc),
        }
    }

    /// The last bound that is the key or comes before it, and the place of its block.
    pub(crate) fn last_upto(&self, key: K) -> Option<(K, usize)>
        ensures bound { option_map (λ found. found.0) result ≡ last_bound (entries_between K.cmp Unbounded (Included key) self.now.entries) }
        ensures place { IfSome result (λ found. lookup (is_at (K.cmp found.0)) self.now.places ≡ Some found.1) }
    {
        let mut upto = self.places.range((Bound::Unbounded, Bound::Included(key)));
        let (bound, place) = upto.next_back()?;
        Some((*bound, *place))
    }

    /// The block at this place: that of whichever bound has it.
    pub(crate) fn at(&self, place: usize) -> Option<&Block<K, V>>
        ensures { (bound : K) → lookup (is_at (K.cmp bound)) self.now.places ≡ Some place → option_copied result ≡ lookup (is_at (K.cmp bound)) self.now.entries }
    {
        self.blocks.get(place)
    }

    /// The block at this place, which may be changed: that of whichever bound has it.
    pub(crate) fn at_mut(&mut self, place: usize) -> Option<&mut Block<K, V>>
        requires { IsPlace K.cmp self.old.places place }
        ensures* lends { sem 𝓛 (LendsPlace K.row V.row K.Ord self.entry place result) }
        ensures value { (bound : K) → lookup (is_at (K.cmp bound)) self.old.places ≡ Some place → option_copied_mut result ≡ lookup (is_at (K.cmp bound)) self.old.entries }
    {
        self.blocks.get_mut(place)
    }

    /// The block behind the bound.
    pub(crate) fn get(&self, bound: K) -> Option<&Block<K, V>>
        ensures { option_copied result ≡ lookup (is_at (K.cmp bound)) self.now.entries }
    {
        let place = *self.places.get(&bound)?;
        self.blocks.get(place)
    }

    /// The block behind the bound, which may be changed.
    pub(crate) fn get_mut(&mut self, bound: K) -> Option<&mut Block<K, V>>
        ensures* lends { sem 𝓛 (LendsBehind K.row V.row K.Ord self.entry bound result) }
        ensures value { option_copied_mut result ≡ lookup (is_at (K.cmp bound)) self.old.entries }
    {
        let place = *self.places.get(&bound)?;
        self.blocks.get_mut(place)
    }

    /// The bound comes, with the block.
    ///
    /// `Memory` leaves the blocks as they were.
    pub(crate) fn insert(&mut self, bound: K, block: Block<K, V>) -> Result<(), Memory>
        requires { lookup (is_at (K.cmp bound)) self.old.entries ≡ None }
        ensures ok { OnOk result (self.new.entries ≡ insert_entry K.cmp self.old.entries bound block) }
        ensures err { OnErr result (self.new.entries ≡ self.old.entries) }
    {
        self.blocks.reserve(1)?;
        let place = self.blocks.vacant_key();
        self.places.insert(bound, place)?;
        // The slab has room for it, at this place.
        self.blocks.insert_reserved(block);
        Ok(())
    }

    /// The bound goes, and its block. It takes no memory.
    pub(crate) fn remove(&mut self, bound: K)
        ensures { self.new.entries ≡ remove_entry (is_at (K.cmp bound)) self.old.entries }
    {
        if let Some(place) = self.places.remove(&bound) {
            self.blocks.remove(place);
        }
    }

    /// The blocks behind that of the bound, or all.
    pub(crate) fn behind(&self, bound: Option<K>) -> BoundedIter<'_, K, V>
        ensures { result ≡ entries_between K.cmp (behind_bound bound) Unbounded self.now.entries }
    {
        let from = match bound {
            None => Bound::Unbounded,
            Some(bound) => Bound::Excluded(bound),
        };
        BoundedIter {
            places: self.places.range((from, Bound::Unbounded)),
            blocks: &self.blocks,
        }
    }
}

/// Blocks that are left, by rising bounds.
#[derive(Drop)]
pub(crate) struct BoundedIter<'a, K: Ord + Copy, V> {
    places: Range<'a, K, usize>,
    blocks: &'a Slab<Block<K, V>>,
}

impl<'a, K: Ord + Copy, V> Model for BoundedIter<'a, K, V> {
    ghost use Rattle.std.specs.Prelude.{List};
    ghost use Rattle.block_map.specs.Places.{AreThere, blocks_at};

    ghost Value = { List (K × List (K × V)) };

    ghost view = { λ a. blocks_at a.places a.blocks.now };

    ghost invariant = { λ a. AreThere a.places a.blocks.now };
}

impl<'a, K: Ord + Copy, V: Drop> BoundedIter<'a, K, V> {
    /// Takes the first block out.
    pub(crate) fn take_first(&mut self) -> Option<(&'a K, &'a Block<K, V>)>
        ensures { TakesFirst deref_pair self.old result self.new }
    {
        let (bound, place) = self.places.next()?;
        Some((bound, self.blocks.get(*place)?))
    }
}
