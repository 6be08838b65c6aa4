//! Blocks behind their bounds.
ghost use Rattle.std.specs.Prelude.{◌≡◌, [], None, Some, IfOk, is_some, IsOk, IsSome, not, OnErr, OnOk};
ghost use Rattle.std.specs.Borrow.{sem};
ghost use Rattle.std.specs.Map.{lookup, remove_entry};
ghost use Rattle.std.specs.BTreeMap.{is_at};
ghost use Rattle.std.specs.BTreeMap.Range.{entries_between};
ghost use Rattle.std.specs.Option.{option_copied, option_copied_mut};
ghost use Rattle.std.specs.declared.ops.Bound.TheVariants.{Unbounded};

use crate::block::Block;
use crate::bounded::Bounded;
use crate::iter::Iter;
use range_core::Memory;
use std::alloc::Global;
use std::ops::Bound;

/// Entries by rising keys: first those before all bounds, and then those of each block, from its bound on, before the next.
#[derive(Drop)]
pub(crate) struct Blocks<K: Ord + Copy, V> {
    first: Block<K, V>,
    others: Bounded<K, V>,
    alloc: Global,
}

impl<K: Ord + Copy, V: Drop> Blocks<K, V> {
    ghost use Rattle.block_map.specs.Blocks.{block_for as block_in, bound_for as bound_in, bound_from, with_new};
    ghost use Rattle.block_map.specs.Kept.{AreInOrder, block_at, entries_in, HasPlace, KeepsEntries};
    ghost use Rattle.block_map.specs.Lending.{LendsBlock, LendsValue};

    /// No entry. It takes no memory.
    pub(crate) fn new(alloc: Global) -> Self
        ensures entries { entries_in result ≡ [] }
        ensures parted { AreInOrder K.cmp result }
    {
        Blocks {
            first: Block::new(alloc),
            others: Bounded::new(alloc),
            alloc,
        }
    }

    /// The key's block, and its bound where it isn't the first.
    fn block_for(&self, key: K) -> (Option<K>, &Block<K, V>)
        requires { AreInOrder K.cmp self.now }
        ensures bound { result.0 ≡ bound_in K.cmp key self.now.others.entries }
        ensures block { result.1.now ≡ block_in K.cmp key self.now.first self.now.others.entries }
    {
        match self.others.last_upto(key) {
            Some((bound, place)) => (Some(bound), self.others.at(place).unwrap()),
            None => (None, &self.first),
        }
    }

    /// The key's block, which may be changed. One way down leads there.
    fn block_for_mut(&mut self, key: K) -> Option<&mut Block<K, V>>
        requires { AreInOrder K.cmp self.old }
        ensures* lends { sem 𝓛 (LendsBlock K.row V.row K.Ord self.entry (bound_in K.cmp key self.old.others.entries) result) }
        ensures value { option_copied_mut result ≡ Some (block_in K.cmp key self.old.first self.old.others.entries) }
    {
        match self.others.last_upto(key) {
            Some((_, place)) => self.others.at_mut(place),
            None => Some(&mut self.first),
        }
    }

    /// The bound of the key's block, where it isn't the first.
    fn bound_for(&self, key: K) -> Option<K>
        requires { AreInOrder K.cmp self.now }
        ensures { result ≡ bound_in K.cmp key self.now.others.entries }
    {
        self.block_for(key).0
    }

    /// The block behind the bound, or the first.
    fn block(&self, bound: Option<K>) -> Option<&Block<K, V>>
        ensures { option_copied result ≡ block_at K.cmp bound self.now }
    {
        match bound {
            None => Some(&self.first),
            Some(bound) => self.others.get(bound),
        }
    }

    /// The block behind the bound, or the first, which may be changed.
    fn block_mut(&mut self, bound: Option<K>) -> Option<&mut Block<K, V>>
        ensures* lends { sem 𝓛 (LendsBlock K.row V.row K.Ord self.entry bound result) }
        ensures value { option_copied_mut result ≡ block_at K.cmp bound self.old }
    {
        match bound {
            None => Some(&mut self.first),
            Some(bound) => self.others.get_mut(bound),
        }
    }

    /// The value of the key.
    pub(crate) fn get(&self, key: K) -> Option<&V>
        requires { AreInOrder K.cmp self.now }
        ensures { option_copied result ≡ lookup (is_at (K.cmp key)) (entries_in self.now) }
    {
        self.block_for(key).1.get(key)
    }

    /// The value of the key, which may be changed.
    pub(crate) fn get_mut(&mut self, key: K) -> Option<&mut V>
        requires { AreInOrder K.cmp self.old }
        ensures* lends { sem 𝓛 (LendsValue K.row V.row K.Ord self.entry key result) }
        ensures value { option_copied_mut result ≡ lookup (is_at (K.cmp key)) (entries_in self.old) }
    {
        self.block_for_mut(key)?.get_mut(key)
    }

    /// The key has the value, where it had none: whether that is so. Where it had one, nothing changes.
    ///
    /// `Memory`, which never comes where it had one, leaves the entries as they were.
    pub(crate) fn insert_new(&mut self, key: K, value: V) -> Result<bool, Memory>
        requires { AreInOrder K.cmp self.old }
        ensures told { IfOk result (λ is_new. is_new ≡ not (is_some (lookup (is_at (K.cmp key)) (entries_in self.old)))) }
        ensures ok { OnOk result (entries_in self.new ≡ with_new K.cmp (entries_in self.old) key value) }
        ensures there { IsSome (lookup (is_at (K.cmp key)) (entries_in self.old)) → IsOk result }
        ensures err { OnErr result (entries_in self.new ≡ entries_in self.old) }
        ensures parted { AreInOrder K.cmp self.new }
    {
        let block = self.block_for_mut(key).unwrap();
        let Some(place) = block.place_to_split(key) else {
            return block.insert_new(key, value);
        };
        self.make_room(key, place)?;
        self.block_for_mut(key).unwrap().insert_new(key, value)
    }

    /// The entries of the key's block from this place on go to a block of their own.
    ///
    /// `Memory` leaves the entries as they were.
    fn make_room(&mut self, key: K, place: usize) -> Result<(), Memory>
        requires parted { AreInOrder K.cmp self.old }
        requires place { HasPlace (Some (block_in K.cmp key self.old.first self.old.others.entries)) place }
        ensures { KeepsEntries K.cmp self.old self.new }
    {
        let bound = self.bound_for(key);
        self.split(bound, place)
    }

    /// The entries of a block from this place on go to a block of their own.
    ///
    /// `Memory` leaves the entries as they were.
    fn split(&mut self, bound: Option<K>, place: usize) -> Result<(), Memory>
        requires parted { AreInOrder K.cmp self.old }
        requires place { HasPlace (block_at K.cmp bound self.old) place }
        ensures { KeepsEntries K.cmp self.old self.new }
    {
        let behind = self.block(bound).unwrap().key_at(place);
        self.others.insert(behind, Block::new(self.alloc))?;
        // From here on, what fails takes the empty block out again.
        match self.block_mut(bound).unwrap().split_off(place) {
            Ok(tail) => {
                *self.others.get_mut(behind).unwrap() = tail;
                Ok(())
            }
            Err(memory) => {
                self.others.remove(behind);
                Err(memory)
            }
        }
    }

    /// Takes the key's entry out. It takes no memory.
    pub(crate) fn remove(&mut self, key: K) -> Option<V>
        requires { AreInOrder K.cmp self.old }
        ensures value { result ≡ lookup (is_at (K.cmp key)) (entries_in self.old) }
        ensures entries { entries_in self.new ≡ remove_entry (is_at (K.cmp key)) (entries_in self.old) }
        ensures parted { AreInOrder K.cmp self.new }
    {
        let block = self.block_for_mut(key).unwrap();
        let value = block.remove(key);
        if block.is_empty() {
            self.drop_empty(key);
        }
        value
    }

    /// The key's block, which has no entry, goes, unless it is the first. It takes no memory.
    fn drop_empty(&mut self, key: K)
        requires parted { AreInOrder K.cmp self.old }
        requires empty { block_in K.cmp key self.old.first self.old.others.entries ≡ [] }
        ensures { KeepsEntries K.cmp self.old self.new }
    {
        if let Some(bound) = self.bound_for(key) {
            self.others.remove(bound);
        }
    }

    /// The entries by rising keys.
    pub(crate) fn iter(&self) -> Iter<'_, K, V>
        ensures { result ≡ entries_in self.now }
    {
        Iter {
            left: self.first.entries(),
            blocks: self.others.behind(None),
        }
    }

    /// The entries from the bound on, by rising keys.
    pub(crate) fn iter_from(&self, from: &Bound<K>) -> Iter<'_, K, V>
        requires { AreInOrder K.cmp self.now }
        ensures { result ≡ entries_between K.cmp from.now Unbounded (entries_in self.now) }
    {
        let bound = self.bound_from(from);
        Iter {
            left: self.block(bound).unwrap().entries_from(from),
            blocks: self.others.behind(bound),
        }
    }

    /// The bound of the block where the entries from this one on begin, where it isn't the first.
    fn bound_from(&self, from: &Bound<K>) -> Option<K>
        requires { AreInOrder K.cmp self.now }
        ensures { result ≡ bound_from K.cmp from.now self.now.others.entries }
    {
        match from {
            Bound::Unbounded => None,
            Bound::Included(key) => self.bound_for(*key),
            Bound::Excluded(key) => self.bound_for(*key),
        }
    }
}
