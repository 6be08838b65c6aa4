//! The map.
ghost use Rattle.std.specs.Prelude.{◌≡◌, ◌+◌, [], true, false, not, None, Some, is_some, if◌then◌else◌, IfNone, IfSome, IsSome, ◌↔◌, IfOk, IsOk, OnErr, OnOk, length, nat_lt};
ghost use Rattle.std.specs.Borrow.{sem};
ghost use Rattle.std.specs.List.Sorted.{IsStrictlySortedBy};
ghost use Rattle.std.specs.Map.{keys_of, lookup, remove_entry};
ghost use Rattle.std.specs.BTreeMap.{insert_entry, is_at};
ghost use Rattle.std.specs.BTreeMap.Range.{entries_between, IsFromStart, IsLeBy};
ghost use Rattle.std.specs.Option.{option_copied, option_copied_mut};
ghost use Rattle.std.specs.declared.ops.Bound.TheVariants.{Unbounded};

use crate::blocks::Blocks;
use crate::iter::Iter;
use range_core::Memory;
use std::alloc::Global;
use std::marker::Model;
use std::mem;
use std::ops::Bound;

/// A map from keys to values, seen as its entries by rising keys.
///
/// Entries lie in blocks of 32: keys that rise leave full blocks behind, and others leave blocks that are half full or more when they were split.
#[derive(Drop)]
pub struct BlockMap<K: Ord + Copy, V> {
    blocks: Blocks<K, V>,
}

impl<K: Ord + Copy, V> Model for BlockMap<K, V> {
    ghost use Rattle.std.specs.Prelude.{List};
    ghost use Rattle.block_map.specs.Kept.{AreInOrder, entries_in};

    ghost Value = { List (K × V) };

    ghost view = { λ a. entries_in a.blocks };

    ghost invariant = { λ a. AreInOrder K.cmp a.blocks };
}

impl<K: Ord + Copy, V: Drop> BlockMap<K, V> {
    ghost use Rattle.block_map.specs.Lending.{LendsEntry};
    ghost use Rattle.block_map.specs.Updates.{Updates};

    /// No entry. It takes no memory.
    pub fn new(alloc: Global) -> Self
        ensures { result ≡ [] }
    {
        BlockMap {
            blocks: Blocks::new(alloc),
        }
    }

    /// Whether there is none.
    pub fn is_empty(&self) -> bool
        ensures { (result ≡ true) ↔ (self.now ≡ []) }
    {
        self.iter().next().is_none()
    }

    /// Whether there are more entries than so many. It looks at no more than that.
    pub fn has_more_than(&self, limit: usize) -> bool
        ensures { result ≡ nat_lt limit (length self.now) }
    {
        let mut entries = self.iter();
        let mut left = limit;
        while entries.next().is_some() {
            if left == 0 {
                return true;
            }
            left -= 1;
        }
        false
    }

    /// The value of the key.
    pub fn get(&self, key: K) -> Option<&V>
        ensures { option_copied result ≡ lookup (is_at (K.cmp key)) self.now }
    {
        self.blocks.get(key)
    }

    /// The value of the key, which may be changed.
    pub fn get_mut(&mut self, key: K) -> Option<&mut V>
        ensures* lends { sem 𝓛 (LendsEntry K.row V.row K.Ord self.entry key result) }
        ensures value { option_copied_mut result ≡ lookup (is_at (K.cmp key)) self.old }
    {
        self.blocks.get_mut(key)
    }

    /// The key has the value. Where it had another, that is the result.
    ///
    /// `Memory` leaves the entries as they were.
    pub fn insert(&mut self, key: K, value: V) -> Result<Option<V>, Memory>
        ensures old { IfOk result (λ old. old ≡ lookup (is_at (K.cmp key)) self.old) }
        ensures ok { OnOk result (self.new ≡ insert_entry K.cmp self.old key value) }
        ensures updates { OnOk result (Updates K.cmp self.old self.new key (Some value)) }
        ensures err { OnErr result (self.new ≡ self.old) }
    {
        if let Some(kept) = self.blocks.get_mut(key) {
            return Ok(Some(mem::replace(kept, value)));
        }
        self.blocks.insert_new(key, value)?;
        Ok(None)
    }

    /// The key has the value, where it had none: whether that is so. Where it had one, nothing changes.
    ///
    /// `Memory`, which never comes where it had one, leaves the entries as they were.
    pub fn insert_new(&mut self, key: K, value: V) -> Result<bool, Memory>
        ensures told { IfOk result (λ is_new. is_new ≡ not (is_some (lookup (is_at (K.cmp key)) self.old))) }
        ensures updates { IfOk result (λ is_new. is_new ≡ true → Updates K.cmp self.old self.new key (Some value)) }
        ensures same { IfOk result (λ is_new. is_new ≡ false → self.new ≡ self.old) }
        ensures there { IsSome (lookup (is_at (K.cmp key)) self.old) → IsOk result }
        ensures err { OnErr result (self.new ≡ self.old) }
    {
        self.blocks.insert_new(key, value)
    }

    /// Takes the key's entry out. It takes no memory.
    pub fn remove(&mut self, key: K) -> Option<V>
        ensures value { result ≡ lookup (is_at (K.cmp key)) self.old }
        ensures entries { self.new ≡ remove_entry (is_at (K.cmp key)) self.old }
        ensures updates { Updates K.cmp self.old self.new key None }
        ensures len { length self.new + (if is_some result then 1 else 0) ≡ length self.old }
    {
        self.blocks.remove(key)
    }

    /// The least key from the bound on.
    pub fn first_from(&self, from: Bound<K>) -> Option<K>
        ensures from { IfSome result (IsFromStart K.cmp from) }
        ensures found { IfSome result (λ key. IsSome (lookup (is_at (K.cmp key)) self.now)) }
        ensures least { IfSome result (λ key. (other : K) → IsFromStart K.cmp from other → IsSome (lookup (is_at (K.cmp other)) self.now) → IsLeBy K.cmp key other) }
        ensures none { IfNone result ((other : K) → IsFromStart K.cmp from other → lookup (is_at (K.cmp other)) self.now ≡ None) }
    {
        let (key, _) = self.blocks.iter_from(&from).next()?;
        Some(*key)
    }

    /// The entries by rising keys.
    pub fn iter(&self) -> Iter<'_, K, V>
        ensures entries { result ≡ self.now }
        ensures sorted { IsStrictlySortedBy K.cmp (keys_of self.now) }
    {
        self.blocks.iter()
    }

    /// The entries from the bound on, by rising keys.
    pub fn iter_from(&self, from: Bound<K>) -> Iter<'_, K, V>
        ensures entries { result ≡ entries_between K.cmp from Unbounded self.now }
        ensures sorted { IsStrictlySortedBy K.cmp (keys_of self.now) }
    {
        self.blocks.iter_from(&from)
    }
}
