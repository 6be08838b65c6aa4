//! Entries whose keys lie side by side, apart from their values.
ghost use Rattle.std.specs.Prelude.{◌≡◌, ◌^◌, ◌<◌, ◌≤◌, ◌⊎◌, [], None, IfNone, IfSome, is_some, IsSome, IfOk, IsOk, OnErr, OnOk, length, not, take, drop, true, ◌↔◌, MatchResult};
ghost use Rattle.std.specs.Borrow.{sem};
ghost use Rattle.std.specs.Map.{lookup, remove_entry};
ghost use Rattle.std.specs.BTreeMap.{is_at};
ghost use Rattle.std.specs.List.{HoldsAt};
ghost use Rattle.std.specs.BTreeMap.Range.{entries_between};
ghost use Rattle.std.specs.Option.{option_copied, option_copied_mut};
ghost use Rattle.std.specs.declared.ops.Bound.TheVariants.{Unbounded};

use crate::entries::Entries;
use crate::{BLOCK, STEP};
use range_core::Memory;
use std::alloc::Global;
use std::cmp::Ordering;
use std::marker::Model;
use std::ops::Bound;

/// Entries by rising keys.
///
/// Keys lie apart from values, so that a search touches few lines of memory however large the values are.
#[derive(Drop)]
pub(crate) struct Block<K: Ord + Copy, V> {
    keys: Vec<K>,
    values: Vec<V>,
}

impl<K: Ord + Copy, V> Model for Block<K, V> {
    ghost use Rattle.std.specs.Prelude.{List};
    ghost use Rattle.std.specs.List.{zip};
    ghost use Rattle.block_map.specs.Blocks.{AreKept};

    ghost Value = { List (K × V) };

    ghost view = { λ a. zip a.keys.items a.values.items };

    ghost invariant = { λ a. AreKept K.cmp a.keys.items a.values.items };
}

impl<K: Ord + Copy, V: Drop> Block<K, V> {
    ghost use Rattle.block_map.specs.Blocks.{AreBefore, AreRising, IsFoundAt, IsMissingAt, with_new};
    ghost use Rattle.block_map.specs.Lending.{LendsHere};
    ghost use Rattle.block_map.specs.Sizes.{block_size};

    /// No entry. It takes no memory.
    pub(crate) fn new(alloc: Global) -> Self
        ensures { result ≡ [] }
    {
        Block {
            keys: Vec::new(alloc),
            values: Vec::new(alloc),
        }
    }

    /// Where the key's entry stands, or where one would.
    ///
    /// It steps over several keys at a time, and then goes key by key: unlike in a binary search, no load waits for another.
    #[tactic(auto, using(crate::proofs::Zipped::as_many))]
    pub(crate) fn place_of(&self, key: K) -> Result<usize, usize>
        ensures within { MatchResult result (λ place. place < length self.now) (λ place. place ≤ length self.now) }
        ensures place { MatchResult result (IsFoundAt K.cmp key self.now) (IsMissingAt K.cmp key self.now) }
        ensures rising { AreRising K.cmp self.now }
        ensures fits { length self.now < 2 ^ 64 }
    {
        let mut place = self.stepped_over(key);
        while place < self.keys.len() {
            match self.key_at(place).cmp(&key) {
                Ordering::Less => place += 1,
                Ordering::Equal => return Ok(place),
                Ordering::Greater => return Err(place),
            }
        }
        Err(place)
    }

    /// How many keys can be stepped over, `STEP` at a time: all of them come before the key.
    #[tactic(auto, using(crate::proofs::Zipped::as_many))]
    fn stepped_over(&self, key: K) -> usize
        ensures within { result ≤ length self.now }
        ensures before { AreBefore K.cmp key (take result self.now) }
    {
        let mut place = 0;
        while place + STEP < self.keys.len() && self.key_at(place + STEP) < key {
            place += STEP;
        }
        place
    }

    /// The value of the key.
    #[tactic(auto, using(crate::proofs::Zipped::as_many))]
    pub(crate) fn get(&self, key: K) -> Option<&V>
        ensures { option_copied result ≡ lookup (is_at (K.cmp key)) self.now }
    {
        match self.place_of(key) {
            Ok(place) => Some(&self.values[place]),
            Err(_) => None,
        }
    }

    /// The value of the key, which may be changed.
    #[tactic(auto, using(crate::proofs::Zipped::as_many))]
    pub(crate) fn get_mut(&mut self, key: K) -> Option<&mut V>
        ensures* lends { sem 𝓛 (LendsHere K.row V.row K.Ord self.entry key result) }
        ensures value { option_copied_mut result ≡ lookup (is_at (K.cmp key)) self.old }
    {
        match self.place_of(key) {
            Ok(place) => Some(&mut self.values[place]),
            Err(_) => None,
        }
    }

    /// The key has the value, where it had none: whether that is so. Where it had one, nothing changes.
    ///
    /// `Memory`, which never comes where it had one, leaves the entries as they were.
    #[tactic(auto, using(crate::proofs::Zipped::as_many))]
    pub(crate) fn insert_new(&mut self, key: K, value: V) -> Result<bool, Memory>
        ensures told { IfOk result (λ is_new. is_new ≡ not (is_some (lookup (is_at (K.cmp key)) self.old))) }
        ensures ok { OnOk result (self.new ≡ with_new K.cmp self.old key value) }
        ensures there { IsSome (lookup (is_at (K.cmp key)) self.old) → IsOk result }
        ensures err { OnErr result (self.new ≡ self.old) }
    {
        let Err(place) = self.place_of(key) else {
            return Ok(false);
        };
        self.keys.reserve(1)?;
        self.values.insert(place, value)?;
        // The keys have room for it.
        self.keys.insert(place, key).unwrap();
        Ok(true)
    }

    /// Takes the key's entry out. It takes no memory.
    #[tactic(auto, using(crate::proofs::Zipped::as_many))]
    pub(crate) fn remove(&mut self, key: K) -> Option<V>
        ensures value { result ≡ lookup (is_at (K.cmp key)) self.old }
        ensures entries { self.new ≡ remove_entry (is_at (K.cmp key)) self.old }
    {
        match self.place_of(key) {
            Ok(place) => {
                self.keys.remove(place);
                Some(self.values.remove(place))
            }
            Err(_) => None,
        }
    }

    /// Whether there is no entry.
    #[tactic(auto, using(crate::proofs::Zipped::as_many, crate::proofs::Zipped::no_entry))]
    pub(crate) fn is_empty(&self) -> bool
        ensures { (result ≡ true) ↔ (self.now ≡ []) }
    {
        self.keys.is_empty()
    }

    /// Where there is no room for one more entry, and the key has none: from where on the entries are to go to another block.
    ///
    /// Where the key belongs behind all, only the last entry goes, so that keys that rise leave full blocks behind.
    #[tactic(auto, using(crate::proofs::Zipped::as_many))]
    pub(crate) fn place_to_split(&self, key: K) -> Option<usize>
        ensures some { IfSome result (λ place. (0 < place) × (place < length self.now)) }
        ensures missing { IfSome result (λ place. lookup (is_at (K.cmp key)) self.now ≡ None) }
        ensures none { IfNone result ((length self.now < block_size) ⊎ IsSome (lookup (is_at (K.cmp key)) self.now)) }
    {
        let len = self.keys.len();
        if len < BLOCK || self.place_of(key).is_ok() {
            return None;
        }
        if self.keys[len - 1] < key {
            Some(len - 1)
        } else {
            Some(len / 2)
        }
    }

    /// The key of the entry at this place.
    #[tactic(auto, using(crate::proofs::Zipped::as_many))]
    pub(crate) fn key_at(&self, place: usize) -> K
        requires { place < length self.now }
        ensures key { HoldsAt (λ e. e.0 ≡ result) self.now place }
        ensures rising { AreRising K.cmp self.now }
    {
        self.keys[place]
    }

    /// Takes the entries from this place on out.
    ///
    /// `Memory` leaves the entries as they were.
    #[tactic(auto, using(crate::proofs::Zipped::as_many))]
    pub(crate) fn split_off(&mut self, place: usize) -> Result<Self, Memory>
        requires { place ≤ length self.old }
        ensures ok { OnOk result (self.new ≡ take place self.old) }
        ensures tail { IfOk result (λ tail. tail ≡ drop place self.old) }
        ensures err { OnErr result (self.new ≡ self.old) }
        ensures rising { AreRising K.cmp self.old }
    {
        let keys = Vec::from_slice(*self.keys.allocator(), &self.keys[place..])?;
        let values = self.values.split_off(place)?;
        self.keys.truncate(place);
        Ok(Block { keys, values })
    }

    /// All entries.
    pub(crate) fn entries(&self) -> Entries<'_, K, V>
        ensures { result ≡ self.now }
    {
        Entries::new(&self.keys, &self.values)
    }

    /// Where the entries from the bound on begin.
    fn place_from(&self, from: &Bound<K>) -> usize
        ensures within { result ≤ length self.now }
        ensures entries { drop result self.now ≡ entries_between K.cmp from.now Unbounded self.now }
    {
        match from {
            Bound::Unbounded => 0,
            Bound::Included(key) => match self.place_of(*key) {
                Ok(place) => place,
                Err(place) => place,
            },
            Bound::Excluded(key) => match self.place_of(*key) {
                Ok(place) => place + 1,
                Err(place) => place,
            },
        }
    }

    /// The entries from the bound on.
    #[tactic(auto, using(crate::proofs::Zipped::as_many))]
    pub(crate) fn entries_from(&self, from: &Bound<K>) -> Entries<'_, K, V>
        ensures { result ≡ entries_between K.cmp from.now Unbounded self.now }
    {
        let place = self.place_from(from);
        Entries::new(&self.keys[place..], &self.values[place..])
    }
}
