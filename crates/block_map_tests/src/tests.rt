//! Maps of numbers beside std's, keys that rise, and what a refused growth leaves.
use block_map::BlockMap;
use range_core::Memory;
use std::alloc::Global;
use std::collections::BTreeMap;
use std::fmt::Debug;
use std::ops::Bound;
use std::process::Abort;
use std::test::Fail;

/// The two are the same.
fn same<T: PartialEq + Debug + Drop>(rt: &impl Abort, left: T, right: T) {
    assert_eq!(rt; left, right);
}

/// A sequence that looks random.
#[derive(Drop)]
struct Draws {
    last: u64,
}

impl Draws {
    /// The next number, below this one.
    fn below(&mut self, limit: u64) -> u64 {
        self.last = self
            .last
            .wrapping_mul(6364136223846793005)
            .wrapping_add(1442695040888963407);
        (self.last >> 33) % limit.max(1)
    }
}

/// A map, and std's with the same entries.
#[derive(Drop)]
struct Pair {
    map: BlockMap<u64, u64>,
    other: BTreeMap<u64, u64>,
}

impl Pair {
    /// Both have the value.
    fn insert(&mut self, rt: &impl Abort, key: u64, value: u64) -> Result<(), Fail> {
        same(
            rt,
            self.map.insert(key, value)?,
            self.other.insert(key, value)?,
        );
        Ok(())
    }

    /// Both have the value, where they had none.
    fn insert_new(&mut self, rt: &impl Abort, key: u64, value: u64) -> Result<(), Fail> {
        let is_new = !self.other.contains_key(&key);
        same(rt, self.map.insert_new(key, value)?, is_new);
        if is_new {
            self.other.insert(key, value)?;
        }
        Ok(())
    }

    /// Neither has the key any more.
    fn remove(&mut self, rt: &impl Abort, key: u64) {
        same(rt, self.map.remove(key), self.other.remove(&key));
    }

    /// Both have another value, if they have one.
    fn raise(&mut self, rt: &impl Abort, key: u64) {
        let raised = match self.map.get_mut(key) {
            Some(value) => {
                *value = value.wrapping_add(1);
                true
            }
            None => false,
        };
        if let Some(value) = self.other.get_mut(&key) {
            *value = value.wrapping_add(1);
            same(rt, raised, true);
        } else {
            same(rt, raised, false);
        }
    }

    /// A change that looks random.
    fn change(&mut self, rt: &impl Abort, draws: &mut Draws, keys: u64) -> Result<(), Fail> {
        let key = draws.below(keys);
        match draws.below(6) {
            0 => self.remove(rt, key),
            1 => self.raise(rt, key),
            2 => self.insert_new(rt, key, draws.below(1000))?,
            _ => self.insert(rt, key, draws.below(1000))?,
        }
        Ok(())
    }

    /// Both give the same entries from the bound on.
    fn tell_alike_from(&self, rt: &impl Abort, from: Bound<u64>) {
        let mut others = self.other.range((from, Bound::Unbounded));
        for (key, value) in self.map.iter_from(from) {
            let other = others.next();
            same(rt, other.map(|entry| *entry.0), Some(*key));
            same(rt, other.map(|entry| *entry.1), Some(*value));
        }
        same(rt, others.next().is_none(), true);
        let first = self.other.range((from, Bound::Unbounded)).next();
        same(rt, self.map.first_from(from), first.map(|entry| *entry.0));
    }

    /// Both tell the same of the key, and of the entries from it on.
    fn tell_alike(&self, rt: &impl Abort, key: u64) {
        same(
            rt,
            self.map.get(key).copied(),
            self.other.get(&key).copied(),
        );
        self.tell_alike_from(rt, Bound::Included(key));
        self.tell_alike_from(rt, Bound::Excluded(key));
        self.tell_alike_from(rt, Bound::Unbounded);
    }

    /// Both have as many entries.
    fn have_as_many(&self, rt: &impl Abort) {
        let count = self.other.len();
        same(rt, self.map.has_more_than(count), false);
        same(rt, self.map.is_empty(), count == 0);
        if count > 0 {
            same(rt, self.map.has_more_than(count.wrapping_sub(1)), true);
        }
    }
}

/// Entries of so many keys come, change and go, and then all go.
fn beside_a_map_of_std(
    rt: &impl Abort,
    alloc: Global,
    keys: u64,
    changes: u64,
) -> Result<(), Fail> {
    let mut pair = Pair {
        map: BlockMap::new(alloc),
        other: BTreeMap::new(alloc),
    };
    let mut draws = Draws { last: keys };
    for change in 0..changes {
        pair.change(rt, &mut draws, keys)?;
        if change % 50 == 0 {
            pair.tell_alike(rt, draws.below(keys));
            pair.have_as_many(rt);
        }
    }
    for key in 0..keys {
        pair.remove(rt, key);
    }
    pair.tell_alike(rt, 0);
    pair.have_as_many(rt);
    Ok(())
}

#[test]
fn few_keys_beside_a_map_of_std(rt: HostRuntime) -> Result<(), Fail> {
    beside_a_map_of_std(&rt, rt.alloc(), 40, 2000)
}

#[test]
fn many_keys_beside_a_map_of_std(rt: HostRuntime) -> Result<(), Fail> {
    beside_a_map_of_std(&rt, rt.alloc(), 2000, 20000)
}

/// Keys rise, and each is found; those of each second go, and the others are found still.
fn rise(rt: &impl Abort, map: &mut BlockMap<u64, u64>) -> Result<(), Memory> {
    for key in 0..100000u64 {
        same(rt, map.insert(key, key.wrapping_mul(3))?, None);
    }
    for key in 0..50000u64 {
        same(
            rt,
            map.remove(key.wrapping_mul(2)),
            Some(key.wrapping_mul(6)),
        );
    }
    Ok(())
}

#[test]
fn rising_keys(rt: HostRuntime) -> Result<(), Fail> {
    let map: &mut BlockMap<u64, u64> = &mut BlockMap::new(rt.alloc());
    rise(&rt, map)?;
    assert!(rt; map.has_more_than(49999) && !map.has_more_than(50000));
    for key in 0..100000u64 {
        let value = if key % 2 == 0 {
            None
        } else {
            Some(key.wrapping_mul(3))
        };
        same(&rt, map.get(key).copied(), value);
    }
    same(&rt, map.first_from(Bound::Excluded(99999)), None);
    Ok(())
}

/// With `--fail-alloc N` one of these entries is refused, and then the map is as it was.
fn grow(rt: &impl Abort, map: &mut BlockMap<u64, u64>) -> Result<(), Memory> {
    for key in 0..70u64 {
        let place = key.wrapping_mul(37) % 71;
        if map.insert_new(place, key).is_err() {
            same(rt, map.get(place), None);
            same(rt, map.has_more_than(key as usize), false);
            map.insert(place, key)?;
        }
        same(rt, map.insert_new(place, 0)?, false);
        same(rt, map.get(place).copied(), Some(key));
    }
    Ok(())
}

#[test]
fn a_refused_entry_leaves_the_map_as_it_was(rt: HostRuntime) -> Result<(), Fail> {
    let map: &mut BlockMap<u64, u64> = &mut BlockMap::new(rt.alloc());
    grow(&rt, map)?;
    assert!(rt; map.has_more_than(69) && !map.has_more_than(70));
    Ok(())
}
