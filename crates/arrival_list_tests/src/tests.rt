//! A list of numbers against a vector that is searched from its front.
ghost use Rattle.std.specs.Prelude.{true, false, ◌≡◌};
ghost use Rattle.std.specs.Bool.{nat_le};

use arrival_list::ArrivalList;
use range_core::Memory;
use std::alloc::Global;
use std::fmt::Debug;
use std::process::Abort;
use summary_tree::{Query, Summary, Walk};

/// The greatest number.
#[derive(Clone, Copy)]
struct Greatest(u64);

impl Summary<u64> for Greatest {
    ghost tells = { λ _ _. Unit {0} };

    fn none() -> Greatest {
        Greatest(0)
    }

    fn add(&mut self, number: &u64) {
        self.0 = self.0.max(*number);
    }

    fn leave(&mut self, number: &u64) -> bool {
        *number < self.0
    }

    fn append(&mut self, more: &Greatest) {
        self.0 = self.0.max(more.0);
    }
}

/// Numbers from this one on. What is told of many isn't proved here, so each is looked at.
#[derive(Clone, Copy)]
struct From(u64);

impl Query<u64, Greatest> for From {
    ghost hits = { λ query number. nat_le query.0 number };

    fn hits(&self, number: &u64) -> bool {
        self.0 <= *number
    }

    fn may_hit(&self, _greatest: &Greatest) -> bool {
        true
    }
}

/// All numbers, as the digits of one.
#[derive(Clone, Copy)]
struct Digits;

impl Walk<u64, Greatest, u64> for Digits {
    ghost gathers = { λ _ _ _. Unit {0} };

    fn see(&self, found: &mut u64, number: &u64) {
        *found = found.wrapping_mul(10).wrapping_add(*number);
    }

    fn see_all(&self, _found: &mut u64, _greatest: &Greatest) -> bool {
        false
    }
}

/// The next number of a sequence that looks random.
fn next(seed: u64) -> u64 {
    seed.wrapping_mul(6364136223846793005)
        .wrapping_add(1442695040888963407)
}

/// The two are the same.
fn same<T: PartialEq + Debug + Drop>(rt: &impl Abort, left: T, right: T) {
    assert_eq!(rt; left, right);
}

/// The place of the first number from a place on that is at least so great, and how many are.
fn found_plainly(numbers: &[u64], from: u64, least: u64) -> (Option<u64>, u64) {
    let mut first = None;
    let mut count = 0u64;
    for (place, number) in numbers.iter().enumerate() {
        if least <= *number {
            count = count.wrapping_add(1);
            if first.is_none() && from <= place as u64 {
                first = Some(place as u64);
            }
        }
    }
    (first, count)
}

/// A list and a vector with the same numbers.
#[derive(Drop)]
struct Both {
    list: ArrivalList<u64, Greatest>,
    plain: Vec<u64>,
}

impl Both {
    fn new(alloc: Global) -> Both {
        Both {
            list: ArrivalList::new(alloc),
            plain: Vec::new(alloc),
        }
    }

    fn push(&mut self, number: u64) -> Result<(), Memory> {
        self.list.reserve(1)?;
        self.list.push(number);
        self.plain.push(number)?;
        Ok(())
    }

    /// Takes out the number at a place, where there is one.
    fn take(&mut self, rt: &impl Abort, place: u64) {
        let taken = self.list.take(place);
        let due = if (place as usize) < self.plain.len() {
            Some(self.plain.remove(place as usize))
        } else {
            None
        };
        same(rt, taken, due);
    }

    /// What is asked of both is the same.
    fn compare(&self, rt: &impl Abort, from: u64, least: u64) {
        same(rt, self.list.len(), self.plain.len() as u64);
        same(rt, self.list.is_empty(), self.plain.is_empty());
        let (first, count) = found_plainly(&self.plain, from, least);
        same(rt, self.list.place_from(from, From(least)), first);
        same(rt, self.list.count_where(From(least)), count);
        let number = self.plain.get(from as usize).copied();
        same(rt, self.list.get(from), number);
    }
}

/// Numbers come, and go from the midst.
#[test]
fn numbers_come_and_go(rt: HostRuntime) -> Result<(), Memory> {
    let mut both = Both::new(rt.alloc());
    let mut seed = 7u64;
    for step in 0..600u64 {
        seed = next(seed);
        let (number, place) = ((seed >> 33) % 1000, (seed >> 43) % 300);
        // More come at first, and more go at last.
        if (seed >> 53) % 600 >= step {
            both.push(number)?;
        } else {
            both.take(&rt, place);
        }
        both.compare(&rt, place, number);
    }
    Ok(())
}

/// The numbers are gone through in order of arrival.
#[test]
fn goes_through_all(rt: HostRuntime) -> Result<(), Memory> {
    let mut both = Both::new(rt.alloc());
    for number in 1..8u64 {
        both.push(number)?;
    }
    both.take(&rt, 2);
    let mut digits = 0;
    both.list.walk(Digits, &mut digits);
    same(&rt, digits, 124567);
    Ok(())
}

/// With `--fail-alloc N` one of these growths is refused, and then the list is as it was.
#[test]
fn a_refused_growth_leaves_the_list_as_it_was(rt: HostRuntime) -> Result<(), Memory> {
    let mut list: ArrivalList<u64, Greatest> = ArrivalList::new(rt.alloc());
    for number in 0..70u64 {
        if list.reserve(2).is_err() {
            same(&rt, list.len(), number);
            list.reserve(2)?;
        }
        list.push(number);
    }
    same(&rt, list.len(), 70);
    Ok(())
}
