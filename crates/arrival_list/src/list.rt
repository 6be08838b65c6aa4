//! The items in order of arrival.
ghost use Rattle.std.specs.Prelude.{◌≡◌, ◌+◌, ◌<◌, ◌≤◌, ◌↔◌, [], ◌∷◌, ◌++◌, IsOk, IsTrue, OnOk, OnErr, length, slice_get};
ghost use Rattle.std.specs.List.{filter, remove};
ghost use Rattle.arrival_list.specs.Places.{IsPlaceFrom};

use crate::arrived::{Arrived, Counted, From};
use crate::counting::Counting;
use crate::queries::Inner;
use crate::seek::{Sought, at, seek_in};
use range_core::{Memory, counted};
use std::alloc::Global;
use std::marker::Model;
use summary_tree::{Query, Summary, Tree, Walk};

/// Items in order of arrival, and room for more. Places count from 0.
///
/// Nothing but [`ArrivalList::reserve`] takes memory.
#[derive(Drop)]
pub struct ArrivalList<T: Copy, S: Summary<T> + Copy> {
    arrived: Tree<Arrived<T>, Counted<S>>,
    /// The arrival of the next item.
    next: u64,
    room: u64,
}

impl<T: Copy, S: Summary<T> + Copy> Model for ArrivalList<T, S> {
    ghost use Rattle.std.specs.Prelude.{◌+◌, ◌<◌, ◌≤◌, ◌^◌};
    ghost use Rattle.summary_tree.specs.Contents.{Contents};
    ghost use Rattle.arrival_list.specs.Arrivals.{items_of, AreRisingTo};

    ghost Value = { Contents T };

    ghost view = { λ a. record { items = items_of a.arrived.items; room = a.room } };

    ghost invariant = { λ a. AreRisingTo a.next a.arrived.items × (a.room ≤ a.arrived.room) × (a.next + a.room < 2 ^ 64) };
}

impl<T: Copy, S: Summary<T> + Copy> ArrivalList<T, S> {
    /// No item and no room. It takes no memory.
    pub fn new(alloc: Global) -> Self
        ensures items { result.items ≡ [] }
        ensures room { result.room ≡ 0 }
    {
        ArrivalList {
            arrived: Tree::new(alloc),
            next: 0,
            room: 0,
        }
    }

    /// How many items there are.
    pub fn len(&self) -> u64
        ensures { result ≡ length self.now.items }
    {
        self.arrived.len()
    }

    /// Whether there is none.
    pub fn is_empty(&self) -> bool
        ensures { IsTrue result ↔ self.now.items ≡ [] }
    {
        self.arrived.len() == 0
    }

    /// The item at this place; `None` where there are no more items than so many.
    pub fn get(&self, place: u64) -> Option<T>
        ensures { result ≡ slice_get self.now.items place }
    {
        let arrived = at(&self.arrived, place)?;
        Some(arrived.item)
    }

    /// The first place, from this one on, of an item that is looked for.
    pub fn place_from<Q: Query<T, S> + Copy>(&self, from: u64, query: Q) -> Option<u64>
        ensures { IsPlaceFrom (Q.hits query) from self.now.items result }
    {
        match seek_in(&self.arrived, from, Inner(query)) {
            Sought::Found(place, _) => Some(place),
            Sought::Passed(_) => None,
        }
    }

    /// Gathers from all items, in order.
    pub fn walk<F, W: Walk<T, S, F> + Copy>(&self, walk: W, found: &mut F)
        ensures { W.gathers walk found.old [] → W.gathers walk found.new self.now.items }
    {
        self.arrived.walk(&Inner(walk), found)
    }

    /// How many items there are of those that are looked for.
    pub fn count_where<Q: Query<T, S> + Copy>(&self, query: Q) -> u64
        ensures { result ≡ length (filter (Q.hits query) self.now.items) }
    {
        let mut count = 0;
        // The proof reads from it that the items can be counted.
        let all = self.arrived.len();
        self.arrived.walk(&Counting(Inner(query)), &mut count);
        count
    }

    /// Holds room for so many more items in all, counting the room already there.
    ///
    /// `Memory`, which never comes where that room is there, leaves the list as it was.
    pub fn reserve(&mut self, count: u64) -> Result<(), Memory>
        ensures items { self.new.items ≡ self.old.items }
        ensures kept { self.old.room ≤ self.new.room }
        ensures ok { OnOk result (count ≤ self.new.room) }
        ensures there { count ≤ self.old.room → IsOk result }
        ensures err { OnErr result (self.new.room ≡ self.old.room) }
    {
        if self.room < count {
            counted(self.next, count)?;
            self.arrived.reserve(count)?;
            self.room = count;
        }
        Ok(())
    }

    /// The item comes last, in room that was held. It takes no memory.
    pub fn push(&mut self, item: T)
        requires { 0 < self.old.room }
        ensures items { self.new.items ≡ self.old.items ++ item ∷ [] }
        ensures room { self.new.room + 1 ≡ self.old.room }
    {
        let arrival = self.next;
        self.arrived.put(&From(arrival), Arrived { item, arrival });
        self.next += 1;
        self.room -= 1;
    }

    /// Takes out the item at this place, if there is one; the room stays. It takes no memory.
    pub fn take(&mut self, place: u64) -> Option<T>
        ensures item { result ≡ slice_get self.old.items place }
        ensures rest { self.new.items ≡ remove self.old.items place }
        ensures room { self.new.room ≡ self.old.room }
    {
        let arrived = at(&self.arrived, place)?;
        self.arrived.take(&From(arrived.arrival));
        Some(arrived.item)
    }
}
