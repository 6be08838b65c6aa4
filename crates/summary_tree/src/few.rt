//! Few items, side by side.
ghost use Rattle.std.specs.Prelude.{◌≡◌, ◌+◌, ◌<◌, ◌≤◌, [], length, true, false, None, IfNone, IfOk, IfSome, IsOk, OnOk, OnErr};
ghost use Rattle.std.specs.List.{find, position_or_len};
ghost use Rattle.summary_tree.specs.Cuts.{put_before, with_first, without_first};
ghost use Rattle.summary_tree.specs.Sizes.{block_size};

use crate::many::Many;
use crate::{BLOCK, Cut, Summary, slices};
use range_core::Memory;
use std::alloc::Global;
use std::marker::Model;

/// A list of items, and room for more: no more in all than a block takes.
#[derive(Drop)]
pub(crate) struct Few<T: Copy> {
    items: Vec<T>,
    /// For how many more items room is held.
    room: u64,
}

impl<T: Copy> Model for Few<T> {
    ghost use Rattle.std.specs.Prelude.{◌+◌, ◌≤◌, vec_len, vec_capacity};
    ghost use Rattle.summary_tree.specs.Contents.{Contents};
    ghost use Rattle.summary_tree.specs.Sizes.{block_size};

    ghost Value = { Contents T };

    ghost view = { λ a. record { items = a.items.items; room = a.room } };

    ghost invariant = { λ a. (vec_len a.items + a.room ≤ vec_capacity a.items) × (vec_len a.items + a.room ≤ block_size) };
}

impl<T: Copy> Few<T> {
    /// No item and no room. It takes no memory.
    pub(crate) fn new(alloc: Global) -> Self
        ensures items { result.items ≡ [] }
        ensures room { result.room ≡ 0 }
    {
        Few {
            items: Vec::new(alloc),
            room: 0,
        }
    }

    /// The items.
    pub(crate) fn items(&self) -> &[T]
        ensures items { result.now ≡ self.now.items }
        ensures few { length result.now ≤ block_size }
    {
        &self.items
    }

    /// For how many more items there is room.
    pub(crate) fn room(&self) -> u64
        ensures { result ≡ self.now.room }
    {
        self.room
    }

    /// Whether they are still few with so many more.
    fn fits(&self, count: u64) -> bool
        ensures yes { result ≡ true → length self.now.items + count ≤ block_size }
        ensures no { result ≡ false → self.now.room < count }
    {
        count <= (BLOCK - self.items.len()) as u64
    }

    /// Holds room for so many more items in all, counting the room already there; or, where that is more than a block takes, gives
    /// these items in nodes, with that room.
    ///
    /// `Memory`, which never comes where that room is there, leaves the items as they were.
    pub(crate) fn grow<S: Summary<T> + Copy>(
        &mut self,
        alloc: Global,
        count: u64,
    ) -> Result<Option<Many<T, S>>, Memory>
        ensures items { self.new.items ≡ self.old.items }
        ensures many { IfOk result (λ many. IfSome many (λ many. many.items ≡ self.old.items)) }
        ensures room { IfOk result (λ many. IfSome many (λ many. (self.old.room ≤ many.room) × (count ≤ many.room))) }
        ensures few { IfOk result (λ many. IfNone many ((self.old.room ≤ self.new.room) × (count ≤ self.new.room))) }
        ensures there { count ≤ self.old.room → IsOk result }
        ensures err { OnErr result (self.new.room ≡ self.old.room) }
    {
        if self.fits(count) {
            self.reserve(count)?;
            return Ok(None);
        }
        let mut many = Many::of(alloc, &self.items)?;
        many.reserve(count)?;
        Ok(Some(many))
    }

    /// Holds room for so many more items in all, counting the room already there, where that is no more than a block takes.
    ///
    /// `Memory`, which never comes where that room is there, leaves the items as they were.
    fn reserve(&mut self, count: u64) -> Result<(), Memory>
        requires { length self.old.items + count ≤ block_size }
        ensures items { self.new.items ≡ self.old.items }
        ensures kept { self.old.room ≤ self.new.room }
        ensures ok { OnOk result (count ≤ self.new.room) }
        ensures there { count ≤ self.old.room → IsOk result }
        ensures err { OnErr result (self.new.room ≡ self.old.room) }
    {
        if self.room < count {
            self.items.reserve(count as usize)?;
            self.room = count;
        }
        Ok(())
    }

    /// Puts an item in before the first that stands at a place or behind it, and uses up room for one. It takes no memory.
    #[tactic(auto, using(crate::proofs::Splits::put_at_place, crate::proofs::Splits::length_put, crate::proofs::Splits::place_le))]
    pub(crate) fn put<C: Cut<T>>(&mut self, cut: &C, item: T)
        requires { 0 < self.old.room }
        ensures items { self.new.items ≡ put_before (C.is_behind cut.now) item self.old.items }
        ensures room { self.new.room + 1 ≡ self.old.room }
    {
        let place = slices::place_of(&self.items, cut);
        self.items.insert(place, item).unwrap();
        self.room -= 1;
    }

    /// Where the first item stands that stands at a place or behind it, if one does.
    #[tactic(auto, using(crate::proofs::ListLemmas::none_at_end, crate::proofs::Splits::place_le))]
    fn place_of<C: Cut<T>>(&self, cut: &C) -> Option<usize>
        ensures some { IfSome result (λ place. (place ≡ position_or_len (C.is_behind cut.now) self.now.items) × (place < length self.now.items)) }
        ensures none { IfNone result (find (C.is_behind cut.now) self.now.items ≡ None) }
    {
        let place = slices::place_of(&self.items, cut);
        if place < self.items.len() {
            Some(place)
        } else {
            None
        }
    }

    /// Takes out the first item that stands at a place or behind it; the room stays.
    #[tactic(auto, using(crate::proofs::ListLemmas::all_stay, crate::proofs::ListLemmas::found_at, crate::proofs::Splits::without_at_place))]
    pub(crate) fn take<C: Cut<T>>(&mut self, cut: &C) -> Option<T>
        ensures item { result ≡ find (C.is_behind cut.now) self.old.items }
        ensures rest { self.new.items ≡ without_first (C.is_behind cut.now) self.old.items }
        ensures room { self.new.room ≡ self.old.room }
    {
        let place = self.place_of(cut)?;
        Some(self.items.remove(place))
    }

    /// Puts another item in place of the first that stands at a place or behind it, and hands that one out; the room stays.
    #[tactic(auto, using(crate::proofs::ListLemmas::all_kept, crate::proofs::ListLemmas::found_at, crate::proofs::Splits::with_at_place))]
    pub(crate) fn replace<C: Cut<T>>(&mut self, cut: &C, item: T) -> Option<T>
        ensures item { result ≡ find (C.is_behind cut.now) self.old.items }
        ensures items { self.new.items ≡ with_first (C.is_behind cut.now) item self.old.items }
        ensures room { self.new.room ≡ self.old.room }
    {
        let place = self.place_of(cut)?;
        let replaced = self.items[place];
        self.items[place] = item;
        Some(replaced)
    }
}
