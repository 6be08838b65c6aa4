//! Items that lie side by side.
ghost use Rattle.std.specs.Prelude.{◌≡◌, ◌+◌, ◌-◌, ◌<◌, ◌≤◌, [], ◌∷◌, ◌++◌, length, take, drop, true, None, Some, IfOk, slice_index_or, slice_set, List};
ghost use Rattle.std.specs.List.{find, last_or, position_or_len, slice_get, insert, remove};
ghost use Rattle.summary_tree.specs.Blocks.{AreEnds};
ghost use Rattle.summary_tree.specs.Cuts.{before, both, first_passes, last_passes, put_before, with_first, without_first};
ghost use Rattle.summary_tree.specs.Sizes.{block_size, part_size};

use crate::{BLOCK, Beside, Cut, PART, Query, Summary, Walk, slices};
use std::alloc::{AllocError, Global};
use std::marker::Model;

/// Up to [`BLOCK`] items in order, and what is kept of them. The ends lie beside the sides of a node, so a search goes past a block
/// without a look at its items, which lie elsewhere.
#[derive(Drop)]
pub(crate) struct Block<T: Copy, S: Summary<T> + Copy> {
    ends: Ends<T>,
    items: Vec<T>,
    summary: S,
}

/// The first item and the last, if there are any.
#[derive(Clone, Copy)]
struct Ends<T: Copy> {
    first: Option<T>,
    last: Option<T>,
}

impl<T: Copy, S: Summary<T> + Copy> Model for Block<T, S> {
    ghost use Rattle.std.specs.Prelude.{List, ◌≤◌, vec_len, vec_capacity};
    ghost use Rattle.summary_tree.specs.Blocks.{AreEnds};
    ghost use Rattle.summary_tree.specs.Sizes.{block_size};

    ghost Value = { List T };

    ghost view = { λ a. a.items.items };

    ghost invariant = { λ a. S.tells a.summary a.items.items × (block_size ≤ vec_capacity a.items) × (vec_len a.items ≤ block_size) × AreEnds a.ends a.items.items };
}

impl<T: Copy, S: Summary<T> + Copy> Block<T, S> {
    /// No item.
    pub(crate) fn new(alloc: Global) -> Result<Self, AllocError>
        ensures { IfOk result (λ block. block ≡ []) }
    {
        let items = Vec::with_capacity(alloc, BLOCK)?;
        Ok(Block {
            ends: ends_of(&items),
            items,
            summary: S::none(),
        })
    }

    /// How many items there are.
    pub(crate) fn len(&self) -> usize
        ensures len { result ≡ length self.now }
        ensures few { result ≤ block_size }
    {
        self.items.len()
    }

    /// How many items there are beyond those that a part of a split block may have.
    pub(crate) fn excess(&self) -> u64
        ensures { result ≡ length self.now - part_size }
    {
        self.items.len().saturating_sub(PART) as u64
    }

    /// The summary of the items.
    pub(crate) fn summary(&self) -> S
        ensures { S.tells result self.now }
    {
        self.summary
    }

    /// The first item that is looked for.
    pub(crate) fn first_where<Q: Query<T, S>>(&self, query: &Q) -> Option<T>
        ensures { result ≡ find (Q.hits query.now) self.now }
    {
        if !query.may_hit(&self.summary) {
            return None;
        }
        slices::first_where(&self.items, query)
    }

    /// The first item from a place on that is looked for.
    pub(crate) fn first_where_from<C: Cut<T>, Q: Query<T, S>>(
        &self,
        cut: &C,
        query: &Q,
    ) -> Option<T>
        ensures { result ≡ find (both (C.is_behind cut.now) (Q.hits query.now)) self.now }
    {
        slices::first_where_from(&self.items, cut, query)
    }

    /// The first item from a place on.
    pub(crate) fn first_from<C: Cut<T>>(&self, cut: &C) -> Option<T>
        ensures { result ≡ find (C.is_behind cut.now) self.now }
    {
        slices::first_from(&self.items, cut)
    }

    /// The last item before a place, and the first from it on.
    pub(crate) fn beside<C: Cut<T>>(&self, cut: &C) -> Beside<T>
        ensures before { result.before ≡ last_or None (before (C.is_behind cut.now) self.now) }
        ensures behind { result.behind ≡ find (C.is_behind cut.now) self.now }
    {
        slices::beside(&self.items, cut)
    }

    /// The first item.
    pub(crate) fn first(&self) -> Option<T>
        ensures { result ≡ slice_get self.now 0 }
    {
        self.ends.first
    }

    /// The last item.
    pub(crate) fn last(&self) -> Option<T>
        ensures { result ≡ last_or None self.now }
    {
        self.ends.last
    }

    /// Gathers from all items.
    pub(crate) fn walk<F, W: Walk<T, S, F>>(&self, walk: &W, found: &mut F)
        ensures { (seen : List T) → W.gathers walk.now found.old seen → W.gathers walk.now found.new (seen ++ self.now) }
    {
        if walk.see_all(found, &self.summary) {
            return;
        }
        slices::walk(&self.items, walk, found);
    }

    /// Gathers from the items before a place.
    pub(crate) fn walk_before<C: Cut<T>, F, W: Walk<T, S, F>>(
        &self,
        cut: &C,
        walk: &W,
        found: &mut F,
    )
        ensures { (seen : List T) → W.gathers walk.now found.old seen → W.gathers walk.now found.new (seen ++ before (C.is_behind cut.now) self.now) }
    {
        slices::walk_before(&self.items, cut, walk, found);
    }

    /// How many items stand before the first that stands at a place or behind it.
    fn place_of<C: Cut<T>>(&self, cut: &C) -> usize
        ensures { result ≡ position_or_len (C.is_behind cut.now) self.now }
    {
        slices::place_of(&self.items, cut)
    }

    /// Whether the first item stands at a place or behind it.
    pub(crate) fn begins_behind<C: Cut<T>>(&self, cut: &C) -> bool
        ensures { result ≡ first_passes (C.is_behind cut.now) self.now }
    {
        match &self.ends.first {
            Some(first) => cut.is_behind(first),
            None => false,
        }
    }

    /// Whether the last item stands at a place or behind it.
    pub(crate) fn ends_behind<C: Cut<T>>(&self, cut: &C) -> bool
        ensures { result ≡ last_passes (C.is_behind cut.now) self.now }
    {
        match &self.ends.last {
            Some(last) => cut.is_behind(last),
            None => false,
        }
    }

    /// Puts an item into an empty block.
    pub(crate) fn put_first(&mut self, item: T)
        requires { self.old ≡ [] }
        ensures { self.new ≡ item ∷ [] }
    {
        self.insert(0, item);
    }

    /// Puts items into an empty block.
    pub(crate) fn fill(&mut self, items: &[T])
        requires empty { self.old ≡ [] }
        requires few { length items.now ≤ block_size }
        ensures { self.new ≡ items.now }
    {
        self.items.extend_from_slice(items).unwrap();
        self.summary = summary_of(&self.items);
        self.ends = ends_of(&self.items);
    }

    /// Puts an item in before the first that stands at a place or behind it.
    #[tactic(auto, using(crate::proofs::Splits::put_at_place, crate::proofs::Splits::length_put, crate::proofs::Splits::place_le))]
    pub(crate) fn put<C: Cut<T>>(&mut self, cut: &C, item: T)
        requires { length self.old < block_size }
        ensures items { self.new ≡ put_before (C.is_behind cut.now) item self.old }
        ensures count { length self.new ≡ length self.old + 1 }
    {
        let place = self.place_of(cut);
        self.insert(place, item);
    }

    /// The same where there is no room: some of the items go into an empty block.
    #[tactic(auto, using(crate::proofs::Splits::put_at_place, crate::proofs::Splits::length_put, crate::proofs::Splits::place_le))]
    pub(crate) fn put_in_full<C: Cut<T>>(&mut self, cut: &C, item: T, next: &mut Self)
        requires full { length self.old ≡ block_size }
        requires empty { next.old ≡ [] }
        ensures items { self.new ++ next.new ≡ put_before (C.is_behind cut.now) item self.old }
        ensures count { length self.new + length next.new ≡ block_size + 1 }
        ensures filled { 0 < length self.new }
        ensures next { 0 < length next.new }
        ensures few { length self.new ≤ part_size }
        ensures few_next { length next.new ≤ part_size }
    {
        let place = self.place_of(cut);
        self.insert_in_full(place, item, next);
    }

    /// Puts an item before the one that stands at a place.
    fn insert(&mut self, place: usize, item: T)
        requires place { place ≤ length self.old }
        requires room { length self.old < block_size }
        ensures { self.new ≡ insert self.old place item }
    {
        self.items.insert(place, item).unwrap();
        self.summary.add(&item);
        self.ends = ends_of(&self.items);
    }

    /// The same where there is no room: some of the items go into an empty block.
    fn insert_in_full(&mut self, place: usize, item: T, next: &mut Self)
        requires place { place ≤ length self.old }
        requires full { length self.old ≡ block_size }
        requires empty { next.old ≡ [] }
        ensures items { self.new ++ next.new ≡ insert self.old place item }
        ensures filled { 0 < length self.new }
        ensures next { 0 < length next.new }
        ensures few { length self.new ≤ part_size }
        ensures few_next { length next.new ≤ part_size }
    {
        let middle = middle_for(place);
        self.move_from(middle, next);
        if place <= middle {
            self.insert(place, item);
        } else {
            next.insert(place - middle, item);
        }
    }

    /// Takes out the item at a place.
    fn remove(&mut self, place: usize) -> T
        requires { place < length self.old }
        ensures item { result ≡ slice_index_or self.old place result }
        ensures rest { self.new ≡ remove self.old place }
    {
        let item = self.items.remove(place);
        self.ends = ends_of(&self.items);
        if !self.summary.leave(&item) {
            self.summary = summary_of(&self.items);
        }
        item
    }

    /// Takes out the first item that stands at a place or behind it, where one does.
    pub(crate) fn take<C: Cut<T>>(&mut self, cut: &C) -> T
        requires { last_passes (C.is_behind cut.now) self.old ≡ true }
        ensures item { Some result ≡ find (C.is_behind cut.now) self.old }
        ensures rest { self.new ≡ without_first (C.is_behind cut.now) self.old }
        ensures count { length self.new + 1 ≡ length self.old }
    {
        let place = self.place_of(cut);
        self.remove(place)
    }

    /// Puts another item in place of the first that stands at a place or behind it, where one does, and hands that one out.
    pub(crate) fn replace<C: Cut<T>>(&mut self, cut: &C, item: T) -> T
        requires { last_passes (C.is_behind cut.now) self.old ≡ true }
        ensures item { Some result ≡ find (C.is_behind cut.now) self.old }
        ensures items { self.new ≡ with_first (C.is_behind cut.now) item self.old }
        ensures count { length self.new ≡ length self.old }
    {
        let place = self.place_of(cut);
        self.swap(place, item)
    }

    /// Puts another item in place of the one that stands at a place, and hands that one out.
    fn swap(&mut self, place: usize, item: T) -> T
        requires { place < length self.old }
        ensures item { result ≡ slice_index_or self.old place result }
        ensures items { self.new ≡ slice_set self.old place item }
    {
        let replaced = self.items[place];
        let stays = self.summary.leave(&replaced);
        self.items[place] = item;
        self.ends = ends_of(&self.items);
        if stays {
            self.summary.add(&item);
        } else {
            self.summary = summary_of(&self.items);
        }
        replaced
    }

    /// Takes out all items.
    pub(crate) fn clear(&mut self)
        ensures { self.new ≡ [] }
    {
        self.items.clear();
        self.summary = S::none();
        self.ends = ends_of(&self.items);
    }

    /// Moves the items from a place on into an empty block.
    fn move_from(&mut self, place: usize, next: &mut Self)
        requires place { place ≤ length self.old }
        requires empty { next.old ≡ [] }
        ensures front { self.new ≡ take place self.old }
        ensures back { next.new ≡ drop place self.old }
    {
        next.fill(&self.items[place..]);
        self.items.truncate(place);
        self.summary = summary_of(&self.items);
        self.ends = ends_of(&self.items);
    }
}

/// Where a full block is split that gets an item at a place: in halves, but where the place is near an end, beside it, so that
/// items that come in order leave fuller blocks behind.
fn middle_for(place: usize) -> usize
    ensures front { block_size - part_size ≤ result }
    ensures back { result ≤ part_size }
    ensures in_front { place ≤ result → result < part_size }
    ensures behind { result < place → block_size - part_size < result }
{
    if place > PART {
        PART
    } else if place < BLOCK - PART {
        BLOCK - PART
    } else {
        BLOCK / 2
    }
}

/// The ends of items.
fn ends_of<T: Copy>(items: &[T]) -> Ends<T>
    ensures { AreEnds result items.now }
{
    Ends {
        first: slices::first(items),
        last: slices::last(items),
    }
}

/// The summary of items.
fn summary_of<T: Copy, S: Summary<T> + Copy>(items: &[T]) -> S
    ensures { S.tells result items.now }
{
    let mut summary = S::none();
    for item in items {
        summary.add(item);
    }
    summary
}
