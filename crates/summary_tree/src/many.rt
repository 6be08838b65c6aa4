//! Many items, in nodes.
ghost use Rattle.std.specs.Prelude.{◌≡◌, ◌+◌, ◌-◌, ◌*◌, ◌<◌, ◌≤◌, ◌⊎◌, ◌^◌, [], ◌++◌, List, None, length, IfOk, IsOk, OnOk, OnErr};
ghost use Rattle.std.specs.List.{find, last_or};
ghost use Rattle.summary_tree.specs.Cuts.{before, both, unless, IsCutBy, put_before, with_first, without_first};
ghost use Rattle.summary_tree.specs.Sizes.{block_size, part_size, puts_until_split};

use crate::places::Places;
use crate::subtree::{Node, Subtree, of_items, of_one};
use crate::{Beside, Cut, PUTS, Query, Summary, Walk};
use range_core::{Memory, counted};
use std::alloc::Global;
use std::marker::Model;
use std::mem;

/// A list of items in nodes, and room for more.
#[derive(Drop)]
pub(crate) struct Many<T: Copy, S: Summary<T> + Copy> {
    items: Subtree<T, S>,
    /// For how many more items room is held, however many places there are.
    room: u64,
    places: Places<T, S>,
    /// The node of the last item that was taken out, for the first one to come.
    kept: Option<Box<Node<T, S>>>,
}

impl<T: Copy, S: Summary<T> + Copy> Model for Many<T, S> {
    ghost use Rattle.std.specs.Prelude.{◌≡◌, ◌+◌, ◌<◌, ◌^◌, [], IfSome, length};
    ghost use Rattle.summary_tree.specs.Contents.{Contents};
    ghost use Rattle.summary_tree.specs.Rooms.{IsHeld};

    ghost Value = { Contents T };

    ghost view = { λ a. record { items = a.items.items; room = a.room } };

    ghost invariant = { λ a. IsHeld a.items a.kept a.room a.places × (length a.items.items + a.room < 2 ^ 64) × IfSome a.kept (λ node. node.value.block ≡ []) };
}

impl<T: Copy, S: Summary<T> + Copy> Many<T, S> {
    /// No item and no room. It takes no memory.
    pub(crate) fn new(alloc: Global) -> Self
        ensures items { result.items ≡ [] }
        ensures room { result.room ≡ 0 }
    {
        Many {
            items: Subtree::new(),
            room: 0,
            places: Places::new(alloc),
            kept: None,
        }
    }

    /// These items, and no room.
    pub(crate) fn of(alloc: Global, items: &[T]) -> Result<Self, Memory>
        requires { length items.now ≤ block_size }
        ensures items { IfOk result (λ many. many.items ≡ items.now) }
        ensures room { IfOk result (λ many. many.room ≡ 0) }
    {
        let mut many = Many::new(alloc);
        if !items.is_empty() {
            many.places.grow(1)?;
            many.items = of_items(items, many.places.take());
        }
        Ok(many)
    }

    /// How many items there are.
    pub(crate) fn len(&self) -> u64
        ensures { result ≡ length self.now.items }
    {
        self.items.len()
    }

    /// For how many more items there is room.
    pub(crate) fn room(&self) -> u64
        ensures { result ≡ self.now.room }
    {
        self.room
    }

    /// How many nodes the longest way down goes through: their logarithm to the base 4/3 at most.
    pub(crate) fn depth(&self) -> u64
        ensures { 4 ^ result ≤ 3 ^ result * (length self.now.items + 1) }
    {
        // The proof reads from it that there are no more nodes than items.
        let nodes = self.items.nodes();
        self.items.depth()
    }

    /// The first item that is looked for.
    pub(crate) fn first_where<Q: Query<T, S>>(&self, query: &Q) -> Option<T>
        ensures { result ≡ find (Q.hits query.now) self.now.items }
    {
        self.items.first_where(query)
    }

    /// The first item from a place on.
    pub(crate) fn first_from<C: Cut<T>>(&self, cut: &C) -> Option<T>
        requires { IsCutBy (C.is_behind cut.now) self.now.items }
        ensures { result ≡ find (C.is_behind cut.now) self.now.items }
    {
        self.items.first_from(cut)
    }

    /// The last item before a place, and the first from it on.
    pub(crate) fn beside<C: Cut<T>>(&self, cut: &C) -> Beside<T>
        requires { IsCutBy (C.is_behind cut.now) self.now.items }
        ensures before { result.before ≡ last_or None (before (C.is_behind cut.now) self.now.items) }
        ensures behind { result.behind ≡ find (C.is_behind cut.now) self.now.items }
    {
        let nothing = Beside {
            before: None,
            behind: None,
        };
        self.items.beside(cut, nothing)
    }

    /// The last item.
    pub(crate) fn last(&self) -> Option<T>
        ensures { result ≡ last_or None self.now.items }
    {
        self.items.last()
    }

    /// The first item that is looked for, if it stands before a place.
    pub(crate) fn first_where_before<C: Cut<T>, Q: Query<T, S>>(
        &self,
        cut: &C,
        query: &Q,
    ) -> Option<T>
        requires { IsCutBy (C.is_behind cut.now) self.now.items }
        ensures { result ≡ unless (C.is_behind cut.now) (find (Q.hits query.now) self.now.items) }
    {
        self.items.first_where_before(cut, query)
    }

    /// The first item from a place on that is looked for.
    pub(crate) fn first_where_from<C: Cut<T>, Q: Query<T, S>>(
        &self,
        cut: &C,
        query: &Q,
    ) -> Option<T>
        requires { IsCutBy (C.is_behind cut.now) self.now.items }
        ensures { result ≡ find (both (C.is_behind cut.now) (Q.hits query.now)) self.now.items }
    {
        self.items.first_where_from(cut, query)
    }

    /// Gathers from all items, in order.
    pub(crate) fn walk<F, W: Walk<T, S, F>>(&self, walk: &W, found: &mut F)
        ensures { (seen : List T) → W.gathers walk.now found.old seen → W.gathers walk.now found.new (seen ++ self.now.items) }
    {
        self.items.walk(walk, found)
    }

    /// Gathers from the items before a place, in order.
    pub(crate) fn walk_before<C: Cut<T>, F, W: Walk<T, S, F>>(
        &self,
        cut: &C,
        walk: &W,
        found: &mut F,
    )
        requires { IsCutBy (C.is_behind cut.now) self.now.items }
        ensures { (seen : List T) → W.gathers walk.now found.old seen → W.gathers walk.now found.new (seen ++ before (C.is_behind cut.now) self.now.items) }
    {
        self.items.walk_before(cut, walk, found)
    }

    /// Holds room for so many more items in all, counting the room already there.
    ///
    /// `Memory`, which never comes where that room is there, leaves the tree as it was.
    pub(crate) fn reserve(&mut self, count: u64) -> Result<(), Memory>
        ensures items { self.new.items ≡ self.old.items }
        ensures kept { self.old.room ≤ self.new.room }
        ensures ok { OnOk result (count ≤ self.new.room) }
        ensures there { count ≤ self.old.room → IsOk result }
        ensures err { OnErr result (self.new.room ≡ self.old.room) }
    {
        if self.room < count {
            counted(self.items.len(), count)?;
            let places = places_for(self.items.excess(), count);
            self.places.grow(places)?;
            self.room = count;
        }
        Ok(())
    }

    /// Puts an item in before the first that stands at a place or behind it, and uses up room for one. It takes no memory.
    pub(crate) fn put<C: Cut<T>>(&mut self, cut: &C, item: T)
        requires cut { IsCutBy (C.is_behind cut.now) self.old.items }
        requires room { 0 < self.old.room }
        ensures items { self.new.items ≡ put_before (C.is_behind cut.now) item self.old.items }
        ensures room { self.new.room + 1 ≡ self.old.room }
    {
        if self.items.len() == 0 {
            if let Some(node) = mem::replace(&mut self.kept, None) {
                self.items = of_one(item, node);
                self.room -= 1;
                return;
            }
        }
        self.items.put(cut, item, &mut self.places);
        self.room -= 1;
    }

    /// Takes out the first item that stands at a place or behind it; the room stays. It takes no memory.
    pub(crate) fn take<C: Cut<T>>(&mut self, cut: &C) -> Option<T>
        requires { IsCutBy (C.is_behind cut.now) self.old.items }
        ensures item { result ≡ find (C.is_behind cut.now) self.old.items }
        ensures rest { self.new.items ≡ without_first (C.is_behind cut.now) self.old.items }
        ensures room { self.new.room ≡ self.old.room }
    {
        if self.items.len() == 1 {
            return self.take_only(cut);
        }
        self.items.take(cut)
    }

    /// Puts another item in place of the first that stands at a place or behind it, and hands that one out; the room stays. It
    /// takes no memory.
    pub(crate) fn replace<C: Cut<T>>(&mut self, cut: &C, item: T) -> Option<T>
        requires { IsCutBy (C.is_behind cut.now) self.old.items }
        ensures item { result ≡ find (C.is_behind cut.now) self.old.items }
        ensures items { self.new.items ≡ with_first (C.is_behind cut.now) item self.old.items }
        ensures room { self.new.room ≡ self.old.room }
    {
        self.items.replace(cut, item)
    }

    /// Takes out the only item, if it stands at a place or behind it, and keeps its node.
    fn take_only<C: Cut<T>>(&mut self, cut: &C) -> Option<T>
        requires cut { IsCutBy (C.is_behind cut.now) self.old.items }
        requires only { length self.old.items ≡ 1 }
        ensures item { result ≡ find (C.is_behind cut.now) self.old.items }
        ensures rest { self.new.items ≡ without_first (C.is_behind cut.now) self.old.items }
        ensures room { self.new.room ≡ self.old.room }
    {
        // The proof reads from it that there is a node.
        let nodes = self.items.nodes();
        let Some(item) = self.items.first_from(cut) else {
            return None;
        };
        let mut node = self.items.take_first();
        node.block.clear();
        self.kept = Some(node);
        Some(item)
    }
}

/// How many places hold room for so many items more, beside blocks of this excess: one for each at most.
fn places_for(excess: u64, count: u64) -> u64
    requires { excess + count < 2 ^ 64 }
    ensures held { (count ≤ result) ⊎ (excess + (block_size - part_size) + count ≤ puts_until_split * result) }
    ensures few { result ≤ count }
{
    count.min((excess + count) / PUTS + 2)
}
