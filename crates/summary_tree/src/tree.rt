//! The tree as others see it.
ghost use Rattle.std.specs.Prelude.{◌≡◌, ◌+◌, ◌*◌, ◌<◌, ◌≤◌, ◌^◌, [], ◌++◌, List, None, length, IsOk, OnOk, OnErr};
ghost use Rattle.std.specs.List.{find, last_or};
ghost use Rattle.summary_tree.specs.Cuts.{before, both, unless, IsCutBy, put_before, with_first, without_first};

use crate::few::Few;
use crate::many::Many;
use crate::slices::unless_behind;
use crate::{Beside, Cut, Query, Summary, Walk, slices};
use range_core::Memory;
use std::alloc::Global;
use std::marker::Model;

/// A list of items, and room for more.
///
/// Nothing but [`Tree::reserve`] takes memory. It knows of no order: an item stands where a [`Cut`] puts it.
#[derive(Drop)]
pub struct Tree<T: Copy, S: Summary<T> + Copy> {
    items: Items<T, S>,
    alloc: Global,
}

/// As many items as a block takes stand side by side; once more were to come, they are in nodes.
#[derive(Drop)]
enum Items<T: Copy, S: Summary<T> + Copy> {
    Few(Few<T>),
    Many(Many<T, S>),
}

impl<T: Copy, S: Summary<T> + Copy> Model for Tree<T, S> {
    ghost use Rattle.summary_tree.specs.Contents.{Contents};
    ghost use Rattle.summary_tree.specs.Items.{contents_of};

    ghost Value = { Contents T };

    ghost view = { λ a. contents_of a.items };
}

impl<T: Copy, S: Summary<T> + Copy> Tree<T, S> {
    /// No item and no room. It takes no memory.
    pub fn new(alloc: Global) -> Self
        ensures items { result.items ≡ [] }
        ensures room { result.room ≡ 0 }
    {
        Tree {
            items: Items::Few(Few::new(alloc)),
            alloc,
        }
    }

    /// How many items there are.
    pub fn len(&self) -> u64
        ensures { result ≡ length self.now.items }
    {
        match &self.items {
            Items::Few(few) => few.items().len() as u64,
            Items::Many(many) => many.len(),
        }
    }

    /// For how many more items there is room.
    pub fn room(&self) -> u64
        ensures { result ≡ self.now.room }
    {
        match &self.items {
            Items::Few(few) => few.room(),
            Items::Many(many) => many.room(),
        }
    }

    /// How many nodes the longest way down goes through: their logarithm to the base 4/3 at most.
    pub fn depth(&self) -> u64
        ensures { 4 ^ result ≤ 3 ^ result * (length self.now.items + 1) }
    {
        match &self.items {
            Items::Few(_) => 0,
            Items::Many(many) => many.depth(),
        }
    }

    /// The first item that is looked for.
    pub fn first_where<Q: Query<T, S>>(&self, query: &Q) -> Option<T>
        ensures { result ≡ find (Q.hits query.now) self.now.items }
    {
        match &self.items {
            Items::Few(few) => slices::first_where(few.items(), query),
            Items::Many(many) => many.first_where(query),
        }
    }

    /// The first item from a place on.
    pub fn first_from<C: Cut<T>>(&self, cut: &C) -> Option<T>
        requires { IsCutBy (C.is_behind cut.now) self.now.items }
        ensures { result ≡ find (C.is_behind cut.now) self.now.items }
    {
        match &self.items {
            Items::Few(few) => slices::first_from(few.items(), cut),
            Items::Many(many) => many.first_from(cut),
        }
    }

    /// The last item before a place, and the first from it on.
    pub fn beside<C: Cut<T>>(&self, cut: &C) -> Beside<T>
        requires { IsCutBy (C.is_behind cut.now) self.now.items }
        ensures before { result.before ≡ last_or None (before (C.is_behind cut.now) self.now.items) }
        ensures behind { result.behind ≡ find (C.is_behind cut.now) self.now.items }
    {
        match &self.items {
            Items::Few(few) => slices::beside(few.items(), cut),
            Items::Many(many) => many.beside(cut),
        }
    }

    /// The last item.
    pub fn last(&self) -> Option<T>
        ensures { result ≡ last_or None self.now.items }
    {
        match &self.items {
            Items::Few(few) => slices::last(few.items()),
            Items::Many(many) => many.last(),
        }
    }

    /// The first item that is looked for, if it stands before a place: a search doesn't go on behind that.
    pub fn first_where_before<C: Cut<T>, Q: Query<T, S>>(&self, cut: &C, query: &Q) -> Option<T>
        requires { IsCutBy (C.is_behind cut.now) self.now.items }
        ensures { result ≡ unless (C.is_behind cut.now) (find (Q.hits query.now) self.now.items) }
    {
        match &self.items {
            Items::Few(few) => unless_behind(slices::first_where(few.items(), query)?, cut),
            Items::Many(many) => many.first_where_before(cut, query),
        }
    }

    /// The first item from a place on that is looked for.
    pub fn first_where_from<C: Cut<T>, Q: Query<T, S>>(&self, cut: &C, query: &Q) -> Option<T>
        requires { IsCutBy (C.is_behind cut.now) self.now.items }
        ensures { result ≡ find (both (C.is_behind cut.now) (Q.hits query.now)) self.now.items }
    {
        match &self.items {
            Items::Few(few) => slices::first_where_from(few.items(), cut, query),
            Items::Many(many) => many.first_where_from(cut, query),
        }
    }

    /// Gathers from all items, in order.
    pub fn walk<F, W: Walk<T, S, F>>(&self, walk: &W, found: &mut F)
        ensures { (seen : List T) → W.gathers walk.now found.old seen → W.gathers walk.now found.new (seen ++ self.now.items) }
    {
        match &self.items {
            Items::Few(few) => slices::walk(few.items(), walk, found),
            Items::Many(many) => many.walk(walk, found),
        }
    }

    /// Gathers from the items before a place, in order.
    pub fn walk_before<C: Cut<T>, F, W: Walk<T, S, F>>(&self, cut: &C, walk: &W, found: &mut F)
        requires { IsCutBy (C.is_behind cut.now) self.now.items }
        ensures { (seen : List T) → W.gathers walk.now found.old seen → W.gathers walk.now found.new (seen ++ before (C.is_behind cut.now) self.now.items) }
    {
        match &self.items {
            Items::Few(few) => slices::walk_before(few.items(), cut, walk, found),
            Items::Many(many) => many.walk_before(cut, walk, found),
        }
    }

    /// Holds room for so many more items in all, counting the room already there.
    ///
    /// `Memory`, which never comes where that room is there, leaves the tree as it was.
    pub fn reserve(&mut self, count: u64) -> Result<(), Memory>
        ensures items { self.new.items ≡ self.old.items }
        ensures kept { self.old.room ≤ self.new.room }
        ensures ok { OnOk result (count ≤ self.new.room) }
        ensures there { count ≤ self.old.room → IsOk result }
        ensures err { OnErr result (self.new.room ≡ self.old.room) }
    {
        match &mut self.items {
            Items::Few(few) => {
                if let Some(many) = few.grow(self.alloc, count)? {
                    self.items = Items::Many(many);
                }
                Ok(())
            }
            Items::Many(many) => many.reserve(count),
        }
    }

    /// Puts an item in before the first that stands at a place or behind it, and uses up room for one. It takes no memory.
    pub fn put<C: Cut<T>>(&mut self, cut: &C, item: T)
        requires cut { IsCutBy (C.is_behind cut.now) self.old.items }
        requires room { 0 < self.old.room }
        ensures items { self.new.items ≡ put_before (C.is_behind cut.now) item self.old.items }
        ensures room { self.new.room + 1 ≡ self.old.room }
    {
        match &mut self.items {
            Items::Few(few) => few.put(cut, item),
            Items::Many(many) => many.put(cut, item),
        }
    }

    /// Takes out the first item that stands at a place or behind it; the room stays. It takes no memory.
    pub fn take<C: Cut<T>>(&mut self, cut: &C) -> Option<T>
        requires { IsCutBy (C.is_behind cut.now) self.old.items }
        ensures item { result ≡ find (C.is_behind cut.now) self.old.items }
        ensures rest { self.new.items ≡ without_first (C.is_behind cut.now) self.old.items }
        ensures room { self.new.room ≡ self.old.room }
    {
        match &mut self.items {
            Items::Few(few) => few.take(cut),
            Items::Many(many) => many.take(cut),
        }
    }

    /// Puts another item in place of the first that stands at a place or behind it, and hands that one out; the room stays. It
    /// takes no memory.
    pub fn replace<C: Cut<T>>(&mut self, cut: &C, item: T) -> Option<T>
        requires { IsCutBy (C.is_behind cut.now) self.old.items }
        ensures item { result ≡ find (C.is_behind cut.now) self.old.items }
        ensures items { self.new.items ≡ with_first (C.is_behind cut.now) item self.old.items }
        ensures room { self.new.room ≡ self.old.room }
    {
        match &mut self.items {
            Items::Few(few) => few.replace(cut, item),
            Items::Many(many) => many.replace(cut, item),
        }
    }
}
