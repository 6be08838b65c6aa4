//! The nodes, and what is asked of them.
ghost use Rattle.std.specs.Prelude.{◌≡◌, ◌+◌, ◌*◌, ◌<◌, ◌≤◌, ◌^◌, [], ◌∷◌, ◌++◌, List, None, length};
ghost use Rattle.std.specs.List.{find, last_or};
ghost use Rattle.std.specs.Option.{option_or};
ghost use Rattle.summary_tree.specs.Cuts.{before, both, unless, IsCutBy};

mod balancing;
mod changing;

use crate::block::Block;
use crate::slices::unless_behind;
use crate::{Beside, Cut, Query, Summary, Walk};
pub(crate) use changing::{of_items, of_one};
use std::marker::Model;

/// A list of items in nodes, seen as that list, the number of nodes, and the excess of their blocks.
#[cycle(tree)]
#[derive(Drop)]
pub(crate) struct Subtree<T: Copy, S: Summary<T> + Copy> {
    link: Link<T, S>,
}

/// A node, if there is one.
#[cycle(tree)]
#[derive(Drop)]
enum Link<T: Copy, S: Summary<T> + Copy> {
    Empty,
    Fork(Box<Node<T, S>>),
}

/// Some items, those before them and those behind them, and what is kept of all of these. What a search reads on its way down, the
/// end of the summary, the two sides and the items, lies side by side.
#[cycle(tree)]
#[derive(Drop)]
pub(crate) struct Node<T: Copy, S: Summary<T> + Copy> {
    pub(crate) count: u64,
    pub(crate) nodes: u64,
    pub(crate) excess: u64,
    pub(crate) summary: S,
    pub(crate) left: Subtree<T, S>,
    pub(crate) right: Subtree<T, S>,
    pub(crate) block: Block<T, S>,
}

/// In how many nodes items are, and by how many the nodes' blocks exceed what a part of a split block may have.
#[derive(Clone, Copy)]
pub(crate) struct Size {
    nodes: u64,
    excess: u64,
}

impl<T: Copy, S: Summary<T> + Copy> Model for Subtree<T, S> {
    ghost use Rattle.summary_tree.specs.Contents.{Parts};

    ghost Value = { Parts T };

    ghost use Rattle.summary_tree.specs.Nodes.{parts_behind, IsKept};

    ghost view = { λ a. parts_behind a.link };

    ghost invariant = { λ a. IsKept S.tells a.link };

    ghost size = { λ parts. parts.nodes };

    ghost use Rattle.std.proofs.Common.{arith};

    ghost size_decreases = { λ a h. Prim.grind arith };
}

impl<T: Copy, S: Summary<T> + Copy> Subtree<T, S> {
    /// No item. It takes no memory.
    pub(crate) fn new() -> Self
        ensures items { result.items ≡ [] }
        ensures nodes { result.nodes ≡ 0 }
        ensures excess { result.excess ≡ 0 }
    {
        Subtree { link: Link::Empty }
    }

    /// How many items there are.
    pub(crate) fn len(&self) -> u64
        ensures { result ≡ length self.now.items }
    {
        match &self.link {
            Link::Empty => 0,
            Link::Fork(node) => node.count,
        }
    }

    /// How many nodes there are.
    pub(crate) fn nodes(&self) -> u64
        ensures nodes { result ≡ self.now.nodes }
        ensures few { result ≤ length self.now.items }
        ensures none { result ≡ 0 → self.now.items ≡ [] }
        ensures no_excess { result ≡ 0 → self.now.excess ≡ 0 }
    {
        match &self.link {
            Link::Empty => 0,
            Link::Fork(node) => node.nodes,
        }
    }

    /// By how many items the blocks exceed what a part of a split block may have.
    pub(crate) fn excess(&self) -> u64
        ensures excess { result ≡ self.now.excess }
        ensures few { result ≤ length self.now.items }
    {
        match &self.link {
            Link::Empty => 0,
            Link::Fork(node) => node.excess,
        }
    }

    /// How many nodes there are, and the excess of their blocks.
    fn size(&self) -> Size
        ensures nodes { result.nodes ≡ self.now.nodes }
        ensures excess { result.excess ≡ self.now.excess }
    {
        Size {
            nodes: self.nodes(),
            excess: self.excess(),
        }
    }

    /// A proof reads from it that there are no more nodes than items, and that their excess is no greater; it goes to none.
    fn is_small(&self)
        ensures nodes { self.now.nodes ≤ length self.now.items }
        ensures excess { self.now.excess ≤ length self.now.items }
    {
        let _ = &self.link;
    }

    /// How many nodes the longest way down goes through.
    pub(crate) fn depth(&self) -> u64
        ensures many { self.now.nodes < 2 ^ result }
        ensures few { 4 ^ result ≤ 3 ^ result * (self.now.nodes + 1) }
        ensures within { result ≤ self.now.nodes }
    {
        match &self.link {
            Link::Empty => 0,
            Link::Fork(node) => {
                let node: &Node<T, S> = node;
                let left = node.left.depth();
                let right = node.right.depth();
                if left < right { right + 1 } else { left + 1 }
            }
        }
    }

    /// The summary of all items.
    fn summary(&self) -> S
        ensures { S.tells result self.now.items }
    {
        match &self.link {
            Link::Empty => S::none(),
            Link::Fork(node) => node.summary,
        }
    }

    /// The first item that is looked for.
    pub(crate) fn first_where<Q: Query<T, S>>(&self, query: &Q) -> Option<T>
        ensures { result ≡ find (Q.hits query.now) self.now.items }
    {
        match &self.link {
            Link::Empty => None,
            Link::Fork(node) => {
                let node: &Node<T, S> = node;
                // Where a subtree has no hit this is its only step, so one path is gone down.
                if !query.may_hit(&node.summary) {
                    return None;
                }
                if let Some(found) = node.left.first_where(query) {
                    return Some(found);
                }
                if let Some(found) = node.block.first_where(query) {
                    return Some(found);
                }
                node.right.first_where(query)
            }
        }
    }

    /// The first item that is looked for, if it stands before a place: a search doesn't go on behind that.
    pub(crate) fn first_where_before<C: Cut<T>, Q: Query<T, S>>(
        &self,
        cut: &C,
        query: &Q,
    ) -> Option<T>
        requires { IsCutBy (C.is_behind cut.now) self.now.items }
        ensures { result ≡ unless (C.is_behind cut.now) (find (Q.hits query.now) self.now.items) }
    {
        match &self.link {
            Link::Empty => None,
            Link::Fork(node) => {
                let node: &Node<T, S> = node;
                // Then all from its block on stands behind the place.
                if node.block.begins_behind(cut) {
                    return node.left.first_where_before(cut, query);
                }
                if let Some(found) = node.left.first_where(query) {
                    return unless_behind(found, cut);
                }
                if let Some(found) = node.block.first_where(query) {
                    return unless_behind(found, cut);
                }
                node.right.first_where_before(cut, query)
            }
        }
    }

    /// The first item from a place on that is looked for.
    pub(crate) fn first_where_from<C: Cut<T>, Q: Query<T, S>>(
        &self,
        cut: &C,
        query: &Q,
    ) -> Option<T>
        requires { IsCutBy (C.is_behind cut.now) self.now.items }
        ensures { result ≡ find (both (C.is_behind cut.now) (Q.hits query.now)) self.now.items }
    {
        match &self.link {
            Link::Empty => None,
            Link::Fork(node) => {
                let node: &Node<T, S> = node;
                if !node.block.ends_behind(cut) {
                    return node.right.first_where_from(cut, query);
                }
                if let Some(found) = node.left.first_where_from(cut, query) {
                    return Some(found);
                }
                if let Some(found) = node.block.first_where_from(cut, query) {
                    return Some(found);
                }
                let behind = &node.right;
                behind.first_where(query)
            }
        }
    }

    /// The first item from a place on.
    pub(crate) fn first_from<C: Cut<T>>(&self, cut: &C) -> Option<T>
        requires { IsCutBy (C.is_behind cut.now) self.now.items }
        ensures { result ≡ find (C.is_behind cut.now) self.now.items }
    {
        match &self.link {
            Link::Empty => None,
            Link::Fork(node) => {
                let node: &Node<T, S> = node;
                if !node.block.ends_behind(cut) {
                    return node.right.first_from(cut);
                }
                if let Some(found) = node.left.first_from(cut) {
                    return Some(found);
                }
                node.block.first_from(cut)
            }
        }
    }

    /// The last item before a place, and the first from it on: in place of one that is not among these, what stands outside on its side.
    pub(crate) fn beside<C: Cut<T>>(&self, cut: &C, outside: Beside<T>) -> Beside<T>
        requires { IsCutBy (C.is_behind cut.now) self.now.items }
        ensures before { result.before ≡ last_or outside.before (before (C.is_behind cut.now) self.now.items) }
        ensures behind { result.behind ≡ option_or (find (C.is_behind cut.now) self.now.items) outside.behind }
    {
        match &self.link {
            Link::Empty => outside,
            Link::Fork(node) => {
                let node: &Node<T, S> = node;
                if !node.block.ends_behind(cut) {
                    let before = node.block.last();
                    return node.right.beside(cut, Beside { before, ..outside });
                }
                if node.block.begins_behind(cut) {
                    let behind = node.block.first();
                    return node.left.beside(cut, Beside { behind, ..outside });
                }
                node.block.beside(cut)
            }
        }
    }

    /// The last item.
    pub(crate) fn last(&self) -> Option<T>
        ensures { result ≡ last_or None self.now.items }
    {
        match &self.link {
            Link::Empty => None,
            Link::Fork(node) => {
                let node: &Node<T, S> = node;
                if let Some(last) = node.right.last() {
                    return Some(last);
                }
                node.block.last()
            }
        }
    }

    /// Gathers from all items.
    pub(crate) fn walk<F, W: Walk<T, S, F>>(&self, walk: &W, found: &mut F)
        ensures { (seen : List T) → W.gathers walk.now found.old seen → W.gathers walk.now found.new (seen ++ self.now.items) }
    {
        match &self.link {
            Link::Empty => {}
            Link::Fork(node) => {
                let node: &Node<T, S> = node;
                if walk.see_all(found, &node.summary) {
                    return;
                }
                node.left.walk(walk, found);
                node.block.walk(walk, found);
                node.right.walk(walk, found);
            }
        }
    }

    /// Gathers from the items before a place.
    pub(crate) fn walk_before<C: Cut<T>, F, W: Walk<T, S, F>>(
        &self,
        cut: &C,
        walk: &W,
        found: &mut F,
    )
        requires { IsCutBy (C.is_behind cut.now) self.now.items }
        ensures { (seen : List T) → W.gathers walk.now found.old seen → W.gathers walk.now found.new (seen ++ before (C.is_behind cut.now) self.now.items) }
    {
        match &self.link {
            Link::Empty => {}
            Link::Fork(node) => {
                let node: &Node<T, S> = node;
                if node.block.begins_behind(cut) {
                    node.left.walk_before(cut, walk, found);
                    return;
                }
                node.left.walk(walk, found);
                if node.block.ends_behind(cut) {
                    node.block.walk_before(cut, walk, found);
                    return;
                }
                node.block.walk(walk, found);
                node.right.walk_before(cut, walk, found);
            }
        }
    }
}
