//! Items that come and go.
ghost use Rattle.std.specs.Prelude.{◌≡◌, ◌+◌, ◌-◌, ◌*◌, ◌<◌, ◌≤◌, ◌^◌, [], ◌∷◌, ◌++◌, IfNone, IfSome, length};
ghost use Rattle.std.specs.List.{find};
ghost use Rattle.summary_tree.specs.Balance.{IsBalanced, IsNearlyBalanced, IsOneMoreAtMost};
ghost use Rattle.summary_tree.specs.Cuts.{IsCutBy, put_before, with_first, without_first};
ghost use Rattle.summary_tree.specs.Nodes.{excess_of, items_of, nodes_of, parts_of, IsFilled, IsKeptNode, KeepsItem, LacksItem, SwapsItem};
ghost use Rattle.summary_tree.specs.Sides.{IsSideOf};
ghost use Rattle.summary_tree.specs.Sizes.{block_size, part_size, puts_until_split};

use super::balancing::{rebalanced, whole};
use super::{Link, Node, Size, Subtree};
use crate::places::Places;
use crate::{BLOCK, Cut, Summary};
use std::mem;

/// A part of a node.
enum Side {
    Left,
    Here,
    Right,
}

impl<T: Copy, S: Summary<T> + Copy> Subtree<T, S> {
    /// Puts an item in before the first that stands at a place or behind it; a new node, if it wants one, is taken from the
    /// places. It takes no memory.
    ///
    /// A block that is split gives up its excess, so a place goes for that and one put, or for [`PUTS`](crate::PUTS) puts.
    pub(crate) fn put<C: Cut<T>>(&mut self, cut: &C, item: T, places: &mut Places<T, S>)
        requires cut { IsCutBy (C.is_behind cut.now) self.old.items }
        requires place { 0 < places.old }
        requires fits { length self.old.items + 1 < 2 ^ 64 }
        ensures items { self.new.items ≡ put_before (C.is_behind cut.now) item self.old.items }
        ensures count { length self.new.items ≡ length self.old.items + 1 }
        ensures nodes { IsOneMoreAtMost self.new.nodes self.old.nodes }
        ensures places { IsOneMoreAtMost places.old places.new }
        ensures first { self.old.items ≡ [] → self.new.excess ≡ 0 }
        ensures paid { 0 < length self.old.items → self.new.excess + puts_until_split * places.old ≤ self.old.excess + puts_until_split * places.new + 1 }
    {
        match mem::replace(&mut self.link, Link::Empty) {
            Link::Empty => *self = of_one(item, places.take()),
            Link::Fork(mut node) => match side_of(&node, cut) {
                Side::Left => {
                    let was = node.left.size();
                    node.left.put(cut, item, places);
                    let is = node.left.size();
                    *self = grown(node, &item, was, is);
                }
                Side::Here => *self = put_here(node, cut, item, places),
                Side::Right => {
                    let was = node.right.size();
                    node.right.put(cut, item, places);
                    let is = node.right.size();
                    *self = grown(node, &item, was, is);
                }
            },
        }
    }

    /// Takes out the first item that stands at a place or behind it. It takes no memory.
    pub(crate) fn take<C: Cut<T>>(&mut self, cut: &C) -> Option<T>
        requires { IsCutBy (C.is_behind cut.now) self.old.items }
        ensures item { result ≡ find (C.is_behind cut.now) self.old.items }
        ensures rest { self.new.items ≡ without_first (C.is_behind cut.now) self.old.items }
        ensures count { length self.new.items ≤ length self.old.items }
        ensures nodes { IsOneMoreAtMost self.old.nodes self.new.nodes }
        ensures excess { self.new.excess ≤ self.old.excess }
        ensures none { IfNone result (self.new ≡ self.old) }
    {
        match mem::replace(&mut self.link, Link::Empty) {
            Link::Empty => None,
            Link::Fork(mut node) => {
                if !node.block.ends_behind(cut) {
                    let was = node.right.size();
                    let taken = node.right.take(cut);
                    let is = node.right.size();
                    *self = shrunk(node, taken, was, is);
                    return taken;
                }
                let was = node.left.size();
                if let Some(taken) = node.left.take(cut) {
                    let is = node.left.size();
                    *self = shrunk(node, Some(taken), was, is);
                    return Some(taken);
                }
                let was = node.block.excess();
                let taken = node.block.take(cut);
                *self = without_block(node, &taken, was);
                Some(taken)
            }
        }
    }

    /// Puts another item in place of the first that stands at a place or behind it, and hands that one out. It takes no memory.
    pub(crate) fn replace<C: Cut<T>>(&mut self, cut: &C, item: T) -> Option<T>
        requires { IsCutBy (C.is_behind cut.now) self.old.items }
        ensures item { result ≡ find (C.is_behind cut.now) self.old.items }
        ensures items { self.new.items ≡ with_first (C.is_behind cut.now) item self.old.items }
        ensures count { length self.new.items ≡ length self.old.items }
        ensures nodes { self.new.nodes ≡ self.old.nodes }
        ensures excess { self.new.excess ≡ self.old.excess }
        ensures none { IfNone result (self.new ≡ self.old) }
    {
        match mem::replace(&mut self.link, Link::Empty) {
            Link::Empty => None,
            Link::Fork(mut node) => {
                if !node.block.ends_behind(cut) {
                    let replaced = node.right.replace(cut, item);
                    *self = renewed(node, replaced, &item);
                    return replaced;
                }
                if let Some(replaced) = node.left.replace(cut, item) {
                    *self = renewed(node, Some(replaced), &item);
                    return Some(replaced);
                }
                let replaced = node.block.replace(cut, item);
                *self = renewed(node, Some(replaced), &item);
                Some(replaced)
            }
        }
    }

    /// Puts a node in before all others.
    fn put_first(&mut self, node: Box<Node<T, S>>)
        requires filled { 0 < length node.value.block }
        requires fits { length node.value.block + length self.old.items < 2 ^ 64 }
        ensures items { self.new.items ≡ node.value.block ++ self.old.items }
        ensures nodes { self.new.nodes ≡ self.old.nodes + 1 }
        ensures excess { self.new.excess ≡ (length node.value.block - part_size) + self.old.excess }
    {
        match mem::replace(&mut self.link, Link::Empty) {
            Link::Empty => *self = alone(node),
            Link::Fork(mut top) => {
                top.left.put_first(node);
                *self = rebalanced(top);
            }
        }
    }

    /// Takes out the first node.
    pub(crate) fn take_first(&mut self) -> Box<Node<T, S>>
        requires { 0 < self.old.nodes }
        ensures items { self.old.items ≡ result.value.block ++ self.new.items }
        ensures nodes { self.old.nodes ≡ self.new.nodes + 1 }
        ensures excess { self.old.excess ≡ (length result.value.block - part_size) + self.new.excess }
        ensures filled { 0 < length result.value.block }
    {
        let Link::Fork(mut node) = mem::replace(&mut self.link, Link::Empty) else {
            unreachable!()
        };
        if node.left.nodes() == 0 {
            *self = mem::replace(&mut node.right, Subtree::new());
            return node;
        }
        let first = node.left.take_first();
        *self = rebalanced(node);
        first
    }
}

/// The tree of a node without sides.
fn alone<T: Copy, S: Summary<T> + Copy>(mut node: Box<Node<T, S>>) -> Subtree<T, S>
    requires filled { 0 < length node.value.block }
    requires fits { length node.value.block < 2 ^ 64 }
    ensures items { result.items ≡ node.value.block }
    ensures nodes { result.nodes ≡ 1 }
    ensures excess { result.excess ≡ length node.value.block - part_size }
{
    node.left = Subtree::new();
    node.right = Subtree::new();
    whole(node)
}

/// The tree of one item, in an empty node.
pub(crate) fn of_one<T: Copy, S: Summary<T> + Copy>(
    item: T,
    mut node: Box<Node<T, S>>,
) -> Subtree<T, S>
    requires { node.value.block ≡ [] }
    ensures items { result.items ≡ item ∷ [] }
    ensures nodes { result.nodes ≡ 1 }
    ensures excess { result.excess ≡ 0 }
{
    node.block.put_first(item);
    alone(node)
}

/// The tree of some items, in an empty node.
pub(crate) fn of_items<T: Copy, S: Summary<T> + Copy>(
    items: &[T],
    mut node: Box<Node<T, S>>,
) -> Subtree<T, S>
    requires empty { node.value.block ≡ [] }
    requires some { 0 < length items.now }
    requires few { length items.now ≤ block_size }
    ensures { result.items ≡ items.now }
{
    node.block.fill(items);
    alone(node)
}

/// Into which part of the node an item is put.
fn side_of<T: Copy, S: Summary<T> + Copy, C: Cut<T>>(node: &Node<T, S>, cut: &C) -> Side
    requires cut { IsCutBy (C.is_behind cut.now) (items_of node.now) }
    requires filled { 0 < length node.now.block }
    ensures { IsSideOf (C.is_behind cut.now) node.now result }
{
    if !node.block.ends_behind(cut) {
        if node.right.nodes() == 0 {
            return Side::Here;
        }
        return Side::Right;
    }
    if node.block.begins_behind(cut) {
        if node.left.nodes() == 0 {
            return Side::Here;
        }
        return Side::Left;
    }
    Side::Here
}

/// The tree of a node with an item more on a side that was of the one size, and is of the other.
fn grown<T: Copy, S: Summary<T> + Copy>(
    node: Box<Node<T, S>>,
    item: &T,
    was: Size,
    is: Size,
) -> Subtree<T, S>
    requires lacks { was.nodes ≡ is.nodes → LacksItem S.tells node.value item.now was.excess is.excess }
    requires even { was.nodes ≡ is.nodes → IsBalanced node.value.left.nodes node.value.right.nodes }
    requires balance { IsNearlyBalanced node.value.left.nodes node.value.right.nodes }
    requires filled { IsFilled node.value }
    ensures { result ≡ parts_of node.value }
{
    if was.nodes == is.nodes {
        with_item(node, item, was.excess, is.excess)
    } else {
        rebalanced(node)
    }
}

/// The tree of a node with an item more in no new node, by which the excess of one of its parts, and so its own, has changed from
/// the one to the other: nobody goes to its sides.
fn with_item<T: Copy, S: Summary<T> + Copy>(
    mut node: Box<Node<T, S>>,
    item: &T,
    was: u64,
    is: u64,
) -> Subtree<T, S>
    requires lacks { LacksItem S.tells node.value item.now was is }
    requires balance { IsBalanced node.value.left.nodes node.value.right.nodes }
    requires filled { 0 < length node.value.block }
    ensures { result ≡ parts_of node.value }
{
    node.count += 1;
    node.excess = node.excess - was + is;
    node.summary.add(item);
    Subtree {
        link: Link::Fork(node),
    }
}

/// The tree of a node with an item more in its block; a full block shares its items with a node of the places.
fn put_here<T: Copy, S: Summary<T> + Copy, C: Cut<T>>(
    mut node: Box<Node<T, S>>,
    cut: &C,
    item: T,
    places: &mut Places<T, S>,
) -> Subtree<T, S>
    requires place { 0 < places.old }
    requires kept { IsKeptNode S.tells node.value }
    requires fits { length node.value.left.items + length node.value.block + length node.value.right.items + 1 < 2 ^ 64 }
    ensures items { result.items ≡ node.value.left.items ++ (put_before (C.is_behind cut.now) item node.value.block ++ node.value.right.items) }
    ensures count { length result.items ≡ length node.value.left.items + length node.value.block + length node.value.right.items + 1 }
    ensures nodes { IsOneMoreAtMost result.nodes (nodes_of node.value) }
    ensures places { IsOneMoreAtMost places.old places.new }
    ensures paid { result.excess + puts_until_split * places.old ≤ excess_of node.value + puts_until_split * places.new + 1 }
{
    if node.block.len() < BLOCK {
        let was = node.block.excess();
        node.block.put(cut, item);
        let is = node.block.excess();
        return with_item(node, &item, was, is);
    }
    let mut next = places.take();
    node.block.put_in_full(cut, item, &mut next.block);
    node.right.put_first(next);
    rebalanced(node)
}

/// The tree of a node with an item in place of another, if it had that: nobody goes to its sides, where its summary can tell the rest.
fn renewed<T: Copy, S: Summary<T> + Copy>(
    mut node: Box<Node<T, S>>,
    replaced: Option<T>,
    item: &T,
) -> Subtree<T, S>
    requires swaps { IfSome replaced (λ other. SwapsItem S.tells node.value other item.now) }
    requires balance { IsBalanced node.value.left.nodes node.value.right.nodes }
    requires filled { IsFilled node.value }
    ensures { result ≡ parts_of node.value }
{
    let Some(other) = replaced else {
        return whole(node);
    };
    if !node.summary.leave(&other) {
        return whole(node);
    }
    node.summary.add(item);
    Subtree {
        link: Link::Fork(node),
    }
}

/// The tree of a node with an item less on a side that was of the one size, and is of the other.
fn shrunk<T: Copy, S: Summary<T> + Copy>(
    node: Box<Node<T, S>>,
    taken: Option<T>,
    was: Size,
    is: Size,
) -> Subtree<T, S>
    requires keeps { was.nodes ≡ is.nodes → IfSome taken (λ item. KeepsItem S.tells node.value item was.excess is.excess) }
    requires even { was.nodes ≡ is.nodes → IsBalanced node.value.left.nodes node.value.right.nodes }
    requires balance { IsNearlyBalanced node.value.left.nodes node.value.right.nodes }
    requires filled { IsFilled node.value }
    ensures { result ≡ parts_of node.value }
{
    if let Some(item) = taken {
        if was.nodes == is.nodes {
            return without_item(node, &item, was.excess, is.excess);
        }
    }
    rebalanced(node)
}

/// The tree of a node with an item less in as many nodes, by which the excess of one of its parts, and so its own, has changed from
/// the one to the other: nobody goes to its sides, where its summary can tell the rest.
fn without_item<T: Copy, S: Summary<T> + Copy>(
    mut node: Box<Node<T, S>>,
    item: &T,
    was: u64,
    is: u64,
) -> Subtree<T, S>
    requires keeps { KeepsItem S.tells node.value item.now was is }
    requires balance { IsBalanced node.value.left.nodes node.value.right.nodes }
    requires filled { 0 < length node.value.block }
    ensures { result ≡ parts_of node.value }
{
    node.left.is_small();
    node.right.is_small();
    if !node.summary.leave(item) {
        return whole(node);
    }
    node.count -= 1;
    node.excess = node.excess - was + is;
    Subtree {
        link: Link::Fork(node),
    }
}

/// The tree of a node with an item less in its block, whose excess was this; it goes if its block is empty.
fn without_block<T: Copy, S: Summary<T> + Copy>(
    mut node: Box<Node<T, S>>,
    item: &T,
    was: u64,
) -> Subtree<T, S>
    requires keeps { KeepsItem S.tells node.value item.now was (length node.value.block - part_size) }
    requires balance { IsBalanced node.value.left.nodes node.value.right.nodes }
    requires fits { length node.value.left.items + length node.value.block + length node.value.right.items < 2 ^ 64 }
    ensures items { result.items ≡ items_of node.value }
    ensures nodes { IsOneMoreAtMost (nodes_of node.value) result.nodes }
    ensures excess { result.excess ≡ excess_of node.value }
{
    if node.block.len() > 0 {
        let is = node.block.excess();
        return without_item(node, item, was, is);
    }
    let left = mem::replace(&mut node.left, Subtree::new());
    let right = mem::replace(&mut node.right, Subtree::new());
    joined(left, right)
}

/// The items of two trees that are balanced to each other.
fn joined<T: Copy, S: Summary<T> + Copy>(
    left: Subtree<T, S>,
    mut right: Subtree<T, S>,
) -> Subtree<T, S>
    requires balance { IsBalanced left.nodes right.nodes }
    requires fits { length left.items + length right.items < 2 ^ 64 }
    ensures items { result.items ≡ left.items ++ right.items }
    ensures nodes { result.nodes ≡ left.nodes + right.nodes }
    ensures excess { result.excess ≡ left.excess + right.excess }
{
    if right.nodes() == 0 {
        return left;
    }
    let mut node = right.take_first();
    node.left = left;
    node.right = right;
    rebalanced(node)
}
