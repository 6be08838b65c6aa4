//! Nodes whose sides have changed, made whole again.
ghost use Rattle.std.specs.Prelude.{◌≡◌, ◌+◌, ◌*◌, ◌≤◌};
ghost use Rattle.summary_tree.specs.Balance.{IsBalanced, IsNearlyBalanced};
ghost use Rattle.summary_tree.specs.Nodes.{items_of, parts_of, IsFilled};

use super::{Link, Node, Subtree};
use crate::Summary;
use std::mem;

/// The summary of a node's items.
fn summary_of<T: Copy, S: Summary<T> + Copy>(node: &Node<T, S>) -> S
    ensures { S.tells result (items_of node.now) }
{
    let mut rest = node.block.summary();
    rest.append(&node.right.summary());
    let mut summary = node.left.summary();
    summary.append(&rest);
    summary
}

/// The tree of a node whose sides are balanced, with its counts and its summary made anew.
pub(super) fn whole<T: Copy, S: Summary<T> + Copy>(mut node: Box<Node<T, S>>) -> Subtree<T, S>
    requires balance { IsBalanced node.value.left.nodes node.value.right.nodes }
    requires filled { IsFilled node.value }
    ensures { result ≡ parts_of node.value }
{
    node.count = node.left.len() + node.block.len() as u64 + node.right.len();
    node.nodes = node.left.nodes() + 1 + node.right.nodes();
    node.excess = node.left.excess() + node.block.excess() + node.right.excess();
    node.summary = summary_of(&node);
    Subtree {
        link: Link::Fork(node),
    }
}

/// The tree of a node of which one side has had one node more or less.
pub(super) fn rebalanced<T: Copy, S: Summary<T> + Copy>(node: Box<Node<T, S>>) -> Subtree<T, S>
    requires balance { IsNearlyBalanced node.value.left.nodes node.value.right.nodes }
    requires filled { IsFilled node.value }
    ensures { result ≡ parts_of node.value }
{
    let left = node.left.nodes();
    let right = node.right.nodes();
    if left / 3 > right {
        turned_right(node)
    } else if right / 3 > left {
        turned_left(node)
    } else {
        whole(node)
    }
}

/// The tree of a node with too many nodes on the left: the left node comes to the top, or the one that hangs on its right.
fn turned_right<T: Copy, S: Summary<T> + Copy>(mut top: Box<Node<T, S>>) -> Subtree<T, S>
    requires heavy { 3 + 3 * top.value.right.nodes ≤ top.value.left.nodes }
    requires balance { IsNearlyBalanced top.value.left.nodes top.value.right.nodes }
    requires filled { IsFilled top.value }
    ensures { result ≡ parts_of top.value }
{
    let Link::Fork(mut low) = mem::replace(&mut top.left, Subtree::new()).link else {
        unreachable!()
    };
    if low.right.nodes().div_ceil(2) <= low.left.nodes() {
        top.left = mem::replace(&mut low.right, Subtree::new());
        low.right = whole(top);
        return whole(low);
    }
    let Link::Fork(mut middle) = mem::replace(&mut low.right, Subtree::new()).link else {
        unreachable!()
    };
    low.right = mem::replace(&mut middle.left, Subtree::new());
    top.left = mem::replace(&mut middle.right, Subtree::new());
    middle.left = whole(low);
    middle.right = whole(top);
    whole(middle)
}

/// The same with too many on the right.
fn turned_left<T: Copy, S: Summary<T> + Copy>(mut top: Box<Node<T, S>>) -> Subtree<T, S>
    requires heavy { 3 + 3 * top.value.left.nodes ≤ top.value.right.nodes }
    requires balance { IsNearlyBalanced top.value.left.nodes top.value.right.nodes }
    requires filled { IsFilled top.value }
    ensures { result ≡ parts_of top.value }
{
    let Link::Fork(mut low) = mem::replace(&mut top.right, Subtree::new()).link else {
        unreachable!()
    };
    if low.left.nodes().div_ceil(2) <= low.right.nodes() {
        top.right = mem::replace(&mut low.left, Subtree::new());
        low.left = whole(top);
        return whole(low);
    }
    let Link::Fork(mut middle) = mem::replace(&mut low.left, Subtree::new()).link else {
        unreachable!()
    };
    low.left = mem::replace(&mut middle.right, Subtree::new());
    top.right = mem::replace(&mut middle.left, Subtree::new());
    middle.right = whole(low);
    middle.left = whole(top);
    whole(middle)
}
