//! Nodes that wait for items.
ghost use Rattle.std.specs.Prelude.{◌≡◌, ◌+◌, ◌<◌, ◌≤◌, [], IsOk, OnOk, OnErr};

use crate::Summary;
use crate::block::Block;
use crate::subtree::{Node, Subtree};
use range_core::Memory;
use std::alloc::Global;
use std::marker::Model;

/// Nodes with an empty block, seen as their number.
#[derive(Drop)]
pub(crate) struct Places<T: Copy, S: Summary<T> + Copy> {
    nodes: Vec<Box<Node<T, S>>>,
    alloc: Global,
}

impl<T: Copy, S: Summary<T> + Copy> Model for Places<T, S> {
    ghost use Rattle.std.specs.Prelude.{ℕ, ◌≡◌, vec_len, All, []};

    ghost Value = { ℕ };

    ghost view = { λ a. vec_len a.nodes };

    ghost invariant = { λ a. All (λ node. node.value.block ≡ []) a.nodes.items };
}

impl<T: Copy, S: Summary<T> + Copy> Places<T, S> {
    /// None. It takes no memory.
    pub(crate) fn new(alloc: Global) -> Self
        ensures { result ≡ 0 }
    {
        Places {
            nodes: Vec::new(alloc),
            alloc,
        }
    }

    /// How many there are.
    pub(crate) fn len(&self) -> u64
        ensures { result ≡ self.now }
    {
        self.nodes.len() as u64
    }

    /// Makes some more, until there are so many.
    ///
    /// `Memory`, which never comes where they are there, leaves no fewer.
    pub(crate) fn grow(&mut self, count: u64) -> Result<(), Memory>
        ensures kept { self.old ≤ self.new }
        ensures ok { OnOk result (count ≤ self.new) }
        ensures there { count ≤ self.old → IsOk result }
    {
        while self.len() < count {
            self.add()?;
        }
        Ok(())
    }

    /// Makes one more.
    fn add(&mut self) -> Result<(), Memory>
        ensures ok { OnOk result (self.new ≡ self.old + 1) }
        ensures err { OnErr result (self.new ≡ self.old) }
    {
        let node = Box::new(
            self.alloc,
            Node {
                left: Subtree::new(),
                block: Block::new(self.alloc)?,
                count: 0,
                nodes: 0,
                excess: 0,
                summary: S::none(),
                right: Subtree::new(),
            },
        )?;
        self.nodes.push(node)?;
        Ok(())
    }

    /// Takes one.
    pub(crate) fn take(&mut self) -> Box<Node<T, S>>
        requires { 0 < self.old }
        ensures count { self.old ≡ self.new + 1 }
        ensures empty { result.value.block ≡ [] }
    {
        self.nodes.pop().unwrap()
    }
}
