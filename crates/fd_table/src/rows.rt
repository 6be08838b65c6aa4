//! The descriptors of one process.
ghost use Rattle.std.specs.Prelude.{ℕ, ◌≡◌, ◌<◌, ◌+◌, ◌^◌, ◌==◌, IfOk, IfSome, IfNone, Some, None, [], length, slice_index_or, slice_set, replicate};
ghost use Rattle.fd_table.specs.Rows.{row_at, with_key, opening_row, IsLowestClosed, AreAllOpen, AreOpenBelow, Keys};

use std::alloc::{AllocError, Global};
use std::marker::Model;

/// The slab keys that the descriptors of one process refer to, by their numbers. A process that was never alive has an
/// empty row.
#[derive(Drop)]
pub(crate) struct Row {
    keys: Vec<Option<usize>>,
    /// The descriptors below this one are open, so the lowest closed one is looked for from here on.
    open_below: usize,
}

impl Model for Row {
    ghost use Rattle.std.specs.Prelude.{Option, List, ℕ};
    ghost use Rattle.fd_table.specs.Rows.{AreOpenBelow};

    ghost Value = { List (Option ℕ) };

    ghost view = { λ row. row.keys.items };

    ghost invariant = { λ row. AreOpenBelow row.keys.items row.open_below };
}

impl Row {
    /// The row of a process that was never alive, which takes no memory.
    pub(crate) fn empty(alloc: Global) -> Row
        ensures { result ≡ [] }
    {
        Row {
            keys: Vec::new(alloc),
            open_below: 0,
        }
    }

    /// A row of this many closed descriptors.
    pub(crate) fn closed(alloc: Global, len: usize) -> Result<Row, AllocError>
        ensures { IfOk result (λ row. row ≡ replicate len None) }
    {
        let keys = vec![in alloc; None; len]?;
        Ok(Row {
            keys,
            open_below: 0,
        })
    }

    /// An equal row.
    pub(crate) fn copied(&self) -> Result<Row, AllocError>
        ensures { IfOk result (λ row. row ≡ self.now) }
    {
        let keys = Vec::from_slice(*self.keys.allocator(), &self.keys)?;
        Ok(Row {
            keys,
            open_below: self.open_below,
        })
    }

    pub(crate) fn len(&self) -> usize
        ensures { result ≡ length self.now }
    {
        self.keys.len()
    }

    pub(crate) fn is_empty(&self) -> bool
        ensures { result ≡ (length self.now == 0) }
    {
        self.keys.is_empty()
    }

    /// The key that the descriptor refers to, if it is open.
    pub(crate) fn get(&self, fd: usize) -> Option<usize>
        ensures { result ≡ slice_index_or self.now fd None }
    {
        self.keys.get(fd).copied().flatten()
    }

    /// Makes the descriptor refer to this key, or closes it.
    pub(crate) fn set(&mut self, fd: usize, key: Option<usize>)
        requires { fd < length self.old }
        ensures { self.new ≡ slice_set self.old fd key }
    {
        self.keys[fd] = key;
        self.open_below = open_below_after(self.open_below, fd, key);
    }

    /// The lowest closed descriptor, if there is one.
    pub(crate) fn lowest_closed(&self) -> Option<usize>
        ensures some { IfSome result (IsLowestClosed self.now) }
        ensures none { IfNone result (AreAllOpen self.now) }
    {
        for fd in self.open_below..self.keys.len() {
            if self.keys[fd].is_none() {
                return Some(fd);
            }
        }
        None
    }
}

/// Below which descriptor all are open, once this one refers to this key or is closed.
fn open_below_after(open_below: usize, fd: usize, key: Option<usize>) -> usize
    requires { fd < 2 ^ 63 }
    ensures { (row : Keys) → fd < length row → AreOpenBelow row open_below → AreOpenBelow (slice_set row fd key) result }
{
    match key {
        None => open_below.min(fd),
        Some(_) if fd == open_below => fd + 1,
        Some(_) => open_below,
    }
}

/// Makes the descriptor of the process refer to this key, or closes it.
pub(crate) fn set_key(rows: &mut Vec<Row>, p: u8, fd: u32, key: Option<usize>)
    requires { fd < length (row_at rows.old.items p) }
    ensures { rows.new.items ≡ with_key rows.old.items p fd key }
{
    rows[usize::from(p)].set(fd as usize, key);
}

/// The rows at the opening: process 1 alone has one, of this many closed descriptors.
pub(crate) fn opening_rows(alloc: Global, processes: u8, len: usize) -> Result<Vec<Row>, AllocError>
    ensures count { IfOk result (λ rows. length rows.items ≡ processes + 1) }
    ensures rows { IfOk result (λ rows. (p : ℕ) → p < processes + 1 → row_at rows.items p ≡ opening_row len p) }
{
    let count = usize::from(processes) + 1;
    let mut rows = Vec::with_capacity(alloc, count)?;
    for p in 0..count {
        let row = if p == 1 {
            Row::closed(alloc, len)?
        } else {
            Row::empty(alloc)
        };
        rows.push(row)?;
    }
    Ok(rows)
}
