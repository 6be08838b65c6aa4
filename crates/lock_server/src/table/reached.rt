//! What a search for a cycle reached and looked at.
ghost use Rattle.std.specs.Prelude.{◌≡◌, ℕ, [], None, OnOk, slice_get};
ghost use Rattle.lock_server.specs.Blockers.{AddsOnce};
ghost use Rattle.lock_server.specs.Reached.{AreAmong};

use super::looked_at::LookedAt;
use crate::Memory;
use std::alloc::Global;
use std::collections::BTreeSet;

/// Owners, each once, in the order in which they were reached, and the bytes on which it looked for locks.
#[derive(Drop)]
pub struct Reached {
    owners: Vec<u64>,
    /// The same owners, to be looked up.
    known: BTreeSet<u64>,
    pub looked_at: LookedAt,
    ghost among: { AreAmong known owners.items },
}

impl Reached {
    ghost use Rattle.lock_server.specs.LookedAt.{looked_modes};

    /// No owner, and no byte. It takes no memory.
    pub fn new(alloc: Global) -> Reached
        ensures owners { result.owners.items ≡ [] }
        ensures looked_at { (file byte : ℕ) → looked_modes result.looked_at file byte ≡ None }
    {
        Reached {
            owners: Vec::new(alloc),
            known: BTreeSet::new(alloc),
            looked_at: LookedAt::new(alloc),
        }
    }

    /// The owner at this place, from 0. It takes no memory.
    pub fn get(&self, place: usize) -> Option<u64>
        ensures { result ≡ slice_get self.now.owners.items place }
    {
        self.owners.get(place).copied()
    }

    /// Adds the owner behind the others, unless it is among them.
    ///
    /// `Memory` leaves the owners as they were.
    pub fn add(&mut self, owner: u64) -> Result<(), Memory>
        ensures adds { OnOk result (AddsOnce self.old.owners.items self.new.owners.items owner) }
        ensures looked_at { self.new.looked_at ≡ self.old.looked_at }
    {
        self.owners.reserve(1)?;
        if self.known.insert(owner)? {
            self.owners.push_reserved(owner);
        }
        Ok(())
    }
}
