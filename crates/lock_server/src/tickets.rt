//! Where the request with each ticket stands, and the grants that were not fetched.
ghost use Rattle.std.specs.Prelude.{◌≡◌, ◌≢◌, ◌+◌, ◌≤◌, ◌++◌, ℕ, None, Some, [], ◌∷◌, IfSome, IfNone, IsSome, OnOk, OnErr};
ghost use Rattle.std.specs.VecDeque.{deque_len, deque_capacity};
ghost use Rattle.lock_server.specs.Owed.{owed};

mod export;

use crate::Memory;
use std::alloc::Global;
use std::collections::{BTreeMap, VecDeque};

/// Where the request with a ticket stands.
#[derive(Clone, Copy)]
pub enum Place {
    /// Room is taken for it, and it may come to wait.
    Reserved,
    /// It waits on this file.
    Waits(u64),
    /// It was granted, and that wasn't fetched.
    Granted,
}

/// The tickets that are known, and the grants that were not fetched, in order. Room is held for the grant of each that may come
/// to be granted.
#[derive(Drop)]
pub struct Tickets {
    places: BTreeMap<u64, Place>,
    granted: VecDeque<u64>,
    ghost room: { deque_len granted + owed places.entries ≤ deque_capacity granted },
}

#[tactic(auto, unfolding(crate::specs::TicketsView::place_at, crate::specs::TicketsView::grants_of))]
impl Tickets {
    ghost use Rattle.lock_server.specs.TicketsView.{place_at, grants_of, SameTickets, SetsPlace};
    ghost use Rattle.std.specs.Prelude.{true, ◌==◌};

    /// No ticket. It takes no memory.
    pub fn new(alloc: Global) -> Tickets
        ensures places { (ticket : ℕ) → place_at result ticket ≡ None }
        ensures grants { grants_of result ≡ [] }
    {
        Tickets {
            places: BTreeMap::new(alloc),
            granted: VecDeque::new(alloc),
        }
    }

    /// Where the request with the ticket stands; `None` where the ticket isn't known.
    pub fn place(&self, ticket: u64) -> Option<Place>
        ensures { result ≡ place_at self.now ticket }
    {
        self.places.get(&ticket).copied()
    }

    /// Notes the ticket, with room for its grant.
    ///
    /// `Memory` leaves the tickets as they were.
    pub fn note(&mut self, ticket: u64) -> Result<(), Memory>
        ensures ok { OnOk result (SetsPlace self.old self.new ticket (Some Place.Reserved)) }
        ensures grants { grants_of self.new ≡ grants_of self.old }
        ensures err { OnErr result (SameTickets self.old self.new) }
    {
        // No more are owed than are noted.
        let most = self.places.len() + 1;
        self.granted.reserve(most)?;
        self.places.insert(ticket, Place::Reserved)?;
        Ok(())
    }

    /// The request waits on the file. It takes no memory.
    pub fn wait(&mut self, ticket: u64, file: u64)
        requires { place_at self.old ticket ≡ Some Place.Reserved }
        ensures place { SetsPlace self.old self.new ticket (Some (Place.Waits file)) }
        ensures grants { grants_of self.new ≡ grants_of self.old }
    {
        let place = self.places.get_mut(&ticket).unwrap();
        *place = Place::Waits(file);
    }

    /// The request that waits is granted. It takes no memory.
    pub fn grant(&mut self, ticket: u64)
        requires { (file : ℕ) × (place_at self.old ticket ≡ Some (Place.Waits file)) }
        ensures place { SetsPlace self.old self.new ticket (Some Place.Granted) }
        ensures grants { grants_of self.new ≡ grants_of self.old ++ ticket ∷ [] }
    {
        let place = self.places.get_mut(&ticket).unwrap();
        *place = Place::Granted;
        self.granted.push_back_reserved(ticket);
    }

    /// A grant is queued whose ticket isn't known.
    ///
    /// `Memory` leaves the tickets as they were.
    pub fn queue(&mut self, ticket: u64) -> Result<(), Memory>
        ensures place { OnOk result (SetsPlace self.old self.new ticket (Some Place.Granted)) }
        ensures grants { OnOk result (grants_of self.new ≡ grants_of self.old ++ ticket ∷ []) }
        ensures err { OnErr result (SameTickets self.old self.new) }
    {
        // No more are owed than are noted.
        let most = self.places.len() + 1;
        self.granted.reserve(most)?;
        self.places.insert(ticket, Place::Granted)?;
        self.granted.push_back_reserved(ticket);
        Ok(())
    }

    /// The oldest grant leaves the queue, and its ticket isn't known any more. It takes no memory.
    pub fn fetch(&mut self) -> Option<u64>
        ensures some { IfSome result (λ ticket. (grants_of self.old ≡ ticket ∷ grants_of self.new) × SetsPlace self.old self.new ticket None) }
        ensures none { IfNone result ((grants_of self.old ≡ []) × SameTickets self.old self.new) }
    {
        let ticket = self.granted.pop_front()?;
        self.places.remove(&ticket);
        Some(ticket)
    }

    /// The ticket isn't known any more; its request wasn't granted. It takes no memory.
    pub fn forget(&mut self, ticket: u64)
        ensures place { SetsPlace self.old self.new ticket None }
        ensures grants { grants_of self.new ≡ grants_of self.old }
    {
        self.places.remove(&ticket);
    }
}
