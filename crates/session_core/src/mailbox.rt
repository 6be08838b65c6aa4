//! The requests that a process sent, in order.
ghost use Rattle.std.specs.Prelude.{◌≡◌, ◌+◌, ◌-◌, ◌<◌, ◌≤◌, ◌↔◌, [], ◌∷◌, ◌++◌, Err, IfOk, IsTrue, OnOk, OnErr, length, slice_get, take, drop};
ghost use Rattle.session_core.specs.declared.TheConstants.{N_MAX};

use crate::{ArriveFault, N_MAX};
use lock_manager::Request;
use range_core::Memory;
use std::alloc::Global;
use std::collections::VecDeque;

/// What one process has sent that wasn't taken, in order, and how much of what it sent was taken. What was taken stands in the
/// journal.
#[derive(Drop)]
pub struct Mailbox {
    waiting: VecDeque<Request>,
    taken: u64,
    ghost limited: { taken + length waiting.items ≤ N_MAX },
}

impl Mailbox {
    ghost use Rattle.session_core.specs.Mailboxes.{IsEmptyMailbox};

    /// Without a request.
    pub fn new(alloc: Global) -> Mailbox
        ensures { IsEmptyMailbox result }
    {
        Mailbox {
            waiting: VecDeque::new(alloc),
            taken: 0,
        }
    }

    /// How many requests were sent.
    pub fn sent(&self) -> u64
        ensures { result ≡ self.now.taken + length self.now.waiting.items }
    {
        self.taken + self.waiting.len() as u64
    }

    /// How many of them were taken.
    pub fn taken(&self) -> u64
        ensures { result ≡ self.now.taken }
    {
        self.taken
    }

    /// The first request that wasn't taken.
    pub fn next(&self) -> Option<Request>
        ensures { result ≡ slice_get self.now.waiting.items 0 }
    {
        self.waiting.front().copied()
    }

    /// The request is sent, and gets its number.
    pub fn push(&mut self, request: Request) -> Result<u64, ArriveFault>
        ensures ok { OnOk result (self.new.waiting.items ≡ self.old.waiting.items ++ request ∷ []) }
        ensures number { IfOk result (λ n. n ≡ self.new.taken + length self.new.waiting.items) }
        ensures full { (result ≡ Err ArriveFault.Full) ↔ (self.old.taken + length self.old.waiting.items ≡ N_MAX) }
        ensures err { OnErr result (self.new.waiting.items ≡ self.old.waiting.items) }
        ensures taken { self.new.taken ≡ self.old.taken }
    {
        let sent = self.sent();
        if sent == N_MAX {
            return Err(ArriveFault::Full);
        }
        self.waiting.push_back(request).map_err(Memory::from)?;
        Ok(sent + 1)
    }

    /// One request is sent and taken in one, and was never in the mailbox, which is empty.
    pub fn pass(&mut self)
        requires empty { self.old.waiting.items ≡ [] }
        requires room { self.old.taken < N_MAX }
        ensures taken { self.new.taken ≡ self.old.taken + 1 }
        ensures waiting { self.new.waiting.items ≡ self.old.waiting.items }
    {
        self.taken += 1;
    }

    /// The first request that wasn't taken is taken. Tells whether there are more.
    pub fn advance(&mut self) -> bool
        requires { 0 < length self.old.waiting.items }
        ensures more { IsTrue result ↔ (0 < length self.new.waiting.items) }
        ensures taken { self.new.taken ≡ self.old.taken + 1 }
        ensures waiting { self.new.waiting.items ≡ drop 1 self.old.waiting.items }
    {
        self.waiting.pop_front();
        self.taken += 1;
        !self.waiting.is_empty()
    }

    /// Takes back the last request, which wasn't taken: it is as if it hadn't come.
    pub fn withdraw(&mut self)
        requires { 0 < length self.old.waiting.items }
        ensures waiting { self.new.waiting.items ≡ take (length self.old.waiting.items - 1) self.old.waiting.items }
        ensures taken { self.new.taken ≡ self.old.taken }
    {
        self.waiting.pop_back();
    }
}
