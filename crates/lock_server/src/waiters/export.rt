//! The crossed owners, as words.
ghost use Rattle.std.specs.Prelude.{IsTrue, [], ◌∷◌};
ghost use Rattle.std.specs.List.{flat_map};
ghost use Rattle.lock_server.specs.Bytes.{listed, number_words};
ghost use Rattle.lock_server.specs.Inventory.{AreJust};
ghost use Rattle.lock_server.specs.WaitersView.{crossed_of};
ghost use Rattle.lock_server.specs.Words.{PutsSome};

use super::Waiters;
use crate::words;

#[tactic(auto, unfolding(crate::specs::WaitersView::crossed_of, crate::specs::WaitersView::waiter_of))]
impl Waiters {
    /// Puts how many owners are crossed, and these, rising.
    pub fn put(&self, out: &mut [u8], at: usize) -> usize
        ensures { PutsSome (AreJust (λ owner. owner ∷ []) (λ owner. IsTrue (crossed_of self.now owner))) (listed number_words) out.old at out.new result }
    {
        let size = self.put_each(&mut [], 0);
        // Each takes a word of eight bytes.
        let at = words::put(out, at, (size / 8) as u64);
        self.put_each(out, at)
    }

    /// Puts the owners that are crossed, rising.
    fn put_each(&self, out: &mut [u8], at: usize) -> usize
        ensures { PutsSome (AreJust (λ owner. owner ∷ []) (λ owner. IsTrue (crossed_of self.now owner))) (flat_map number_words) out.old at out.new result }
    {
        let mut behind = at;
        for (owner, waiter) in &self.owners {
            if !waiter.crossed {
                continue;
            }
            behind = words::put(out, behind, *owner);
        }
        behind
    }
}
