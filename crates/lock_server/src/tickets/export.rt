//! The grants that were not fetched, as words.
ghost use Rattle.lock_server.specs.Bytes.{listed, number_words};
ghost use Rattle.lock_server.specs.TicketsView.{grants_of};
ghost use Rattle.lock_server.specs.Words.{Puts};

use super::Tickets;
use crate::words;

#[tactic(auto, unfolding(crate::specs::TicketsView::grants_of))]
impl Tickets {
    /// Puts how many grants were not fetched, and these, in order.
    pub fn put(&self, out: &mut [u8], at: usize) -> usize
        ensures { Puts (listed number_words (grants_of self.now)) out.old at out.new result }
    {
        let mut behind = words::put(out, at, self.granted.len() as u64);
        for i in 0..self.granted.len() {
            behind = words::put(out, behind, self.granted[i]);
        }
        behind
    }
}
