//! The files, the grants and the crossed owners, as words.
ghost use Rattle.std.specs.Prelude.{IsTrue, [], ◌∷◌};
ghost use Rattle.lock_server.specs.Bytes.{file_words, listed, number_words};
ghost use Rattle.lock_server.specs.Inventory.{AreFiles, AreJust};
ghost use Rattle.lock_server.specs.TableView.{AreSwept, table_state};
ghost use Rattle.lock_server.specs.Words.{Puts, PutsSome};

use super::Table;
use crate::words;

#[tactic(auto, unfolding(crate::specs::TableView::table_state, crate::specs::TableView::entry_of))]
impl Table {
    /// Puts how many files are in use, and these with what stands on them, by number.
    pub fn put_files(&self, out: &mut [u8], at: usize) -> usize
        requires { AreSwept self.now }
        ensures { PutsSome (AreFiles (table_state self.now)) (listed file_words) out.old at out.new result }
    {
        let mut behind = words::put(out, at, self.files.by_number().len() as u64);
        for (number, file) in self.files.by_number() {
            behind = file.put(out, behind, *number);
        }
        behind
    }

    /// Puts how many grants were not fetched, and these, in order.
    pub fn put_grants(&self, out: &mut [u8], at: usize) -> usize
        ensures { Puts (listed number_words (table_state self.now).grants) out.old at out.new result }
    {
        self.tickets.put(out, at)
    }

    /// Puts how many owners are crossed, and these, rising.
    pub fn put_crossed(&self, out: &mut [u8], at: usize) -> usize
        ensures { PutsSome (AreJust (λ owner. owner ∷ []) (λ owner. IsTrue ((table_state self.now).crossed owner))) (listed number_words) out.old at out.new result }
    {
        self.waiters.put(out, at)
    }
}
