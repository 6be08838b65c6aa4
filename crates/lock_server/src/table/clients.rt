//! Clients and files that are gone.
ghost use Rattle.std.specs.Prelude.{◌≡◌, ◌<◌, ◌↔◌, ℕ, [], IfNone, IfSome, IsTrue};
ghost use Rattle.lock_server.specs.Clients.{ForgetsFile, ForgetsOwners, HaveLocksOn, is_within, SettlesAll, Strips, StripsOn};
ghost use Rattle.lock_server.specs.HoldingsView.{AreUnkept, HasNoneOf, KeepsHolders};
ghost use Rattle.lock_server.specs.OpeningsView.{IsAbove};
ghost use Rattle.lock_server.specs.Settling.{IsSettled};
ghost use Rattle.lock_server.specs.TableView.{AllLeave, AreSwept, HasEntry, KeepsOthers, StripsLocksOn, table_state};

use super::Table;
use crate::Policy;
use crate::holdings::Holdings;
use crate::leaving::Leaving;
use crate::owners::Owners;

#[tactic(auto, unfolding(crate::specs::TableView::table_state, crate::specs::TableView::entry_of))]
impl Table {
    /// The locks and waits of the owners leave all files, and then each file is settled, the files rising. It takes no memory.
    pub fn forget_owners(&mut self, policy: Policy, holdings: &Holdings, owners: Owners)
        requires kept { KeepsHolders holdings.now (table_state self.old) }
        requires settled { (file : ℕ) → IsSettled policy ((table_state self.old).files file) }
        ensures forgets { ForgetsOwners policy (table_state self.old) owners.first owners.last (table_state self.new) }
        ensures swept { AreSwept self.old → AreSwept self.new }
    {
        let few = self.are_few(holdings, owners);
        self.strip_all(holdings, owners, few);
        self.settle_all(policy, holdings, owners, few);
    }

    /// The locks and waits of the owners leave all files. No wait is granted.
    fn strip_all(&mut self, holdings: &Holdings, owners: Owners, few: bool)
        requires { KeepsHolders holdings.now (table_state self.old) }
        ensures strips { Strips (table_state self.old) (is_within owners.first owners.last) (table_state self.new) }
        ensures swept { AreSwept self.old → AreSwept self.new }
    {
        let mut above = None;
        while let Some(file) = self.next_file_of(holdings, owners, few, above) {
            self.strip(file, owners);
            self.sweep(file);
            above = Some(file);
        }
    }

    /// The locks and waits of the owners leave the file. No wait is granted.
    fn strip(&mut self, file: u64, owners: Owners)
        ensures strips { StripsOn (table_state self.old) file (is_within owners.first owners.last) (table_state self.new) }
        ensures others { KeepsOthers self.old self.new file }
    {
        // The waits go first: as long as one stands, the owner's room on the file stays.
        while self.dismiss_one(file, Leaving::Of(owners)) {}
        self.strip_locks(file, owners);
    }

    /// The locks of the owners leave the file; their waits stay. No wait is granted.
    fn strip_locks(&mut self, file: u64, owners: Owners)
        ensures strips { StripsLocksOn (table_state self.old) file (is_within owners.first owners.last) (table_state self.new) }
        ensures others { KeepsOthers self.old self.new file }
    {
        if let Some(locks) = self.files.get_mut(&file) {
            locks.strip_locks(owners);
        }
    }

    /// Each file is settled, the files rising, where those with which none of the owners is kept are settled already.
    fn settle_all(&mut self, policy: Policy, holdings: &Holdings, owners: Owners, few: bool)
        requires { (file : ℕ) → AreUnkept holdings.now owners.first owners.last file → IsSettled policy ((table_state self.old).files file) }
        ensures settles { SettlesAll policy (table_state self.old) (table_state self.new) }
        ensures swept { AreSwept self.old → AreSwept self.new }
    {
        let mut above = None;
        while let Some(file) = self.next_file_of(holdings, owners, few, above) {
            self.settle(policy, file);
            self.sweep(file);
            above = Some(file);
        }
    }

    /// Whether it takes fewer steps to look for the files of these owners than to go through all files.
    pub(super) fn are_few(&self, holdings: &Holdings, owners: Owners) -> bool {
        holdings.are_few(owners, self.files.by_number().len())
    }

    /// The least file on which one of the owners may have something, above this one where one is given; it is looked for among the owners,
    /// if they are few, and else among all files.
    pub(super) fn next_file_of(
        &self,
        holdings: &Holdings,
        owners: Owners,
        few: bool,
        above: Option<u64>,
    ) -> Option<u64>
        ensures above { IfSome result (λ file. IsAbove above file) }
        ensures least { IfSome result (λ file. (other : ℕ) → IsAbove above other → other < file
            → HasNoneOf holdings.now owners.first owners.last (table_state self.now) other) }
        ensures none { IfNone result ((file : ℕ) → IsAbove above file → HasNoneOf holdings.now owners.first owners.last (table_state self.now) file) }
    {
        if few {
            holdings.next_file_of(owners, above)
        } else {
            self.next_file(above)
        }
    }

    /// All locks and waits leave the file, and its entry goes. No wait is granted. It takes no memory.
    #[tactic(auto, using(crate::proofs::ClientLemmas::file_forgotten), unfolding(crate::specs::TableView::table_state, crate::specs::TableView::entry_of))]
    pub fn forget_file(&mut self, file: u64)
        ensures forgets { ForgetsFile (table_state self.old) file (table_state self.new) }
        ensures gone { ¬ HasEntry self.new file }
        ensures others { KeepsOthers self.old self.new file }
    {
        self.dismiss_all(file);
        self.drop_entry(file);
    }

    /// All waits leave the file; its locks stay. No wait is granted.
    fn dismiss_all(&mut self, file: u64)
        ensures leave { AllLeave (table_state self.old) file (table_state self.new) }
        ensures others { KeepsOthers self.old self.new file }
    {
        while self.dismiss_one(file, Leaving::All) {}
    }

    /// The entry of the file goes, on which nobody waits. No wait is granted.
    fn drop_entry(&mut self, file: u64)
        requires { ((table_state self.old).files file).waits ≡ [] }
        ensures forgets { ForgetsFile (table_state self.old) file (table_state self.new) }
        ensures gone { ¬ HasEntry self.new file }
        ensures others { KeepsOthers self.old self.new file }
    {
        self.files.remove(&file);
    }

    /// Whether one of the owners has a byte lock or a flock lock on the file.
    pub fn has_locks_on(&self, file: u64, owners: Owners) -> bool
        ensures { IsTrue result ↔ HaveLocksOn ((table_state self.now).files file) owners.first owners.last }
    {
        match self.files.get(&file) {
            Some(locks) => locks.has_locks(owners),
            None => false,
        }
    }
}
