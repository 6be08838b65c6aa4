//! The files on which each owner has something.
ghost use Rattle.std.specs.Prelude.{◌≡◌, ◌<◌, ◌≤◌, ◌↔◌, ℕ, true, false, IsFalse, IfSome, IfNone, IsTrue, IsOk, None, OnOk, OnErr, Option};
ghost use Rattle.std.specs.BTreeMap.Range.{IsFromStart, IsLeBy};
ghost use Rattle.lock_server.specs.HoldingsView.{behind as behind_of};

mod collecting;
mod finding;
mod taking;

use crate::openings::Openings;
use crate::owners::Owners;
use crate::table::Table;
use crate::{Memory, Mode};
use block_map::BlockMap;
use std::alloc::Global;
use std::ops::Bound;

/// The files on which each owner has a lock or a wait, or is noted: an order of the server's things by owner.
#[derive(Drop)]
pub struct Holdings {
    /// By owner, and then by file.
    pairs: BlockMap<(u64, u64), ()>,
}

#[tactic(auto, unfolding(crate::specs::HoldingsView::keeps, crate::specs::HoldingsView::size))]
impl Holdings {
    ghost use Rattle.lock_server.specs.Clients.{ForgetsSeen, is_within};
    ghost use Rattle.lock_server.specs.HoldingsView.{AreKept, keeps, Keeps, keeps_pair, KeepsIf, pair_cmp, SameHoldings, size, Tidies, TidiesIf};
    ghost use Rattle.lock_server.specs.OpeningsView.{IsAbove, through_at};
    ghost use Rattle.lock_server.specs.States.{State};
    ghost use Rattle.lock_server.specs.TableView.{table_state};

    /// No owner. It takes no memory.
    pub fn new(alloc: Global) -> Holdings
        ensures { (owner file : ℕ) → keeps result owner file ≡ false }
    {
        Holdings {
            pairs: BlockMap::new(alloc),
        }
    }

    /// The owner is kept with the file.
    ///
    /// `Memory` leaves all as it was.
    pub fn enter(&mut self, owner: u64, file: u64) -> Result<(), Memory>
        ensures ok { OnOk result (Keeps self.old self.new owner file true) }
        ensures err { OnErr result (SameHoldings self.old self.new) }
    {
        self.pairs.insert_new((owner, file), ())?;
        Ok(())
    }

    /// The owner is kept with the file, where it was given a lock of this mode: who had a byte lock there before is kept with it already,
    /// and an unlock changes nothing.
    ///
    /// `Memory` leaves all as it was.
    fn enter_for(
        &mut self,
        owner: u64,
        file: u64,
        mode: Option<Mode>,
        had: bool,
    ) -> Result<(), Memory>
        ensures ok { OnOk result ((S : State) (through : ℕ → ℕ → Option ℕ) → AreKept self.old S through
            → (IsFalse had ↔ ((byte : ℕ) → (S.files file).bytes owner byte ≡ None)) → KeepsIf mode self.old self.new owner file) }
        ensures unlock { mode ≡ None → IsOk result }
        ensures there { had ≡ true → IsOk result }
        ensures err { OnErr result (SameHoldings self.old self.new) }
    {
        if mode.is_none() || had {
            return Ok(());
        }
        self.enter(owner, file)
    }

    /// The owner isn't kept with the file any more. It takes no memory.
    fn leave(&mut self, owner: u64, file: u64)
        ensures keeps { Keeps self.old self.new owner file false }
        ensures fewer { keeps self.old owner file ≡ true → size self.new < size self.old }
    {
        self.pairs.remove((owner, file));
    }

    /// The owner isn't kept with the file any more, where it has nothing left there. It takes no memory.
    pub fn tidy(&mut self, table: &Table, openings: &Openings, owner: u64, file: u64)
        ensures { Tidies self.old self.new (table_state table.now) (through_at openings.now) owner file }
    {
        if openings.through(file, owner).is_none() && table.has_nothing(file, owner) {
            self.leave(owner, file);
        }
    }

    /// The same of the owner that is given, if any.
    pub fn tidy_of(&mut self, table: &Table, openings: &Openings, owner: Option<u64>, file: u64)
        ensures { TidiesIf owner self.old self.new (table_state table.now) (through_at openings.now) file }
    {
        if let Some(owner) = owner {
            self.tidy(table, openings, owner, file);
        }
    }

    /// The owners aren't kept with any file any more, nor noted there. It takes no memory.
    pub fn leave_all(&mut self, openings: &mut Openings, owners: Owners)
        requires { (owner file : ℕ) → keeps self.old owner file ≡ false → through_at openings.old file owner ≡ None }
        ensures gone { (owner file : ℕ) → IsTrue (is_within owners.first owners.last owner) → keeps self.new owner file ≡ false }
        ensures others { (owner file : ℕ) → is_within owners.first owners.last owner ≡ false → keeps self.new owner file ≡ keeps self.old owner file }
        ensures notes { ForgetsSeen (through_at openings.old) (through_at openings.new) (is_within owners.first owners.last) }
    {
        while let Some((owner, file)) = self.next_pair(behind(owners.first, None)) {
            if owners.last < owner {
                return;
            }
            openings.forget(file, owner);
            self.leave(owner, file);
        }
    }

    /// The least file with which the owner is kept, above this one where one is given.
    pub fn next_file(&self, owner: u64, above: Option<u64>) -> Option<u64>
        ensures above { IfSome result (λ file. IsAbove above file) }
        ensures least { IfSome result (λ file. (other : ℕ) → IsAbove above other → other < file → keeps self.now owner other ≡ false) }
        ensures none { IfNone result ((file : ℕ) → IsAbove above file → keeps self.now owner file ≡ false) }
    {
        let (found, file) = self.next_pair(behind(owner, above))?;
        if found == owner { Some(file) } else { None }
    }

    /// The first pair from this bound on.
    fn next_pair(&self, from: Bound<(u64, u64)>) -> Option<(u64, u64)>
        ensures from { IfSome result (IsFromStart pair_cmp from) }
        ensures kept { IfSome result (λ found. IsTrue (keeps_pair self.now found)) }
        ensures least { IfSome result (λ found. (other : ℕ × ℕ) → IsFromStart pair_cmp from other → IsTrue (keeps_pair self.now other)
            → IsLeBy pair_cmp found other) }
        ensures none { IfNone result ((other : ℕ × ℕ) → IsFromStart pair_cmp from other → keeps_pair self.now other ≡ false) }
    {
        self.pairs.first_from(from)
    }
}

/// Where the owner's pairs begin whose files are above this one, where one is given.
fn behind(owner: u64, above: Option<u64>) -> Bound<(u64, u64)>
    ensures { result ≡ behind_of owner above }
{
    match above {
        None => Bound::Included((owner, 0)),
        Some(file) => Bound::Excluded((owner, file)),
    }
}
