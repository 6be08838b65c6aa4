//! What one owner holds on one file.
ghost use Rattle.std.specs.Prelude.{ℕ, ◌≡◌};
ghost use Rattle.std.specs.Option.{option_copied};
ghost use Rattle.lock_book.specs.OwnerLists.{modes_in_list};
ghost use Rattle.lock_manager.specs.MachineView.{machine_locks};

use super::Machine;
use lock_book::Owner;
use owner_runs::OwnerRuns;
use range_core::Mode;

impl Machine {
    /// The modes of the owner's byte locks on the file, as the runs of a list: none where there is no such file.
    pub fn byte_locks(&self, file: u8, owner: Owner) -> Option<&OwnerRuns>
        ensures { (byte : ℕ) → modes_in_list (option_copied result) byte ≡ (machine_locks self.now).bytes file owner byte }
    {
        self.books.get(usize::from(file))?.list(owner)
    }

    /// The mode of the description's flock lock on the file: none where there is no such file.
    pub fn flock_lock(&self, file: u8, description: u64) -> Option<Mode>
        ensures { result ≡ (machine_locks self.now).flocks file description }
    {
        self.books.get(usize::from(file))?.flock_mode(description)
    }
}
