//! The lines of an order of effects, with the locks that they leave.
ghost use Rattle.std.specs.Prelude.{◌≡◌, ◌++◌, ◌∷◌, [], ◌^◌, ◌<◌, ℕ, List, OnOk, decimal, flat_map, length};
ghost use Rattle.history_core.specs.HeldView.{locks_in};
ghost use Rattle.history_core.specs.Locks.{FileLocks};
ghost use Rattle.history_judge.specs.HeldView.{locks_on};
ghost use Rattle.history_judge.specs.HistoryOrders.{Leave, no_locks};
ghost use Rattle.history_check.specs.OrderTold.{IsFileText, IsOrderText, IsStateBehind, IsStateText, by_mode as by_mode_of, byte_lock_line, deed_text, flock_line, happening_line};

use crate::judging::LockStates;
use crate::told::{push_number, push_str};
use history_core::{ByteLock, Deed, FlockLock, HeldLocks};
use history_judge::{FileHappening, HeldFiles};
use range_core::{Memory, Mode};

/// Appends the line of each effect, and of each old lock that was let go, with the locks of all files behind those that are asked for. An order
/// is possible throughout; what isn't ends the text.
///
/// After `Memory` a part of it was appended, or none.
pub fn push_order(
    text: &mut Vec<u8>,
    order: &[FileHappening],
    states: LockStates,
) -> Result<(), Memory>
    ensures { (last : ℕ → FileLocks) → Leave no_locks order.now last
        → OnOk result ((told : List ℕ) × IsOrderText states 0 no_locks order.now told × (text.new.items ≡ text.old.items ++ told)) }
{
    let mut held = HeldFiles::new(*text.allocator());
    for (index, happening) in order.iter().enumerate() {
        if !held.apply(*happening)? {
            return Ok(());
        }
        push_happening(text, *happening)?;
        push_state_behind(text, states, index as u64 + 1, &held)?;
    }
    Ok(())
}

/// Appends the line of an effect, or of an old lock that was let go.
fn push_happening(text: &mut Vec<u8>, happening: FileHappening) -> Result<(), Memory>
    ensures { OnOk result (text.new.items ≡ text.old.items ++ happening_line happening) }
{
    push_number(text, happening.request.id)?;
    push_str(text, deed_words(happening.deed))?;
    push_number(text, happening.behind)?;
    push_str(text, "\n")
}

/// What the line says between the ID and the number of the line.
fn deed_words(deed: Deed) -> &'static str
    ensures { result.now ≡ deed_text deed }
{
    match deed {
        Deed::Effect => " behind ",
        Deed::LetGo => " lets go behind ",
    }
}

/// Appends the locks of all files, where they are asked for behind the line of this number.
fn push_state_behind(
    text: &mut Vec<u8>,
    states: LockStates,
    number: u64,
    held: &HeldFiles,
) -> Result<(), Memory>
    ensures { OnOk result ((state : List ℕ) × IsStateBehind states number (locks_on held.now) state × (text.new.items ≡ text.old.items ++ state)) }
{
    if !states.are_behind(number) {
        return Ok(());
    }
    push_state(text, held)
}

/// Appends the locks of all files: by file, the byte locks by owner and first byte, and then the flock locks by owner.
fn push_state(text: &mut Vec<u8>, held: &HeldFiles) -> Result<(), Memory>
    ensures { OnOk result ((state : List ℕ) × IsStateText (locks_on held.now) state × (text.new.items ≡ text.old.items ++ state)) }
{
    for (file, locks) in held.files() {
        push_file(text, *file, locks)?;
    }
    Ok(())
}

/// Appends the locks of one file.
fn push_file(text: &mut Vec<u8>, file: u64, locks: &HeldLocks) -> Result<(), Memory>
    ensures { OnOk result ((told : List ℕ) × IsFileText file (locks_in locks.now) told × (text.new.items ≡ text.old.items ++ told)) }
{
    push_byte_locks(text, file, locks.byte_locks())?;
    let flocks = locks.flock_locks(*text.allocator())?;
    push_flock_locks(text, file, &flocks)
}

/// Appends the line of each byte lock.
fn push_byte_locks(text: &mut Vec<u8>, file: u64, locks: &[ByteLock]) -> Result<(), Memory>
    ensures { OnOk result (text.new.items ≡ text.old.items ++ flat_map (byte_lock_line file) locks.now) }
{
    for lock in locks {
        push_byte_lock(text, file, *lock)?;
    }
    Ok(())
}

/// Appends the line of each flock lock.
fn push_flock_locks(text: &mut Vec<u8>, file: u64, locks: &[FlockLock]) -> Result<(), Memory>
    ensures { OnOk result (text.new.items ≡ text.old.items ++ flat_map (flock_line file) locks.now) }
{
    for lock in locks {
        push_flock_lock(text, file, *lock)?;
    }
    Ok(())
}

/// Appends the line of a byte lock.
#[tactic(auto, using(crate::proofs::TextLemmas::joined_seven))]
fn push_byte_lock(text: &mut Vec<u8>, file: u64, lock: ByteLock) -> Result<(), Memory>
    ensures { OnOk result (text.new.items ≡ text.old.items ++ byte_lock_line file lock) }
{
    push_str(text, "# lock")?;
    push_spaced(text, file)?;
    push_spaced(text, lock.owner)?;
    push_str(text, by_mode(lock.mode, " r", " w"))?;
    push_spaced(text, lock.span.first)?;
    push_spaced(text, lock.span.last)?;
    push_str(text, "\n")
}

/// Appends the line of a flock lock.
#[tactic(auto, using(crate::proofs::TextLemmas::joined_five))]
fn push_flock_lock(text: &mut Vec<u8>, file: u64, lock: FlockLock) -> Result<(), Memory>
    ensures { OnOk result (text.new.items ≡ text.old.items ++ flock_line file lock) }
{
    push_str(text, "# flock")?;
    push_spaced(text, file)?;
    push_spaced(text, lock.owner)?;
    push_str(text, by_mode(lock.mode, " sh", " ex"))?;
    push_str(text, "\n")
}

/// Appends a space and a number.
fn push_spaced(text: &mut Vec<u8>, number: u64) -> Result<(), Memory>
    ensures { OnOk result (text.new.items ≡ text.old.items ++ 32 ∷ decimal number) }
{
    push_str(text, " ")?;
    push_number(text, number)
}

/// The one piece for a read lock, the other for a write lock.
fn by_mode(mode: Mode, read: &'static str, write: &'static str) -> &'static str
    ensures { result.now ≡ by_mode_of mode read.now write.now }
{
    match mode {
        Mode::Read => read,
        Mode::Write => write,
    }
}
