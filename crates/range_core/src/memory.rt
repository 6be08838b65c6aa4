//! Want of memory, and the one place where it is made.
ghost use Rattle.std.specs.Prelude.{◌≡◌, ◌+◌, ◌*◌, ◌^◌, ◌≤◌, IfOk, OnErr};

use std::alloc::{AllocError, AllocFailed};
use thiserror::Error;

/// Want of memory: a growth was refused (this project's choice: every call that may grow answers it, and is then as if
/// it had not been made, where its documentation doesn't say otherwise).
///
/// It is made here alone, of the error of a refused growth or of a count that no block has places for, and passed on
/// everywhere else. The private field doesn't carry that, since anyone can make an `AllocError`: `tools/memory-is-passed-on`
/// looks at each place of the sources that names one.
#[derive(Clone, Copy, Debug, PartialEq, Eq, Error)]
#[error("no memory")]
pub struct Memory(());

impl From<AllocError> for Memory {
    fn from(_refused: AllocError) -> Memory {
        Memory(())
    }
}

impl<T: Drop> From<AllocFailed<T>> for Memory {
    fn from(refused: AllocFailed<T>) -> Memory {
        Memory::from(AllocError::from(refused))
    }
}

/// Twice so many places: want of memory where that is more than the machine can count, so that no block has them.
pub(crate) fn doubled(count: usize) -> Result<usize, Memory>
    ensures ok { IfOk result (λ places. places ≡ 2 * count) }
    ensures err { OnErr result (2 ^ 64 ≤ 2 * count) }
{
    count.checked_mul(2).ok_or(Memory(()))
}

/// How many there are with so many more: want of memory where that is more than the machine can count, so that no memory
/// has them.
pub fn counted(count: u64, more: u64) -> Result<u64, Memory>
    ensures ok { IfOk result (λ all. all ≡ count + more) }
    ensures err { OnErr result (2 ^ 64 ≤ count + more) }
{
    count.checked_add(more).ok_or(Memory(()))
}
