//! What there is at the opening.
ghost use Rattle.std.specs.Prelude.{ℕ, ◌≡◌, ◌≤◌, ◌==◌, if◌then◌else◌, All, IfOk, vec_len};
ghost use Rattle.fd_table.specs.declared.TheConstants.{FILES};
ghost use Rattle.lock_manager.specs.declared.request.ProcState.TheVariants.{Live, Unborn};
ghost use Rattle.lock_manager.specs.State.{state_numbered};
ghost use Rattle.lock_manager.specs.Opening.{HoldsNothing};

use crate::ProcState;
use fd_table::FILES;
use lock_book::Book;
use range_core::Memory;
use std::alloc::Global;

/// A book without locks for each file.
pub fn empty_books(alloc: Global) -> Result<Vec<Book>, Memory>
    ensures len { IfOk result (λ books. vec_len books ≡ FILES) }
    ensures empty { IfOk result (λ books. All HoldsNothing books.items) }
{
    let mut books = Vec::with_capacity(alloc, usize::from(FILES))?;
    for _ in 0..FILES {
        books.push(Book::new(alloc))?;
    }
    Ok(books)
}

/// Process 1 lives, and the others are unborn.
pub fn opening_states(alloc: Global, processes: u8) -> Result<Vec<ProcState>, Memory>
    requires { 1 ≤ processes }
    ensures len { IfOk result (λ states. vec_len states ≡ processes) }
    ensures states { IfOk result (λ states. (p : ℕ) → state_numbered states.items p ≡ (if p == 1 then Live else Unborn)) }
{
    let count = usize::from(processes);
    let mut states = vec![in alloc; ProcState::Unborn; count]?;
    states[0] = ProcState::Live;
    Ok(states)
}
