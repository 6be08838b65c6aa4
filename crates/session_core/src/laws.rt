//! Laws of drains and runs. Each is the contract of a function that does nothing.
ghost use Rattle.session_core.specs.GoingOn.{EveryRunGoesOn};
ghost use Rattle.session_core.specs.OneDrain.{ArrivalsHaveOneDrain};
ghost use Rattle.session_core.specs.QueuePolicy.{GrantsAreInTurn, NotesAreOfWaits, RequestsJoinTheQueue};

use lock_manager::{step_has_one_outcome, step_has_some_outcome};

/// Every run goes on: whatever a process requests that lives after it, it can't be that no event of that request makes a longer run.
pub fn every_run_goes_on()
    ensures { EveryRunGoesOn }
{
    step_has_some_outcome();
}

/// A list of arrivals has one drain: two drains of it, under the same rules and of as many processes, make the same journal,
/// notes included, and leave the same state.
pub fn arrivals_have_one_drain()
    ensures { ArrivalsHaveOneDrain }
{
    step_has_one_outcome();
}

/// Under the queue policy waits that conflict are granted in turn, in every run: where the note that one waits stands in the
/// journal before the note that another does, and the two conflict (on one file and in one family, of different owners, at least
/// one for a write lock, on ranges that meet), each Ok to the later request stands behind an answer to the earlier one or behind
/// the end of its process (this project's choice). Each note that a request waits is of such a wait. That a wait is ever granted
/// is no part of it.
pub fn waits_are_granted_in_turn()
    ensures in_turn { GrantsAreInTurn }
    ensures told { NotesAreOfWaits }
{
    step_has_one_outcome();
}

/// Under the queue policy nobody passes the queue who would wait, in every run: a `setlkw`, an `osetlkw` or a `flock` without
/// `LOCK_NB` that sets its lock at once conflicts with no wait in the list of the state that it is tested in, nor with one that was told
/// to wait before and wasn't over at the test (this project's choice). That state is the one before the request or, of a `flock` that
/// converts a lock, the one that settling leaves after the old lock was removed. A request that doesn't wait looks at held locks alone.
pub fn requests_join_the_queue()
    ensures { RequestsJoinTheQueue }
{
    step_has_one_outcome();
}
