//! Laws of waits. Each is the contract of a function that does nothing.
ghost use Rattle.wait_core.specs.FreeOfCycles.{FreeWhenDescriptionLocksChange, FreeWhenLocksChange, FreeWhenOneJoins, FreeWhenOneLeaves};

/// A law, and nothing to run: waits that are free of cycles stay so when one joins that closes none, when a process
/// leaves, when the locks of an owner change that doesn't wait, and when only locks of descriptions change.
pub fn stay_free_of_cycles()
    ensures one_joins { FreeWhenOneJoins }
    ensures one_leaves { FreeWhenOneLeaves }
    ensures locks_change { FreeWhenLocksChange }
    ensures description_locks_change { FreeWhenDescriptionLocksChange }
{}
