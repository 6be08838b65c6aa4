//! Laws of whole histories: each is the contract of a function that does nothing.
ghost use Rattle.history_judge.specs.FilesApart.{EndsApart, LegalApart, ReachedApart};

/// A law, and nothing to run: each order of a whole history is one of each file's lines, and orders of all files' lines are merged to one
/// of the whole, where no ID is sent while it is open or answered while it isn't.
pub fn orders_are_judged_apart()
    ensures { ReachedApart }
{}

/// A law, and nothing to run: so a history is legal just where each file's lines are.
pub fn files_are_judged_apart()
    ensures { LegalApart }
{}

/// A law, and nothing to run: and it may end with its waits still waiting just where each file's lines may.
pub fn ends_are_judged_apart()
    ensures { EndsApart }
{}
