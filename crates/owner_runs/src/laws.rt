//! A law of the runs of owners: the contract of a function that does nothing.
ghost use Rattle.owner_runs.specs.Lists.{OwnersStandForRuns};

/// The runs of any owner stand for the modes of some list of runs: so its modes can be made by as many sets.
pub fn owners_stand_for_runs()
    ensures { OwnersStandForRuns }
{}
