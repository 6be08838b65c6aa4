//! A law of the lists of modes: the contract of a function that does nothing.
ghost use Rattle.range_core.specs.SomeRuns.{ListsStandForRuns};

/// Any list stands for the modes of some runs: so its modes can be made by as many sets.
pub fn lists_stand_for_runs()
    ensures { ListsStandForRuns }
{}
