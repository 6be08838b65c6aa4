//! Laws of the definition of a step, and of what a manager stands for. Each is the contract of a function that does nothing.
ghost use Rattle.lock_manager.specs.OneOutcome.{StepHasOneOutcome};
ghost use Rattle.lock_manager.specs.SomeOutcome.{StepHasSomeOutcome};
ghost use Rattle.lock_manager.specs.SectionsApart.{SectionsChangeNothingElse};
ghost use Rattle.lock_manager.specs.SomeState.{ManagersStandForSome};

use fd_table::tables_stand_for_some;
use lock_book::books_stand_for_some;

/// A step has one outcome: two steps under the same rules, from the same state, by the same request with the same number
/// of the same process, tell the same notes and leave the same state, with the same changes of locks, descriptors, waits
/// and process states. So a run can be checked by making its steps again.
pub fn step_has_one_outcome()
    ensures { StepHasOneOutcome }
{}

/// A step has some outcome: from each state that steps lead to from the opening, and from each that a manager stands for, by whatever
/// request of a live process, it can't be that there is no step. With [`step_has_one_outcome`] there is exactly one: the definition is
/// a function of the state and the request.
pub fn step_has_some_outcome()
    ensures { StepHasSomeOutcome }
{}

/// Any manager stands for some state: so none of the clauses of [`crate::Manager`], which speak of all states that it stands for, is
/// empty.
pub fn managers_stand_for_some()
    ensures { ManagersStandForSome }
{
    tables_stand_for_some();
    books_stand_for_some();
}

/// Sections change nothing else: whoever is in which section, and was told an error last, any request but `enter`, `leave` and `bail` makes
/// the same notes, and leaves the same locks, descriptors, waits and process states.
pub fn sections_change_nothing_else()
    ensures { SectionsChangeNothingElse }
{}
