//! Laws of the report of the locks, of what blocks a lock, and of what a book stands for. Each is the contract of a function that does nothing.
ghost use Rattle.lock_book.specs.Decided.{ByteConflictIsDecided, FlockConflictIsDecided, ProcessBlocksIsDecided};
ghost use Rattle.lock_book.specs.OneReport.{LocksHaveOneFileReport, LocksHaveOneReport};
ghost use Rattle.lock_book.specs.SomeChanges.{BooksStandForSome};

use owner_runs::owners_stand_for_runs;

/// The locks that are held on one file have one report, that of [`crate::Book::held`]: two reports of the same locks have the
/// same lines in the same order.
pub fn locks_have_one_file_report()
    ensures { LocksHaveOneFileReport }
{}

/// The locks that are held have one report: two reports of the same locks have the same lines in the same order.
pub fn locks_have_one_report()
    ensures { LocksHaveOneReport }
{}

/// Whether a lock is blocked can be decided: by the byte locks of a book, by its flock locks, and by the traditional locks of one
/// process. So a lock that is only known to be blocked is blocked by one that can be named.
pub fn conflicts_are_decided()
    ensures bytes { ByteConflictIsDecided }
    ensures flocks { FlockConflictIsDecided }
    ensures processes { ProcessBlocksIsDecided }
{}

/// Any book stands for the locks that some changes leave: so none of the clauses of [`crate::Book`], nor of what keeps books, that
/// speaks of all changes that it stands for is empty.
pub fn books_stand_for_some()
    ensures { BooksStandForSome }
{
    owners_stand_for_runs();
}
