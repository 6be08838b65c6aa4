//! Laws of the definitions of a script and its output. Each is the contract of a function that does nothing.
ghost use Rattle.script_core.specs.Explaining.{ExplanationsAreComments, RunsHaveOneExplanation, ScriptsHaveOneExplanation};
ghost use Rattle.script_core.specs.JournalReading.{EntriesAreReadBack, JournalsAreReadBack, JournalsHaveOneEnd, LinesHaveOneMeaning};
ghost use Rattle.script_core.specs.JournalView.{OneIsTold};
ghost use Rattle.script_core.specs.Losses.{LossesAreDifferences};
ghost use Rattle.script_core.specs.Output.{OutputsAreShort, ScriptsHaveOneOutput};
ghost use Rattle.script_core.specs.OutputReading.{OutputsAreLegal};
ghost use Rattle.script_core.specs.ReportReading.{ReportsAreReadBack};
ghost use Rattle.script_core.specs.WithoutHeaders.{HeadersChangeNothingElse};
ghost use Rattle.script_core.specs.WithoutSections.{SectionsNameNothingElse};

use lock_book::locks_have_one_report;
use lock_manager::step_has_one_outcome;
use session_core::arrivals_have_one_drain;

/// A script has one output: two outputs of the same bytes are equal.
pub fn scripts_have_one_output()
    ensures { ScriptsHaveOneOutput }
{
    locks_have_one_report();
    arrivals_have_one_drain();
}

/// A script of the language without header lines keeps its meaning and its output, under the held policy and small limits; one
/// that this language refuses keeps its fault, where the first word of the faulty line isn't that of a header line.
pub fn headers_change_nothing_else()
    ensures { HeadersChangeNothingElse }
{}

/// Sections name nothing else: a word but `enter`, `leave` and `bail` names the same command as in the language without these three, or none in
/// either. So each other line reads and faults alike, of scripts and of journals.
pub fn sections_name_nothing_else()
    ensures { SectionsNameNothingElse }
{}

/// The lines of a report are read as they are written, with whatever counts of what was sent that are no less than what was taken, and no
/// other lines are.
pub fn reports_are_read_back()
    ensures { ReportsAreReadBack }
{
    locks_have_one_report();
}

/// A journal has one end: two ends of the same lines are equal.
pub fn journals_have_one_end()
    ensures { JournalsHaveOneEnd }
{}

/// A line of a journal has one answer, wherever it stands: one meaning, and where the journal may not go on with it, one text that tells
/// what is there in its place.
pub fn lines_have_one_answer()
    ensures meaning { LinesHaveOneMeaning }
    ensures told { OneIsTold }
{
    locks_have_one_report();
    step_has_one_outcome();
}

/// What is written of entries with at most 64 notes, each on a line of its own, is read as just these entries, where their numbers are
/// those of the limits and the report has not begun; and where they are a run behind the entries before, it is legal.
pub fn journals_are_read_back()
    ensures read { EntriesAreReadBack }
    ensures legal { JournalsAreReadBack }
{}

/// An output is a legal journal, its entries and its report, where the rules are those of its script: each event tells 64 notes at most, with
/// numbers that its line may have, the events are a run, and each line of the report is read as the one that it is.
pub fn outputs_are_legal()
    ensures { OutputsAreLegal }
{
    locks_have_one_report();
}

/// An output has at most 64000000 bytes, fewer than a journal may have: an accepted script has few arrivals for its bytes, a request brings
/// two notes or fewer, and two locks or waits at most are left of it.
pub fn outputs_are_short()
    ensures { OutputsAreShort }
{}

/// What is explained of a script, with whatever states, is its output and lines that begin with `#`: without these it is the output.
pub fn explanations_are_comments()
    ensures { ExplanationsAreComments }
{}

/// What is explained has one text: with the same states, two texts that explain one run from the opening are equal, and so are two explained
/// texts of one script.
pub fn explanations_have_one_text()
    ensures run { RunsHaveOneExplanation }
    ensures script { ScriptsHaveOneExplanation }
{
    locks_have_one_report();
    arrivals_have_one_drain();
    step_has_one_outcome();
}

/// The locks that an event of a run releases, and those that it loses, are the difference of two reports: the lines of the report before it
/// whose owner has none on that file in the report behind it, byte locks and flock locks apart. An unlock releases and loses none.
pub fn losses_are_differences()
    ensures { LossesAreDifferences }
{
    locks_have_one_report();
}
