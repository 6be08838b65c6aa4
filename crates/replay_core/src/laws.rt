//! Laws of the definition of a verdict. Each is the contract of a function that does nothing.
ghost use Rattle.replay_core.specs.Checks.{JournalsHaveOneVerdict, OutputsAreJudgedLegal, VerdictsAreOfEnds};

use script_core::{lines_have_one_answer, outputs_are_legal, outputs_are_short};

/// A journal has one verdict: two verdicts of the same bytes are equal, with the line and the text of what is expected there. It is that of
/// the end of the journal's lines, where the bytes aren't too many.
pub fn journals_have_one_verdict()
    ensures one { JournalsHaveOneVerdict }
    ensures ends { VerdictsAreOfEnds }
{
    lines_have_one_answer();
}

/// What a replay writes is judged legal: an output is a legal journal behind the header lines of its script's rules, and under the held
/// policy and small limits without them too. None is longer than a journal may be.
pub fn outputs_are_judged_legal()
    ensures { OutputsAreJudgedLegal }
{
    outputs_are_legal();
    outputs_are_short();
}
