//! The words of findings.
ghost use Rattle.std.specs.Prelude.{◌≡◌, ◌≢◌, ℕ, List, MatchOption, IfOk, map};
ghost use Rattle.explore_core.specs.declared.finding.Finding.{Finding};
ghost use Rattle.explore_run.specs.FindingWords.{finding_word, pieces_of};

use explore_core::Finding;
use range_core::Memory;
use std::alloc::Global;

/// The word of a finding.
pub fn word_of(finding: Finding) -> &'static str
    ensures { result.now ≡ finding_word finding }
{
    match finding {
        Finding::Deadlock => "deadlock",
        Finding::Stuck => "stuck",
        Finding::Together => "together",
        Finding::Dropped => "dropped",
        Finding::Lost => "lost",
        Finding::Busy => "busy",
        Finding::Interrupted => "interrupted",
        Finding::Killed => "killed",
        Finding::Unborn => "unborn",
    }
}

/// The finding that has this word.
pub fn finding_of(word: &str) -> Option<Finding>
    ensures { MatchOption result ((finding : Finding) → word.now ≢ finding_word finding) (λ finding. word.now ≡ finding_word finding) }
{
    match word {
        "deadlock" => Some(Finding::Deadlock),
        "stuck" => Some(Finding::Stuck),
        "together" => Some(Finding::Together),
        "dropped" => Some(Finding::Dropped),
        "lost" => Some(Finding::Lost),
        "busy" => Some(Finding::Busy),
        "interrupted" => Some(Finding::Interrupted),
        "killed" => Some(Finding::Killed),
        "unborn" => Some(Finding::Unborn),
        _ => None,
    }
}

/// What a list names by a word (this project's choice).
pub trait Named {
    /// Its word.
    ghost name: { Self → List ℕ };

    /// What has this word.
    fn of_word(word: &str) -> Option<Self>
        ensures { MatchOption result ((named : Self) → word.now ≢ name named) (λ named. word.now ≡ name named) };
}

impl Named for Finding {
    ghost name = { finding_word };

    fn of_word(word: &str) -> Option<Finding> {
        finding_of(word)
    }
}

/// What a list names by these words, with commas between them; `None` where one of them has no meaning.
pub fn findings_of<F: Named + Drop>(alloc: Global, list: &str) -> Result<Option<Vec<F>>, Memory>
    ensures { IfOk result (λ named. MatchOption named ((findings : List F) → pieces_of list.now ≢ map F.name findings)
        (λ findings. pieces_of list.now ≡ map F.name findings.items)) }
{
    let mut findings = Vec::new(alloc);
    let mut rest = list;
    while let Some((word, more)) = rest.split_once(',') {
        match F::of_word(word) {
            Some(finding) => findings.push(finding)?,
            None => return Ok(None),
        }
        rest = more;
    }
    match F::of_word(rest) {
        Some(finding) => findings.push(finding)?,
        None => return Ok(None),
    }
    Ok(Some(findings))
}
