//! The languages of what is read.
ghost use Rattle.std.specs.Prelude.{◌≡◌};
ghost use Rattle.diagnosis.specs.Places.{has_bars as has_bars_of, line_max as line_max_of};

use script_core::{ENTRY_MAX, LINE_MAX, SCRIPT_MAX};

/// What the lines are of.
#[derive(Clone, Copy, Debug, PartialEq, Eq)]
pub enum Language {
    /// Scripts.
    Script,
    /// Journals.
    Journal,
    /// Histories.
    History,
}

/// The most bytes of a line in this language, without its line feed.
pub fn line_max(language: Language) -> usize
    ensures { result ≡ line_max_of language }
{
    match language {
        Language::Script | Language::History => LINE_MAX,
        Language::Journal => ENTRY_MAX,
    }
}

/// The most bytes of a file in this language.
pub fn size_max(language: Language) -> u64 {
    match language {
        Language::Script => SCRIPT_MAX as u64,
        Language::Journal => 67_108_864,
        Language::History => 1_099_511_627_776,
    }
}

/// Whether bars part the lines of this language.
pub fn has_bars(language: Language) -> bool
    ensures { result ≡ has_bars_of language }
{
    match language {
        Language::Journal => true,
        Language::Script | Language::History => false,
    }
}
