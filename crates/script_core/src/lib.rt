//! The script language of the lock manager: reading a script, and the text of a run.
#![tactic(auto)]

mod arguments;
mod commands;
mod deadlock;
mod entry;
mod entry_text;
mod expected;
mod explain;
mod header;
mod journal;
mod laws;
mod line;
mod losses;
mod note;
mod noted;
mod numbers;
mod pieces;
mod place;
mod reader;
mod report;
mod report_text;
mod request_text;
mod script;
mod state_lines;
mod states;
mod untaken;
mod word_tables;
mod words;
mod write;

pub use entry::parse_entry;
pub use explain::write_explained;
pub use journal::{JournalFault, JournalReader};
pub use laws::{
    explanations_are_comments, explanations_have_one_text, headers_change_nothing_else,
    journals_are_read_back, journals_have_one_end, lines_have_one_answer, losses_are_differences,
    outputs_are_legal, outputs_are_short, reports_are_read_back, scripts_have_one_output,
    sections_name_nothing_else,
};
pub use numbers::natural_of;
pub use reader::ScriptReader;
pub use report::{ReportFault, ReportLine, ReportReader};
pub use report_text::ProcessLine;
pub use script::{Cause, Script, ScriptFault, parse};
pub use states::States;
pub use untaken::write_untaken;
pub use words::{WORDS_MAX, first_words, is_comment, printable_text};
pub use write::{write_entry, write_report};

/// The most bytes that a line may have, without its line feed (this project's choice).
pub const LINE_MAX: usize = 120;

/// The most bytes that the line of an entry may have, without its line feed (this project's choice). One with a note to each of 64
/// processes has 6285 at most.
pub const ENTRY_MAX: usize = 8192;

/// The most bytes that a script may have (this project's choice).
pub const SCRIPT_MAX: usize = 1 << 20;
