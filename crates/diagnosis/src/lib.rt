//! What helps to mend a fault: the line that it stands in, what was read there, and what may stand there.
#![tactic(auto)]

mod bytes;
mod commands;
mod diagnosis;
mod entry;
mod heading;
mod history;
mod language;
mod lines;
mod near;
mod reason;
mod request;
mod rerun;
mod script;
mod shown;
mod tokens;
mod verdict;

pub use diagnosis::{Text, told_of};
pub use language::Language;
pub use verdict::{told_of_headers, told_of_illegal};
