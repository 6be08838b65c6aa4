//! The text of concurrent histories of locks: a line as it is read, and requests and answers as they are written.
//!
//! A line is `> ID REQUEST` where a request was sent, and `< ID ANSWER` where its answer came (this project's choice). What a line may say
//! rests on what is open under its ID, so it is read in two steps: [`read_head`] finds the ID, the caller looks it up, and [`Head::read`]
//! tells what the line says.
#![tactic(auto)]

mod answers;
mod arguments;
mod head;
mod laws;
mod line;
mod pieces;
mod requests;
mod word_tables;
mod write;

pub use head::{Head, read_head};
pub use laws::{answers_are_read_back, lines_have_one_reading, requests_are_read_back};
pub use line::HistoryLine;
pub use write::{write_answer, write_request};
