//! What a line says.
use history_core::{Answer, Request};

/// What a line of a history says (this project's choice).
#[derive(Clone, Copy, Debug, PartialEq, Eq)]
pub enum HistoryLine {
    /// Nothing: it has no words, or is a comment.
    Skipped,
    /// A request was sent.
    Sent {
        /// The number of its file.
        file: u64,
        /// Its ID, its owner and what it asks for.
        request: Request,
    },
    /// A request was answered.
    Answered {
        /// The ID of the request, which is free again behind this line.
        id: u64,
        /// What it was told.
        answer: Answer,
    },
}
