//! The lines of the program's output as JSON objects, one a line.
#![tactic(auto)]

mod objects;
mod writer;

pub use objects::object_of;
pub use writer::Objects;
