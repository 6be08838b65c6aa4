//! A run drawn by time: a column a process, a row an event.
#![tactic(auto)]

mod row;
mod scene;
mod timeline;

pub use timeline::Timeline;
