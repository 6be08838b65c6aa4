//! Items in order of arrival, in a balanced tree: one is found by its place, by how many each subtree has, or by what is looked for, where
//! the summary of a subtree rules that out in it.
#![tactic(auto)]

mod arrived;
mod counting;
mod list;
mod queries;
mod seek;

pub use list::ArrivalList;
