//! The decision as C sees it (`embedding/cluster/cluster_view.h`): each export makes the calls of `cluster_view`, and states their clauses
//! again. What an export requires, nothing checks of a C caller.
#![tactic(auto)]

mod calls;
mod outcome;
