//! The lock manager of one machine: descriptors, locks and processes, one request at a time.
#![tactic(auto)]

mod laws;
mod lock_releases;
mod lock_words;
// The proofs of the machine see through what it shows, and those of the manager through what it stands for, which is opaque to the
// crates above.
#[tactic(auto, unfolding(crate::specs::MachineView::machine_rules, crate::specs::MachineView::machine_processes, crate::specs::MachineView::machine_state, crate::specs::MachineView::machine_locks, crate::specs::MachineView::machine_waits))]
mod machine;
#[tactic(auto, unfolding(crate::specs::ManagerView::rules_of, crate::specs::ManagerView::processes_of, crate::specs::ManagerView::state_at, crate::specs::ManagerView::locks_in_books, crate::specs::ManagerView::waits_of, crate::specs::ManagerView::visit_at, crate::specs::ManagerView::refused_at))]
mod manager;
mod opening;
mod replies;
mod request;
mod seat;
mod sections;

pub use laws::{
    managers_stand_for_some, sections_change_nothing_else, step_has_one_outcome,
    step_has_some_outcome,
};
pub use manager::Manager;
pub use request::{
    Errno, FlockOp, InTheWay, LkCmd, Lock, Note, ProcState, Reply, Request, Rules, SECTIONS, Visit,
};
