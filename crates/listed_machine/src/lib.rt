//! A lock manager for tests, which the lock managers of this repository are compared with: it does what the rules say of each request, keeps
//! a plain list of waits, and asks anew each time who is blocked. No promise rests on it.
#![tactic(auto)]

mod machine;

pub use machine::ListedMachine;
