//! What the members of a ring of nodes decide from what each of them says as the ring or the group changes, its HELLO: whether there is a
//! view, and from whose state it goes on; who gives it, who takes it and loses its locks, and for whom the view waits. Nothing is kept and
//! no memory is used.
#![tactic(auto)]

mod absence;
mod base;
mod decision;
mod hello;
mod laws;
mod part;
mod tables;
mod view;
mod votes;

pub use absence::{Presence, Seat, presence_of};
pub use base::Base;
pub use decision::{Decision, Reason, decide};
pub use hello::{Electorate, Hello, Mark, State, Versions};
pub use laws::same_hellos_same_decision;
pub use part::{Part, part_of};
pub use view::View;
