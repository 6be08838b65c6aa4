//! A state from the bytes of an export: these are read, then tested as lists, and then built up.
mod building;
mod order;
mod parts;
mod reader;

use crate::{Fault, Flaw, ImportFault};
pub use reader::read;

/// What is wrong, and at which byte.
pub fn fault(flaw: Flaw, offset: usize) -> ImportFault {
    ImportFault::Invalid(Fault { flaw, offset })
}
