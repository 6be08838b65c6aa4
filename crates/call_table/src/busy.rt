//! The refusal of a client that has no room, with the request.
use lock_manager::Request;

/// There is no room for this request: as many wait to be collected as the table has cells, or no more may be posted.
#[derive(Clone, Copy, Debug, PartialEq, Eq)]
pub struct Busy {
    /// The request, which wasn't posted.
    pub request: Request,
}
