//! Laws of lock servers: each is the contract of a function that does nothing.
ghost use Rattle.lock_server.specs.Agreement.{ReplicasAgree};
ghost use Rattle.lock_server.specs.Exports.{ExportsTellStates};
ghost use Rattle.lock_server.specs.ListingLaws.{ListingsTellAll};
ghost use Rattle.lock_server.specs.Queueing.{QueueIsKept};
ghost use Rattle.lock_server.specs.ServerView.{FilesAreKeptWhileInUse, ServersAreSafe};

/// A law, and nothing to run: a server has an entry, which takes memory, for just those files that have a lock or a wait, between any
/// two calls and whatever these were told.
pub fn files_are_kept_while_in_use()
    ensures { FilesAreKeptWhileInUse }
{}

/// A law, and nothing to run: between any two calls no two owners of a server conflict, each of its waits is blocked, no cycle of waits
/// leads through owners that were given nothing since they wait, and each ticket is there once.
pub fn servers_are_safe()
    ensures { ServersAreSafe }
{}

/// A law, and nothing to run: under the queue policy a request that may wait, or a wait, sets its lock before an earlier wait that conflicts
/// with it only where its owner had the lock already; of an atomic conversion by flock the lock before it counts. Between two calls no wait
/// is for what its owner has.
pub fn queue_is_kept()
    ensures { QueueIsKept }
{}

/// A law, and nothing to run: two servers in the same state that are told the same calls tell the same answers and the same grants, and
/// end in the same state. Want of memory aside: a call that answers it changes nothing, and counts as not made.
pub fn replicas_agree()
    ensures { ReplicasAgree }
{}

/// A law, and nothing to run: two servers are in the same state just where their exports ([`crate::LockServer::export`]) have the same
/// bytes, whatever each was told before.
pub fn exports_tell_states()
    ensures { ExportsTellStates }
{}

/// A law, and nothing to run: whoever goes on from behind what was told, until there is none, is told all files with a lock or a wait, all
/// byte locks and all flock locks of a file, and all waits of owners up to the last, each once and in order.
pub fn listings_tell_all()
    ensures { ListingsTellAll }
{}
