//! That what a lock server does is permitted: its clients see histories that the standards allow.
#![tactic(auto)]

ghost use Rattle.history_of_server.specs.ServerLines.{RunsAreLegal};

/// A law, and nothing to run: what the clients see of a lock server that begins without locks, one call after another, is a legal history
/// ([`history_judge`], [`history_core`]: the freedom of POSIX.1-2017 fcntl and close, fcntl_locking(2) and flock(2), and nothing of this project's
/// policies), whatever it was told, under either policy and by either conversion; also where each get has to tell a largest range.
///
/// Each call is what its clients asked for: `set` a set or an unlock, `flush` and `forget` an unlock of all bytes, `flock_release` an
/// unlock by flock, `release` an unlock of all bytes of each owner that it takes byte locks from and an unlock by flock of its flock owner,
/// `forget_owners` and `forget_file` the death of each owner on each file, a `cancel` that is true EINTR, and a ticket that `next_grant` tells
/// the answer of the wait that was granted before. A wait that `forget`, `forget_owners` or `forget_file` ends is never answered.
///
/// A server that was imported begins with locks, and is left out. A call that wants memory changes nothing, and counts as not made.
pub fn runs_are_legal()
    ensures { RunsAreLegal }
{}
