//! That the lock manager and the lock server grant alike: two engines over the same definitions of what blocks a wait.
#![tactic(auto)]

ghost use Rattle.grants_alike.specs.Alike.{EnginesGrantAlike};
ghost use Rattle.grants_alike.specs.ReaderAndWriter.{AReaderFollowsAWriter};

/// A law, and nothing to run: under the policy `Held` the lock manager ([`lock_manager`]) and the lock server ([`lock_server`]) grant
/// alike. A file of the manager and one of the server are alike if the server knows the owners by numbers, no two by one, such that the
/// same owners have the same modes on each byte, and by flock, and the same requests wait in the same order. If both settle from
/// there, the manager's grants on the file are of the waits that the server grants, in the same order, and what they leave is alike again.
/// Where the manager settles, so does the server, and the other way round if the manager has no waits on other files.
///
/// An owner of byte locks is a process or an open file description, and of a flock lock a description. The server needs a number only
/// for one that has a lock or waits. What the manager grants on other files, in between, changes nothing.
///
/// The law is about settling alone, and not about what a request comes to before it: a conversion by flock, which is in steps or at
/// once, EDEADLK, or what goes by a close. Nor is it about the policy `Queue`, by which the server alone lets a wait pass that is for what
/// its owner has already.
pub fn engines_grant_alike()
    ensures { EnginesGrantAlike }
{}

/// A law, and nothing to run: there are states that are alike, as [`engines_grant_alike`] asks. In both engines a reader waits for a
/// writer, and a flock lock for another description's; once the write lock went both grant the read lock, and no other.
pub fn a_reader_follows_a_writer()
    ensures { AReaderFollowsAWriter }
{}
