//! The open files through which owners are seen, and their last closes.
ghost use Rattle.std.specs.Prelude.{◌≡◌, Some, IsSome, IsTrue, IsFalse};
ghost use Rattle.lock_server.specs.Closing.{Closes};
ghost use Rattle.lock_server.specs.Openings.{ForgetsThrough, SameOpenings, SeesOn};
ghost use Rattle.lock_server.specs.ServerView.{rules_of, state_of, through_of};
ghost use Rattle.lock_server.specs.States.{SameState};
ghost use Rattle.lock_server_c.specs.Numbers.{number_if};
ghost use Rattle.lock_server_c.specs.Owned.{BothHave};
ghost use Rattle.lock_server_c.specs.Told.{Goes, Seen};

use crate::handle::Handle;
use crate::numbers;

/// Notes that the owner is seen through the open file of the file; `false` where there is no memory (FUSE, `fh` of setlk).
#[unsafe(no_mangle)]
pub extern "C" fn dehokuna_note(handle: &mut Handle, file: u64, owner: u64, open_file: u64) -> bool
    requires { IsSome handle.old.server }
    ensures same { Goes handle.old handle.new (λ rules S T. SameState S T) }
    ensures noted { IsTrue result → Seen handle.old handle.new (λ old new. SeesOn old new file owner (Some open_file)) }
    ensures refused { IsFalse result → Seen handle.old handle.new SameOpenings }
{
    let noted = handle.server().note(file, owner, open_file);
    noted.is_ok()
}

/// Removes the byte locks on the file of the owners that were last seen through the open file, and the flock lock of the flock owner,
/// where there is one (FUSE, release).
#[unsafe(no_mangle)]
pub extern "C" fn dehokuna_release(
    handle: &mut Handle,
    file: u64,
    open_file: u64,
    has_flock_owner: bool,
    flock_owner: u64,
)
    requires { IsSome handle.old.server }
    ensures closes { BothHave handle.old.server handle.new.server (λ server next.
        Closes (rules_of server).policy (state_of server) (through_of server) file open_file (number_if has_flock_owner flock_owner) (state_of next)) }
    ensures rules { BothHave handle.old.server handle.new.server (λ server next. rules_of next ≡ rules_of server) }
    ensures forgets { Seen handle.old handle.new (λ old new. ForgetsThrough old new file open_file) }
{
    let flock_owner = numbers::given(has_flock_owner, flock_owner);
    handle.server().release(file, open_file, flock_owner);
}
