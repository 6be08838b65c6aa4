//! Where a caller is while the desk serves: in its thread, or here.
ghost use Rattle.std.specs.Prelude.{◌≡◌, ◌≢◌, ◌↔◌, IfOk, IfErr, []};

use crate::caller::{Caller, Ends};
use crate::replays::RunFault;
use crate::watch::Watch;
use call_table::Hub;
use std::sync::Wait;
use std::thread::{PromisedHandle, Scope, Threads};
use std::time::Clock;

/// Where a caller is while the desk serves.
pub enum Place<W: Watch> {
    /// In a thread of its own.
    There(PromisedHandle<Caller, Ends<W>>),
    /// In no thread: it requests nothing.
    Here(Caller),
}

// Written by hand, since a derive would require the watch to be `Drop`.
impl<W: Watch> Drop for Place<W> {
    fn drop(self) {
        match self {
            Place::There(_handle) => {}
            Place::Here(_caller) => {}
        }
    }
}

impl<W: Watch + Sync> Place<W> {
    ghost use Rattle.replay_core.specs.Callers.{HasEnded, IsReady, WasTold};
    ghost use Rattle.replay_core.specs.Places.{started, HasThread, IsFor};

    /// Starts a thread for a caller that requests something.
    pub fn start<'s, 'e: 's, R: Threads + Wait + Clock + Sync>(
        rt: &'e R,
        scope: &'s Scope<'s, &'e ()>,
        hub: &'e Hub,
        watch: &'e W,
        mut caller: Caller,
    ) -> Result<Place<W>, RunFault>
        requires { IsReady hub.now caller }
        ensures started { IfOk result (λ place. started place ≡ caller) }
        ensures watch { IfOk result (IsFor watch.now) }
        ensures there { IfOk result (λ place. HasThread place ↔ (caller.requests.items ≢ [])) }
        ensures fault { IfErr result (λ fault. fault ≡ RunFault.Thread) }
    {
        if caller.is_silent() {
            return Ok(Place::Here(caller));
        }
        let promise = Ends::of(&caller, watch);
        let converse = move ||
            requires { IsReady hub.now caller }
        {
            caller.converse(rt, hub, watch);
            caller
        };
        match scope.spawn_with(promise, converse) {
            Ok(handle) => Ok(Place::There(handle)),
            Err(_) => Err(RunFault::Thread),
        }
    }

    /// The caller once it has ended. The desk is closed.
    pub fn end<R: Threads + Wait + Clock>(self, rt: &R, hub: &Hub, watch: &W) -> Caller
        requires ready { IsReady hub.now (started self) }
        requires watch { IsFor watch.now self }
        ensures ended { HasEnded (started self) result }
        ensures told { WasTold (W.told watch.now) result }
    {
        match self {
            Place::There(handle) => handle.join(rt),
            Place::Here(mut caller) => {
                caller.converse(rt, hub, watch);
                caller
            }
        }
    }
}
