//! The life of a server.
ghost use Rattle.std.specs.Prelude.{◌≡◌, ℕ, None, Some, IsSome, IsTrue, IsFalse};
ghost use Rattle.lock_server.specs.ServerView.{rules_of, state_of, through_of};
ghost use Rattle.lock_server.specs.States.{SameState, opening};
ghost use Rattle.lock_server_c.specs.Numbers.{rules_for};
ghost use Rattle.lock_server_c.specs.Owned.{Has};

use crate::handle::Handle;
use crate::numbers;
use lock_server::LockServer;
use std::alloc::Global;

/// Makes a server without locks and waits; `false` where there is no memory, or the number names no rules, and the handle then has none.
#[unsafe(no_mangle)]
pub extern "C" fn dehokuna_create(alloc: Global, handle: &mut Handle, rules: u32) -> bool
    requires { handle.old.server ≡ None }
    ensures made { IsTrue result → Has handle.new.server (λ server. (rules_for rules ≡ Some (rules_of server)) × SameState opening (state_of server)) }
    ensures openings { IsTrue result → Has handle.new.server (λ server. (file owner : ℕ) → through_of server file owner ≡ None) }
    ensures none { IsFalse result → handle.new.server ≡ None }
{
    let Some(rules) = numbers::rules(rules) else {
        return false;
    };
    match Box::new(alloc, LockServer::new(alloc, rules)) {
        Ok(server) => {
            handle.put(server);
            true
        }
        Err(_) => false,
    }
}

/// Frees the server with all its locks and waits.
#[unsafe(no_mangle)]
pub extern "C" fn dehokuna_destroy(alloc: Global, handle: &mut Handle)
    requires { IsSome handle.old.server }
    ensures { handle.new.server ≡ None }
{
    let _server = handle.take(alloc);
}
