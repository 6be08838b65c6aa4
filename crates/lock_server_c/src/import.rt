//! A server from the bytes of an export.
ghost use Rattle.std.specs.Prelude.{◌≡◌, ◌≢◌, None};
ghost use Rattle.lock_server.specs.Exports.{IsExportOf};
ghost use Rattle.lock_server.specs.declared.server.LockServer.{LockServer};
ghost use Rattle.lock_server_c.specs.Owned.{Has};
ghost use Rattle.lock_server_c.specs.declared.status.TheConstants.{DONE, INVALID};

use crate::handle::Handle;
use crate::status;
use lock_server::{Flaw, ImportFault, LockServer};
use std::alloc::Global;

/// What is wrong with bytes that no server exports, as C is told of it (`struct dehokuna_fault`).
#[repr(C)]
#[derive(Drop)]
pub struct FaultOut {
    /// What is wrong (`enum dehokuna_flaw`).
    pub flaw: u32,
    /// At which byte.
    pub offset: usize,
}

/// Makes the server whose export is these bytes. Where no server has this export, what is wrong is written to `fault`, which is else as it
/// was; where none is made, the handle has none.
#[unsafe(no_mangle)]
pub extern "C" fn dehokuna_import(
    alloc: Global,
    handle: &mut Handle,
    bytes: &[u8],
    fault: &mut FaultOut,
) -> u32
    requires { handle.old.server ≡ None }
    ensures done { result ≡ DONE → Has handle.new.server (λ server. IsExportOf server bytes.now) }
    ensures none { result ≢ DONE → handle.new.server ≡ None }
    ensures invalid { result ≡ INVALID → (server : LockServer) → ¬ IsExportOf server bytes.now }
    ensures as_it_was { result ≢ INVALID → fault.new ≡ fault.old }
{
    let server = match LockServer::import(alloc, bytes) {
        Ok(server) => server,
        Err(ImportFault::Invalid(found)) => {
            fault.flaw = flaw_number(found.flaw);
            fault.offset = found.offset;
            return status::INVALID;
        }
        Err(ImportFault::Memory(_)) => return status::NO_MEMORY,
    };
    match Box::new(alloc, server) {
        Ok(server) => {
            handle.put(server);
            status::DONE
        }
        Err(_) => status::NO_MEMORY,
    }
}

/// The number of what is wrong.
fn flaw_number(flaw: Flaw) -> u32 {
    match flaw {
        Flaw::Form => 0,
        Flaw::Order => 1,
        Flaw::Conflict => 2,
        Flaw::Ticket => 3,
        Flaw::Unblocked => 4,
        Flaw::Cycle => 5,
        Flaw::Crossed => 6,
    }
}
