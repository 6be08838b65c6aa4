//! A server that C holds, as a pointer to it.
ghost use Rattle.std.specs.Prelude.{◌≡◌, Option, Some, None, IsSome};
ghost use Rattle.std.specs.Coded.{coded_option};
ghost use Rattle.lock_server.specs.declared.server.LockServer.{LockServer};
ghost use Rattle.lock_server.specs.contracts.server.LockServer.{the_row};
ghost use Rattle.lock_server_c.specs.Owned.{handle_owns};

use crate::loose::Loose;
use lock_server::LockServer;
use std::alloc::Global;
use std::marker::Model;
use std::mem;

/// What a handle points to, to C: nothing that it can read.
#[repr(C)]
pub struct Opaque {
    nothing: u8,
}

/// A server behind the pointer, or none (`struct dehokuna_server`).
#[repr(C)]
#[derive(Drop)]
pub struct Handle {
    at: *mut Opaque,
    pub ghost server: { Option LockServer } by { coded_option the_row.coded },
}

impl Model for Handle {
    ghost also_owns = { λ handle. handle_owns handle.at handle.server };
}

impl Handle {
    ghost use Rattle.std.specs.Borrow.{sem};
    ghost use Rattle.lock_server_c.specs.Lending.{LendsServer};

    /// A handle without a server.
    pub(crate) fn empty() -> Handle
        ensures { result.server ≡ None }
    {
        Handle {
            at: std::ptr::null_mut(),
        }
    }

    /// The handle to a server behind a pointer.
    fn from_loose(server: Loose<LockServer, Global>) -> Handle
        ensures { result.server ≡ Some server.value }
    {
        let Loose { at, alloc: _ } = server;
        Handle {
            at: at as *mut Opaque,
        }
    }

    /// The server behind the pointer of the handle.
    fn into_loose(self, alloc: Global) -> Loose<LockServer, Global>
        requires { IsSome self.server }
        ensures { self.server ≡ Some result.value }
    {
        let Handle { at } = self;
        Loose {
            at: at as *mut LockServer,
            alloc,
        }
    }

    /// The server behind the pointer, which stays there: the handle itself is only read.
    pub(crate) fn server(&mut self) -> &mut LockServer
        requires { IsSome self.old.server }
        ensures* lends { sem 𝓛 (LendsServer self.entry result) }
        ensures server { self.old.server ≡ Some result.now }
    {
        unsafe { &mut *(self.at as *mut LockServer) }
    }

    /// Takes the server out of the handle.
    pub(crate) fn take(&mut self, alloc: Global) -> Box<LockServer>
        requires { IsSome self.old.server }
        ensures server { self.old.server ≡ Some result.value }
        ensures none { self.new.server ≡ None }
    {
        mem::replace(self, Handle::empty())
            .into_loose(alloc)
            .into_box()
    }

    /// Puts a server into the handle, which is to have none.
    pub(crate) fn put(&mut self, server: Box<LockServer>)
        ensures { self.new.server ≡ Some server.value }
    {
        *self = Handle::from_loose(Loose::of(server));
    }
}
