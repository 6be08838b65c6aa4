//! A server from the bytes of an export.
ghost use Rattle.std.specs.Prelude.{◌≡◌, ◌↔◌, ◌<◌, ◌^◌, IfOk, IsTrue, length};
ghost use Rattle.lock_server.specs.Exports.{IsExportOf, IsInvalid};

use super::LockServer;
use crate::holdings::Holdings;
use crate::import::{self, fault};
use crate::{Flaw, ImportFault, Memory};
use std::alloc::Global;

#[tactic(auto, unfolding(crate::specs::ServerView::state_of, crate::specs::ServerView::rules_of, crate::specs::ServerView::through_of))]
impl LockServer {
    /// The server whose export ([`LockServer::export`]) is these bytes: in the same state as the one that wrote them, whatever that was
    /// told before ([`crate::exports_tell_states`]). The bytes may be any: what is made is as safe as any server
    /// ([`crate::servers_are_safe`]), and what no server exports is `Invalid`, with what is wrong and where (this project's choice).
    ///
    /// It takes memory by the size of the bytes, whatever they say.
    pub fn import(alloc: Global, bytes: &[u8]) -> Result<LockServer, ImportFault>
        ensures ok { IfOk result (λ server. IsExportOf server bytes.now) }
        ensures invalid { IsInvalid result → (server : LockServer) → ¬ IsExportOf server bytes.now }
    {
        let parts = import::read(alloc, bytes)?;
        parts.check_order()?;
        let table = parts.table(alloc)?;
        let openings = parts.openings(alloc)?;
        let holdings = Holdings::of(alloc, &table, &openings)?;
        let server = LockServer {
            table,
            openings,
            holdings,
            rules: parts.rules,
        };
        if server.has_export(alloc, bytes)? {
            Ok(server)
        } else {
            // What the parts tell of was built up, and they were read from the bytes: no bytes come here.
            Err(fault(Flaw::Form, 0))
        }
    }

    /// Whether the export of the server is these bytes.
    fn has_export(&self, alloc: Global, bytes: &[u8]) -> Result<bool, Memory>
        ensures { IfOk result (λ has. IsTrue has ↔ IsExportOf self.now bytes.now) }
    {
        let mut out = Vec::from_elem(alloc, 0_u8, bytes.len())?;
        Ok(self.writes(&mut out, bytes))
    }

    /// Whether the export of the server is these bytes, as it is written into a buffer of as many.
    fn writes(&self, out: &mut [u8], bytes: &[u8]) -> bool
        requires room { length out.old ≡ length bytes.now }
        requires small { length bytes.now < 2 ^ 63 }
        ensures { IsTrue result ↔ IsExportOf self.now bytes.now }
    {
        let size = self.export(out);
        size == bytes.len() && &*out == bytes
    }
}
