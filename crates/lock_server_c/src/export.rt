//! The state of a server as bytes.
ghost use Rattle.std.specs.Prelude.{◌≡◌, IsSome};
ghost use Rattle.lock_server.specs.Exports.{ExportComesTo, IsExportSize};
ghost use Rattle.lock_server_c.specs.Owned.{Has};

use crate::handle::Handle;

/// How many bytes the export takes. The server is only read.
#[unsafe(no_mangle)]
pub extern "C" fn dehokuna_export_size(handle: &mut Handle) -> usize
    requires { IsSome handle.old.server }
    ensures size { Has handle.old.server (λ server. IsExportSize server result) }
    ensures kept { handle.new.server ≡ handle.old.server }
{
    handle.server().export_size()
}

/// Writes the state as bytes to the front of the buffer, and tells how many these are; a buffer that is shorter stays as it was. The
/// server is only read.
#[unsafe(no_mangle)]
pub extern "C" fn dehokuna_export(handle: &mut Handle, out: &mut [u8]) -> usize
    requires { IsSome handle.old.server }
    ensures export { Has handle.old.server (λ server. ExportComesTo server out.old out.new result) }
    ensures kept { handle.new.server ≡ handle.old.server }
{
    handle.server().export(out)
}
