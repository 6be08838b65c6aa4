//! The last close of an open file: the byte locks of the owners that were last seen through it go.
ghost use Rattle.std.specs.Prelude.{◌==◌, ◌&&◌, if◌then◌else◌, None};
ghost use Rattle.lock_server.specs.Closing.{ClosesOn, is_through};
ghost use Rattle.lock_server.specs.HoldingsView.{AreKept};
ghost use Rattle.lock_server.specs.Openings.{ForgetsThrough, is_number, SeesOn};
ghost use Rattle.lock_server.specs.OpeningsView.{through_at};
ghost use Rattle.lock_server.specs.TableView.{KeepsOthers, table_state};

use crate::holdings::Holdings;
use crate::openings::Openings;
use crate::table::Table;

/// Removes the byte locks on the file of each owner that was last seen through the open file, and forgets these owners there. No
/// wait is granted. It takes no memory, and looks at each owner that is known on the file.
pub(crate) fn close(
    table: &mut Table,
    openings: &mut Openings,
    holdings: &mut Holdings,
    file: u64,
    open_file: u64,
)
    ensures closes { ClosesOn (table_state table.old) file (is_through (through_at openings.old file) open_file) None (table_state table.new) }
    ensures forgets { ForgetsThrough (through_at openings.old) (through_at openings.new) file open_file }
    ensures kept { AreKept holdings.old (table_state table.old) (through_at openings.old) → AreKept holdings.new (table_state table.new) (through_at openings.new) }
    ensures others { KeepsOthers table.old table.new file }
{
    let mut above = None;
    while let Some(owner) = openings.next_owner(file, above) {
        close_owner(table, openings, holdings, file, owner, open_file);
        above = Some(owner);
    }
}

/// The same of one owner.
fn close_owner(
    table: &mut Table,
    openings: &mut Openings,
    holdings: &mut Holdings,
    file: u64,
    owner: u64,
    open_file: u64,
)
    ensures closes { ClosesOn (table_state table.old) file
        (λ other. owner == other && is_number open_file (through_at openings.old file owner)) None (table_state table.new) }
    ensures forgets { SeesOn (through_at openings.old) (through_at openings.new) file owner
        (if is_number open_file (through_at openings.old file owner) then None else through_at openings.old file owner) }
    ensures kept { AreKept holdings.old (table_state table.old) (through_at openings.old) → AreKept holdings.new (table_state table.new) (through_at openings.new) }
    ensures others { KeepsOthers table.old table.new file }
{
    if openings.is_through(file, owner, open_file) {
        table.release(file, owner);
        openings.forget(file, owner);
        holdings.tidy(table, openings, owner, file);
    }
}
