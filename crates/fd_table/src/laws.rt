//! A law of the tables: the contract of a function that does nothing.
ghost use Rattle.fd_table.specs.TablesView.{TablesStandForSome};

/// Any tables stand for some descriptors of the definition: so none of the clauses of [`crate::Tables`], which speak of all
/// descriptors that they stand for, is empty.
pub fn tables_stand_for_some()
    ensures { TablesStandForSome }
{}
