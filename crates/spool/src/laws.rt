//! What holds of the definitions that contracts cite, whatever the rows are.

ghost use Rattle.spool.specs.Laws.{ColumnEntriesAreStorable};

/// A run takes the entries of each value that a column has, whatever the type, where no element of
/// an array has 2^30 bytes. So who reads rows may put them into a gather.
pub fn column_entries_are_storable()
    ensures { ColumnEntriesAreStorable }
{}
