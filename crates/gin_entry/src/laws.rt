//! What holds of the definitions that contracts cite, whatever the values are.

ghost use Rattle.gin_entry.specs.Laws.{ColumnsCompareAsEntries, ElementsAreEntries, ElementsAreToldApart, EntriesAreDetermined, EntriesAreExact, EntriesAreOrdered, EntriesAreToldApart, EntriesTakeTheirRoom, MapIsDetermined};

/// Entries have a total order.
pub fn entries_are_ordered()
    ensures { EntriesAreOrdered }
{}

/// Only equal entries compare equal.
pub fn entries_are_told_apart()
    ensures { EntriesAreToldApart }
{}

/// The columns of two entries compare as the entries do, so that a sort of rows sorts entries.
pub fn columns_compare_as_entries()
    ensures { ColumnsCompareAsEntries }
{}

/// The entries of a value ascend, each once, and are those that it has and no others.
pub fn entries_are_exact()
    ensures { EntriesAreExact }
{}

/// No other list ascends and has the entries of a value.
pub fn entries_are_determined()
    ensures { EntriesAreDetermined }
{}

/// Each element of an array is among its entries, and nothing else is.
pub fn elements_are_entries()
    ensures { ElementsAreEntries }
{}

/// Different elements have different entries.
pub fn elements_are_told_apart()
    ensures { ElementsAreToldApart }
{}

/// Rows have at most one map from entries to their pointers.
pub fn map_is_determined()
    ensures { MapIsDetermined }
{}

/// The tuple of an entry takes no more than its key does, its header and zeros included, and 25
/// bytes more. So who knows the lengths of elements knows that sizes have their limits.
pub fn entries_take_their_room()
    ensures { EntriesTakeTheirRoom }
{}
