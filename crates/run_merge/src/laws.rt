//! What holds of records in their order and of their parts, whatever the records are.

ghost use Rattle.run_merge.specs.Laws.{EqualKeysStayTogether, MergesGiveSorted, OrderedAreGivenInPlace, PartsAreTheWhole, PartsShareNoKeys, SortedRecordsAreOne, SortedRecordsAscendStrictly};

/// Records of which no two have equal keys and row pointers ascend strictly in their order.
pub fn sorted_records_ascend_strictly()
    ensures { SortedRecordsAscendStrictly }
{}

/// And there is only one list of them in order.
pub fn sorted_records_are_one()
    ensures { SortedRecordsAreOne }
{}

/// What a merge gives until it has none are its records in order.
pub fn merges_give_sorted()
    ensures { MergesGiveSorted }
{}

/// Records that stand in order already are given as they stand.
pub fn ordered_are_given_in_place()
    ensures { OrderedAreGivenInPlace }
{}

/// The parts between ascending cuts, each in order, are the whole in order when they are put behind
/// each other.
pub fn parts_are_the_whole()
    ensures { PartsAreTheWhole }
{}

/// Records with equal keys stand in the same parts between the key cuts of tapes.
pub fn equal_keys_stay_together()
    ensures { EqualKeysStayTogether }
{}

/// And no two of these parts have records with equal keys.
pub fn parts_share_no_keys()
    ensures { PartsShareNoKeys }
{}
