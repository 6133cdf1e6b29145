//! What holds of the summaries and of the file, whatever the rows are.

ghost use Rattle.brin_summary.specs.Laws.{EachTupleHasAPointer, EntriesAreReadBack, FileHasItsPages, HeadersAreToldApart, JoinsAssociate, JoinsCommute, MetaIsReadBack, NoRowsHaveNoNull, OrderDoesNotMatter, OtherwiseAllHaveRoom, PagesAreFilled, PagesHaveTheirTypes, PagesHoldTheTuples, PagesHoldWhatFits, PointersLeadToTheTuples, RangesAreToldApart, RowsLieWithin, SameRowsHaveOneSummary, SummariesAreJoined, SummariesAreTight, SummariesHaveTuples, TheLeastWideIsTold, TuplesHaveTheirHeader, TuplesTakeTheirRoom};

/// The summary of rows and of others is their summaries joined.
#[tactic(auto, using(crate::proofs::Joining::summary_of_append))]
pub fn summaries_are_joined()
    ensures { SummariesAreJoined }
{}

/// Rows that are the same but for their order, and for how often they are there, have one summary.
#[tactic(auto, using(crate::proofs::Joining::same_rows))]
pub fn same_rows_have_one_summary()
    ensures { SameRowsHaveOneSummary }
{}

/// The order of rows doesn't matter to their summary.
#[tactic(auto, using(crate::proofs::Joining::any_order))]
pub fn order_does_not_matter()
    ensures { OrderDoesNotMatter }
{}

/// Which of two summaries takes the other in doesn't matter.
#[tactic(auto, using(crate::proofs::Joining::joined_comm))]
pub fn joins_commute()
    ensures { JoinsCommute }
{}

/// In which order several summaries are joined doesn't matter.
#[tactic(auto, using(crate::proofs::Joining::joined_assoc))]
pub fn joins_associate()
    ensures { JoinsAssociate }
{}

/// Each value of each row lies between the bounds of its column, and each null is told.
#[tactic(auto, using(crate::proofs::Bounds::rows_within))]
pub fn rows_lie_within()
    ensures { RowsLieWithin }
{}

/// A summary tells no more than there is: each bound is a value of the column, unless it has none,
/// and a null that is told is there.
#[tactic(auto, using(crate::proofs::Bounds::summaries_tight))]
pub fn summaries_are_tight()
    ensures { SummariesAreTight }
{}

/// A range without rows tells of no null, and of no column a value.
#[tactic(auto, using(crate::proofs::Bounds::no_rows_no_null))]
pub fn no_rows_have_no_null()
    ensures { NoRowsHaveNoNull }
{}

/// A tuple takes at most 20 bytes, one more for each column, and the room of its bounds.
#[tactic(auto, using(crate::proofs::Rooms::tuple_room))]
pub fn tuples_take_their_room()
    ensures { TuplesTakeTheirRoom }
{}

/// The summary of rows of these types has a tuple, unless it is too wide for a page.
pub fn summaries_have_tuples()
    ensures { SummariesHaveTuples }
{}

/// A range's tuple begins with its header.
pub fn tuples_have_their_header()
    ensures { TuplesHaveTheirHeader }
{}

/// Bytes are the tuple of one range at most.
pub fn ranges_are_told_apart()
    ensures { RangesAreToldApart }
{}

/// Bytes begin with one header at most.
pub fn headers_are_told_apart()
    ensures { HeadersAreToldApart }
{}

/// The regular pages from the first on have exactly the tuples of the ranges, in order.
#[tactic(auto, using(crate::proofs::PageLaws::pages_hold))]
pub fn pages_hold_the_tuples()
    ensures { PagesHoldTheTuples }
{}

/// Where no tuple is larger than a page takes, no page has more than fits.
#[tactic(auto, using(crate::proofs::PageLaws::pages_fit))]
pub fn pages_hold_what_fits()
    ensures { PagesHoldWhatFits }
{}

/// Each range has one pointer in the revmap.
#[tactic(auto, using(crate::proofs::PageLaws::each_has_a_pointer))]
pub fn each_tuple_has_a_pointer()
    ensures { EachTupleHasAPointer }
{}

/// The pointer of each range leads to its tuple: by its block to the page, and by its offset, from
/// 1 on, to the place there.
pub fn pointers_lead_to_the_tuples()
    ensures { PointersLeadToTheTuples }
{}

/// Where no range is told as wide, each has a tuple for which a page has room.
#[tactic(auto, using(crate::proofs::PageLaws::none_is_wide))]
pub fn otherwise_all_have_room()
    ensures { OtherwiseAllHaveRoom }
{}

/// The range that is told as wide is the least whose tuple no page takes, with its tuple's size.
#[tactic(auto, using(crate::proofs::PageLaws::least_wide))]
pub fn the_least_wide_is_told()
    ensures { TheLeastWideIsTold }
{}

/// A page is turned only where the next tuple hasn't room on it.
#[tactic(auto, using(crate::proofs::PageLaws::pages_filled))]
pub fn pages_are_filled()
    ensures { PagesAreFilled }
{}

/// The meta page, a page of the revmap and a regular page have each its type.
pub fn pages_have_their_types()
    ensures { PagesHaveTheirTypes }
{}

/// The meta page is read as it was written.
pub fn meta_is_read_back()
    ensures { MetaIsReadBack }
{}

/// The entries of a page of the revmap are read as they were written, and as zero behind them.
pub fn entries_are_read_back()
    ensures { EntriesAreReadBack }
{}

/// Where each tuple has room on a page, the file is its meta page, the revmap and the regular
/// pages, each at its block.
pub fn file_has_its_pages()
    ensures { FileHasItsPages }
{}
