//! What follows from the definitions of a GIN index alone. The calls do nothing.

ghost use Rattle.build_leader.specs.EntryLaws.{ElementsLeadToTheirRows, EmptyArraysLeadToTheirRows, NullsLeadToTheirRows, PostingsPointToRows};

/// In the map that a GIN index is, an element of a row's array leads to that row, and to no row
/// whose array lacks it (`ginarrayextract` of `ginarrayproc.c`).
pub fn elements_lead_to_their_rows()
    ensures { ElementsLeadToTheirRows }
{}

/// What stands for a null leads to exactly the rows whose value is null (`GIN_CAT_NULL_ITEM` of
/// `ginblock.h`).
pub fn nulls_lead_to_their_rows()
    ensures { NullsLeadToTheirRows }
{}

/// What stands for an array without elements leads to exactly the rows with such an array
/// (`GIN_CAT_EMPTY_ITEM` of `ginblock.h`).
pub fn empty_arrays_lead_to_their_rows()
    ensures { EmptyArraysLeadToTheirRows }
{}

/// Each pointer of a posting list is that of a row of the index.
pub fn postings_point_to_rows()
    ensures { PostingsPointToRows }
{}
