//! What follows from the definitions of a build alone. The calls do nothing.

ghost use Rattle.build_leader.specs.Laws.{BuildOutcomeIsDetermined, ClaimsShareTheRows, HeapRowsAreDetermined, NeighboursTellOfClashes};

/// The rows of an index over a heap are one list: block by block, by item within a block
/// (`heapam_index_build_range_scan` of `heapam_handler.c`).
pub fn heap_rows_are_determined()
    ensures { HeapRowsAreDetermined }
{}

/// What the workers of a scan claimed has each row of the heap once, whoever claimed which blocks
/// (`table_block_parallelscan_nextpage` of `tableam.c`).
pub fn claims_share_the_rows()
    ensures { ClaimsShareTheRows }
{}

/// A heap comes to one thing at most for an index: one fault, by block, item and cause, or one pair
/// of rows that break the unique rule, or the rows of one index in one order.
pub fn build_outcome_is_determined()
    ensures { BuildOutcomeIsDetermined }
{}

/// Two rows of a heap break the unique rule exactly where two neighbours in the order of the index
/// do, so a build compares neighbours alone (`comparetup_index_btree` of `tuplesortvariants.c`).
pub fn neighbours_tell_of_clashes()
    ensures { NeighboursTellOfClashes }
{}
