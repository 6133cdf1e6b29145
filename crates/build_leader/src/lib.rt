//! The leader of a build: scans a heap, and packs what its rows come to into the file of an index.
//!
//! What that is depends on the method. `_bt_leafbuild` of `nbtsort.c` sorts the rows of a B-tree
//! and writes the leaves in that order. `_gin_process_worker_data` and `_gin_parallel_merge` of
//! `gininsert.c` sort the entries of a GIN index's rows, so that the pointers of an entry come
//! together. `_brin_parallel_merge` of `brin.c` sorts no rows: each worker has a summary of each
//! range of which it had rows, and the leader unites what they have, range by range. Here rows and
//! entries stand in sorted runs on the workers' tapes, and each goes from the merge straight into
//! the packer: no list of rows stands between them. That is how a leader alone packs. With workers
//! the order is cut into as many parts, between keys, so that rows of equal keys stand in one part.
//! A thread for each merges its records and makes of them what needs nothing of the other parts
//! (`key_parts`): the leaf tuples of a B-tree, with the separator that each has from the one before
//! it, or the postings of a GIN index. The leader lays these on pages, part by part.
//!
//! The leader and its workers scan side by side (`_bt_begin_parallel` of `nbtsort.c`): a thread
//! for each seat, as far as threads can be made, of which the leader's is the caller's own. Each
//! has its seat, its reader and its sink to itself, and hands back, by a move, what its rows went
//! into, the fault that it kept and its seat. They share the heap, the plan and the scan's two
//! words, and wait for nothing but their end.
//!
//! A worker of the scan claims blocks and takes the rows of each (`_bt_parallel_scan_and_sort` of
//! `nbtsort.c`, `heapam_index_build_range_scan` of `heapam_handler.c`): the page is checked, its
//! HOT chains give each live item its root, and the needed columns of the item are read. WHERE is
//! asked before the size of the tuple or of an entry, so a row that it leaves out can't be too
//! large. All rows of a worker are read into one slot, which keeps its memory. A block with a fault
//! is reported to all workers, and from then on a worker passes over each block above a report that
//! it has seen. What it reads afterwards is below its own reports, so the fault that it found last
//! is its least. As long as it has seen no report, it has the rows of all blocks of its claims; and
//! the seat into which all others were joined has seen no less than the least of all reports. So
//! either that seat has none, and every block was taken, or the blocks below its least report were,
//! and the fault kept of it is the heap's first, whoever found one first.
//!
//! One statement carries the rows through all of this, whatever the method (`HoldRows` of
//! `specs/Holding`): runs and summaries hold these rows. It is kept by a row more, by two workers'
//! put together, and by any order of the rows.
//!
//! A unique index has no two rows that clash. PostgreSQL finds those that do in its sort, which
//! meets equal keys side by side (`comparetup_index_btree` of `tuplesortvariants.c`). Here a row
//! is held back until the next one comes, and put once the two are compared. That is enough: rows
//! that clash have equal keys, and in the order of the index whatever stands between equal keys
//! equals them, so that two rows clash somewhere exactly where two neighbours do. They stand in one
//! part, and the first part that has a clash tells it.
//!
//! The invariant of the pass: the rows that were put and the one that is held back are the first
//! in the order of all, and no neighbours among them clash where the index is unique.
//!
//! # What it promises
//!
//! - Unless memory runs out, `build` gives the index of the heap: for a B-tree and a BRIN index
//!   byte for byte by the definition of its file, for a GIN index a file that is read as the map
//!   from the entries of the rows to their pointers. It tells how many rows and pairs it has, and
//!   gives the seat with the claims of the scan. Or it tells the heap's first fault; or, of a
//!   unique index, the first two neighbours that clash; or, of a BRIN index, the least range whose
//!   tuple no page takes.
//! - What a heap comes to is one thing at most (`build_outcome_is_determined`): the rows of the
//!   index are one list (`heap_rows_are_determined`), and since no two have one row pointer, they
//!   have one order. Neighbours tell of all clashes (`neighbours_tell_of_clashes`).
//! - Each worker has exactly the rows of the blocks that it claimed (`scan_heap`), and whoever
//!   claimed which, the workers together have each row of the heap once (`claims_share_the_rows`).
//!   So the index is the same for every number of workers and every order of their claims.
//! - In the map of a GIN index an element of a row leads to that row and to no row that lacks it
//!   (`elements_lead_to_their_rows`), and so do nulls and arrays without elements
//!   (`nulls_lead_to_their_rows`, `empty_arrays_lead_to_their_rows`, `postings_point_to_rows`).
//!
//! # What is not
//!
//! - That two threads ran, that work is shared evenly, or any time. Where no thread can be made,
//!   the caller's does its part as well.
//! - That a worker stops reading above a report is left open: a contract says what is told, and
//!   not which pages were read for it.
//! - That there is enough memory. Where a B-tree would have 2^31 blocks or more, or 64 levels, or
//!   a GIN index 2^30 pairs or blocks, `build` ends as if there were too little.
#![tactic(auto)]

mod brin;
mod btree;
mod built;
mod columns;
mod fault;
mod gate;
mod gin;
mod key_parts;
mod laws;
mod leader;
mod plan;
mod scan;
mod taken;

pub use built::Built;
pub use fault::LeadFault;
pub use gate::{Gate, NoGate};
pub use gin::{
    elements_lead_to_their_rows, empty_arrays_lead_to_their_rows, nulls_lead_to_their_rows,
    postings_point_to_rows,
};
pub use laws::{
    build_outcome_is_determined, claims_share_the_rows, heap_rows_are_determined,
    neighbours_tell_of_clashes,
};
pub use leader::build;
pub use plan::Plan;
pub use scan::{Scanned, scan_heap};
