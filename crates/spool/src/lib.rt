//! A spool: rows are put in any order, and come back as a tape of bounded sorted runs.
//!
//! A worker that scans its blocks of the heap can't sort all rows at once where they are many. So
//! it sorts them in runs, as `dumptuples` of `tuplesort.c` writes the tuples that memory takes as a
//! sorted run to a tape and begins again. There the bound is `work_mem`; here it is a number of
//! rows, so that which rows a run has doesn't depend on how much memory a row takes.
//!
//! How it is done: one run is open, and each row's bytes are written into it at once, so that who
//! puts rows keeps one record and fills it anew for each. The row that makes it full has its place,
//! and the full run a place among the others, before the run is sorted and put behind them. So each
//! step that may find no memory comes before the one that can't be taken back. The open run is then
//! empty and keeps its memory for the next rows.
//!
//! The invariant: every run but the open one is sorted, in the spool's order, and none is longer
//! than it may be. The open one is not full.
//!
//! A gather is a spool of entries, for a GIN index: a row is put as one record for each entry of its
//! array (`ginHeapTupleBulkInsert` of `gininsert.c`), which has the entry's category and key and the
//! row's pointer. One record is filled for one entry after the other, and the open run takes a copy
//! of its bytes, so that an entry takes no list of its own. A row whose entries found no memory has
//! part of them in the spool, so the gather is spent from then on.
//!
//! # What it promises
//!
//! - A spool's tape has the records that were put, as often as they were put, in sorted runs of the
//!   spool's order and of at most as many rows as it was told.
//! - Where a row finds no memory, the spool is as it was.
//! - A gather's tape has one record for each entry of each row that was put, in sorted runs of the
//!   order of entries and of at most as many records as it was told.
//! - A gather that found no memory answers so ever after.
//!
//! # What is not
//!
//! - Which row is in which run, and that the runs but the last are full, isn't said.
//! - That there is enough memory is tested and not proved.
#![tactic(auto)]

mod entry_spool;
mod gather;
mod laws;
mod spool;

pub use entry_spool::order_of_entries;
pub use gather::Gather;
pub use laws::column_entries_are_storable;
pub use spool::Spool;
