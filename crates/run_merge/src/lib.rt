//! The merge of sorted runs: all at once on one thread, or range by range on several.
//!
//! What the workers of a build leave is tapes of runs, each in order. `mergeruns` of `tuplesort.c`
//! makes one sorted list of them: it keeps the first tuple of each run in a heap, gives the least,
//! and puts the next one of that run in its place (`mergeonerun`, `tuplesort_heap_replace_top`).
//! Here the heap has heads: the place of a run's next record, with the first 16 of its order bytes
//! as one number. Comparing two heads compares these numbers, and looks at the records' bytes only
//! where they are equal. No record is copied that is only compared, and giving one moves one head.
//!
//! The merge by ranges cuts the order itself. Every 64th record of each run is a sample; the
//! samples in order, cut at equal shares, give the cuts. A part is what lies from one cut on and
//! below the next, so a run's share of it is a range of its places, found by halving, and
//! `merge_part` is the same heap over these ranges, as `merge_range` is where a part is to be a run
//! of its own. Parts share no record and need no lock. A cut of `cut_points` is a sample's order
//! bytes. One of `key_cuts` has no row pointer, so the parts share no key either, and each can be
//! used by itself where rows with equal keys belong together.
//!
//! The invariant: no head is behind one of its two children, and what the heads have left is what
//! the merge has left.
//!
//! # What it promises
//!
//! - `Merged::next` gives one of the records that are left, none of which is below it, and None
//!   exactly where none is left. Want of memory changes nothing, and the merge may go on.
//!   `Merged::next_into` fills a record with the same, in the memory that it has.
//! - So what a merge gives is its records in order (`merges_give_sorted`): as often as the tapes
//!   have them, and the only such list where no two have equal keys and row pointers
//!   (`sorted_records_are_one`).
//! - `merge_part` has exactly the records between its part's cuts left, and
//!   `PartMerge::next_into` gives them as `Merged::next_into` does; `merge_range` makes them a run.
//!   The parts behind each other are the whole in order, for whatever ascending cuts
//!   (`parts_are_the_whole`).
//! - `cut_points` and `key_cuts` give the samples at equal shares, one cut less than there are
//!   parts: their order bytes, or their normalised keys. Between key cuts records with equal keys
//!   stand in one part (`equal_keys_stay_together`, `parts_share_no_keys`).
//! - `Merged::in_order` gives records that stand in order already as they stand.
//!
//! # What is not
//!
//! - Of records with equal keys and row pointers either may come first: a heap has no two.
//! - How many records a part has isn't promised, nor that the work is even. A key that many records
//!   have makes one part large.
//! - A run's memory is kept until the merge is let go.
//! - That there is enough memory is tested and not proved.
#![tactic(auto)]

mod between;
mod cuts;
mod cutting;
mod head;
mod heads;
mod heap;
mod heap_merge;
mod laws;
mod merged;
mod ordered_runs;
mod part_merge;
mod range;

pub use cuts::Cuts;
pub use cutting::{cut_points, key_cuts};
pub use laws::{
    equal_keys_stay_together, merges_give_sorted, ordered_are_given_in_place, parts_are_the_whole,
    parts_share_no_keys, sorted_records_are_one, sorted_records_ascend_strictly,
};
pub use merged::{Merged, merge};
pub use part_merge::{PartMerge, merge_part};
pub use range::merge_range;
