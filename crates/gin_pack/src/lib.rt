//! The packing of a GIN index: its file, built from the sorted entries of its rows.
//!
//! A GIN index leads from entries to rows: from each element of an array, and from what stands for
//! a null, to the pointers of the rows that have it (`gin_entry`). What its file is made of, from
//! the tuple of an entry up, is `gin_file`'s, and its posting trees are `posting_tree`'s.
//!
//! # How sorted entries become a tree
//!
//! `ginbuild` of `gininsert.c` collects entries in memory and inserts them into the tree, page
//! split by page split. Entries that come sorted need neither. The records of an entry come
//! together, so its pointers are gathered until the next entry comes, and then its posting is done
//! and can be stored: a list that fits goes into the tuple, another becomes a posting tree at once,
//! behind the blocks that the image has. The tuple goes to the open leaf, or to the next one where
//! it has no room there. An entry's tuple is at most 2,712 bytes, so that three of them have room
//! on a page: a leaf is left only when it is filled by more than 5,400 bytes.
//!
//! Only the storing needs the file. So postings can be gathered on several threads, each over the
//! sorted records of one range of keys: a `PostingWriter` gathers, and its `PostingRun` has all row
//! pointers of the range in one buffer, 8 bytes for each, where the records would take many times
//! as much. An `EntryPacker` stores the runs of the ranges, one behind the other. No entry stands
//! in two ranges, so each posting is whole. `pack` is for one thread: it stores what is done as the
//! next record comes, and never has more than one posting beside the one that comes.
//!
//! The idea that keeps this simple: a page has no number before its level is whole. While entries
//! come, the leaves wait beside the image, each with the tuple by which the level above will name
//! it, that of its greatest entry. When all have come, the leaves go behind the posting trees, one
//! block after the other, so that the right link of each is the next number, and the level above is
//! filled with what leads to them in the same way. The first level that is one page alone is the
//! root and goes to block 1, which was left for it, as block 0 was for the meta page.
//!
//! The invariant: what was placed stays. The image grows at its end, and of its old blocks only
//! those two are written again. So a posting tree that stands in it stands there to the end.
//!
//! # How it is stated
//!
//! The reading of a file (`IsReadAsPostings` of `gin_file`) is said of bytes and knows nothing of
//! how they came. How a file is built (`HasPostings`) is said by the one definition of trees in
//! levels that posting trees have too (`posting_tree`): each page but the rightmost of its level
//! has at least 4,000 bytes of tuples and their line pointers, an item above names a page below by
//! its greatest entry, and a level has one above it exactly where it has more than one page.
//! `IsGinFile` is both, over the map of the records.
//!
//! # What it promises
//!
//! Unless memory runs out, `pack` gives a file that is read as exactly the entries of the records
//! and their pointers, entries and lists ascending strictly, and that is built as above: the list
//! of an entry stands in a tree exactly where its tuple with the list as one segment would have
//! more than 2,712 bytes, and the meta page counts the file's blocks, the pages of the entry tree
//! and of posting trees, which are all the others, and the entries. Each block of the file stands
//! in one place, as the meta page or as one page of one tree (`each_once` of `HasPostings`): no two
//! entries name one posting tree, and no page lies dead. That the file is read as no other map is
//! `files_are_read_as_one_map` of `gin_file`.
//!
//! So does `EntryPacker` for the records of all its runs together, where these ascend strictly from
//! the first run's first to the last run's last and no two runs have records of equal keys. A run
//! has the postings of the records that its writer was given: their pairs of entry and pointer, in
//! their order, and each entry once.
//!
//! # What is not
//!
//! - Nothing here sorts records or looks whether they are sorted: the merge below gives them so.
//! - Where pages are cut isn't said beyond the bound, nor at which blocks they stand, but for the
//!   root.
//! - Besides want of memory, a packing ends as if memory had run out where a file would have more
//!   than 2^30 blocks or 2^64 entries: no heap needs so many.
#![tactic(auto)]

mod level;
mod levels;
mod packer;
mod posting_run;
mod posting_writer;
mod store;

pub use packer::{EntryPacker, pack};
pub use posting_run::PostingRun;
pub use posting_writer::PostingWriter;
