//! Posting lists and posting trees: the row pointers of one key of a GIN index, as bytes.
//!
//! A GIN index has each key once, with the list of the rows that hold it. The list is kept small by
//! two ideas of `ginpostinglist.c`. A row pointer is one number, its block times 2,048 and its
//! offset, so a list of pointers in order is a list of numbers that ascend; and of all but the
//! first only the way from the number before it is kept, in as few bytes of seven bits as it takes.
//! That is a segment: the first pointer as it is, how many bytes follow, and the bytes.
//!
//! A list that is too long for the tuple of its key goes into a tree of its own (`gindatapage.c`).
//! Its leaves hold the list in order, cut into segments of at most 384 bytes, so that a reader
//! decodes a small part of a page. Leaves lead to their right neighbours; a level of several pages
//! has one above it, with the block of each page and its greatest pointer, so that a search goes
//! down to the first page whose greatest pointer isn't below what is sought.
//!
//! The tree is built from the left: a leaf is put when the next segment has no room on it, and each
//! level when the one below is done. So every page is written once and in the order of the file,
//! and what is kept on the way is one page and the greatest pointers of one level.
//!
//! The invariant: what was put are the filled pages of a tree, each leading to the block that comes
//! next, and their pointers, with those of the page under way, are the first of the list.
//!
//! What a tree of pages in levels is (`specs/Levels`), and how it is read from the bytes of a file
//! (`specs/Reading`), is said over whatever its items are: the tree of an index's entries is one
//! too.
//!
//! # What it promises
//!
//! - `encode` and `put_segment` give the one segment of pointers. `decode` gives the one list whose
//!   segments the bytes are, and None exactly where no list has them. So what is encoded is decoded
//!   again, and nothing else is (`decoding_undoes_encoding`, `segments_are_of_one_list`).
//! - `build_tree` puts behind the blocks of an image, which stay as they were, exactly the pages of
//!   one posting tree of these pointers, whose root it answers. On every page but the rightmost of a
//!   level the segments or items have at least 4,000 bytes together, and each page has one. Reading
//!   the file from that root, which knows nothing of how it was built, gives these pointers, and
//!   no others (`trees_are_read_as_one_list`).
//! - Where no memory is left, `put_segment` changes nothing, and `build_tree` leaves whole pages
//!   more behind the old blocks.
//!
//! # What is not
//!
//! - Where pages and segments are cut isn't promised beyond what is said above, nor that a server
//!   would cut them there.
//! - Which list goes into a tree is the business of the crate above.
//! - That there is enough memory is tested and not proved.
#![tactic(auto)]

mod data_page;
mod decoding;
mod encoding;
mod laws;
mod leaves;
mod level;
mod pointers;
mod tree;
mod varbyte;

pub use decoding::decode;
pub use encoding::{encode, put_segment};
pub use laws::{
    decoding_undoes_encoding, numbers_are_ordered_as_pointers, segments_are_of_one_list,
    trees_are_read_as_one_list,
};
pub use tree::build_tree;
