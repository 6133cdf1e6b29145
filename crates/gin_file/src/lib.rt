//! The file of a GIN index: its tuples and pages, and what is read of them.
//!
//! A GIN index leads from entries to rows: from each element of an array, and from what stands for
//! a null, to the pointers of the rows that have it (`gin_entry`). Its file has three kinds of
//! pages. Block 0 is the meta page, which counts the others. The entry tree, whose root is block 1,
//! has a tuple for each entry on its leaves. A tuple has the posting list of its entry in it, as
//! one segment, or names the root of a posting tree in which the list stands (`posting_tree`).
//!
//! The one idea: the tuple of an entry is an index tuple whose row pointer was put to another use
//! (`GinFormTuple` of `ginentrypage.c`, `ginblock.h`). On a leaf it says where the posting list
//! begins and how many pointers it has, or names the root of a posting tree. Above the leaves it
//! names the page below whose greatest entry the tuple has. A key is the one column of that index
//! tuple. What stands for a null or for an empty array is the tuple of a null, and one byte behind
//! it says which of the two it is (`key_part` of `specs/EntryTuple`).
//!
//! The reading of a file (`specs/EntryTree`, `specs/Reading`) is said of bytes and knows nothing of
//! how they came: down first children from block 1 to a leaf, along right links, and each leaf
//! tuple gives an entry and its pointers, from its segment or from its posting tree. The entry is
//! one of the column's type, and a list or a block is within its bound (`IsTupleOf` of
//! `specs/Item`): the bytes alone of an int4 element would also be those of a number 2^32 above.
//!
//! The layout in words is docs/formats/gin.md.
//!
//! # What it promises
//!
//! `put_list_tuple` and `put_leading_tuple` put exactly the tuple of an entry behind the bytes of a
//! buffer, `Counts::meta_page` makes block 0, and `special_space` what stands at a page's end.
//! `read_entry` says what the one tuple says that has these bytes, and None where there is none.
//!
//! Once the column's type is known, bytes are the tuple of one item at most
//! (`tuples_are_of_one_item`), and a file is read as one list of postings at most
//! (`files_are_read_as_one_map`).
//!
//! # What is not
//!
//! Which list stands in a tuple and which in a tree, and where pages are cut, is the packer's
//! (`gin_pack`). A call that finds no memory leaves a part of what it was to put.
#![tactic(auto)]

mod entry_reading;
mod entry_tuple;
mod laws;
mod meta;
mod special;

pub use entry_reading::{EntryItem, read_entry};
pub use entry_tuple::{MOST_SIZE, list_place, put_leading_tuple, put_list_tuple};
pub use laws::{files_are_read_as_one_map, tuples_are_of_one_item};
pub use meta::Counts;
pub use special::{INNER, LEAF, META, NO_LINK, SPECIAL_BYTES, SPECIAL_PLACE, special_space};
