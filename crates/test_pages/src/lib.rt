//! Pages that tests make by hand, by the fields of their line pointers and tuples: heap pages
//! (`heap`), tuples to put into them (`rows`), and the index file of a few rows (`btree`); and the
//! comparison of bytes (`bytes`). It is here for tests alone, and nothing of the product stands on
//! it.
//!
//! The layouts are written a second time, after `bufpage.h`, `itemid.h`, `htup_details.h`, `itup.h`
//! and `nbtree.h`, and not by the calls of the crates under test: so this crate stands on none of
//! them.
//!
//! # What is not
//!
//! Nothing is promised by contract but that each call is safe and returns. A line pointer or tuple
//! that doesn't fit its page is cut, as suits a test of broken pages.
#![tactic(auto)]

mod btree;
mod bytes;
mod heap;
mod page;
mod rows;

pub use btree::{Entry, leaf_file};
pub use bytes::{differs_at, put};
pub use heap::{Line, Tuple, heap_of, heap_page, int4_page};
pub use rows::{FIRST_VERSION, INT4_ROW, SECOND_VERSION, THIRD_VERSION};
