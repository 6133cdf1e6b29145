//! What a BRIN index knows of its heap: a summary of each range of blocks, and the file that has
//! them.
//!
//! A BRIN index has no entry for a row. It cuts the heap into ranges of neighbouring blocks and
//! tells of each range the least and the greatest value of every column and whether a null is
//! there (`brin_minmax.c`). A query skips the ranges whose bounds rule its condition out. Such an
//! index stays a few pages where values follow the blocks, as times of rows that are only added do.
//!
//! # How a heap becomes a file
//!
//! A `Summary` begins without rows and takes one row after the other in. A row costs two
//! comparisons a column: a value is copied only where it replaces a bound, and the copies wait on
//! the stack until every column has its own, so that want of memory leaves the summary as it was.
//! Whoever scans parts of a range has a summary of each part, and unites them.
//!
//! `pack` writes the file of all ranges (`brinbuild` of `brin.c`). Block 0 is the meta page. The
//! revmap follows, an array over pages, which tells for each range where its tuple is. Then come
//! the regular pages with the tuples, one a range, in the order of the ranges. The sizes of all
//! tuples are told first: they tell the range that no page takes, and how many tuples each page
//! has, so that each page is made once, from pointers or tuples that are known, and added behind
//! the others.
//!
//! The invariant of a summary: it is that of the rows which it took, by the definition on lists of
//! rows (`specs/Summary`), in which no order and no scan is. Nulls stand on the far side of each
//! bound, behind all values where the least is sought and before all where the greatest is. So a
//! null is a bound only where the column has no value, and a tuple, which has the bounds in its
//! data, has no place for it there.
//!
//! # How a file is read
//!
//! `PageType::of`, `Meta::read` and `revmap_entry` read pages, and take no memory. A tuple's header
//! is read field by field at their places, and then the header of these fields is compared with the
//! bytes: so no rule of its layout is written a second time as a test.
//!
//! # What it promises
//!
//! - `add` and `union` leave the summary of the rows of both, `union` without memory; after want of
//!   memory `add` leaves the summary as it was.
//! - Unless memory runs out, `pack` gives exactly the file of the definition, each byte of it, or
//!   tells the least range whose tuple is larger than a page takes, exactly where there is one.
//! - Of summaries, over any rows: they join as their rows do (`summaries_are_joined`), in any order
//!   (`joins_commute`, `joins_associate`), and neither the order of rows nor their repetition
//!   matters (`order_does_not_matter`, `same_rows_have_one_summary`). Each value lies between the
//!   bounds of its column and each null is told (`rows_lie_within`); bounds are values that are
//!   there (`summaries_are_tight`), and without rows no null is (`no_rows_have_no_null`).
//! - Of the file, over any ranges: its pages stand at their blocks (`file_has_its_pages`). The
//!   regular pages have exactly the tuples (`pages_hold_the_tuples`), no more than fits
//!   (`pages_hold_what_fits`) and no fewer (`pages_are_filled`). Each range has one pointer, which
//!   leads to its tuple (`each_tuple_has_a_pointer`, `pointers_lead_to_the_tuples`).
//! - Unless memory runs out, `read_range` gives the one tuple that has these bytes, with any has-nulls
//!   bits, and None exactly where there is none.
//! - Of reading: `PageType::of` and `Meta::read` answer exactly where a page has that type and the
//!   fields of a meta page. Pages are read as they were written (`pages_have_their_types`,
//!   `meta_is_read_back`, `entries_are_read_back`).
//! - Of tuples: the summary of rows has one (`summaries_have_tuples`), it begins with its header
//!   (`tuples_have_their_header`), and bytes are the tuple of one range at most, with one header
//!   (`ranges_are_told_apart`, `headers_are_told_apart`).
//! - Of refusals: the range told is the least wide one (`the_least_wide_is_told`), and where none
//!   is told there is none (`otherwise_all_have_room`). Who knows how long the bounds are knows the
//!   most that a tuple takes (`tuples_take_their_room`).
//!
//! # What is not
//!
//! Nothing here reads a heap, decides which blocks a range has, or looks whether values are of
//! their columns' types: bounds are compared and written as they are. Whether memory is found isn't
//! said.
#![tactic(auto)]

mod bound;
mod file;
mod laws;
mod meta;
mod page;
mod range_tuple;
mod ranges;
mod reading;
mod regular;
mod revmap;
mod special;
mod summary;
mod tuple;
mod tuple_head;

pub use file::{BrinFault, pack};
pub use laws::{
    each_tuple_has_a_pointer, entries_are_read_back, file_has_its_pages, headers_are_told_apart,
    joins_associate, joins_commute, meta_is_read_back, no_rows_have_no_null, order_does_not_matter,
    otherwise_all_have_room, pages_are_filled, pages_have_their_types, pages_hold_the_tuples,
    pages_hold_what_fits, pointers_lead_to_the_tuples, ranges_are_told_apart, rows_lie_within,
    same_rows_have_one_summary, summaries_are_joined, summaries_are_tight, summaries_have_tuples,
    the_least_wide_is_told, tuples_have_their_header, tuples_take_their_room,
};
pub use meta::Meta;
pub use page::{REVMAP_ITEMS, revmap_entry};
pub use range_tuple::{RangeCol, RangeCols, RangeTuple};
pub use ranges::{RangeParts, SummedRange, SummedRanges};
pub use reading::read_range;
pub use special::PageType;
pub use summary::{Summaries, Summary};
