//! One heap page, checked by itself.
//!
//! A heap page holds the versions of a table's rows. Behind its header stand line pointers, which
//! index entries and update chains name by their number from 1 (`itemid.h`). A line pointer is
//! unused, dead, normal, when it leads to a tuple of the page by offset and length, or a redirect,
//! when it leads to another line pointer. A tuple begins with a header (`htup_details.h`): who
//! inserted and deleted it, its newer version, how many attributes it has, and hint bits that say
//! how those transactions ended.
//!
//! Readers of a page take all of this on trust: offsets are followed, lengths are added, and a
//! tuple's visibility is read from its hint bits alone, since here no transaction runs. So
//! `check_page` asks each page once, before anything is read from it. It goes over the line
//! pointers in ascending order, and asks at each one by one whether it leads to a place of its own,
//! whether the tuple's header fits it, and whether its hint bits settle what it is. The first that
//! it finds is therefore the least fault.
//!
//! Whether two tuples overlap is asked without comparing each with each other. Tuples begin at
//! multiples of eight bytes, so two of them share a byte exactly where they share an eight-byte
//! unit. The invariant: the items below the one that is asked have no fault, and a unit is marked
//! exactly where one of the normal items among them has a part in it. So the time is linear in the
//! page, and no memory is taken.
//!
//! # What it promises
//!
//! - `check_page` refuses exactly the pages that have a fault, and tells the least one: the least
//!   item, and at that item the least cause. A page has one least fault at most
//!   (`least_page_fault_is_one`). It takes no memory.
//! - A `View` is a page without a fault. Each line pointer, tuple header and tuple of it can be
//!   read where it stands, and what is read is what the format says of the page's bytes.
//! - No two tuples of such a page share a byte (`items_are_apart`), and each ends on the page
//!   (`items_are_whole`).
//! - Each tuple that `check_page` lets pass is settled, and `state` says of a settled tuple whether
//!   it is a row, by the table of hint bits in `specs/Visibility.antt`.
//!
//! # What is not
//!
//! - Whether chains of updates lead where they should, since that concerns several items. A ctid is
//!   read and followed nowhere here.
//! - Whether the attributes behind a tuple's header can be read: the bytes of an item are given as
//!   they stand.
//! - Whether the hint bits are true. They are taken as the page has them, and no transaction is
//!   looked up.
//! - The checksum, the LSN and the rest of a new page, which `PageIsVerified` asks to be zero: a
//!   page is new by `pd_upper` alone.
//! - Bytes that no item has: the hole, and those between an item's end and the next multiple of
//!   eight.
#![tactic(auto)]

mod check;
mod fault;
mod header;
mod infomask;
mod item;
mod laws;
mod layout;
mod row_state;
mod units;
mod used_page;
mod view;

pub use check::check_page;
pub use fault::{PageCause, PageFault};
pub use header::Header;
pub use infomask::{Infomask, Infomask2};
pub use laws::{items_are_apart, items_are_whole, least_page_fault_is_one};
pub use row_state::{RowState, state};
pub use view::View;
