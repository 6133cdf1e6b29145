//! Bytes of PostgreSQL's page files: little-endian numbers, row and line pointers, pages, and the
//! image of an index file.
//!
//! A page is 8,192 bytes. Its header of 24 bytes (`bufpage.h`) says where the line pointers end
//! (`pd_lower`), where the tuples begin (`pd_upper`) and where the special space begins
//! (`pd_special`). Line pointers grow upwards from byte 24, tuples grow downwards from the special
//! space, and the hole between the two is zero.
//!
//! The invariant: a `Page` and a `PageBuf` always hold one page's bytes, and `Blocks` and an
//! `IndexImage` whole pages, so no layer above asks for their length again.
//!
//! # What it promises
//!
//! Each number, pointer and page is read and written as its definition says, and each write gives
//! the whole page after it, so all other bytes are as before. A page that is made of items is read
//! as those items. A call that finds no memory changes nothing. The definition of the least fault,
//! which page, chains and values tell, stands here too, below all that use it.
//!
//! # What is not
//!
//! Nothing here knows what stands in a tuple or a special space, looks at a checksum or an LSN, or
//! judges a page that it reads: that is `heap_page`'s.
#![tactic(auto)]

mod blocks;
mod header;
mod image;
mod items;
mod laws;
mod line_ptr;
mod numbers;
mod page;
mod page_buf;
mod row_ptr;

pub use blocks::Blocks;
pub use header::{PAGE_VERSION, PD_FLAGS, PD_LOWER, PD_PAGESIZE_VERSION, PD_SPECIAL, PD_UPPER};
pub use image::IndexImage;
pub use items::{Bytes, Items, RowPtrs};
pub use laws::{items_are_read, lowest_is_read_first};
pub use line_ptr::{LinePtr, LineState};
pub use numbers::{al2, al8, i64_at, u16_at, u32_at, zero_bytes};
pub use page::Page;
pub use page_buf::PageBuf;
pub use row_ptr::RowPtr;

/// The bytes of a page (`BLCKSZ`).
pub const PAGE: usize = 8192;

/// Where a page's line pointers begin, behind its header (`SizeOfPageHeaderData`).
pub const PAGE_HEADER: usize = 24;

/// The bytes of a line pointer (`sizeof(ItemIdData)`).
pub const LINE_POINTER: usize = 4;
