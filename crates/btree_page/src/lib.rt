//! The pages of a B-tree as bytes, written and read.
//!
//! A B-tree's file is a list of pages. Block 0 is the meta page, which says where the root is and
//! how far above the leaves. Each other page stands on a level, between a left and a right
//! neighbour, and its special space (`BTPageOpaqueData` of `nbtree.h`) names both, the level and
//! what kind of page it is.
//!
//! The idea is that a page bounds itself. It has a right neighbour exactly where its keys have a
//! bound from above, and that bound is its first item: the high key (`P_HIKEY`). So the data of a
//! page begin with the second line pointer, and on the last page of a level, which has neither
//! neighbour to the right nor high key, with the first one (`P_FIRSTDATAKEY`).
//!
//! # What it promises
//!
//! - `SpecialSpace::put` writes exactly the 16 bytes of the definition, and `MetaPage::page` gives
//!   exactly the page of block 0.
//! - `SpecialSpace::read` gives what the last 16 bytes of any page say. `MetaPage::read` gives what
//!   block 0 says, and None exactly where it hasn't the fields of a meta page.
//! - `has_high_key`, `high_key`, `data_count` and `data_item` tell the high key of a page from its
//!   items, whatever its bytes are: what isn't there is None.
//! - Laws say that a meta page is read as what it was written to say and as nothing else
//!   (`meta_is_read_back`), and that a page which is made of a special space, a high key or none,
//!   and items is read as these (`pages_are_read_back`, `special_spaces_are_read`).
//!
//! # What is not
//!
//! Reading judges nothing: which flags go together, whether a neighbour is there, whether the root
//! is in the file or the fast root is the root stays with who asks. What stands in an item is
//! `btree_item`'s, and which items a page gets `btree_pack`'s.
#![tactic(auto)]

mod laws;
mod meta;
mod node;
mod special;

pub use laws::{meta_is_read_back, pages_are_read_back, special_spaces_are_read};
pub use meta::MetaPage;
pub use node::{data_count, data_item, has_high_key, high_key};
pub use special::{PageFlag, SPECIAL_BYTES, SpecialSpace};
