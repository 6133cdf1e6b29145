//! The file of a B-tree index, built from sorted rows as `nbtsort.c` builds it.
//!
//! A B-tree file is a list of pages of 8,192 bytes. Block 0 is the meta page, which names the root
//! and its level. Each other page is a node: its line pointers list its tuples in the order of
//! their keys, and its special space names the nodes beside it on its level, how far that is above
//! the leaves, and what kind of page it is.
//!
//! # How sorted rows become a tree
//!
//! Sorted rows need no search and no split: they go to a leaf one behind the other, and once it is
//! full the next leaf begins to its right. Rows with equal keys share a tuple with a list of row
//! pointers, as many as a tenth of a page holds, unless the index is unique, has INCLUDE columns or
//! is made without deduplication.
//!
//! An item breaks the page where it hasn't room, or where the page would keep less free than its
//! fill factor wants. A page isn't finished with the items that it has: its last one goes over to
//! the next page and begins it. So each page ends with room for one item, which its high key takes:
//! the high key bounds the page's keys from above, and is what the first item behind the page needs
//! to be told from the last one on it, its keys up to the first that differs. Where none differs it
//! keeps them all, and the greatest row pointer of the last item on the page. So a high key is
//! never more than a row pointer larger than the item for which there was room. The last page of a
//! level has no high key.
//!
//! A page that is finished gives the level above one item, which leads to it: the separator between
//! it and its left neighbour, that is the left neighbour's high key. Above the leaves a page's own
//! high key is the next item as it stands, and its first item keeps no keys: it stands for minus
//! infinity, since whoever came down to the page has already been told that its keys are greater.
//! For the same reason the first page of a level needs no separator. Each level is cut into pages
//! by the same rule, and the first level that has one page alone is the root.
//!
//! The pass over the rows has one open page on each level. A leaf item that comes joins the open
//! leaf or breaks it; then the finished leaf's item comes to the level above, where it joins or
//! breaks the open page there, and so on up, as far as pages break. A page takes its block number
//! when it is born: the right neighbour of a page that breaks before the item above it comes, so
//! that a leaf is numbered before its new parent. When all rows have come, the open pages are
//! finished from the leaves up.
//!
//! # Runs of leaf tuples
//!
//! Of all this only the pages hang on what came before. A leaf tuple is made of the rows of one
//! key, and its separator of these and of the group before them. So where sorted rows are cut into
//! runs between which the key changes, a `LeafWriter` for each run writes its leaf tuples and their
//! separators on a thread of its own, into a `LeafRun`. A `RunPacker` then takes the runs in their
//! order and lays pages of tuples that are written: their sizes tell how many of them join the open
//! leaf, and these are copied at once. Of each run it makes one separator itself: that between the
//! last group before the run and its first one, whose keys differ.
//!
//! # The definition
//!
//! The definition (`specs/`) has no open page and no counter. It says where a page ends (`Break`,
//! `Pages`: the least item that breaks it, by sums over items), what the level above has (`Tower`),
//! when pages are born and so how they are numbered (`Births`), and which bytes each block has
//! (`Nodes`). Moments stand for the order of the pass: leaf item j arrives at moment j, an item
//! above when the page below it is finished, and a page is born at the moment at which its left
//! neighbour is finished. `Pass/Open` says what stands after some items, and the laws tie the two.
//!
//! # What it promises
//!
//! - Unless memory runs out, `Packer` gives exactly the file of the definition over the rows that
//!   it took, each byte of it, whatever the rows are: over columns of any type, with any fill
//!   factor, with tuples shared or not. It keeps one pass over them, with one open page on each
//!   level. So does `OpenTower` for leaf items that are written already.
//! - So does `RunPacker`, over the rows of all runs that it was given, where rows of one key stand
//!   in one run (`KeysPart` of specs/Groups): the same file, however the rows are cut. A `LeafRun`
//!   has the leaf tuples of the definition over its rows, each with its separator, and the keys of
//!   its first and last row.
//! - Where memory runs out on the way, `put` and `add` say so, and no file comes from that packing.
//! - Of the definition of the whole file, over any rows: the groups hold exactly the rows
//!   (`groups_hold_the_rows`), the leaves hold exactly their tuples, in order
//!   (`leaf_items_are_the_groups`, `leaves_hold_the_items`), each level names each page of the
//!   level below once, in order (`each_page_is_named_once`), and the last is the root alone
//!   (`the_last_level_is_the_root`). No page holds more than fits (`pages_fit`). No two pages have
//!   one block, and there are no other blocks (`blocks_are_exact`). Each node is a page
//!   (`nodes_are_pages`), and the file has each at its block (`file_has_the_nodes`) and is the only
//!   one that has (`file_is_determined`), where tuples are written with the sizes that they tell.
//! - Of the keys, where the rows are sorted and no two are alike: on each level each key of a page
//!   is at most the page's high key and above its left neighbour's, and separators ascend
//!   (`keys_lie_between_high_keys`). The keys of the leaves are exactly those of the rows
//!   (`leaves_have_the_keys`). The pages are those of the file, whose tuples are written from the
//!   same groups (`levels_are_told_by_groups`), and a separator stands to a row as its pivot tuple
//!   does (`separators_compare_as_pivots`).
//! - Of the pass: one item more is one step (`tower_grows_by_a_step`), and the open pages, finished
//!   from below, leave the levels of the definition (`closed_tower_is_the_levels`). It makes each
//!   page once (`history_is_the_births`), and a counter that goes on by one with each gives the
//!   block numbers of the definition (`pages_are_numbered_as_born`): also on the way, where a
//!   step's pages get the next numbers (`step_takes_the_next_numbers`), and none changes later
//!   (`numbers_stay`). What a packing has of the definition grows by an item as `OpenTower` does
//!   (`packing_grows_by_an_arrival`), and finished it is the file (`finished_packing_is_the_file`).
//!
//! # What is not
//!
//! - `Packer` and `LeafWriter` take the rows in the order in which they come. They tell equal keys
//!   from others, to share their tuple, and nothing more: nothing here sorts rows or looks whether
//!   they are sorted. Nor does `RunPacker` look whether a key goes on from one run to the next.
//! - Besides want of memory, a packing ends as if memory had run out where a file would have 2^31
//!   blocks or more, 64 levels, or 2^64 leaf tuples: PostgreSQL numbers no such block.
#![tactic(auto)]

mod grouper;
mod key_bounds;
mod laws;
mod leaf_run;
mod leaf_writer;
mod leaves;
mod open_leaves;
mod open_page;
mod open_tower;
mod packer;
mod page_fill;
mod row_group;
mod run_leaves;
mod run_packer;
mod tuples;

pub use key_bounds::{
    keys_lie_between_high_keys, leaves_have_the_keys, levels_are_told_by_groups,
    separators_compare_as_pivots,
};
pub use laws::{
    blocks_are_exact, closed_tower_is_the_levels, each_page_is_named_once, file_has_the_nodes,
    file_is_determined, finished_packing_is_the_file, groups_hold_the_rows, history_is_the_births,
    leaf_items_are_the_groups, leaf_items_are_written, leaf_items_arrive_in_turn,
    leaves_hold_the_items, nodes_are_pages, numbers_stay, packing_grows_by_an_arrival,
    pages_are_numbered_as_born, pages_fit, step_takes_the_next_numbers, the_last_level_is_the_root,
    tower_grows_by_a_step,
};
pub use leaf_run::LeafRun;
pub use leaf_writer::LeafWriter;
pub use open_tower::OpenTower;
pub use packer::Packer;
pub use run_packer::RunPacker;
