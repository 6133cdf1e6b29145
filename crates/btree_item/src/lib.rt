//! The tuples of a B-tree: plain tuples, posting tuples and pivots, as bytes.
//!
//! Every one of them is an index tuple (`itup.h`): a row pointer, `t_info` with the size and three
//! marks, a null bitmap where some value is null, the values' data (`tuple_data`), and zeros up to
//! a multiple of 8. A plain tuple has the keys and INCLUDE values of one row and its pointer. A
//! posting tuple (`_bt_form_posting` of `nbtdedup.c`) has the keys once and the pointers of all
//! rows that share them. A pivot (`_bt_truncate` of `nbtutils.c`) separates two neighbours: it
//! stands as the high key of the left page and as the item of the right page in the level above.
//!
//! The one idea is that a pivot need not be a whole row. It keeps the right neighbour's attributes
//! up to the first that differs from the left one's (`truncate`). An attribute that was cut off
//! counts as below every value, a row pointer that isn't there as below every pointer (`pivot_cmp`
//! of specs/Pivot). So a pivot is above all of the left page and below all of the right one
//! (`pivots_separate`). Where no key differs, it takes the left tuple's greatest row pointer with
//! it. The pivot of no attribute at all is minus infinity, the first item of each page above the
//! leaves.
//!
//! The marks tell the three apart: `t_info` has 0x2000 where the place of the row pointer holds
//! something else, and the offset part then has 0x2000 for a posting tuple and 0x1000 for a pivot
//! with a row pointer.
//!
//! # What it promises
//!
//! `plain`, `posting` and `pivot` give exactly the images of their definitions. `put_plain`,
//! `put_posting` and `put_pivot` put them behind the bytes of a buffer that its owner clears and
//! uses again; where no memory is left, the buffer is as before. `size_of` is the size of the plain
//! tuple. `truncate` gives how many attributes a pivot keeps. `read_item` gives the one tuple that
//! bytes are in an index with so many keys, and none exactly where they are the image of no tuple:
//! it reads leniently, writes what it read again and compares, so that each byte counts. Laws say that a pivot separates, that rows
//! of equal values have equal images up to the row pointer, that images have their sizes, and that
//! bytes are one tuple at most.
//!
//! # What is not
//!
//! Which rows share a posting tuple and where pages begin is the packer's. `read_item` doesn't ask
//! that a posting tuple is as small as the packer makes them, nor where a tuple stands.
#![tactic(auto)]

mod item;
mod item_reading;
mod laws;
mod pivot_tuple;
mod plain_tuple;
mod posting_tuple;
mod truncation;
mod tuple;
mod tuple_reading;

pub use item::Item;
pub use item_reading::read_item;
pub use laws::{
    equal_values_have_equal_images, images_have_their_sizes, nothing_kept_is_minus_infinity,
    pivots_separate, truncation_is_determined, tuples_are_told_apart,
};
pub use pivot_tuple::{pivot, put_pivot};
pub use plain_tuple::{plain, put_plain};
pub use posting_tuple::{posting, put_posting};
pub use truncation::truncate;
pub use tuple::size_of;
