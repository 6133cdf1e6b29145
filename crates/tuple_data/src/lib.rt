//! The data of an index tuple: how the values of its columns lie one behind the other.
//!
//! PostgreSQL lays them out column by column (`heap_fill_tuple` of `heaptuple.c`, which
//! `index_form_tuple` of `indextuple.c` calls). A null takes nothing. A value of a fixed width
//! stands at the next multiple of its alignment, low byte first. A text of up to 126 bytes stands
//! right behind what is there, under a header of one byte; a longer one stands at the next multiple
//! of 4, under a header of four bytes. Headers hold the length of the value with the header itself.
//! Places are counted from where the data begin, and the bytes between values are zero.
//!
//! The one idea: where a value stands depends on how many bytes stand before it and on nothing
//! else. So the data are a list of pieces (`data_of`), each with its own zeros in front, the size
//! is one pass without memory (`data_size`), and the columns in front have the data in front
//! (`front_columns_have_the_front`).
//!
//! # What it promises
//!
//! `data_size` is the length of the data. `put_data` puts exactly the data behind the bytes of a
//! buffer, by slices and without a buffer of its own; where no memory is left, the buffer is as
//! before. `has_null`, `has_variable` and `null_bits` answer what a tuple's header says of its
//! values.
//!
//! `Values` is the way back: of types and null bits it gives the one list of values whose data the
//! bytes begin with, and None exactly where there is no such list. So a byte between values that
//! isn't zero, or a long header where a short one has room, is refused. That there is at most one
//! such list is `values_are_told_apart`. The values stay where they stand, as attributes that are
//! taken one after the other, without memory; contracts see them as the list. `read_data` is a copy
//! of them.
//!
//! `cmp_values` compares the values of two tuples in place, in the order of `opclass::cmp_key`.
//!
//! # What is not
//!
//! The tuple around the data, with its header, bitmap and size, is the business of the crates
//! above. Arrays take no place here: no index tuple has one.
#![tactic(auto)]

mod attribute;
mod content;
mod data;
mod datum;
mod laws;
mod nulls;
mod number;
mod order;
mod piece;
mod reading;
mod values;

pub use attribute::Attribute;
pub use data::{data_size, put_data};
pub use laws::{
    columns_behind_follow, data_take_their_room, front_columns_have_the_front,
    values_are_told_apart,
};
pub use nulls::{has_null, has_variable, null_bits};
pub use order::{cmp_attribute, cmp_values};
pub use reading::read_data;
pub use values::Values;
