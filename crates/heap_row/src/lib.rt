//! The values of a row: those of the columns that an index needs, out of a heap tuple's bytes.
//!
//! A tuple doesn't say where its attributes stand. Behind its header they follow one another
//! (`heap_deform_tuple` of `heaptuple.c`): one that is null takes no bytes, one of a fixed width
//! stands at the next multiple of its type's alignment, and one without a fixed width begins with a
//! header that tells its length (`varatt.h`). So the place of a column is a fold over all columns
//! before it, and each of them has to be walked, whether it is needed or not. The definition is that
//! fold (`end_of`), and asks it anew for each column.
//!
//! How it is done: one pass with a cursor (`Walked`), up to the last needed column. The invariant is
//! that the cursor stands where the data of the columns before it end. Only needed columns are read
//! and copied, into a list that its owner keeps for one row after the other: a number takes no
//! memory, and a text goes into that of the text which stood at its place.
//!
//! The bytes are hostile. A page that was checked has tuples whose headers are sound, and nothing is
//! known of what stands behind them. So each read is inside the tuple or is a fault: a walked value
//! that ends past the tuple, or a needed one that isn't read here, since it is compressed, stored
//! elsewhere, no truth value, or no array. What an array claims to hold takes no memory before its
//! elements are found.
//!
//! # What it promises
//!
//! - `read_values` gives exactly the values of the needed columns, in their order, by the definition
//!   of each form of a value; `read_values_into` leaves them in a list, and nothing of what it had.
//! - Each value is one that its column's type has: a number in the type's range, bytes, as many as a
//!   type of a fixed width has, or an array of such elements. None is longer than the page, and no
//!   element of an array is.
//! - It refuses exactly the tuples of which a column up to the last needed one is faulty, and tells
//!   the first such column's least cause.
//! - The laws: a tuple's bytes, the table's columns and the needed ones determine the answer; each
//!   attribute lies inside its item, and no two of a tuple share a byte; what is read of a tuple's
//!   data are values of their columns' types, none longer than the data.
//!
//! # What is not
//!
//! - What is stored compressed or elsewhere isn't fetched: such a value is a fault where it is
//!   needed.
//! - A column that the tuple has no attribute of is null, also where a server has a default for it
//!   (`attmissingval`).
//! - A numeric, a json or another type that no index takes here is given as its bytes, unjudged, and
//!   so is a text: whether it is in the database's encoding isn't asked.
//! - That memory suffices is tested and not proved.
#![tactic(auto)]

mod array;
mod attribute;
mod bytes;
mod datum;
mod fault;
mod laws;
mod scalar;
mod tuple;
mod values;
mod varlena;
mod walk;

pub use fault::{RowCause, RowFault};
pub use laws::{
    attributes_are_apart, attributes_are_inside, values_are_determined, values_are_of_their_types,
};
pub use values::{read_values, read_values_into};
