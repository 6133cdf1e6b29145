//! What an index knows of its columns: their types, their values, which rows it has, and in which
//! order.
//!
//! PostgreSQL asks a type (`pg_type.dat`) how its values lie in a tuple, and an operator class
//! (`pg_opclass.dat`) how they compare. The types built here are few, so one table says what is
//! known of each (`ColType::facts`), and whatever is asked about a type is asked of that table.
//!
//! The order of values (`cmp_key`) is that of `ApplySortComparator` (`sortsupport.h`), column by
//! column: the first column in which two lists of values differ decides, nulls stand first or last
//! as the column says, and descending turns round the values but not where the nulls stand. It is
//! defined on all values and lists, so that sorts and maps take it: values of two kinds, which no
//! column has, stand by their kinds, and a front of a list before the list. The invariant: only
//! equal lists compare equal. So rows of equal keys stand side by side, and rows clash under the
//! unique rule exactly where neighbours do.
//!
//! A normalised key (`norm_key`) is a list of values as bytes that compare as the values do, so
//! that a sort compares bytes. Each value has a piece: its kind, and then a number lifted above
//! zero, high byte first, or a text whose zeros are marked and which ends with two zeros. The one
//! idea: a piece shows its own end. No piece is a front of another, so pieces compare one by one,
//! whatever stands behind them, and they are read back in exactly one way (`read_norm`).
//!
//! A row passes WHERE (`keeps`) where each condition is true: a comparison with null is unknown,
//! and unknown isn't true.
//!
//! # What it promises
//!
//! Each call answers by its definition, and what the layers above may rely on beyond that stands as
//! laws (`keys_are_ordered` and those beside it), which are functions that do nothing and whose
//! contracts are the laws.
//!
//! # What is not
//!
//! Texts compare as the collation "C" has it and no other. Arrays have a
//! place in the order and none in normalised keys. Whether memory is found isn't said.
#![tactic(auto)]

mod filter;
mod key_list;
mod laws;
mod needs;
mod norm;
mod order;
mod reader;
mod spec;
mod table;
mod types;
mod value;

pub use filter::{Cond, Filter, Op, Test, keeps};
pub use key_list::KeyList;
pub use laws::{
    clash_is_between_neighbours, clash_is_symmetric, elements_are_ordered, elements_are_told_apart,
    first_difference_decides, key_types_have_key_values, keys_are_ordered, keys_are_told_apart,
    norms_are_ordered_as_keys, norms_are_told_apart, norms_show_their_end, pieces_show_their_end,
    rows_are_ordered, rows_are_told_apart,
};
pub use needs::needed;
pub use norm::{norm_key, put_norm, put_piece};
pub use order::{clash, cmp_elem, cmp_key, cmp_row};
pub use reader::{read_norm, read_piece};
pub use spec::{IndexSpec, KeyCol, KeyColList, SortPart, SortSpec};
pub use table::{Column, ColumnList, Columns, Table};
pub use types::{ColType, Compared, Form, KeyUse, Method, TypeFacts, Width};
pub use value::{Elem, ElemList, KeyVal, Kinds};
