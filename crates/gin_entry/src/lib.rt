//! The entries of a GIN index: under what a row of arrays is found.
//!
//! A GIN index has an array's elements as keys, and not the array (`ginExtractEntries` of
//! `ginutil.c`, `ginarrayextract` of `ginarrayproc.c`). An element that is there several times is
//! one entry. Elements that are null share one entry, and so that each row is found, an array
//! without elements has an entry of its own and a value that is null another. These three have no
//! key and are told by their category (`GinNullCategory` of `ginblock.h`).
//!
//! The one idea: what a value's entries are is a set, and said as one (`HasEntry`), and the index is
//! a relation between entries and row pointers (`LeadsTo`). Lists come in only where order counts:
//! entries ascend by category and then by key, a posting list by pointer, and a set has one
//! ascending list (`entries_are_determined`, `map_is_determined`).
//!
//! A sort of entries is one of two columns, the category and the key (`columns_of`), which compare
//! as the entries do (`columns_compare_as_entries`). The category of a key is a null there, so that
//! it takes one byte where a number takes nine: most entries are keys.
//!
//! # What it promises
//!
//! `entries_of` gives exactly the entries of a value, ascending and each once. `distinct_elements`
//! does the same for an array's elements, without copying them. `entry_size` is how large the tuple
//! of an entry is whose posting list stands apart.
//!
//! # What is not
//!
//! Tuples are measured here and not written. Values that are no arrays have no entries. Whether
//! memory is found isn't said.
#![tactic(auto)]

mod entry;
mod extract;
mod laws;
mod size;

pub use entry::{Category, Entry, EntryList};
pub use extract::{distinct_elements, entries_of};
pub use laws::{
    columns_compare_as_entries, elements_are_entries, elements_are_told_apart,
    entries_are_determined, entries_are_exact, entries_are_ordered, entries_are_told_apart,
    entries_take_their_room, map_is_determined,
};
pub use size::entry_size;
