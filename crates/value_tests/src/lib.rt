//! Tests of `opclass`, `tuple_data`, `btree_item`, `btree_page`, `brin_summary`, `gin_entry`,
//! `posting_tree` and `gin_file`.
//!
//! A crate with tests is proved a second time with them, so they stand apart from what they try.
//! There is no other code here.

#![tactic(auto)]

#[cfg(test)]
mod attributes;
#[cfg(test)]
mod btree_pages;
#[cfg(test)]
mod entries;
#[cfg(test)]
mod entry_tuples;
#[cfg(test)]
mod items;
#[cfg(test)]
mod postings;
#[cfg(test)]
mod range_tuples;
#[cfg(test)]
mod ranges;
#[cfg(test)]
mod tuple_items;
#[cfg(test)]
mod tuples;
#[cfg(test)]
mod values;
