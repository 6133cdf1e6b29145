//! Tests of `heap_page`, `hot_chain` and `heap_row`.
//!
//! A crate with tests is proved a second time with them, so they stand apart from what they try.
//! There is no other code here.

#![tactic(auto)]

#[cfg(test)]
mod chains;
#[cfg(test)]
mod checks;
#[cfg(test)]
mod rows;
