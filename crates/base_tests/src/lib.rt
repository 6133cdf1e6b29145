//! Tests of `pg_bytes`, `pg_files`, `segments` and `block_claim`.
//!
//! A crate with tests is proved a second time with them, so they stand apart from what they try.
//! There is no other code here.

#![tactic(auto)]

#[cfg(test)]
mod claims;
#[cfg(test)]
mod files;
#[cfg(test)]
mod pages;
#[cfg(test)]
mod series;
