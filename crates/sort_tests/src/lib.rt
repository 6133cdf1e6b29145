//! Tests of `shared_tape`, `spool` and `run_merge`.
//!
//! A crate with tests is proved a second time with them, so they stand apart from what they try.
//! There is no other code here.

#![tactic(auto)]

#[cfg(test)]
mod merges;
#[cfg(test)]
mod spools;
#[cfg(test)]
mod tapes;
