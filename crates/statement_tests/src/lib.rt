//! Tests of `stmt_token` and `index_stmt`.
//!
//! A crate with tests is proved a second time with them, so they stand apart from what they try.
//! There is no other code here.

#![tactic(auto)]

#[cfg(test)]
mod statements;
#[cfg(test)]
mod tokens;
