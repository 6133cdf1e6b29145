//! Records, runs and tapes: what a sort keeps of its rows, and in which form.
//!
//! An index is built of rows in the order of their keys. Each worker gathers the rows of its blocks
//! in bounded runs, sorts each run, and puts it on its tape; what follows merges the runs
//! (`tuplesort.c`, and `logtape.c` for its tapes, which here stay in memory).
//!
//! `tuplesort.c` keeps a pointer to each tuple with its first key shortened to eight bytes that
//! compare as the key does (abbreviated keys), and asks the tuple where these are equal. Here the
//! whole order of a record is bytes: its normalised key (`opclass::norm_key`) and its row pointer,
//! highest byte first, compare unsigned as the records do. So a sort never asks what a column is.
//!
//! A run that isn't sorted yet (`RunBuf`) has its records' bytes as they came, and a place for each:
//! where it starts, and the first 16 bytes of its order as one number. Sorting compares these
//! numbers and looks at bytes only where two are equal. Then the records are laid in order one
//! behind the other, into memory that was made ready while they came, so that sorting takes none
//! and a merge reads each run (`Run`) forwards. The unsorted bytes and the places stay in the
//! buffer, which takes the next run's records into the same memory (`RunBuf::take_run`).
//!
//! The invariant: at each place of a run stands one record, whole, in one way to read it. Contracts
//! see a run as its order and the list of its records, and a tape as the list of its runs; the
//! bytes are nowhere above this crate but where they are asked for (`Run::peek`, `Run::order_at`).
//!
//! # What it promises
//!
//! - A sorted run has the records that were put, as often as they were put, and none is below the
//!   one before it. A buffer whose run was taken is empty, in the same order.
//! - What is taken from a run is its first record, and what is taken from a tape its first run.
//! - A record is read into one that its owner keeps (`Run::read_into`), whose lists and texts give
//!   their memory to the new values.
//! - A call that finds no memory leaves all as it was, and hands back what it was given. Sorting
//!   takes no memory.
//! - The laws: order bytes compare as the records do, and are equal only where keys and row
//!   pointers are; what was stored is read back.
//!
//! # What is not
//!
//! - Records of equal keys and row pointers stand in some order: a heap has no two.
//! - Nothing here merges runs or bounds them: that is `run_merge`'s and `spool`'s.
//! - That there is enough memory is tested and not proved.
#![tactic(auto)]

mod laid;
mod laws;
mod place;
mod reader;
mod refill;
mod run;
mod run_buf;
mod stored;
mod tape;
mod text;

pub use laws::{
    heads_may_decide, order_bytes_are_ordered, order_bytes_are_told_apart, records_are_ordered,
    stored_is_read_back, stored_is_short,
};
pub use run::Run;
pub use run_buf::RunBuf;
pub use stored::Record;
pub use tape::{Tape, Tapes};
