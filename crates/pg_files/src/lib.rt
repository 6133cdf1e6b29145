//! Files and standard output as the layers above see them, with the faults of the outside counted.
//!
//! The idea: whatever reads or writes is generic over the trait `Files`, whose calls may fail at
//! any time. Each failure raises a count of its kind, so a layer above that answers with a fault
//! can be held to it: the answer comes exactly where the count rose. All that an object shows is
//! one record, `outside`: its files and what was said, where it tells them, and the counts.
//! `MemFiles` tells its content, and then each call says what it did to it, also where it failed.
//! `RealFiles` works on real files and standard output, and tells nothing of their content.
//!
//! The invariant: a count never falls, a call raises no count of another kind, and a call that
//! doesn't fail raises none. A count stops at 2^64 - 1.
//!
//! # What it promises
//!
//! - Of both objects, all that the trait says. What a call leaves alone is one clause, `only`: a
//!   read changes counts of failed reads alone (`OnlyReads`), asking whether a file is there
//!   counts of failures to ask (`OnlyAsks`), making or growing a file that file and counts of
//!   failed writes (`OnlyWrites`), saying what was said and its count (`OnlySays`).
//! - No call of `RealFiles` answers a failure of the system with a success: `counted`, through
//!   which each outcome goes, can't make the value of a success (its clause `err`).
//! - Of `MemFiles` more, on its own methods of the trait's names. Its calls are numbered from 1,
//!   all five kinds together, and a call fails exactly where `fail_at` set its number, where it
//!   reads an absent file, or where it found no memory (`failed`). A read gives as much as there is
//!   and fits, an append takes the whole piece, both no more than `piece` lets a call move, and a
//!   call that fails changes neither files nor what was said (`whole`, `count`, `after_ok`,
//!   `after_err`). So a drill can let each call of a run fail in turn, and know what is left.
//!
//! # What is not
//!
//! No clause says which bytes reach or leave the system: that an `Ok` of `RealFiles` means that
//! they did rests on the runtime's calls for files and printing, and is only tested, as is that
//! each of its calls asks the system at all. Nothing is synced to the disk. A failure tells of no
//! cause: an absent file, a folder and a broken disk are one `Failed`. Both objects keep one count
//! of a kind for all names, so that a failure raises other names' counts too. That two names are
//! two files is the caller's to know. `RealFiles` keeps files open, so one that is replaced under
//! its name between two calls is the old one to the later call.
#![tactic(auto)]

mod counted;
mod files;
mod kept_file;
mod mem_files;
mod named_files;
mod real_files;
mod whole_io;

pub use files::{Failed, Files};
pub use mem_files::MemFiles;
pub use real_files::RealFiles;
