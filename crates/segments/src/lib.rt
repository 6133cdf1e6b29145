//! A relation in segments, read and written.
//!
//! PostgreSQL keeps a relation in files of 1 GiB at most, its segments (`md.c`): the first has the
//! relation's own name, each further one that name, a point and its number. All but the last are
//! full. The one idea is that the files alone tell where a relation ends: with the first segment
//! that isn't full, or with a full one behind which no file stands. Nothing else says how many
//! segments there are, and a file behind the end isn't of the relation, whoever left it.
//!
//! So reading asks for a further segment only behind a full one, and writing ends with a segment
//! that isn't full: where the last one has all its bytes, an empty one follows. Then what is
//! written is what is read, whatever files of such names stood there before (`written_is_read`).
//!
//! The invariant of reading: the segments before the next are full, and what was read is their
//! bytes, one behind the other. The invariant of writing: the segments before the next have their
//! parts, and every other file is as it was.
//!
//! # What it promises
//!
//! - `read_series` gives exactly the bytes of the relation, or the fault of its segments: one that
//!   is longer than a segment, or one with bytes behind as many as there may be. It fails exactly
//!   where it couldn't read the first segment or a further one that is there, or couldn't ask for
//!   one behind a full one, and changes nothing.
//! - `write_series` leaves each segment with its part and every other file as it was. After a
//!   failure the segments before one have their parts, that one is as before or has a front of its
//!   part, and all later ones are as before. It takes no memory: `SegmentNames` was made before.
//! - Laws: files have one relation of a name at most, and one fault; what is written is read.
//!
//! # What is not
//!
//! That the bytes are whole blocks is the reader's to ask. Segments that a shorter relation leaves
//! behind aren't removed, as they aren't read. Nothing is said of other forks, whose names differ.
#![tactic(auto)]

mod fault;
mod laws;
mod limits;
mod name;
mod names;
mod reading;
mod segment_reading;
mod segment_writing;
mod writing;

pub use fault::{SeriesCause, SeriesError, SeriesFault};
pub use laws::{relations_are_one, written_is_read};
pub use limits::Limits;
pub use name::segment_name;
pub use names::SegmentNames;
pub use reading::read_series;
pub use writing::{segment_count, write_series};
