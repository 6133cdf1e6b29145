ghost use Rattle.std.specs.Prelude.{IsTrue};
ghost use Rattle.pg_index.specs.Words.{IsFaulty, texts_of};

use crate::words::{lacks_command, text};
use std::fs;
use std::rt::Files;

/// Whether the words ask `build` to write its index over the heap under another name: INDEX exists
/// and leads to the file that HEAP leads to, by a symbolic link or by a path through other folders.
/// What can't be found or followed is left to the run. Hard links aren't noticed.
pub fn is_heap_by_another_name<R: Files + AllocGlobal>(rt: &R, words: &[String]) -> bool
    ensures only_build { IsTrue result → IsFaulty (texts_of words.now) 1 → ⊥ }
{
    !lacks_command(words) && lead_to_one_file(rt, text(words, 2), text(words, 3))
}

// Whether both names lead to one file, as far as the operating system tells.
fn lead_to_one_file<R: Files + AllocGlobal>(rt: &R, one: &str, other: &str) -> bool {
    match (fs::canonicalize(rt, one), fs::canonicalize(rt, other)) {
        (Ok(one), Ok(other)) => one.as_str() == other.as_str(),
        _ => false,
    }
}
