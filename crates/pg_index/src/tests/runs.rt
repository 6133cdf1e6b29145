// A run over files in memory, and what it came to.

use crate::{Ended, NoGate, run};
use pg_bytes::Bytes;
use pg_files::MemFiles;
use std::alloc::{AllocError, Global};
use std::thread::Threads;

pub static BUILD: [&str; 5] = [
    "build",
    "h",
    "i",
    "CREATE TABLE t (a int4)",
    "CREATE INDEX i ON t (a)",
];

// The words of a build of an int4 index, and this option.
pub fn words_with(alloc: Global, option: Option<&str>) -> Result<Vec<String>, AllocError> {
    let mut words = Vec::new(alloc);
    for word in BUILD.iter().chain(option.iter()) {
        words.push(String::from_str(alloc, word)?)?;
    }
    Ok(words)
}

// Files that hold a heap under the name h.
pub fn files_of(alloc: Global, heap: &[u8]) -> Result<MemFiles, AllocError> {
    let mut files = MemFiles::new(alloc);
    files.put("h", Bytes::from_vec(Vec::from_slice(alloc, heap)?))?;
    Ok(files)
}

// How a build of an int4 index ends.
pub fn end_of<R: Threads + Sync>(
    rt: &R,
    alloc: Global,
    files: &mut MemFiles,
) -> Result<Ended, AllocError> {
    let words = words_with(alloc, None)?;
    Ok(run(rt, alloc, &words, files, &NoGate))
}
