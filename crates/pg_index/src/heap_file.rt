ghost use Rattle.std.specs.Prelude.{◌≡◌, ◌+◌, ◌<◌, ◌≤◌, length, IfOk, IfErr, OnOk};
ghost use Rattle.pg_files.specs.Outside.{OnlyReads};
ghost use Rattle.pg_index.specs.HeapFile.{CountsHeapRead, HasFileFault, IsHeapOf, OnToldFile, ReadsOn, number_of_file_cause};
ghost use Rattle.build_leader.specs.Blocks.{IsHeapFile, most_bytes};
ghost use Rattle.pg_index.specs.declared.heap_file.ReadError.TheVariants.{Failed, Memory};

use pg_bytes::{PAGE, zero_bytes};
use pg_files::Files;
use std::alloc::{AllocError, Global};

/// The most blocks that a heap may have: one segment of a table's file, 1 GiB.
const MOST_BLOCKS: usize = 131_072;

// How many bytes a read asks for.
const BUFFER: usize = 65_536;

/// What can be wrong with a heap file as a whole.
#[derive(Clone, Copy, Debug, PartialEq, Eq)]
pub enum FileCause {
    NotWhole,
    TooLong,
}

impl FileCause {
    /// The number by which a fault tells its cause.
    pub fn number(self) -> u8
        ensures { result ≡ number_of_file_cause self }
    {
        match self {
            FileCause::NotWhole => 14,
            FileCause::TooLong => 15,
        }
    }
}

/// The fault of a heap file as a whole, and the block at which it is told.
#[derive(Clone, Copy, Debug, PartialEq, Eq)]
pub struct FileFault {
    pub block: u32,
    pub cause: FileCause,
}

/// Why a heap file wasn't read.
#[derive(Clone, Copy, Debug, PartialEq, Eq)]
pub enum ReadError {
    Memory,
    Failed,
}

impl From<AllocError> for ReadError {
    ghost from_gives = { λ _ e. e ≡ Memory };

    fn from(_: AllocError) -> Self {
        ReadError::Memory
    }
}

impl From<pg_files::Failed> for ReadError {
    ghost from_gives = { λ _ e. e ≡ Failed };

    fn from(_: pg_files::Failed) -> Self {
        ReadError::Failed
    }
}

/// Reads a heap file whole, or as far as it shows that it is longer than a heap may be.
pub fn read_heap<F: Files>(alloc: Global, files: &mut F, name: &str) -> Result<Vec<u8>, ReadError>
    ensures bytes { IfOk result (λ heap.
        OnToldFile (F.outside files.old).files name.now (IsHeapOf heap.items)) }
    ensures faults { CountsHeapRead name.now result (F.outside files.old) (F.outside files.new) }
    ensures only { OnlyReads (F.outside files.old) (F.outside files.new) }
{
    let mut buffer = zero_bytes(alloc, BUFFER)?;
    let mut heap = Vec::new(alloc);
    'reading: while heap.len() <= MOST_BLOCKS * PAGE {
        if read_more(files, name, &mut buffer, &mut heap)? == 0 {
            return Ok(heap);
        }
    }
    Ok(heap)
}

// Reads the file on from where the heap ends, through a buffer, and answers how many bytes came.
fn read_more<F: Files>(
    files: &mut F,
    name: &str,
    buffer: &mut [u8],
    heap: &mut Vec<u8>,
) -> Result<usize, ReadError>
    requires place { length heap.old.items ≤ most_bytes }
    requires buffer { 0 < length buffer.old }
    ensures grown { IfOk result (λ count. length heap.new.items ≡ length heap.old.items + count) }
    ensures bytes { IfOk result (λ count.
        OnToldFile (F.outside files.old).files name.now
        (ReadsOn heap.old.items count heap.new.items)) }
    ensures faults { CountsHeapRead name.now result (F.outside files.old) (F.outside files.new) }
    ensures only { OnlyReads (F.outside files.old) (F.outside files.new) }
{
    let count = files.read(name, heap.len() as u64, buffer)?;
    heap.extend_from_slice(&buffer[..count])?;
    Ok(count)
}

/// Whether a heap is of whole blocks and not too many: else its fault as a file. That it is too
/// long comes before that its last block is cut, since only as much of it is read as shows it.
pub fn check_whole(heap: &[u8]) -> Result<(), FileFault>
    ensures refused { IfErr result (λ fault. HasFileFault heap.now fault.cause fault.block) }
    ensures whole { OnOk result (IsHeapFile heap.now) }
{
    if heap.len() > MOST_BLOCKS * PAGE {
        return Err(FileFault {
            block: MOST_BLOCKS as u32,
            cause: FileCause::TooLong,
        });
    }
    if heap.len() % PAGE != 0 {
        return Err(FileFault {
            block: (heap.len() / PAGE) as u32,
            cause: FileCause::NotWhole,
        });
    }
    Ok(())
}
