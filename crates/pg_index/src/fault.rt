use crate::heap_file::{FileFault, ReadError};
use build_leader::LeadFault;
use index_stmt::{ReadStmt, StmtFault};
use pg_bytes::RowPtr;
use pg_files::Failed;
use std::alloc::AllocError;
use thiserror::Error;

/// Why no index of a heap was built: the fault of its file as a whole, or what its blocks come to.
#[derive(Clone, Copy, Debug, PartialEq, Eq)]
pub enum HeapFault {
    File(FileFault),
    Lead(LeadFault),
}

impl From<FileFault> for HeapFault {
    ghost use Rattle.std.specs.Prelude.{◌≡◌};
    ghost use Rattle.pg_index.specs.declared.fault.HeapFault.TheVariants.{File};

    ghost from_gives = { λ file fault. fault ≡ File file };

    fn from(file: FileFault) -> HeapFault {
        HeapFault::File(file)
    }
}

impl From<LeadFault> for HeapFault {
    ghost use Rattle.std.specs.Prelude.{◌≡◌};
    ghost use Rattle.pg_index.specs.declared.fault.HeapFault.TheVariants.{Lead};

    ghost from_gives = { λ lead fault. fault ≡ Lead lead };

    fn from(lead: LeadFault) -> HeapFault {
        HeapFault::Lead(lead)
    }
}

impl From<AllocError> for HeapFault {
    ghost use Rattle.std.specs.Prelude.{◌≡◌};
    ghost use Rattle.build_leader.specs.declared.fault.LeadFault.TheVariants.{Memory};
    ghost use Rattle.pg_index.specs.declared.fault.HeapFault.TheVariants.{Lead};

    ghost from_gives = { λ _ fault. fault ≡ Lead Memory };

    fn from(_: AllocError) -> HeapFault {
        HeapFault::Lead(LeadFault::Memory)
    }
}

/// Why a command didn't do its work. Blocks, items, offsets and words are told by their numbers.
#[derive(Debug, Drop, Error)]
pub enum Fault {
    /// The least word of the command line that is at fault, counted from 1.
    #[error("usage: word {word}")]
    Usage { word: u32 },
    /// The first fault of a statement, 1 for the table's and 2 for the index's: the place of its
    /// token in bytes and the number of its cause, docs/formats/statements.md,
    /// "Causes of a statement".
    #[error("statement {} at {}: cause {}", .0.statement, .0.place, .0.cause)]
    Statement(StmtFault),
    /// The heap file couldn't be read.
    #[error("read fault")]
    ReadFault,
    /// The heap's first fault. Item 0 stands for the page or the file, and causes are numbered in
    /// docs/formats/heap.md, "Causes".
    #[error("heap block {block} item {item}: cause {cause}")]
    Heap { block: u32, item: u16, cause: u8 },
    /// Two rows have keys that a unique index takes once: the first two in the index's order.
    #[error("duplicate key: ({},{}) and ({},{})", .first.block, .first.offset, .second.block, .second.offset)]
    Duplicate { first: RowPtr, second: RowPtr },
    /// The least range of a BRIN index, counted from 0, whose tuple no page takes, and its size.
    #[error("range {range} too wide: {size} bytes")]
    RangeWide { range: u32, size: u64 },
    /// The index file couldn't be written, or the report not be said.
    #[error("write fault")]
    WriteFault,
    /// Memory ran out. Nothing was changed.
    #[error("out of memory")]
    OutOfMemory,
}

impl Fault {
    ghost use Rattle.std.specs.Prelude.{◌≡◌};
    ghost use Rattle.pg_index.specs.Answer.{status_of_fault};

    /// The status with which the program ends.
    pub fn status(&self) -> u8
        ensures { result ≡ status_of_fault self.now }
    {
        match self {
            Fault::Usage { word: _ } => 2,
            Fault::Statement(_) => 3,
            Fault::ReadFault => 4,
            Fault::Heap {
                block: _,
                item: _,
                cause: _,
            } => 5,
            Fault::Duplicate {
                first: _,
                second: _,
            } => 6,
            Fault::RangeWide { range: _, size: _ } => 7,
            Fault::WriteFault => 8,
            Fault::OutOfMemory => 10,
        }
    }
}

impl From<ReadStmt> for Fault {
    ghost use Rattle.std.specs.Prelude.{◌≡◌};
    ghost use Rattle.pg_index.specs.Answer.{fault_of_statement};

    ghost from_gives = { λ read fault. fault ≡ fault_of_statement read };

    fn from(read: ReadStmt) -> Fault {
        match read {
            ReadStmt::Fault(fault) => Fault::Statement(fault),
            ReadStmt::Memory => Fault::OutOfMemory,
        }
    }
}

impl From<ReadError> for Fault {
    ghost use Rattle.std.specs.Prelude.{◌≡◌};
    ghost use Rattle.pg_index.specs.Answer.{fault_of_read};

    ghost from_gives = { λ error fault. fault ≡ fault_of_read error };

    fn from(error: ReadError) -> Fault {
        match error {
            ReadError::Memory => Fault::OutOfMemory,
            ReadError::Failed => Fault::ReadFault,
        }
    }
}

impl From<HeapFault> for Fault {
    ghost use Rattle.std.specs.Prelude.{◌≡◌};
    ghost use Rattle.pg_index.specs.Answer.{fault_of_heap};

    ghost from_gives = { λ heap fault. fault ≡ fault_of_heap heap };

    fn from(heap: HeapFault) -> Fault {
        match heap {
            HeapFault::File(file) => Fault::Heap {
                block: file.block,
                item: 0,
                cause: file.cause.number(),
            },
            HeapFault::Lead(LeadFault::Row { block, item, cause }) => {
                Fault::Heap { block, item, cause }
            }
            HeapFault::Lead(LeadFault::Duplicate { first, second }) => {
                Fault::Duplicate { first, second }
            }
            HeapFault::Lead(LeadFault::RangeWide { range, size }) => {
                Fault::RangeWide { range, size }
            }
            HeapFault::Lead(LeadFault::Memory) => Fault::OutOfMemory,
        }
    }
}

impl From<AllocError> for Fault {
    ghost use Rattle.std.specs.Prelude.{◌≡◌};
    ghost use Rattle.pg_index.specs.declared.fault.Fault.TheVariants.{OutOfMemory};

    ghost from_gives = { λ _ fault. fault ≡ OutOfMemory };

    fn from(_: AllocError) -> Fault {
        Fault::OutOfMemory
    }
}

impl From<Failed> for Fault {
    ghost use Rattle.std.specs.Prelude.{◌≡◌};
    ghost use Rattle.pg_index.specs.declared.fault.Fault.TheVariants.{WriteFault};

    ghost from_gives = { λ _ fault. fault ≡ WriteFault };

    fn from(_: Failed) -> Fault {
        Fault::WriteFault
    }
}
