ghost use Rattle.std.specs.Prelude.{◌≡◌};

use std::alloc::{AllocError, AllocFailed};

/// What can be wrong with a column of a tuple.
#[derive(Clone, Copy, Debug, PartialEq, Eq)]
pub enum RowCause {
    /// The column's bytes end past the tuple, or its header says that they end inside the header.
    PastEnd,
    /// A needed value is compressed (`VARATT_IS_COMPRESSED` of `varatt.h`).
    Compressed,
    /// A needed value is stored outside the tuple (`VARATT_IS_EXTERNAL`), or a value in another way
    /// than in a TOAST table on disk.
    External,
    /// A needed truth value is neither 0 nor 1.
    BadTruth,
    /// A needed array isn't one of its type (`array.h`).
    BadArray,
}

impl RowCause {
    ghost use Rattle.heap_row.specs.Fault.{number_of_row_cause};

    /// The number by which a fault tells its cause, from 7 to 11.
    pub fn number(self) -> u8
        ensures { result ≡ number_of_row_cause self }
    {
        match self {
            RowCause::PastEnd => 7,
            RowCause::Compressed => 8,
            RowCause::External => 9,
            RowCause::BadTruth => 10,
            RowCause::BadArray => 11,
        }
    }
}

/// Why the values of a tuple aren't read.
#[derive(Clone, Copy, Debug, PartialEq, Eq)]
pub enum RowFault {
    /// The number of the least `RowCause` of the first faulty column.
    Value { cause: u8 },
    /// Memory ran out.
    Memory,
}

impl From<ReadFault> for RowFault {
    ghost use Rattle.heap_row.specs.Pass.{told};

    ghost from_gives = { λ fault told_fault. told_fault ≡ told fault };

    fn from(fault: ReadFault) -> RowFault {
        match fault {
            ReadFault::Cause(cause) => RowFault::Value {
                cause: cause.number(),
            },
            ReadFault::Memory => RowFault::Memory,
        }
    }
}

impl From<AllocError> for RowFault {
    ghost use Rattle.heap_row.specs.declared.fault.RowFault.TheVariants.{Memory};

    ghost from_gives = { λ _ fault. fault ≡ Memory };

    fn from(_: AllocError) -> RowFault {
        RowFault::Memory
    }
}

// The same, with the cause itself.
#[derive(Clone, Copy, Debug, PartialEq, Eq)]
pub enum ReadFault {
    Cause(RowCause),
    Memory,
}

impl From<RowCause> for ReadFault {
    ghost use Rattle.heap_row.specs.declared.fault.ReadFault.TheVariants.{Cause};

    ghost from_gives = { λ cause fault. fault ≡ Cause cause };

    fn from(cause: RowCause) -> ReadFault {
        ReadFault::Cause(cause)
    }
}

impl From<AllocError> for ReadFault {
    ghost use Rattle.heap_row.specs.declared.fault.ReadFault.TheVariants.{Memory};

    ghost from_gives = { λ _ fault. fault ≡ Memory };

    fn from(_: AllocError) -> ReadFault {
        ReadFault::Memory
    }
}

impl<T: Drop> From<AllocFailed<T>> for ReadFault {
    ghost use Rattle.heap_row.specs.declared.fault.ReadFault.TheVariants.{Memory};

    ghost from_gives = { λ _ fault. fault ≡ Memory };

    fn from(_: AllocFailed<T>) -> ReadFault {
        ReadFault::Memory
    }
}
