use brin_summary::BrinFault;
use pg_bytes::RowPtr;
use std::alloc::AllocError;

/// Why no index was built: the heap's first fault, by block, item and the number of its cause; or
/// the first two rows, in the order of the index, that break the unique rule; or the least range of
/// a BRIN index whose tuple no page takes, with its size in bytes; or want of memory. Item 0 stands
/// for the page, and ranges are counted from 0.
#[derive(Clone, Copy, Debug, PartialEq, Eq)]
pub enum LeadFault {
    Row { block: u32, item: u16, cause: u8 },
    Duplicate { first: RowPtr, second: RowPtr },
    RangeWide { range: u32, size: u64 },
    Memory,
}

impl From<AllocError> for LeadFault {
    ghost use Rattle.std.specs.Prelude.{◌≡◌};
    ghost use Rattle.build_leader.specs.declared.fault.LeadFault.TheVariants.{Memory};

    ghost from_gives = { λ _ fault. fault ≡ Memory };

    fn from(_: AllocError) -> LeadFault {
        LeadFault::Memory
    }
}

impl From<BrinFault> for LeadFault {
    ghost use Rattle.std.specs.Prelude.{◌≡◌};
    ghost use Rattle.build_leader.specs.Calls.{fault_of_ranges};

    ghost from_gives = { λ ranges fault. fault ≡ fault_of_ranges ranges };

    fn from(ranges: BrinFault) -> LeadFault {
        match ranges {
            BrinFault::RangeWide { range, size } => LeadFault::RangeWide { range, size },
            BrinFault::Memory => LeadFault::Memory,
        }
    }
}
