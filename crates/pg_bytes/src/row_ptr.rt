ghost use Rattle.std.specs.Prelude.{◌≡◌, ◌↔◌, ◌+◌, ◌≤◌, ◌++◌, length, IsTrue, OnOk, OnErr};

use crate::numbers::{put_u16_at, u16_at};
use std::alloc::AllocError;

/// A row pointer (`ItemPointerData` of `itemptr.h`): a block of the heap and the number of a line
/// pointer on it, counted from 1. Ordered by block, then offset.
#[derive(Clone, Copy, Debug, PartialEq, Eq, PartialOrd, Ord)]
pub struct RowPtr {
    pub block: u32,
    pub offset: u16,
}

impl RowPtr {
    ghost use Rattle.pg_bytes.specs.Places.{written};
    ghost use Rattle.pg_bytes.specs.Pointers.{IsBefore, row_pointer_at, row_pointer_bytes};

    /// The row pointer in the six bytes at a place: the block's high half, its low half
    /// (`BlockIdData` of `block.h`), and the line pointer's number, each little-endian.
    pub fn at(bytes: &[u8], place: usize) -> RowPtr
        requires { place + 6 ≤ length bytes.now }
        ensures { result ≡ row_pointer_at bytes.now place }
    {
        RowPtr {
            block: u32::from(u16_at(bytes, place)) * (1 << 16)
                + u32::from(u16_at(bytes, place + 2)),
            offset: u16_at(bytes, place + 4),
        }
    }

    /// Whether it comes before another, by block and then by offset, as its order has it
    /// (`ItemPointerCompare` of `itemptr.c`).
    pub fn is_before(&self, other: &RowPtr) -> bool
        ensures { IsTrue result ↔ IsBefore self.now other.now }
    {
        self < other
    }

    /// Writes the six bytes at a place, as `at` reads them.
    pub fn put(&self, bytes: &mut [u8], place: usize)
        requires { place + 6 ≤ length bytes.old }
        ensures { bytes.new ≡ written (row_pointer_bytes self.now) place bytes.old }
    {
        put_u16_at(bytes, place, (self.block >> 16) as u16);
        put_u16_at(bytes, place + 2, (self.block % (1 << 16)) as u16);
        put_u16_at(bytes, place + 4, self.offset);
    }

    /// The six bytes, as `at` reads them.
    #[tactic(auto, unfolding(crate::specs::Numbers::number_bytes, crate::specs::Places::written, crate::specs::Pointers::row_pointer_bytes))]
    pub fn bytes(&self) -> [u8; 6]
        ensures { result ≡ row_pointer_bytes self.now }
    {
        let mut bytes = [0u8; 6];
        self.put(&mut bytes, 0);
        bytes
    }

    /// Adds the six bytes at the end of a buffer.
    pub fn append(&self, out: &mut Vec<u8>) -> Result<(), AllocError>
        ensures ok { OnOk result (out.new.items ≡ out.old.items ++ row_pointer_bytes self.now) }
        ensures err { OnErr result (out.new.items ≡ out.old.items) }
    {
        out.extend_from_slice(&self.bytes())
    }
}
