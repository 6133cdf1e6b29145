ghost use Rattle.std.specs.Prelude.{◌≡◌, ◌↔◌, ◌^◌, ◌<◌, IsTrue};
ghost use Rattle.posting_tree.specs.Segments.{IsStorable, number_of};

use pg_bytes::RowPtr;

/// How many offset numbers a block has in the number of a pointer (`MaxHeapTuplesPerPageBits` of
/// `ginpostinglist.c`).
pub(crate) const OFFSETS: u64 = 1 << 11;

// Whether a list may have the pointer.
pub(crate) fn is_storable(ptr: &RowPtr) -> bool
    ensures { IsTrue result ↔ IsStorable ptr.now }
{
    1 <= ptr.offset && u64::from(ptr.offset) < OFFSETS
}

// A pointer as one number (`itemptr_to_uint64` of `ginpostinglist.c`).
pub(crate) fn number_of(ptr: &RowPtr) -> u64
    ensures number { result ≡ number_of ptr.now }
    ensures bound { result < 2 ^ 44 }
    ensures block { ptr.now.block < 2 ^ 32 }
{
    u64::from(ptr.block) * OFFSETS + u64::from(ptr.offset)
}
