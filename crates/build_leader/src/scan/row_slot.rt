//! The row that a worker is at (`TupleTableSlot` of `tuptable.h`).

use opclass::KeyList;
use shared_tape::Record;
use std::alloc::Global;

/// The row that a worker is at, in memory that is kept for the next one: what stands there is of no
/// account until a row is read into it.
#[derive(Drop)]
pub(crate) struct RowSlot {
    /// The values of the needed columns, where those of the index are picked out of them.
    pub values: KeyList,
    /// What the index has of the row.
    pub record: Record,
}

impl RowSlot {
    /// A slot without memory yet.
    pub fn new(alloc: Global) -> RowSlot {
        RowSlot {
            values: KeyList::new(alloc),
            record: Record::new(alloc),
        }
    }
}
