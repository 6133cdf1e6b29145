//! The tuple of a range as it is read.

ghost use Rattle.std.specs.Prelude.{◌≡◌, ◌*◌, ◌≤◌, All, IfOk, length, map};
ghost use Rattle.brin_summary.specs.Pass.{columns_from, flags_of};
ghost use Rattle.brin_summary.specs.Reading.{IsCalledRight, column_read};

use crate::bound::is_null;
use opclass::KeyVal;
use pg_bytes::Items;
use std::alloc::{AllocError, Global};

/// What a range's tuple says of a column.
#[derive(Debug, Drop)]
pub struct RangeCol {
    /// No row of the range has a value in it.
    pub all_null: bool,
    /// Some row of the range is null in it.
    pub has_null: bool,
    /// The least value, null where there is none.
    pub low: KeyVal,
    /// The greatest value, null where there is none.
    pub high: KeyVal,
}

/// The columns of a range's tuple, in order.
pub type RangeCols = Items<RangeCol>;

/// A range's tuple (`BrinMemTuple` of `brin_tuple.h`).
#[derive(Debug, Drop)]
pub struct RangeTuple {
    /// The range's first block.
    pub first: u32,
    /// No row is in the range.
    pub empty: bool,
    pub columns: RangeCols,
}

/// The columns with these bounds, which stand pair by pair, and with the has-nulls bits of a
/// number.
pub fn columns_with(
    alloc: Global,
    columns: usize,
    bounds: Vec<KeyVal>,
    nulls: u64,
) -> Result<RangeCols, AllocError>
    requires columns { columns ≤ 32 }
    requires bounds { length bounds.items ≡ 2 * columns }
    ensures value { IfOk result
        (λ read. map column_read read ≡ columns_from bounds.items (flags_of columns nulls)) }
    ensures called { IfOk result (λ read. All IsCalledRight read) }
{
    let mut read = Vec::with_capacity(alloc, columns)?;
    let mut bounds = bounds.into_iter();
    for at in 0..columns {
        let Some(low) = bounds.next() else {
            unreachable!()
        };
        let Some(high) = bounds.next() else {
            unreachable!()
        };
        read.push(RangeCol {
            all_null: is_null(&low),
            has_null: (nulls >> at) % 2 == 1,
            low,
            high,
        })?;
    }
    Ok(Items::from_vec(read))
}
