//! The reading of a range's tuple.

ghost use Rattle.std.specs.Prelude.{◌≡◌, ◌-◌, ◌*◌, ◌<◌, ◌≤◌, ◌^◌, ◌↔◌, All, IfOk, IfSome, IsNone, IsTrue, drop, length, ℕ, List, true};
ghost use Rattle.pg_bytes.specs.Numbers.{rounded_up};
ghost use Rattle.pg_bytes.specs.Places.{zeros};
ghost use Rattle.opclass.specs.Types.{facts_of, takes_key};
ghost use Rattle.opclass.specs.declared.types.Method.TheVariants.{Brin};
ghost use Rattle.opclass.specs.declared.value.KeyVal.{KeyVal};
ghost use Rattle.tuple_data.specs.Reading.{AreStored, BeginsWithData};
ghost use Rattle.brin_summary.specs.Pass.{seen_header};
ghost use Rattle.brin_summary.specs.Reading.{HasHeader, IsRangeTuple, IsReadAs};
ghost use Rattle.brin_summary.specs.Summary.{RangeSummary};

use crate::range_tuple::{RangeTuple, columns_with};
use crate::tuple::{BoundKinds, TUPLE_MOST};
use crate::tuple_head::TupleHead;
use opclass::{ColType, KeyVal, Kinds};
use pg_bytes::al8;
use std::alloc::{AllocError, Global};
use tuple_data::{data_size, read_data};

/// The tuple of a range that has these bytes, for columns of these types, with any has-nulls bits
/// (`brin_deform_tuple` of `brin_tuple.c`). None comes exactly where there is none.
pub fn read_range(
    alloc: Global,
    kinds: &Kinds,
    bytes: &[u8],
) -> Result<Option<RangeTuple>, AllocError>
    requires some { 1 ≤ length kinds.now }
    requires columns { length kinds.now ≤ 32 }
    requires kinds { All (λ kind. takes_key Brin (facts_of kind).key_use ≡ true) kinds.now }
    ensures some { IfOk result (λ read. IfSome read (IsReadAs kinds.now bytes.now)) }
    ensures none { IfOk result (λ read. IsNone read → (first : ℕ) (range : RangeSummary)
        → IsRangeTuple kinds.now first range bytes.now → ⊥) }
{
    if bytes.len() > TUPLE_MOST as usize {
        return Ok(None);
    }
    let Some(head) = TupleHead::read(kinds.len(), bytes) else {
        return Ok(None);
    };
    read_behind(alloc, kinds.as_slice(), &head, bytes)
}

// The same of bytes with this header.
fn read_behind(
    alloc: Global,
    kinds: &[ColType],
    head: &TupleHead,
    bytes: &[u8],
) -> Result<Option<RangeTuple>, AllocError>
    requires columns { length kinds.now ≤ 32 }
    requires kinds { All (λ kind. takes_key Brin (facts_of kind).key_use ≡ true) kinds.now }
    requires size { length bytes.now ≤ 8152 }
    requires bits { head.now.bits < 2 ^ (2 * length kinds.now) }
    requires header { HasHeader (length kinds.now) (seen_header (length kinds.now) head.now) bytes.now }
    ensures some { IfOk result (λ read. IfSome read (IsReadAs kinds.now bytes.now)) }
    ensures none { IfOk result (λ read. IsNone read → (first : ℕ) (range : RangeSummary)
        → IsRangeTuple kinds.now first range bytes.now → ⊥) }
{
    let columns = kinds.len();
    let present = head.present(columns);
    if !head.has_rows && present != 0 {
        return Ok(None);
    }
    let twice = BoundKinds::of(alloc, kinds)?;
    let behind = &bytes[head.data_place(columns)..];
    let Some(bounds) = read_bounds(alloc, twice.twice(), present, behind)? else {
        return Ok(None);
    };
    if !is_padded(behind, data_size(twice.twice(), &bounds) as usize) {
        return Ok(None);
    }
    Ok(Some(RangeTuple {
        first: head.first,
        empty: !head.has_rows,
        columns: columns_with(alloc, columns, bounds, head.has_nulls(columns))?,
    }))
}

// Whether nothing stands behind so many bytes but the zeros up to a multiple of 8.
fn is_padded(bytes: &[u8], size: usize) -> bool
    requires size { size ≤ length bytes.now }
    requires few { length bytes.now ≤ 8152 }
    ensures { IsTrue result ↔ (drop size bytes.now ≡ zeros (rounded_up 8 size - size)) }
{
    let end = al8(size as u64) as usize;
    let zeros = [0u8; 8];
    if bytes.len() != end {
        return false;
    }
    bytes[size..] == zeros[..end - size]
}

// The bounds whose data the bytes begin with, as `read_data` reads them.
fn read_bounds(
    alloc: Global,
    kinds: &[ColType],
    present: u64,
    bytes: &[u8],
) -> Result<Option<Vec<KeyVal>>, AllocError>
    requires kinds { AreStored kinds.now }
    requires size { length bytes.now < 2 ^ 30 }
    ensures some { IfOk result (λ read. IfSome read
        (λ values. BeginsWithData kinds.now present bytes.now values.items)) }
    ensures none { IfOk result (λ read. IsNone read → (values : List KeyVal)
        → BeginsWithData kinds.now present bytes.now values → ⊥) }
{
    match read_data(alloc, kinds, present, bytes)? {
        Some(values) => Ok(Some(values.into_vec())),
        None => Ok(None),
    }
}
