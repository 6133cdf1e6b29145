ghost use Rattle.std.specs.Prelude.{◌≡◌, OnOk, length};
ghost use Rattle.shared_tape.specs.Places.{HasRecordAt, HasTwoAt, stored_at};
ghost use Rattle.shared_tape.specs.Reading.{counted_at, pointer_in, record_at};

use crate::refill::{read_extra, read_keys};
use crate::stored::{LENGTH, Record};
use byteorder::{BigEndian, ByteOrder};
use opclass::SortSpec;
use pg_bytes::{RowPtr, u32_at};
use std::alloc::{AllocError, Global};

/// The bytes that stand at a place behind their length, as far as there are any: at any place, so
/// that places can be compared without a condition.
#[tactic(auto, unfolding(crate::specs::Reading::counted_at, pg_bytes::specs::Numbers::number_at))]
pub(crate) fn counted_at(bytes: &[u8], place: usize) -> &[u8]
    ensures { result.now ≡ counted_at bytes.now place }
{
    let Some(behind) = bytes.get(place..) else {
        return &[];
    };
    if behind.len() < LENGTH {
        return &[];
    }
    let length = u32_at(behind, 0) as usize;
    let counted = &behind[LENGTH..];
    &counted[..length.min(counted.len())]
}

/// The bytes of the record at a place.
pub(crate) fn stored_at(bytes: &[u8], place: usize) -> &[u8]
    requires { HasTwoAt bytes.now place }
    ensures { result.now ≡ stored_at bytes.now place }
{
    let behind = place + LENGTH + counted_at(bytes, place).len();
    let end = behind + LENGTH + counted_at(bytes, behind).len();
    &bytes[place..end]
}

/// Fills a record anew with the one at a place, in the memory that it has. After an error its
/// values may be any.
#[tactic(auto, unfolding(crate::specs::Reading::record_at, crate::specs::Reading::record_of))]
pub(crate) fn read_record(
    alloc: Global,
    bytes: &[u8],
    order: &SortSpec,
    place: usize,
    row: &mut Record,
) -> Result<(), AllocError>
    requires { HasRecordAt order.now bytes.now place }
    ensures { OnOk result (row.new ≡ record_at order.now bytes.now place) }
{
    let sorted = counted_at(bytes, place);
    let extra = counted_at(bytes, place + LENGTH + sorted.len());
    let pointer = read_keys(alloc, order.as_slice(), sorted, &mut row.keys)?;
    read_extra(alloc, extra, &mut row.extra)?;
    row.ptr = read_pointer(pointer);
    Ok(())
}

fn read_pointer(bytes: &[u8]) -> RowPtr
    requires { length bytes.now ≡ 6 }
    ensures { result ≡ pointer_in bytes.now }
{
    RowPtr {
        block: BigEndian::read_u32(bytes),
        offset: BigEndian::read_u16(&bytes[4..]),
    }
}
