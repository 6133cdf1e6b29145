ghost use Rattle.std.specs.Prelude.{◌≡◌, ◌+◌, ◌-◌, ◌^◌, ◌<◌, ◌≤◌, ◌++◌, length, take, OnOk, OnErr};
ghost use Rattle.pg_bytes.specs.Numbers.{number_bytes};
ghost use Rattle.pg_bytes.specs.Pointers.{row_pointer_bytes};
ghost use Rattle.pg_bytes.specs.Places.{zeros};
ghost use Rattle.tuple_data.specs.Nulls.{null_bits};
ghost use Rattle.btree_item.specs.Tuple.{bitmap_of, bitmap_size, index_tuple, null_mark, size_of, variable_mark};

use byteorder::{ByteOrder, LittleEndian};
use opclass::{ColType, KeyList, KeyVal, Kinds};
use pg_bytes::{RowPtr, al8};
use std::alloc::AllocError;
use tuple_data::{data_size, has_null, has_variable, null_bits, put_data};

// The bytes of the head, and where `t_info` stands in it.
pub(crate) const HEAD: usize = 8;

pub(crate) const T_INFO: usize = 6;

// The bytes of a null bitmap, with the zeros behind it.
const BITMAP: u64 = 8;

// The marks of `t_info` (`itup.h`): the place of the row pointer holds something else, some column
// of variable width has a value, some value is null.
pub(crate) const NO_ROW: u16 = 0x2000;

pub(crate) const HAS_VARIABLE: u16 = 0x4000;

pub(crate) const HAS_NULL: u16 = 0x8000;

/// The size in bytes of the plain tuple of a row: its keys and then its INCLUDE values.
pub fn size_of(kinds: &Kinds, values: &KeyList) -> u64
    requires { size_of kinds.now values.now < 2 ^ 63 }
    ensures { result ≡ size_of kinds.now values.now }
{
    tuple_size(kinds.as_slice(), values.as_slice())
}

// The size of a tuple of these values and nothing more.
#[tactic(auto, unfolding(crate::specs::Tuple::size_of))]
pub(crate) fn tuple_size(kinds: &[ColType], values: &[KeyVal]) -> u64
    requires { size_of kinds.now values.now < 2 ^ 63 }
    ensures { result ≡ size_of kinds.now values.now }
{
    al8(HEAD as u64 + bitmap_size(values) + data_size(kinds, values))
}

fn bitmap_size(values: &[KeyVal]) -> u64
    ensures { result ≡ bitmap_size values.now }
{
    if has_null(values) { BITMAP } else { 0 }
}

// What `t_info` says of the values.
pub(crate) fn marks(kinds: &[ColType], values: &[KeyVal]) -> u16
    ensures { result ≡ variable_mark kinds.now values.now + null_mark values.now }
{
    let variable = if has_variable(kinds, values) {
        HAS_VARIABLE
    } else {
        0
    };
    let null = if has_null(values) { HAS_NULL } else { 0 };
    variable + null
}

// Puts a tuple of this size, of which an error leaves a part.
pub(crate) fn put_tuple(
    out: &mut Vec<u8>,
    front: RowPtr,
    info: u16,
    size: u64,
    kinds: &[ColType],
    values: &[KeyVal],
) -> Result<(), AllocError>
    requires few { length values.now ≤ 32 }
    requires size { size ≡ size_of kinds.now values.now }
    requires small { size ≤ 2704 }
    ensures ok { OnOk result
        (out.new.items ≡ out.old.items ++ index_tuple front info kinds.now values.now) }
    ensures err { OnErr result (take (length out.old.items) out.new.items ≡ out.old.items) }
{
    let end = out.len() + size as usize;
    put_head(out, front, info)?;
    put_bitmap(out, values)?;
    put_data(out, kinds, values)?;
    fill_up(out, end)
}

// Puts zeros up to an end, fewer than a tuple's size is a multiple of.
pub(crate) fn fill_up(out: &mut Vec<u8>, end: usize) -> Result<(), AllocError>
    requires behind { length out.old.items ≤ end }
    requires near { end < length out.old.items + 8 }
    ensures ok { OnOk result
        (out.new.items ≡ out.old.items ++ zeros (end - length out.old.items)) }
    ensures err { OnErr result (out.new.items ≡ out.old.items) }
{
    out.extend_from_slice(&[0; 8])?;
    out.truncate(end);
    Ok(())
}

// Puts the row pointer, or what stands in its place, and `t_info`.
#[tactic(auto, unfolding(pg_bytes::specs::Numbers::number_bytes, pg_bytes::specs::Places::written, pg_bytes::specs::Pointers::row_pointer_bytes))]
fn put_head(out: &mut Vec<u8>, front: RowPtr, info: u16) -> Result<(), AllocError>
    ensures ok { OnOk result (out.new.items
        ≡ out.old.items ++ (row_pointer_bytes front ++ number_bytes 2 info)) }
    ensures err { OnErr result (out.new.items ≡ out.old.items) }
{
    let mut head = [0u8; HEAD];
    front.put(&mut head, 0);
    LittleEndian::write_u16(&mut head[T_INFO..], info);
    out.extend_from_slice(&head)
}

// Puts the null bitmap where some value is null.
#[tactic(auto, unfolding(pg_bytes::specs::Numbers::number_bytes, pg_bytes::specs::Places::zeros))]
fn put_bitmap(out: &mut Vec<u8>, values: &[KeyVal]) -> Result<(), AllocError>
    requires { length values.now ≤ 32 }
    ensures ok { OnOk result (out.new.items ≡ out.old.items ++ bitmap_of values.now) }
    ensures err { OnErr result (out.new.items ≡ out.old.items) }
{
    if !has_null(values) {
        return Ok(());
    }
    out.extend_from_slice(&bitmap(values))
}

// The null bitmap and the zeros behind it.
#[inline(never)]
#[tactic(auto, unfolding(pg_bytes::specs::Numbers::number_bytes, pg_bytes::specs::Places::zeros))]
fn bitmap(values: &[KeyVal]) -> [u8; 8]
    requires { length values.now ≤ 32 }
    ensures { result ≡ number_bytes 4 (null_bits values.now) ++ zeros 4 }
{
    u64::from(null_bits(values)).to_le_bytes()
}
