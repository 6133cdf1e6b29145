ghost use Rattle.std.specs.Prelude.{◌≡◌, ◌<◌, ◌≤◌, ◌^◌, ◌++◌, ◌↔◌, length, IfOk, IsTrue, OnOk};
ghost use Rattle.std.specs.List.{list_any};
ghost use Rattle.pg_bytes.specs.Numbers.{number_bytes};
ghost use Rattle.pg_bytes.specs.PageLayout.{aligned};
ghost use Rattle.brin_summary.specs.Answer.{tuple_size};
ghost use Rattle.brin_summary.specs.Pass.{bits_behind, low_nulls};
ghost use Rattle.brin_summary.specs.Tuple.{bits_of, bound_kinds, data_place, info_byte, null_bitmap, null_flags, range_tuple, tuple_header};

use crate::bound::is_null;
use crate::summary::Summary;
use opclass::{ColType, KeyVal};
use pg_bytes::al8;
use std::alloc::{AllocError, Global};
use std::marker::Model;
use tuple_data::{data_size, put_data};

/// The most bytes of a range's tuple (`BrinMaxItemSize` of `brin_pageops.c`).
pub const TUPLE_MOST: u64 = 8152;

// The bytes of a tuple's first block and info byte (`SizeOfBrinTuple`).
const FIXED_SIZE: u64 = 5;

// Of the info byte: that no row is in the range, and that there is a null bitmap.
const EMPTY_RANGE: u8 = 0x20;

const NULLS_THERE: u8 = 0x80;

/// The types of a tuple's data: that of each column twice, for its least and its greatest value.
/// Seen as the types of the columns.
#[derive(Debug, Drop)]
pub struct BoundKinds {
    twice: Vec<ColType>,
}

impl Model for BoundKinds {
    ghost use Rattle.std.specs.Prelude.{◌≡◌, List};
    ghost use Rattle.opclass.specs.declared.types.ColType.{ColType};
    ghost use Rattle.brin_summary.specs.Pass.{half_of};
    ghost use Rattle.brin_summary.specs.Tuple.{bound_kinds};

    ghost Value = { List ColType };

    ghost view = { λ kinds. half_of kinds.twice.items };

    ghost invariant = { λ kinds. kinds.twice.items ≡ bound_kinds (half_of kinds.twice.items) };
}

impl BoundKinds {
    /// Of columns of these types. An error means that no memory was left.
    pub fn of(alloc: Global, kinds: &[ColType]) -> Result<BoundKinds, AllocError>
        ensures { IfOk result (λ bounds. bounds ≡ kinds.now) }
    {
        let mut twice = Vec::new(alloc);
        for kind in kinds {
            twice.push(*kind)?;
            twice.push(*kind)?;
        }
        Ok(BoundKinds { twice })
    }

    /// The types, that of each column twice.
    pub fn twice(&self) -> &[ColType]
        ensures { result.now ≡ bound_kinds self.now }
    {
        &self.twice
    }

    /// The bytes of a range's tuple. It takes no memory.
    pub fn tuple_size(&self, range: &Summary) -> u64
        requires columns { length range.now.columns ≤ 32 }
        requires size { tuple_size self.now range.now < 2 ^ 63 }
        ensures { result ≡ tuple_size self.now range.now }
    {
        data_place(range) + al8(data_size(&self.twice, range.bounds()))
    }

    /// Puts the tuple of a range that begins with a block into a buffer, in place of what it had
    /// (`brin_form_tuple` of `brin_tuple.c`). An error means that no memory was left.
    #[tactic(auto, unfolding(crate::specs::Tuple::range_tuple))]
    pub fn put_tuple(
        &self,
        tuple: &mut Vec<u8>,
        first: u32,
        range: &Summary,
    ) -> Result<(), AllocError>
        requires columns { length range.now.columns ≤ 32 }
        requires size { tuple_size self.now range.now ≤ 8152 }
        ensures { OnOk result (tuple.new.items ≡ range_tuple self.now first range.now) }
    {
        tuple.clear();
        put_header(tuple, first, range)?;
        align(tuple)?;
        put_data(tuple, &self.twice, range.bounds())?;
        align(tuple)?;
        Ok(())
    }
}

// Where a tuple's data begin.
fn data_place(range: &Summary) -> u64
    requires { length range.now.columns ≤ 32 }
    ensures value { result ≡ data_place range.now.columns }
    ensures few { result ≤ 16 }
{
    al8(FIXED_SIZE + null_bitmap(range).size as u64)
}

// Puts what stands before the data behind the bytes of a buffer.
#[tactic(auto, unfolding(crate::specs::Tuple::header_bytes, pg_bytes::specs::Numbers::number_bytes))]
fn put_header(out: &mut Vec<u8>, first: u32, range: &Summary) -> Result<(), AllocError>
    requires { length range.now.columns ≤ 32 }
    ensures { OnOk result (out.new.items ≡ out.old.items ++ tuple_header first range.now) }
{
    out.extend_from_slice(&first.to_le_bytes())?;
    out.push(info_byte(range))?;
    put_null_bitmap(out, &null_bitmap(range))?;
    Ok(())
}

// Puts a null bitmap behind the bytes of a buffer.
fn put_null_bitmap(out: &mut Vec<u8>, bitmap: &NullBitmap) -> Result<(), AllocError>
    requires { bitmap.now.size ≤ 8 }
    ensures { OnOk result (out.new.items
        ≡ out.old.items ++ number_bytes bitmap.now.size bitmap.now.bits) }
{
    let bytes = number_bytes(bitmap.bits);
    out.extend_from_slice(&bytes[..bitmap.size])
}

// The bytes of a number, low byte first.
#[tactic(auto, unfolding(pg_bytes::specs::Numbers::number_bytes))]
fn number_bytes(number: u64) -> [u8; 8]
    ensures { result ≡ number_bytes 8 number }
{
    number.to_le_bytes()
}

// The info byte: where the data begin, and what is told beside.
#[tactic(auto, unfolding(crate::specs::Tuple::info_of))]
fn info_byte(range: &Summary) -> u8
    requires { length range.now.columns ≤ 32 }
    ensures { result ≡ info_byte range.now }
{
    let place = data_place(range) as u8;
    let empty = if range.has_rows() { 0 } else { EMPTY_RANGE };
    let nulls = if null_bitmap(range).size == 0 {
        0
    } else {
        NULLS_THERE
    };
    place + empty + nulls
}

// The null bitmap of a tuple: its flags as a number, the first in the lowest bit, and how many
// bytes it takes, none where no flag is set.
#[derive(Clone, Copy)]
struct NullBitmap {
    bits: u64,
    size: usize,
}

fn null_bitmap(range: &Summary) -> NullBitmap
    requires { length range.now.columns ≤ 32 }
    ensures bytes { number_bytes result.size result.bits ≡ null_bitmap range.now.columns }
    ensures size { result.size ≡ length (null_bitmap range.now.columns) }
    ensures most { result.size ≤ 8 }
    ensures there { IsTrue (list_any (λ flag. flag) (null_flags range.now.columns)) ↔ (0 < result.size) }
{
    let columns = range.nulls().len();
    let bits = null_bits(range);
    let size = if bits == 0 {
        0
    } else {
        (2 * columns).div_ceil(8)
    };
    NullBitmap { bits, size }
}

// The flags of a range: of each column whether all is null in it, and then of each whether a null
// is.
fn null_bits(range: &Summary) -> u64
    requires { length range.now.columns ≤ 32 }
    ensures { result ≡ bits_of (null_flags range.now.columns) }
{
    all_null_bits(range.bounds(), has_null_bits(range.nulls()))
}

// Flags as a number.
fn has_null_bits(nulls: &[bool]) -> u64
    requires { length nulls.now ≤ 32 }
    ensures value { result ≡ bits_of nulls.now }
    ensures few { result < 2 ^ 32 }
{
    let mut bits = 0;
    for at in (0..nulls.len()).rev() {
        bits = 2 * bits + u64::from(nulls[at]);
    }
    bits
}

// The same of columns with these bounds, which are all null where the least value is, with other
// flags behind.
fn all_null_bits(bounds: &[KeyVal], behind: u64) -> u64
    requires bounds { length bounds.now ≤ 64 }
    requires behind { behind < 2 ^ 32 }
    ensures { result ≡ bits_behind (low_nulls bounds.now) behind }
{
    let mut bits = behind;
    for at in (0..bounds.len() / 2).rev() {
        bits = 2 * bits + u64::from(is_null(&bounds[2 * at]));
    }
    bits
}

// Puts the zeros up to the next multiple of 8 behind the bytes of a buffer.
#[tactic(auto, unfolding(pg_bytes::specs::PageLayout::aligned, pg_bytes::specs::Places::zeros))]
fn align(out: &mut Vec<u8>) -> Result<(), AllocError>
    requires { length out.old.items < 2 ^ 32 }
    ensures { OnOk result (out.new.items ≡ aligned out.old.items) }
{
    let end = al8(out.len() as u64) as usize;
    out.resize(end, 0)
}
