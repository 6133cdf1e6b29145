//! The header of a range's tuple as it is read: the first block, the info byte and the null bitmap.

ghost use Rattle.std.specs.Prelude.{◌≡◌, ◌*◌, ◌+◌, ◌/◌, ◌<◌, ◌≤◌, ◌^◌, ◌++◌, ◌∷◌, IfSome, IsNone, length, slice_index, take};
ghost use Rattle.pg_bytes.specs.Numbers.{number_bytes};
ghost use Rattle.pg_bytes.specs.PageLayout.{aligned};
ghost use Rattle.pg_bytes.specs.Places.{zeros};
ghost use Rattle.brin_summary.specs.Pass.{bits_in, flags_of, header_in, present_of, seen_header};
ghost use Rattle.brin_summary.specs.Reading.{HasHeader};
ghost use Rattle.brin_summary.specs.Tuple.{Header, header_bytes, info_of, place_behind};

use byteorder::{ByteOrder, LittleEndian};
use pg_bytes::{al8, u32_at};

// The bytes of a tuple's first block and info byte (`SizeOfBrinTuple`).
const FIXED_SIZE: usize = 5;

// Of the info byte: that no row is in the range, and that there is a null bitmap.
const EMPTY_RANGE: u8 = 0x20;

const NULLS_THERE: u8 = 0x80;

// The most bytes of a header with the zeros behind it.
const MOST: usize = 16;

/// What the header of a range's tuple says: the range's first block, whether a row is in it, and
/// the flags of its columns, the first in the lowest bit.
#[derive(Clone, Copy, Debug)]
pub struct TupleHead {
    pub first: u32,
    pub has_rows: bool,
    pub bits: u64,
}

impl TupleHead {
    /// The header in front of bytes. None comes exactly where none has these bytes.
    pub fn read(columns: usize, bytes: &[u8]) -> Option<TupleHead>
        requires some { 1 ≤ columns }
        requires columns { columns ≤ 32 }
        ensures some { IfSome result
            (λ head. HasHeader columns (seen_header columns head) bytes.now) }
        ensures few { IfSome result (λ head. head.bits < 2 ^ (2 * columns)) }
        ensures none { IsNone result → (header : Header) → HasHeader columns header bytes.now → ⊥ }
    {
        let head = TupleHead::in_front(columns, bytes)?;
        let place = head.data_place(columns);
        let image = head.bytes(columns);
        if bytes.len() >= place && bytes[..place] == image[..place] {
            Some(head)
        } else {
            None
        }
    }

    /// Where the data begin behind it.
    pub fn data_place(&self, columns: usize) -> usize
        requires columns { columns ≤ 32 }
        requires bits { self.now.bits < 2 ^ (2 * columns) }
        ensures value { result ≡ place_behind (flags_of (2 * columns) self.now.bits) }
        ensures most { result ≤ 16 }
    {
        let bitmap = if self.bits == 0 {
            0
        } else {
            (2 * columns).div_ceil(8)
        };
        al8((FIXED_SIZE + bitmap) as u64) as usize
    }

    /// Which bounds are there, as bits: two for each column, set where it isn't all null.
    pub fn present(&self, columns: usize) -> u64
        requires { columns ≤ 32 }
        ensures { result ≡ present_of (flags_of columns self.now.bits) }
    {
        let mut present = 0;
        for at in (0..columns).rev() {
            let pair = if (self.bits >> at) % 2 == 1 { 0 } else { 3 };
            present = 4 * present + pair;
        }
        present
    }

    /// The has-nulls bits of its columns.
    pub fn has_nulls(&self, columns: usize) -> u64
        requires { columns ≤ 32 }
        ensures { result ≡ self.now.bits / 2 ^ columns }
    {
        self.bits >> columns
    }

    // What stands at the places of a header's parts. None comes where the bytes end before.
    fn in_front(columns: usize, bytes: &[u8]) -> Option<TupleHead>
        requires some { 1 ≤ columns }
        requires columns { columns ≤ 32 }
        ensures header { IfSome result
            (λ head. seen_header columns head ≡ header_in columns bytes.now) }
        ensures block { IfSome result (λ head. head.first < 2 ^ 32) }
        ensures few { IfSome result (λ head. head.bits < 2 ^ (2 * columns)) }
        ensures none { IsNone result → (header : Header) → HasHeader columns header bytes.now → ⊥ }
    {
        if bytes.len() < FIXED_SIZE {
            return None;
        }
        let bits = bits_in(columns, bytes)?;
        if (bits >> columns) >> columns != 0 {
            return None;
        }
        Some(TupleHead {
            first: u32_at(bytes, 0),
            has_rows: bytes[4] % (2 * EMPTY_RANGE) < EMPTY_RANGE,
            bits,
        })
    }

    // Its bytes, and zeros behind them.
    fn bytes(&self, columns: usize) -> [u8; MOST]
        requires columns { columns ≤ 32 }
        requires bits { self.now.bits < 2 ^ (2 * columns) }
        ensures { take (place_behind (flags_of (2 * columns) self.now.bits)) result
            ≡ aligned (header_bytes (seen_header columns self.now)) }
    {
        in_a_row(self.first, self.info(columns), self.bits)
    }

    // The info byte: where the data begin, whether no row is there, and whether a null bitmap is.
    fn info(&self, columns: usize) -> u8
        requires columns { columns ≤ 32 }
        requires bits { self.now.bits < 2 ^ (2 * columns) }
        ensures { result ≡ info_of self.now.has_rows (flags_of (2 * columns) self.now.bits) }
    {
        let empty = if self.has_rows { 0 } else { EMPTY_RANGE };
        let nulls = if self.bits == 0 { 0 } else { NULLS_THERE };
        self.data_place(columns) as u8 + empty + nulls
    }
}

// A first block, an info byte and the number of a null bitmap, and zeros.
#[tactic(auto, unfolding(pg_bytes::specs::Numbers::number_bytes, pg_bytes::specs::Places::zeros))]
fn in_a_row(first: u32, info: u8, bits: u64) -> [u8; MOST]
    ensures { result ≡ number_bytes 4 first ++ (info ∷ (number_bytes 8 bits ++ zeros 3)) }
{
    let mut bytes = [0u8; MOST];
    LittleEndian::write_u32(&mut bytes, first);
    bytes[4] = info;
    LittleEndian::write_u64(&mut bytes[FIXED_SIZE..], bits);
    bytes
}

// The null bitmap as a number, 0 where the info byte says that none is there. None comes where the
// bytes end before.
fn bits_in(columns: usize, bytes: &[u8]) -> Option<u64>
    requires some { 1 ≤ columns }
    requires columns { columns ≤ 32 }
    requires info { 5 ≤ length bytes.now }
    ensures value { IfSome result (λ bits. bits ≡ bits_in columns bytes.now) }
    ensures set { IsNone result → 128 ≤ slice_index bytes.now 4 }
    ensures short { IsNone result → length bytes.now < 5 + (2 * columns + 7) / 8 }
{
    let size = (2 * columns).div_ceil(8);
    if bytes[4] < NULLS_THERE {
        Some(0)
    } else if bytes.len() < FIXED_SIZE + size {
        None
    } else {
        Some(LittleEndian::read_uint(&bytes[FIXED_SIZE..], size))
    }
}
