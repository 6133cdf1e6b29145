ghost use Rattle.std.specs.Prelude.{◌≡◌, ◌+◌, ◌-◌, ◌*◌, ◌^◌, ◌<◌, ◌≤◌, ◌∷◌, ◌++◌, length, take, Some, OnOk, OnErr};
ghost use Rattle.std.specs.Int.{cast_unsigned, w64};
ghost use Rattle.pg_bytes.specs.Numbers.{number_bytes, rounded_up};
ghost use Rattle.tuple_data.specs.Datum.{IsAlignment, long_header, number_datum, padding, piece_at, short_header, stored_at, variable_datum};

use opclass::{ColType, KeyVal, Width};
use pg_bytes::{al2, al8};
use std::alloc::AllocError;

// The most bytes that a number has.
const NUMBER_MOST: u8 = 8;

// The most bytes that stand under a header of one byte.
pub(crate) const SHORT_MOST: usize = 126;

// The bytes of a long header, and the multiple at which it stands.
pub(crate) const LONG_HEADER: u64 = 4;

pub(crate) const LONG_ALIGNMENT: u8 = 4;

// Where a value of a column ends that begins behind so many bytes (`heap_compute_data_size` of
// `heaptuple.c`).
pub(crate) fn end_of_piece(place: u64, kind: ColType, value: &KeyVal) -> u64
    requires { place + length (piece_at place kind value.now) < 2 ^ 63 }
    ensures { result ≡ place + length (piece_at place kind value.now) }
{
    let facts = kind.facts();
    match (value, facts.width) {
        (KeyVal::Num(_), Width::Fixed(width)) => end_of_number(place, facts.alignment, width),
        (KeyVal::Raw(bytes), Width::Fixed(_)) => {
            aligned(place, facts.alignment) + bytes.len() as u64
        }
        (KeyVal::Raw(bytes), Width::Variable) => end_of_variable(place, bytes.len() as u64),
        _ => place,
    }
}

// The same for a number of so many bytes.
fn end_of_number(place: u64, alignment: u8, width: u8) -> u64
    requires known { IsAlignment alignment }
    requires fits { place < 2 ^ 63 }
    ensures narrow { width ≤ 8 → result ≡ rounded_up alignment place + width }
    ensures wide { 8 < width → result ≡ place }
{
    if width <= NUMBER_MOST {
        aligned(place, alignment) + u64::from(width)
    } else {
        place
    }
}

// The same for a value of a variable width and so many bytes.
fn end_of_variable(place: u64, count: u64) -> u64
    requires { place + count < 2 ^ 63 }
    ensures short { count ≤ 126 → result ≡ place + (1 + count) }
    ensures long { 126 < count → result ≡ rounded_up 4 place + (4 + count) }
{
    if count <= SHORT_MOST as u64 {
        place + 1 + count
    } else {
        aligned(place, LONG_ALIGNMENT) + LONG_HEADER + count
    }
}

// The next multiple of an alignment (`att_align_nominal` of `tupmacs.h`).
pub(crate) fn aligned(place: u64, alignment: u8) -> u64
    requires known { IsAlignment alignment }
    requires fits { place < 2 ^ 63 }
    ensures { result ≡ rounded_up alignment place }
{
    match alignment {
        1 => place,
        2 => al2(place),
        4 => (place + 3) / 4 * 4,
        _ => al8(place),
    }
}

// Puts a value of a column behind the data that began at `start`.
pub(crate) fn put_piece(
    out: &mut Vec<u8>,
    start: usize,
    kind: ColType,
    value: &KeyVal,
) -> Result<(), AllocError>
    requires begun { start ≤ length out.old.items }
    requires size { length (piece_at (length out.old.items - start) kind value.now) < 2 ^ 30 }
    ensures ok { OnOk result (out.new.items
        ≡ out.old.items ++ piece_at (length out.old.items - start) kind value.now) }
    ensures err { OnErr result (take start out.new.items ≡ take start out.old.items) }
{
    let facts = kind.facts();
    match (value, facts.width) {
        (KeyVal::Num(number), Width::Fixed(width)) => {
            put_number(out, start, facts.alignment, width, *number)
        }
        (KeyVal::Raw(bytes), Width::Fixed(_)) => {
            put_aligned(out, start, facts.alignment, bytes.as_slice())
        }
        (KeyVal::Raw(bytes), Width::Variable) => put_variable(out, start, bytes.as_slice()),
        _ => Ok(()),
    }
}

// Puts a number of so many bytes, as eight of which those behind its own are cut off.
fn put_number(
    out: &mut Vec<u8>,
    start: usize,
    alignment: u8,
    width: u8,
    number: i64,
) -> Result<(), AllocError>
    requires begun { start ≤ length out.old.items }
    requires known { IsAlignment alignment }
    ensures ok { OnOk result (out.new.items
        ≡ out.old.items
        ++ stored_at (length out.old.items - start) (number_datum width alignment number)) }
    ensures err { OnErr result (take start out.new.items ≡ take start out.old.items) }
{
    if width > NUMBER_MOST {
        return Ok(());
    }
    put_aligned(out, start, alignment, &number_bytes(number))?;
    out.truncate(out.len() - usize::from(NUMBER_MOST - width));
    Ok(())
}

// The bytes of a number in two's complement, low byte first.
#[tactic(auto, unfolding(pg_bytes::specs::Numbers::number_bytes))]
fn number_bytes(number: i64) -> [u8; 8]
    ensures { result ≡ number_bytes 8 (cast_unsigned w64 number) }
{
    number.cast_unsigned().to_le_bytes()
}

// Puts bytes of a variable width under their header.
fn put_variable(out: &mut Vec<u8>, start: usize, bytes: &[u8]) -> Result<(), AllocError>
    requires begun { start ≤ length out.old.items }
    requires size { length bytes.now < 2 ^ 30 - 4 }
    ensures ok { OnOk result (out.new.items
        ≡ out.old.items
        ++ stored_at (length out.old.items - start) (Some (variable_datum bytes.now))) }
    ensures err { OnErr result (take start out.new.items ≡ take start out.old.items) }
{
    if bytes.len() <= SHORT_MOST {
        put_short(out, start, bytes)
    } else {
        put_long(out, start, bytes)
    }
}

// Puts bytes right behind what is there, under a header of one byte.
fn put_short(out: &mut Vec<u8>, start: usize, bytes: &[u8]) -> Result<(), AllocError>
    requires begun { start ≤ length out.old.items }
    requires size { length bytes.now ≤ 126 }
    ensures ok { OnOk result
        (out.new.items ≡ out.old.items ++ short_header (length bytes.now) ∷ bytes.now) }
    ensures err { OnErr result (take start out.new.items ≡ take start out.old.items) }
{
    out.push(short_header(bytes.len()))?;
    out.extend_from_slice(bytes)
}

// Puts bytes at the next multiple of 4, under a header of four bytes.
fn put_long(out: &mut Vec<u8>, start: usize, bytes: &[u8]) -> Result<(), AllocError>
    requires begun { start ≤ length out.old.items }
    requires size { length bytes.now < 2 ^ 30 - 4 }
    ensures ok { OnOk result (out.new.items
        ≡ out.old.items ++ (padding 4 (length out.old.items - start)
        ++ (long_header (length bytes.now) ++ bytes.now))) }
    ensures err { OnErr result (take start out.new.items ≡ take start out.old.items) }
{
    put_aligned(out, start, LONG_ALIGNMENT, &long_header(bytes.len()))?;
    out.extend_from_slice(bytes)
}

// The header of one byte over so many bytes (`SET_VARSIZE_1B` of `varatt.h`).
fn short_header(count: usize) -> u8
    requires { count ≤ 126 }
    ensures { result ≡ short_header count }
{
    (2 * (1 + count) + 1) as u8
}

// The header of four bytes over so many bytes (`SET_VARSIZE_4B` of `varatt.h`).
#[tactic(auto, unfolding(pg_bytes::specs::Numbers::number_bytes))]
fn long_header(count: usize) -> [u8; 4]
    requires { count < 2 ^ 30 - 4 }
    ensures { result ≡ long_header count }
{
    ((count as u32 + 4) * 4).to_le_bytes()
}

// Puts bytes at the next multiple of an alignment, with zeros before them.
#[inline(always)]
#[tactic(auto, unfolding(pg_bytes::specs::Places::zeros))]
fn put_aligned(
    out: &mut Vec<u8>,
    start: usize,
    alignment: u8,
    bytes: &[u8],
) -> Result<(), AllocError>
    requires begun { start ≤ length out.old.items }
    requires known { IsAlignment alignment }
    ensures ok { OnOk result (out.new.items
        ≡ out.old.items ++ (padding alignment (length out.old.items - start) ++ bytes.now)) }
    ensures err { OnErr result (take start out.new.items ≡ take start out.old.items) }
{
    let place = (out.len() - start) as u64;
    let pad = aligned(place, alignment) - place;
    out.resize(out.len() + pad as usize, 0)?;
    out.extend_from_slice(bytes)
}
