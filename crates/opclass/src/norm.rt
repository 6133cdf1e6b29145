ghost use Rattle.std.specs.Prelude.{◌≡◌, ◌++◌, ◌∷◌, All, IfOk, OnErr, OnOk, length, take, slice_index, ◌≤◌, ◌<◌, ◌≢◌};
ghost use Rattle.std.specs.Int.{bytes_high_first};
ghost use Rattle.opclass.specs.Norm.{directed_bytes, escaped, lifted, norm_of, null_byte, piece, turned};
ghost use Rattle.opclass.specs.Pass.{IsInFront, PutsClear};

use crate::key_list::KeyList;
use crate::spec::{SortPart, SortSpec};
use crate::value::KeyVal;
use pg_bytes::{Bytes, Items};
use std::alloc::{AllocError, Global};

// The kinds of pieces, by their first byte.
const NULL_FIRST: u8 = 0;

pub(crate) const NUMBER: u8 = 1;

pub(crate) const BYTES: u8 = 2;

const NULL_LAST: u8 = 3;

// What stands behind a zero that isn't the end.
pub(crate) const NOT_THE_END: u8 = 255;

// The bytes that a value is expected to take.
const ROOM: usize = 16;

// How far a number is lifted so that none is below zero.
pub(crate) const LIFT: i128 = 1 << 63;

/// The values of key columns as bytes whose unsigned order is the order of the values. Arrays have
/// no bytes there.
pub fn norm_key(alloc: Global, spec: &SortSpec, keys: &KeyList) -> Result<Bytes, AllocError>
    ensures { IfOk result (λ bytes. bytes ≡ norm_of spec.now keys.now) }
{
    let mut out = Vec::with_capacity(alloc, keys.len().saturating_mul(ROOM))?;
    put_norm(&mut out, spec, keys)?;
    Ok(Items::from_vec(out))
}

/// Puts the normalised key of these values behind the bytes that a buffer has. On want of memory
/// the buffer's bytes stay in front, and part of the key may stand behind them.
pub fn put_norm(out: &mut Vec<u8>, spec: &SortSpec, keys: &KeyList) -> Result<(), AllocError>
    ensures ok { OnOk result (out.new.items ≡ out.old.items ++ norm_of spec.now keys.now) }
    ensures err { OnErr result (IsInFront out.old.items out.new.items) }
{
    put_pieces(out, spec.as_slice(), keys.as_slice())
}

// Puts the pieces behind the bytes that a buffer has.
fn put_pieces(
    out: &mut Vec<u8>,
    mut parts: &[SortPart],
    mut values: &[KeyVal],
) -> Result<(), AllocError>
    ensures ok { OnOk result
        (out.new.items ≡ out.old.items ++ norm_of parts.entry.now values.entry.now) }
    ensures err { OnErr result (IsInFront out.old.items out.new.items) }
{
    while let [part, more @ ..] = parts {
        let [value, others @ ..] = values else {
            return Ok(());
        };
        put_piece(out, *part, value)?;
        parts = more;
        values = others;
    }
    Ok(())
}

/// Puts the piece of one value of a column behind the bytes that a buffer has. On want of memory
/// the buffer's bytes stay in front, and part of the piece may stand behind them.
pub fn put_piece(out: &mut Vec<u8>, part: SortPart, value: &KeyVal) -> Result<(), AllocError>
    ensures ok { OnOk result (out.new.items ≡ out.old.items ++ piece part value.now) }
    ensures err { OnErr result (IsInFront out.old.items out.new.items) }
{
    match value {
        KeyVal::Nil => out.push(null_byte(part))?,
        KeyVal::Num(number) => {
            out.push(NUMBER)?;
            put_number(out, part, *number)?;
        }
        KeyVal::Raw(bytes) => {
            out.push(BYTES)?;
            put_bytes(out, part, bytes.as_slice())?;
        }
        KeyVal::Items(_) => {}
    }
    Ok(())
}

// The piece of a null.
pub(crate) fn null_byte(part: SortPart) -> u8
    ensures { result ≡ null_byte part }
{
    if part.nulls_first {
        NULL_FIRST
    } else {
        NULL_LAST
    }
}

fn put_number(out: &mut Vec<u8>, part: SortPart, number: i64) -> Result<(), AllocError>
    ensures ok { OnOk result
        (out.new.items
        ≡ out.old.items ++ directed_bytes part (bytes_high_first 8 (lifted number))) }
    ensures err { OnErr result (IsInFront out.old.items out.new.items) }
{
    let mut bytes = lift(number).to_be_bytes();
    direct(part, &mut bytes);
    out.extend_from_slice(&bytes)
}

// The number plus 2^63.
fn lift(number: i64) -> u64
    ensures { result ≡ lifted number }
{
    (i128::from(number) + LIFT) as u64
}

fn put_bytes(out: &mut Vec<u8>, part: SortPart, bytes: &[u8]) -> Result<(), AllocError>
    ensures ok { OnOk result
        (out.new.items ≡ out.old.items ++ directed_bytes part (escaped bytes.now)) }
    ensures err { OnErr result (IsInFront out.old.items out.new.items) }
{
    let start = out.len();
    put_escaped(out, bytes)?;
    direct(part, &mut out[start..]);
    Ok(())
}

// Puts the bytes with their end, as slices between the zeros.
fn put_escaped(out: &mut Vec<u8>, bytes: &[u8]) -> Result<(), AllocError>
    ensures ok { OnOk result (out.new.items ≡ out.old.items ++ escaped bytes.now) }
    ensures err { OnErr result (IsInFront out.old.items out.new.items) }
{
    let mut left = put_clear(out, bytes, 0)?;
    while let [_, behind @ ..] = left {
        out.extend_from_slice(&[0, NOT_THE_END])?;
        left = put_clear(out, behind, 0)?;
    }
    out.extend_from_slice(&[0, 0])
}

// Puts the bytes before the first one of this value, and gives what is left.
pub(crate) fn put_clear<'a>(
    out: &mut Vec<u8>,
    bytes: &'a [u8],
    value: u8,
) -> Result<&'a [u8], AllocError>
    ensures ok { IfOk result (λ left.
        PutsClear value out.old.items out.new.items bytes.entry.now left.now) }
    ensures err { OnErr result (IsInFront out.old.items out.new.items) }
{
    let clear = clear_len(bytes, value);
    out.extend_from_slice(&bytes[..clear])?;
    Ok(&bytes[clear..])
}

// How many bytes stand before the first one of this value.
fn clear_len(bytes: &[u8], value: u8) -> usize
    ensures within { result ≤ length bytes.now }
    ensures clear { All (λ byte. byte ≢ value) (take result bytes.now) }
    ensures stop { result < length bytes.now → slice_index bytes.now result ≡ value }
{
    for (at, byte) in bytes.iter().enumerate() {
        if *byte == value {
            return at;
        }
    }
    bytes.len()
}

// Turns bytes by the column's direction.
pub(crate) fn direct(part: SortPart, bytes: &mut [u8])
    ensures { bytes.new ≡ directed_bytes part bytes.old }
{
    if part.descending {
        turn(bytes);
    }
}

// Turns each byte to 255 minus it.
fn turn(bytes: &mut [u8])
    ensures { bytes.new ≡ turned bytes.old }
{
    for byte in bytes.iter_mut() {
        *byte = 255 - *byte;
    }
}
