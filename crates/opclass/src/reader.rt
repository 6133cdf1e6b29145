ghost use Rattle.std.specs.Prelude.{◌≡◌, ◌++◌, ◌<◌, ◌≤◌, IfOk, List, MatchOption, ℕ, ℤ, length, slice_range};
ghost use Rattle.opclass.specs.declared.value.KeyVal.{KeyVal};
ghost use Rattle.opclass.specs.Norm.{IsNormOf, lifted};
ghost use Rattle.opclass.specs.Pass.{HasNoEnd, StartsWithBytes, StartsWithNumber, StartsWithPiece, marked, zero_of};

use crate::key_list::KeyList;
use crate::norm::{BYTES, LIFT, NUMBER, direct, null_byte, put_clear};
use crate::spec::{SortPart, SortSpec};
use crate::value::KeyVal;
use byteorder::{BigEndian, ByteOrder};
use pg_bytes::Items;
use std::alloc::{AllocError, Global};

/// The one list of values whose normalised key these bytes are. None comes exactly where there is
/// none.
pub fn read_norm(
    alloc: Global,
    spec: &SortSpec,
    bytes: &[u8],
) -> Result<Option<KeyList>, AllocError>
    ensures { IfOk result (λ answer. MatchOption answer
        ((keys : List KeyVal) → IsNormOf spec.now keys bytes.now → ⊥)
        (λ keys. IsNormOf spec.now keys bytes.now)) }
{
    let mut values = Vec::with_capacity(alloc, spec.len())?;
    let mut left = bytes;
    for part in spec.as_slice() {
        let Some((value, behind)) = read_piece(alloc, *part, left)? else {
            return Ok(None);
        };
        values.push(value)?;
        left = behind;
    }
    if left.is_empty() {
        Ok(Some(KeyList::from_vec(values)))
    } else {
        Ok(None)
    }
}

/// The one value whose piece stands at the front of bytes, and the bytes behind the piece. None
/// comes exactly where there is none.
pub fn read_piece<'a>(
    alloc: Global,
    part: SortPart,
    bytes: &'a [u8],
) -> Result<Option<(KeyVal, &'a [u8])>, AllocError>
    ensures { IfOk result (λ answer. MatchOption answer
        ((value : KeyVal) (behind : List ℕ) → StartsWithPiece part bytes.now value behind → ⊥)
        (λ read. StartsWithPiece part bytes.now read.0 read.1.now)) }
{
    let [kind, behind @ ..] = bytes else {
        return Ok(None);
    };
    if *kind == null_byte(part) {
        return Ok(Some((KeyVal::Nil, behind)));
    }
    match *kind {
        NUMBER => match read_number(part, behind) {
            Some((number, behind)) => Ok(Some((KeyVal::Num(number), behind))),
            None => Ok(None),
        },
        BYTES => match read_bytes(alloc, part, behind)? {
            Some((inside, behind)) => Ok(Some((KeyVal::Raw(Items::from_vec(inside)), behind))),
            None => Ok(None),
        },
        _ => Ok(None),
    }
}

fn read_number(part: SortPart, bytes: &[u8]) -> Option<(i64, &[u8])>
    ensures { MatchOption result
        ((number : ℤ) (behind : List ℕ) → StartsWithNumber part bytes.now number behind → ⊥)
        (λ read. StartsWithNumber part bytes.now read.0 read.1.now) }
{
    if bytes.len() < 8 {
        return None;
    }
    let mut field = [0u8; 8];
    field.copy_from_slice(&bytes[..8]);
    direct(part, &mut field);
    Some((lower(BigEndian::read_u64(&field)), &bytes[8..]))
}

// The number less 2^63.
fn lower(number: u64) -> i64
    ensures { lifted result ≡ number }
{
    (i128::from(number) - LIFT) as i64
}

fn read_bytes<'a>(
    alloc: Global,
    part: SortPart,
    bytes: &'a [u8],
) -> Result<Option<(Vec<u8>, &'a [u8])>, AllocError>
    ensures { IfOk result (λ answer. MatchOption answer
        ((inside behind : List ℕ) → StartsWithBytes part bytes.now inside behind → ⊥)
        (λ read. StartsWithBytes part bytes.now read.0.items read.1.now)) }
{
    let Some((mut inside, behind)) = read_marked(alloc, zero_of(part), bytes)? else {
        return Ok(None);
    };
    direct(part, &mut inside);
    Ok(Some((inside, behind)))
}

// How a zero is spelt in a column's bytes.
fn zero_of(part: SortPart) -> u8
    ensures { result ≡ zero_of part }
{
    if part.descending { 255 } else { 0 }
}

// The bytes up to their end, where a zero is spelt by this mark, and what stands behind it.
fn read_marked<'a>(
    alloc: Global,
    mark: u8,
    bytes: &'a [u8],
) -> Result<Option<(Vec<u8>, &'a [u8])>, AllocError>
    ensures { IfOk result (λ answer. MatchOption answer
        (HasNoEnd mark bytes.now)
        (λ read. bytes.now ≡ marked mark read.0.items ++ read.1.now)) }
{
    let mut inside = Vec::new(alloc);
    let mut left = put_clear(&mut inside, bytes, mark)?;
    while let [_, second, behind @ ..] = left {
        if *second == mark {
            return Ok(Some((inside, behind)));
        }
        if *second != 255 - mark {
            return Ok(None);
        }
        inside.push(mark)?;
        left = put_clear(&mut inside, behind, mark)?;
    }
    Ok(None)
}
