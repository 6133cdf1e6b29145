ghost use Rattle.std.specs.Prelude.{◌≡◌, ◌++◌, ◌∷◌, [], IfOk, OnOk, length};
ghost use Rattle.shared_tape.specs.Pass.{ArePieces, HasPieceInFront, HaveKeysInFront, IsReadTo};
ghost use Rattle.shared_tape.specs.Reading.{all_values_in, value_in, values_in};

use crate::stored::UNSAID;
use crate::text::read_text;
use opclass::{KeyList, KeyVal, SortPart, read_piece};
use pg_bytes::Items;
use std::alloc::{AllocError, Global};

// The kind of a piece that has bytes (`opclass::put_piece`).
const BYTES: u8 = 2;

/// Fills a list anew with the values of these columns, whose pieces stand in front, and gives the
/// bytes behind these. Each value goes into the memory of the one at its place. After an error the
/// list may have any values.
pub(crate) fn read_keys<'a>(
    alloc: Global,
    parts: &[SortPart],
    bytes: &'a [u8],
    keys: &mut KeyList,
) -> Result<&'a [u8], AllocError>
    requires { HaveKeysInFront parts.now bytes.now }
    ensures keys { OnOk result (keys.new ≡ (values_in parts.now bytes.now).0) }
    ensures left { IfOk result (λ left. left.now ≡ (values_in parts.now bytes.now).1) }
{
    let [before @ .., part] = parts else {
        clear(alloc, keys);
        return Ok(bytes);
    };
    let spare = keys.pop();
    let behind = read_keys(alloc, before, bytes, keys)?;
    let (value, left) = read_value(alloc, spare, *part, behind)?;
    push(keys, value)?;
    Ok(left)
}

/// Fills a list anew with the values whose pieces these are, as `read_keys` does.
pub(crate) fn read_extra(alloc: Global, bytes: &[u8], extra: &mut KeyList) -> Result<(), AllocError>
    requires { ArePieces bytes.now }
    ensures { OnOk result (extra.new ≡ all_values_in (length bytes.now) bytes.now) }
{
    let mut left = read_known(alloc, bytes, extra)?;
    while !left.is_empty() {
        let (value, behind) = read_value(alloc, None, UNSAID, left)?;
        push(extra, value)?;
        left = behind;
    }
    Ok(())
}

// Fills as many values of a list anew as there are pieces for, and gives the bytes that are left.
fn read_known<'a>(
    alloc: Global,
    bytes: &'a [u8],
    extra: &mut KeyList,
) -> Result<&'a [u8], AllocError>
    requires { ArePieces bytes.now }
    ensures { IfOk result (λ left. IsReadTo bytes.now extra.new left.now) }
{
    let Some(spare) = extra.pop() else {
        return Ok(bytes);
    };
    let behind = read_known(alloc, bytes, extra)?;
    if behind.is_empty() {
        return Ok(behind);
    }
    let (value, left) = read_value(alloc, Some(spare), UNSAID, behind)?;
    push(extra, value)?;
    Ok(left)
}

// The value whose piece stands in front of bytes, in the memory of one that is no longer needed,
// and the bytes behind the piece.
fn read_value<'a>(
    alloc: Global,
    spare: Option<KeyVal>,
    part: SortPart,
    bytes: &'a [u8],
) -> Result<(KeyVal, &'a [u8]), AllocError>
    requires { HasPieceInFront part bytes.now }
    ensures value { IfOk result (λ read. read.0 ≡ (value_in part bytes.now).0) }
    ensures left { IfOk result (λ read. read.1.now ≡ (value_in part bytes.now).1) }
{
    if let [BYTES, behind @ ..] = bytes {
        let mut inside = memory_of(alloc, spare);
        let left = read_text(part, behind, &mut inside)?;
        return Ok((KeyVal::Raw(Items::from_vec(inside)), left));
    }
    match read_piece(alloc, part, bytes)? {
        Some(read) => Ok(read),
        None => unreachable!(),
    }
}

// The bytes of a value, or none.
fn memory_of(alloc: Global, value: Option<KeyVal>) -> Vec<u8> {
    match value {
        Some(KeyVal::Raw(bytes)) => bytes.into_vec(),
        _ => Vec::new(alloc),
    }
}

fn clear(alloc: Global, values: &mut KeyList)
    ensures { values.new ≡ [] }
{
    if values.len() != 0 {
        *values = KeyList::new(alloc);
    }
}

fn push(values: &mut KeyList, value: KeyVal) -> Result<(), AllocError>
    ensures { OnOk result (values.new ≡ values.old ++ value ∷ []) }
{
    match values.push(value) {
        Ok(()) => Ok(()),
        Err(_) => Err(AllocError),
    }
}
