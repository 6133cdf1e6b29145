ghost use Rattle.std.specs.Prelude.{◌≡◌, ◌≢◌, ◌++◌, ◌<◌, ◌≤◌, All, IfOk, OnOk, false, length, slice_index, take};
ghost use Rattle.opclass.specs.Norm.{directed_bytes, turned};
ghost use Rattle.opclass.specs.Pass.{PutsClear, zero_of};
ghost use Rattle.shared_tape.specs.Reading.{up_to_end};

use opclass::SortPart;
use std::alloc::AllocError;

/// Fills a buffer anew with the text that stands in front of bytes, up to its end and by the
/// column's direction, and gives the bytes behind that. After an error the buffer may have any
/// bytes.
pub(crate) fn read_text<'a>(
    part: SortPart,
    bytes: &'a [u8],
    text: &mut Vec<u8>,
) -> Result<&'a [u8], AllocError>
    ensures text { OnOk result
        (text.new.items ≡ directed_bytes part (up_to_end (zero_of part) false bytes.now).0) }
    ensures left { IfOk result (λ left. left.now ≡ (up_to_end (zero_of part) false bytes.now).1) }
{
    text.clear();
    let left = put_up_to_end(zero_of(part), bytes, text)?;
    if part.descending {
        turn(text);
    }
    Ok(left)
}

// How a zero is spelt in a column's bytes.
fn zero_of(part: SortPart) -> u8
    ensures { result ≡ zero_of part }
{
    if part.descending { 255 } else { 0 }
}

// Puts the bytes up to their end, where a zero is spelt by this mark, behind those of a buffer, and
// gives what stands behind the end.
fn put_up_to_end<'a>(mark: u8, bytes: &'a [u8], text: &mut Vec<u8>) -> Result<&'a [u8], AllocError>
    ensures text { OnOk result
        (text.new.items ≡ text.old.items ++ (up_to_end mark false bytes.now).0) }
    ensures left { IfOk result (λ left. left.now ≡ (up_to_end mark false bytes.now).1) }
{
    let mut left = put_clear(mark, bytes, text)?;
    while let [_, second, behind @ ..] = left {
        if *second == mark {
            return Ok(behind);
        }
        text.push(mark)?;
        left = put_clear(mark, behind, text)?;
    }
    Ok(&[])
}

// Puts the bytes before the first mark, and gives what is left.
fn put_clear<'a>(mark: u8, bytes: &'a [u8], text: &mut Vec<u8>) -> Result<&'a [u8], AllocError>
    ensures { IfOk result (λ left.
        PutsClear mark text.old.items text.new.items bytes.now left.now) }
{
    let clear = clear_len(mark, bytes);
    text.extend_from_slice(&bytes[..clear])?;
    Ok(&bytes[clear..])
}

// How many bytes stand before the first mark.
fn clear_len(mark: u8, bytes: &[u8]) -> usize
    ensures within { result ≤ length bytes.now }
    ensures clear { All (λ byte. byte ≢ mark) (take result bytes.now) }
    ensures stop { result < length bytes.now → slice_index bytes.now result ≡ mark }
{
    for (at, byte) in bytes.iter().enumerate() {
        if *byte == mark {
            return at;
        }
    }
    bytes.len()
}

// Turns each byte to 255 minus it.
fn turn(bytes: &mut [u8])
    ensures { bytes.new ≡ turned bytes.old }
{
    for byte in bytes.iter_mut() {
        *byte = 255 - *byte;
    }
}
