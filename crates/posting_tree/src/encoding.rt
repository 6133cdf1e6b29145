ghost use Rattle.std.specs.Prelude.{◌≡◌, ◌+◌, ◌-◌, ◌*◌, ◌^◌, ◌%◌, ◌<◌, ◌≤◌, ◌++◌, length, max, take, IfOk, OnOk, OnErr};
ghost use Rattle.pg_bytes.specs.Numbers.{number_bytes};
ghost use Rattle.pg_bytes.specs.Places.{written, zeros};
ghost use Rattle.pg_bytes.specs.Pointers.{row_pointer_bytes};
ghost use Rattle.posting_tree.specs.Pass.{AscendBehind, IsInFront};
ghost use Rattle.posting_tree.specs.Segments.{AreAscending, HaveBlocks, deltas_behind, number_of, segment};

use crate::pointers::number_of;
use crate::varbyte::{MOST_BYTES, put_varbyte};
use byteorder::{ByteOrder, LittleEndian};
use pg_bytes::{Bytes, Items, RowPtr};
use std::alloc::{AllocError, Global};

// The bytes in front of a segment's deltas, and where their count stands among them
// (`SizeOfGinPostingList` of `ginblock.h`).
pub(crate) const HEAD: usize = 8;

pub(crate) const COUNT: usize = 6;

/// The one segment of these pointers (`ginCompressPostingList` of `ginpostinglist.c`). An error
/// means that no memory was left.
pub fn encode(alloc: Global, ptrs: &[RowPtr]) -> Result<Bytes, AllocError>
    requires some { 0 < length ptrs.now }
    requires few { length ptrs.now ≤ 9000 }
    requires ascending { AreAscending ptrs.now }
    ensures { IfOk result (λ bytes. bytes ≡ segment ptrs.now) }
{
    let mut out = Vec::new(alloc);
    put_segment(&mut out, ptrs)?;
    Ok(Items::from_vec(out))
}

/// Puts the one segment of these pointers behind the bytes of a buffer. An error means that no
/// memory was left, and then the buffer's bytes are as before.
pub fn put_segment(out: &mut Vec<u8>, ptrs: &[RowPtr]) -> Result<(), AllocError>
    requires some { 0 < length ptrs.now }
    requires few { length ptrs.now ≤ 9000 }
    requires ascending { AreAscending ptrs.now }
    ensures ok { OnOk result (out.new.items ≡ out.old.items ++ segment ptrs.now) }
    ensures err { OnErr result (out.new.items ≡ out.old.items) }
{
    let start = out.len();
    let put = put_some(out, ptrs, MOST_BYTES * ptrs.len() + HEAD);
    if put.is_err() {
        out.truncate(start);
    }
    put?;
    Ok(())
}

// Puts the segment of as many of the first pointers as surely end within so many bytes, and answers
// how many they are. On want of memory the buffer's bytes stay in front.
pub(crate) fn put_some(out: &mut Vec<u8>, ptrs: &[RowPtr], room: usize) -> Result<usize, AllocError>
    requires some { 0 < length ptrs.now }
    requires ascending { AreAscending ptrs.now }
    requires room { 8 ≤ room }
    requires counted { room < 2 ^ 16 }
    ensures some { IfOk result (λ count. 0 < count) }
    ensures count { IfOk result (λ count. count ≤ length ptrs.now) }
    ensures put { IfOk result (λ count.
        out.new.items ≡ out.old.items ++ segment (take count ptrs.now)) }
    ensures within { IfOk result (λ count.
        length out.new.items ≤ length out.old.items + room) }
    ensures have_blocks { IfOk result (λ count. HaveBlocks (take count ptrs.now)) }
    ensures whole { IfOk result (λ count.
        7 * length ptrs.now + 8 ≤ room → count ≡ length ptrs.now) }
    ensures err { OnErr result (IsInFront out.old.items out.new.items) }
{
    let start = out.len();
    put_head(out, ptrs[0])?;
    let put = put_deltas(out, number_of(&ptrs[0]), &ptrs[1..], start + room - 1)?;
    close(out, start)?;
    Ok(put + 1)
}

// Puts a segment's first pointer and a count of zero bytes.
#[tactic(auto, unfolding(pg_bytes::specs::Numbers::number_bytes, pg_bytes::specs::Places::written, pg_bytes::specs::Pointers::row_pointer_bytes))]
fn put_head(out: &mut Vec<u8>, first: RowPtr) -> Result<(), AllocError>
    ensures ok { OnOk result (out.new.items
        ≡ out.old.items ++ (row_pointer_bytes first ++ number_bytes 2 0)) }
    ensures err { OnErr result (out.new.items ≡ out.old.items) }
{
    let mut head = [0u8; HEAD];
    first.put(&mut head, 0);
    out.extend_from_slice(&head)
}

// Puts the deltas of pointers behind a number, of as many as surely end before an end, and answers
// how many they are. On want of memory the buffer's bytes stay in front.
fn put_deltas(
    out: &mut Vec<u8>,
    number: u64,
    ptrs: &[RowPtr],
    end: usize,
) -> Result<usize, AllocError>
    requires { AscendBehind number ptrs.now }
    ensures count { IfOk result (λ count. count ≤ length ptrs.now) }
    ensures put { IfOk result (λ count. out.new.items
        ≡ out.old.items ++ deltas_behind number (take count ptrs.now)) }
    ensures within { IfOk result (λ count.
        length out.new.items ≤ max end (length out.old.items)) }
    ensures have_blocks { IfOk result (λ count. HaveBlocks (take count ptrs.now)) }
    ensures whole { IfOk result (λ count.
        length out.old.items + 7 * length ptrs.now ≤ end → count ≡ length ptrs.now) }
    ensures err { OnErr result (IsInFront out.old.items out.new.items) }
{
    let mut last = number;
    for (at, ptr) in ptrs.iter().enumerate() {
        if end < out.len() + MOST_BYTES {
            return Ok(at);
        }
        let next = number_of(ptr);
        put_varbyte(out, next - last)?;
        last = next;
    }
    Ok(ptrs.len())
}

// Counts the bytes of a segment's deltas in its head, and puts the zero byte that makes them even.
#[tactic(auto, unfolding(pg_bytes::specs::Places::zeros))]
fn close(out: &mut Vec<u8>, start: usize) -> Result<(), AllocError>
    requires head { start + 8 ≤ length out.old.items }
    requires counted { length out.old.items < start + 8 + 2 ^ 16 }
    ensures ok { OnOk result (out.new.items
        ≡ written (number_bytes 2 (length out.old.items - start - 8)) (start + 6) out.old.items
        ++ zeros ((length out.old.items - start - 8) % 2)) }
    ensures err { OnErr result
        (take (start + 6) out.new.items ≡ take (start + 6) out.old.items) }
{
    let end = out.len();
    let count = end - start - HEAD;
    set_count(out, start + COUNT, count as u16);
    out.resize(end + count % 2, 0)
}

// Sets a count of two bytes.
#[tactic(auto, unfolding(pg_bytes::specs::Numbers::number_bytes, pg_bytes::specs::Places::written))]
fn set_count(bytes: &mut [u8], at: usize, count: u16)
    requires { at + 2 ≤ length bytes.old }
    ensures set { bytes.new ≡ written (number_bytes 2 count) at bytes.old }
    ensures front { take at bytes.new ≡ take at bytes.old }
{
    let mut field = [0u8; 2];
    LittleEndian::write_u16(&mut field, count);
    bytes[at..at + 2].copy_from_slice(&field);
}
