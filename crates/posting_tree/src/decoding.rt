ghost use Rattle.std.specs.Prelude.{◌≡◌, ◌↔◌, ◌<◌, ◌^◌, ℕ, IfOk, IsTrue, List, MatchOption, length};
ghost use Rattle.pg_bytes.specs.declared.row_ptr.RowPtr.{RowPtr};
ghost use Rattle.posting_tree.specs.Pass.{AreDeltasOf, AreSegmentsBehind, HasZeros, IsPointerBehind, ReadsDeltas, ReadsSegment, StartsWithSegment};
ghost use Rattle.posting_tree.specs.Segments.{AreSegmentsOf, IsStorable};

use crate::encoding::{COUNT, HEAD};
use crate::pointers::{OFFSETS, is_storable, number_of};
use crate::varbyte::read_varbyte;
use pg_bytes::{Items, RowPtr, RowPtrs, u16_at};
use std::alloc::{AllocError, Global};

/// The one list of pointers whose segments these bytes are, one behind the other to the end
/// (`ginPostingListDecodeAllSegments` of `ginpostinglist.c`). None comes exactly where there is
/// none. No bytes are the empty list. An error means that no memory was left.
pub fn decode(alloc: Global, bytes: &[u8]) -> Result<Option<RowPtrs>, AllocError>
    ensures { IfOk result (λ answer. MatchOption answer
        ((ptrs : List RowPtr) → AreSegmentsOf ptrs bytes.now → ⊥)
        (λ ptrs. AreSegmentsOf ptrs bytes.now)) }
{
    let mut ptrs = Vec::new(alloc);
    let mut last = 0;
    let mut left = bytes;
    while !left.is_empty() {
        let Some((next, behind)) = read_segment(&mut ptrs, last, left)? else {
            return Ok(None);
        };
        last = next;
        left = behind;
    }
    Ok(Some(Items::from_vec(ptrs)))
}

// Puts the pointers of the segment at the front of bytes behind others, which end before them, and
// answers the last one's number and what is left of the bytes. None comes exactly where the bytes
// don't begin with such a segment.
fn read_segment<'a>(
    ptrs: &mut Vec<RowPtr>,
    last: u64,
    bytes: &'a [u8],
) -> Result<Option<(u64, &'a [u8])>, AllocError>
    requires { 0 < length bytes.now }
    ensures { IfOk result (λ answer. MatchOption answer
        ((all : List RowPtr) → AreSegmentsBehind last bytes.now all → ⊥)
        (λ read. ReadsSegment last bytes.now ptrs.old.items ptrs.new.items read.0 read.1.now)) }
{
    let Some((first, deltas, left)) = split_segment(bytes) else {
        return Ok(None);
    };
    let number = number_of(&first);
    if number <= last {
        return Ok(None);
    }
    ptrs.push(first)?;
    match read_deltas(ptrs, number, deltas)? {
        Some(next) => Ok(Some((next, left))),
        None => Ok(None),
    }
}

// Puts the pointers of deltas behind others, of which the last has this number, and answers the
// last one's number. None comes exactly where the bytes aren't such deltas.
fn read_deltas(ptrs: &mut Vec<RowPtr>, number: u64, bytes: &[u8]) -> Result<Option<u64>, AllocError>
    requires { number < 2 ^ 44 }
    ensures { IfOk result (λ answer. MatchOption answer
        ((others : List RowPtr) → AreDeltasOf number bytes.now others → ⊥)
        (λ last. ReadsDeltas number bytes.now ptrs.old.items ptrs.new.items last)) }
{
    let mut last = number;
    let mut left = bytes;
    while !left.is_empty() {
        let Some((delta, behind)) = read_varbyte(left) else {
            return Ok(None);
        };
        if delta == 0 {
            return Ok(None);
        }
        let Some(ptr) = pointer_behind(last, delta) else {
            return Ok(None);
        };
        ptrs.push(ptr)?;
        last = number_of(&ptr);
        left = behind;
    }
    Ok(Some(last))
}

// The first pointer of the segment at the front of bytes, the bytes of its deltas, and the bytes
// behind it. None comes exactly where there is no such segment.
fn split_segment(bytes: &[u8]) -> Option<(RowPtr, &[u8], &[u8])>
    ensures { MatchOption result
        ((first : RowPtr) (deltas left : List ℕ)
        → StartsWithSegment bytes.now first deltas left → ⊥)
        (λ parts. StartsWithSegment bytes.now parts.0 parts.1.now parts.2.now) }
{
    if bytes.len() < HEAD {
        return None;
    }
    let first = RowPtr::at(bytes, 0);
    let count = usize::from(u16_at(bytes, COUNT));
    let end = HEAD + count;
    if !is_storable(&first) {
        return None;
    }
    if !is_padded(bytes, end, count % 2) {
        return None;
    }
    Some((first, &bytes[HEAD..end], &bytes[end + count % 2..]))
}

// Whether the bytes have so many zeros at a place, none or one.
#[tactic(auto, unfolding(pg_bytes::specs::Places::zeros))]
fn is_padded(bytes: &[u8], place: usize, count: usize) -> bool
    requires few { count < 2 }
    requires place { place < 2 ^ 17 }
    ensures { IsTrue result ↔ HasZeros bytes.now place count }
{
    if count == 0 {
        place <= bytes.len()
    } else {
        place < bytes.len() && bytes[place] == 0
    }
}

// The pointer that is so far behind one with this number. None comes exactly where there is none.
fn pointer_behind(number: u64, delta: u64) -> Option<RowPtr>
    requires number { number < 2 ^ 44 }
    requires delta { delta < 2 ^ 49 }
    ensures { MatchOption result
        ((ptr : RowPtr) → IsPointerBehind number delta ptr → ⊥)
        (λ ptr. IsPointerBehind number delta ptr) }
{
    let next = number + delta;
    let block = u32::try_from(next / OFFSETS).ok()?;
    let offset = (next % OFFSETS) as u16;
    if offset == 0 {
        return None;
    }
    Some(RowPtr { block, offset })
}
