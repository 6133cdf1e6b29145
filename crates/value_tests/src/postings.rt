ghost use Rattle.std.specs.Prelude.{◌↔◌, IsTrue};
ghost use Rattle.posting_tree.specs.Segments.{AreAscending, IsBeforeFirst};

use pg_bytes::{Bytes, IndexImage, PAGE, RowPtr, u16_at};
use posting_tree::{build_tree, decode, encode};
use std::alloc::{AllocError, Global};
use std::process::Abort;
use std::test::Fail;

fn row(block: u32, offset: u16) -> RowPtr {
    RowPtr { block, offset }
}

// Whether a posting list may have these pointers.
fn are_ascending(ptrs: &[RowPtr]) -> bool
    ensures { IsTrue result ↔ AreAscending ptrs.now }
{
    let mut left = ptrs;
    while let [ptr, others @ ..] = left {
        if ptr.offset < 1 || ptr.offset > 2047 || !is_before_first(ptr, others) {
            return false;
        }
        left = others;
    }
    true
}

fn is_before_first(ptr: &RowPtr, others: &[RowPtr]) -> bool
    ensures { IsTrue result ↔ IsBeforeFirst ptr.now others.now }
{
    match others {
        [next, ..] => ptr.is_before(next),
        [] => true,
    }
}

// The segment of pointers, which is read back as them.
fn segment_of(rt: &impl Abort, alloc: Global, ptrs: &[RowPtr]) -> Result<Bytes, AllocError> {
    assert!(rt; !ptrs.is_empty() && ptrs.len() <= 9000 && are_ascending(ptrs));
    let bytes = encode(alloc, ptrs)?;
    assert!(rt; is_decoded(alloc, bytes.as_slice(), ptrs)?);
    Ok(bytes)
}

fn is_decoded(alloc: Global, bytes: &[u8], ptrs: &[RowPtr]) -> Result<bool, AllocError> {
    match decode(alloc, bytes)? {
        Some(decoded) => Ok(decoded.as_slice() == ptrs),
        None => Ok(false),
    }
}

// A segment of two pointers of which the first is (0, 2), as its second one and its bytes behind the
// first.
type Pair = ((u32, u16), &'static [u8]);

// The least and the greatest delta of each number of bytes.
static PAIRS: [Pair; 14] = [
    ((0, 3), &[1, 0, 0x01, 0]),
    ((0, 129), &[1, 0, 0x7F, 0]),
    ((0, 130), &[2, 0, 0x80, 0x01]),
    ((8, 1), &[2, 0, 0xFF, 0x7F]),
    ((8, 2), &[3, 0, 0x80, 0x80, 0x01, 0]),
    ((1024, 1), &[3, 0, 0xFF, 0xFF, 0x7F, 0]),
    ((1024, 2), &[4, 0, 0x80, 0x80, 0x80, 0x01]),
    ((131_072, 1), &[4, 0, 0xFF, 0xFF, 0xFF, 0x7F]),
    ((131_072, 2), &[5, 0, 0x80, 0x80, 0x80, 0x80, 0x01, 0]),
    ((16_777_216, 1), &[5, 0, 0xFF, 0xFF, 0xFF, 0xFF, 0x7F, 0]),
    ((16_777_216, 2), &[6, 0, 0x80, 0x80, 0x80, 0x80, 0x80, 0x01]),
    (
        (2_147_483_648, 1),
        &[6, 0, 0xFF, 0xFF, 0xFF, 0xFF, 0xFF, 0x7F],
    ),
    (
        (2_147_483_648, 2),
        &[7, 0, 0x80, 0x80, 0x80, 0x80, 0x80, 0x80, 0x01, 0],
    ),
    (
        (4_294_967_295, 2047),
        &[7, 0, 0xFD, 0xFF, 0xFF, 0xFF, 0xFF, 0xFF, 0x01, 0],
    ),
];

fn check_pair(rt: &impl Abort, alloc: Global, pair: &Pair) -> Result<(), AllocError> {
    let (block, offset) = pair.0;
    let bytes = segment_of(rt, alloc, &[row(0, 2), row(block, offset)])?;
    let mut wanted = [0, 0, 0, 0, 2, 0].to_vec(alloc)?;
    wanted.extend_from_slice(pair.1)?;
    assert!(rt; bytes.as_slice() == wanted.as_slice());
    Ok(())
}

#[test]
fn deltas_take_the_fewest_bytes(rt: HostRuntime) -> Result<(), Fail> {
    for pair in &PAIRS {
        check_pair(&rt, rt.alloc(), pair)?;
    }
    Ok(())
}

#[test]
fn segments_of_a_small_index_have_these_bytes(rt: HostRuntime) -> Result<(), Fail> {
    let alloc = rt.alloc();
    let two = segment_of(&rt, alloc, &[row(0, 1), row(0, 4)])?;
    let wanted = [0, 0, 0, 0, 1, 0, 1, 0, 3, 0];
    assert!(rt; two.as_slice() == wanted.as_slice());
    let one = segment_of(&rt, alloc, &[row(0, 4)])?;
    assert!(rt; one.as_slice() == [0, 0, 0, 0, 4, 0, 0, 0].as_slice());
    let last = segment_of(&rt, alloc, &[row(4_294_967_295, 2047)])?;
    let wanted = [0xFF, 0xFF, 0xFF, 0xFF, 0xFF, 0x07, 0, 0];
    assert!(rt; last.as_slice() == wanted.as_slice());
    Ok(())
}

// So many pointers, with so many on each block, the first on (0, 1).
fn rows(alloc: Global, count: usize, of_block: u16) -> Result<Vec<RowPtr>, AllocError> {
    let mut ptrs = Vec::new(alloc);
    for block in 0..=u32::MAX {
        for offset in 1..=of_block {
            if ptrs.len() == count {
                return Ok(ptrs);
            }
            ptrs.push(row(block, offset))?;
        }
    }
    Ok(ptrs)
}

// So many pointers, each on the first offset of a block, and so many blocks from one to the next.
fn far_rows(alloc: Global, count: u32, blocks: u32) -> Result<Vec<RowPtr>, AllocError> {
    let mut ptrs = Vec::new(alloc);
    for at in 0..count {
        ptrs.push(row(at.saturating_mul(blocks), 1))?;
    }
    Ok(ptrs)
}

#[test]
fn a_list_at_the_bound_of_an_entry_tuple_has_2696_bytes(rt: HostRuntime) -> Result<(), Fail> {
    // 2,650 deltas of 1 on the same block, and 19 of 1,913 to the next one.
    let ptrs = rows(rt.alloc(), 2670, 136)?;
    let bytes = segment_of(&rt, rt.alloc(), &ptrs)?;
    assert!(rt; bytes.len() == 8 + 2650 + 2 * 19);
    Ok(())
}

#[test]
fn the_longest_list_is_one_segment(rt: HostRuntime) -> Result<(), Fail> {
    let ptrs = far_rows(rt.alloc(), 9000, 400_000)?;
    let bytes = segment_of(&rt, rt.alloc(), &ptrs)?;
    assert!(rt; bytes.len() == 8 + 5 * 8999 + 1);
    assert!(rt; u16_of(&rt, bytes.as_slice(), 6) == 5 * 8999);
    Ok(())
}

fn u16_of(rt: &impl Abort, bytes: &[u8], at: usize) -> u16 {
    assert!(rt; at < 1 << 40 && at + 2 <= bytes.len());
    u16_at(bytes, at)
}

#[test]
fn segments_stand_one_behind_the_other(rt: HostRuntime) -> Result<(), Fail> {
    let bytes = [
        0, 0, 0, 0, 1, 0, 1, 0, 3, 0, 0, 0, 0, 0, 5, 0, 0, 0, 0, 0, 9, 0, 1, 0, 0, 0,
    ];
    let wanted = [row(0, 1), row(0, 4), row(0, 5), row(9, 1)];
    assert!(rt; is_decoded(rt.alloc(), &bytes, &wanted)?);
    assert!(rt; is_decoded(rt.alloc(), &[], &[])?);
    Ok(())
}

// Bytes that are no segments of a list.
static NO_SEGMENTS: [&[u8]; 17] = [
    // a byte less than the head
    &[0, 0, 0, 0, 1, 0, 0],
    // no offset number, and one of twelve bits
    &[0, 0, 0, 0, 0, 0, 0, 0],
    &[0, 0, 0, 0, 0, 8, 0, 0],
    // deltas that end before they are counted, and a number that goes on
    &[0, 0, 0, 0, 1, 0, 2, 0, 3],
    &[0, 0, 0, 0, 1, 0, 1, 0, 0x83, 0],
    // a zero byte that isn't there, or isn't zero, or isn't asked for
    &[0, 0, 0, 0, 1, 0, 1, 0, 3],
    &[0, 0, 0, 0, 1, 0, 1, 0, 3, 1],
    &[0, 0, 0, 0, 1, 0, 2, 0, 3, 3, 0],
    // a delta of zero, as one byte and as two
    &[0, 0, 0, 0, 1, 0, 1, 0, 0, 0],
    &[0, 0, 0, 0, 1, 0, 2, 0, 0x80, 0],
    // a delta in more bytes than it takes, and in more than seven
    &[0, 0, 0, 0, 1, 0, 2, 0, 0x83, 0],
    &[
        0, 0, 0, 0, 1, 0, 8, 0, 0x80, 0x80, 0x80, 0x80, 0x80, 0x80, 0x80, 1,
    ],
    // a delta to offset number 0 of the next block, and one past the last block
    &[0, 0, 0, 0, 1, 0, 2, 0, 0xFF, 0x0F],
    &[0xFF, 0xFF, 0xFF, 0xFF, 1, 0, 2, 0, 0x80, 0x10],
    // a segment that begins with the last pointer before it, and one before it
    &[0, 0, 0, 0, 1, 0, 1, 0, 3, 0, 0, 0, 0, 0, 4, 0, 0, 0],
    &[0, 0, 0, 0, 1, 0, 1, 0, 3, 0, 0, 0, 0, 0, 3, 0, 0, 0],
    // zeros behind a segment
    &[0, 0, 0, 0, 1, 0, 0, 0, 0, 0],
];

#[test]
fn bytes_that_are_no_segments_are_refused(rt: HostRuntime) -> Result<(), Fail> {
    for bytes in &NO_SEGMENTS {
        assert!(rt; decode(rt.alloc(), bytes)?.is_none());
    }
    Ok(())
}

// The pages above 816 leaves, by their places in the file: the first one full with block 0 first and
// block 814 last, the second one with the last leaf, and the root with both. The last pointer of
// leaf 814 is on block 1,647,420,416.
static LEVELS: [(usize, &[u8]); 9] = [
    (
        816 * PAGE + 12,
        &[0xF6, 0x1F, 0xF8, 0x1F, 0xF8, 0x1F, 0x04, 0x20],
    ),
    (816 * PAGE + 24, &[0x31, 0x62, 0x00, 0xA4, 1, 0, 0, 0]),
    (816 * PAGE + 32, &[0, 0, 0, 0]),
    (816 * PAGE + 32 + 8140, &[0, 0, 0x2E, 0x03]),
    (816 * PAGE + 8184, &[0x31, 0x03, 0, 0, 0x2F, 0x03, 1, 0]),
    (817 * PAGE + 32, &[0, 0, 0x2F, 0x03]),
    (817 * PAGE + 8184, &[0xFF, 0xFF, 0xFF, 0xFF, 1, 0, 1, 0]),
    (818 * PAGE + 32, &[0, 0, 0x30, 0x03]),
    (818 * PAGE + 42, &[0, 0, 0x31, 0x03]),
];

// 1,608,853 pointers with deltas of four bytes: 94 to a segment of 380 bytes, 21 segments to a leaf,
// and a last segment of 176 bytes, which the leaf before it has no room for. So there are 816
// leaves, one more than a page above has items for. No heap that a run reads has so many blocks.
#[test]
fn more_leaves_than_a_page_has_items_make_a_third_level(rt: HostRuntime) -> Result<(), Fail> {
    let alloc = rt.alloc();
    let ptrs = far_rows(alloc, 815 * 1974 + 43, 1024)?;
    assert!(rt; !ptrs.is_empty() && ptrs.len() < 1 << 30 && are_ascending(&ptrs));
    let mut image = IndexImage::new(alloc);
    assert!(rt; build_tree(alloc, &mut image, &ptrs)? == 818 && image.blocks() == 819);
    for (place, piece) in &LEVELS {
        let rest = image.bytes().get(*place..);
        assert!(rt; rest.is_some_and(|rest| rest.starts_with(piece)));
    }
    Ok(())
}
