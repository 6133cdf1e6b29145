ghost use Rattle.std.specs.Prelude.{◌≡◌, ◌+◌, ◌*◌, ◌<◌, ◌≤◌, ◌^◌, ◌++◌, All, length, map, take, IfOk, OnOk};
ghost use Rattle.std.specs.List.{flat_map};
ghost use Rattle.brin_summary.specs.Answer.{tuple_size};
ghost use Rattle.brin_summary.specs.File.{page_count, page_counts, parts, taken, tuples_from};
ghost use Rattle.brin_summary.specs.Page.{regular_page};

use crate::page::empty_page;
use crate::summary::Summary;
use crate::tuple::BoundKinds;
use pg_bytes::{IndexImage, LINE_POINTER, PageBuf};
use std::alloc::{AllocError, Global};

// What a page has for tuples and their line pointers.
const PAGE_ROOM: u32 = 8160;

/// How many of the tuples of these sizes, which follow each other, the next page takes
/// (`brin_getinsertbuffer` of `brin_pageops.c`): those before the first for which it hasn't room.
pub fn tuples_on_page(sizes: &[u16]) -> u16
    requires some { 0 < length sizes.now }
    requires fit { All (λ size. size ≤ 8152) sizes.now }
    ensures count { result ≡ page_count sizes.now }
    ensures some { 0 < result }
    ensures inside { result ≤ length sizes.now }
    ensures few { result < 2 ^ 15 }
    ensures room { taken (take result sizes.now) ≤ 8160 }
{
    let mut taken = 0;
    for (count, size) in sizes.iter().enumerate() {
        taken += u32::from(*size) + LINE_POINTER as u32;
        if taken > PAGE_ROOM {
            return count as u16;
        }
    }
    sizes.len() as u16
}

/// Adds the regular pages of the ranges' tuples, which have these sizes, to the image. An error
/// means that no memory was left.
pub fn put_tuples(
    alloc: Global,
    image: &mut IndexImage,
    kinds: &BoundKinds,
    pages_per_range: u32,
    ranges: &[Summary],
    sizes: &[u16],
) -> Result<(), AllocError>
    requires columns { All (λ range. length range.columns ≤ 32) ranges.now }
    requires sizes { sizes.now ≡ map (tuple_size kinds.now) ranges.now }
    requires fit { All (λ size. size ≤ 8152) sizes.now }
    requires blocks { length ranges.now * pages_per_range < 2 ^ 24 }
    requires room { length image.old + 8192 * length ranges.now ≤ 8192 * 2 ^ 30 }
    ensures { OnOk result (image.new ≡ image.old
        ++ flat_map regular_page (parts (page_counts sizes.now)
        (tuples_from kinds.now pages_per_range 0 ranges.now))) }
{
    let mut tuple = Vec::new(alloc);
    let mut first = 0;
    let mut left = ranges;
    let mut sizes = sizes;
    while !left.is_empty() {
        let count = usize::from(tuples_on_page(sizes));
        let on_page = &left[..count];
        let page = regular_page(alloc, &mut tuple, kinds, pages_per_range, first, on_page)?;
        image.append(&page)?;
        left = &left[count..];
        sizes = &sizes[count..];
        first += count as u32 * pages_per_range;
    }
    Ok(())
}

// The regular page with the tuples of these ranges, of which the first begins with a block. An
// error means that no memory was left.
fn regular_page(
    alloc: Global,
    tuple: &mut Vec<u8>,
    kinds: &BoundKinds,
    pages_per_range: u32,
    first: u32,
    ranges: &[Summary],
) -> Result<PageBuf, AllocError>
    requires columns { All (λ range. length range.columns ≤ 32) ranges.now }
    requires fit { All (λ range. tuple_size kinds.now range ≤ 8152) ranges.now }
    requires room { taken (map (tuple_size kinds.now) ranges.now) ≤ 8160 }
    requires blocks { first + length ranges.now * pages_per_range < 2 ^ 32 }
    ensures { IfOk result (λ page.
        page ≡ regular_page (tuples_from kinds.now pages_per_range first ranges.now)) }
{
    let mut page = empty_page(alloc)?;
    let mut block = first;
    for (at, range) in ranges.iter().enumerate() {
        kinds.put_tuple(tuple, block, range)?;
        page.put_item(at as u16 + 1, tuple);
        block += pages_per_range;
    }
    Ok(page)
}
