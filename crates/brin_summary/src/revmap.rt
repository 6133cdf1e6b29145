ghost use Rattle.std.specs.Prelude.{◌≡◌, ◌+◌, ◌*◌, ◌<◌, ◌≤◌, ◌^◌, ◌++◌, All, drop, length, take, IfOk, OnOk};
ghost use Rattle.brin_summary.specs.File.{page_counts, pointers_from, pointers_to, revmap_of, revmap_pages};

use crate::page::{REVMAP_ITEMS, revmap_page};
use crate::regular::tuples_on_page;
use pg_bytes::{IndexImage, RowPtr};
use std::alloc::{AllocError, Global};

/// How many pages the revmap of so many ranges has.
pub fn revmap_pages(ranges: u32) -> u32
    ensures { result ≡ revmap_pages ranges }
{
    ranges.div_ceil(REVMAP_ITEMS as u32).max(1)
}

/// The pointers to the tuples of these sizes, which regular pages from a block on take. An error
/// means that no memory was left.
pub fn tuple_pointers(alloc: Global, first: u32, sizes: &[u16]) -> Result<Vec<RowPtr>, AllocError>
    requires fit { All (λ size. size ≤ 8152) sizes.now }
    requires blocks { first + length sizes.now < 2 ^ 32 }
    ensures { IfOk result (λ pointers.
        pointers.items ≡ pointers_from first (page_counts sizes.now)) }
{
    let mut pointers = Vec::with_capacity(alloc, sizes.len())?;
    let mut block = first;
    let mut left = sizes;
    while !left.is_empty() {
        let count = tuples_on_page(left);
        push_pointers(&mut pointers, block, count)?;
        left = &left[usize::from(count)..];
        block += 1;
    }
    Ok(pointers)
}

// Adds the pointers to so many tuples of a block.
fn push_pointers(pointers: &mut Vec<RowPtr>, block: u32, count: u16) -> Result<(), AllocError>
    requires { count < 2 ^ 15 }
    ensures { OnOk result (pointers.new.items ≡ pointers.old.items ++ pointers_to block count) }
{
    for offset in 1..count + 1 {
        pointers.push(RowPtr { block, offset })?;
    }
    Ok(())
}

/// Adds the revmap of these pointers to the image, of so many pages. An error means that no memory
/// was left.
pub fn put_revmap(
    alloc: Global,
    image: &mut IndexImage,
    pages: u32,
    pointers: &[RowPtr],
) -> Result<(), AllocError>
    requires room { length image.old + 8192 * pages ≤ 8192 * 2 ^ 30 }
    ensures { OnOk result (image.new ≡ image.old ++ revmap_of pages pointers.now) }
{
    for page in 0..pages {
        let first = REVMAP_ITEMS * page as usize;
        image.append(&revmap_page(alloc, items_from(pointers, first))?)?;
    }
    Ok(())
}

// The pointers from a place on that a page of the revmap takes.
fn items_from(pointers: &[RowPtr], first: usize) -> &[RowPtr]
    ensures { result.now ≡ take 1360 (drop first pointers.now) }
{
    let from = first.min(pointers.len());
    let left = &pointers[from..];
    &left[..left.len().min(REVMAP_ITEMS)]
}
