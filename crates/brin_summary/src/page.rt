ghost use Rattle.std.specs.Prelude.{◌≡◌, ◌<◌, ◌≤◌, [], length, IfOk};
ghost use Rattle.brin_summary.specs.Page.{regular_page, revmap_entry, revmap_page};

use crate::special::{PageType, SPECIAL_BYTES, SPECIAL_PLACE};
use pg_bytes::{PAGE_HEADER, Page, PageBuf, RowPtr};
use std::alloc::{AllocError, Global};

/// How many pointers a page of the revmap has (`REVMAP_PAGE_MAXITEMS` of `brin_page.h`).
pub const REVMAP_ITEMS: usize = 1360;

// The bytes of a row pointer (`sizeof(ItemPointerData)`).
const POINTER: usize = 6;

/// A page of the revmap with these pointers (`brinSetHeapBlockItemptr` of `brin_revmap.c`), which
/// takes as many as there is room for. An error means that no memory was left.
pub fn revmap_page(alloc: Global, pointers: &[RowPtr]) -> Result<PageBuf, AllocError>
    requires { length pointers.now ≤ 1360 }
    ensures { IfOk result (λ page. page ≡ revmap_page pointers.now) }
{
    let mut page = PageBuf::new(alloc, SPECIAL_BYTES as u16)?;
    page.put_slice(SPECIAL_PLACE, &PageType::Revmap.special_space());
    for (at, pointer) in pointers.iter().enumerate() {
        page.put_slice(PAGE_HEADER + POINTER * at, &pointer.bytes());
    }
    Ok(page)
}

/// The entry of this number of a page of the revmap, counted from 0.
pub fn revmap_entry(page: &Page, entry: usize) -> RowPtr
    requires { entry < 1360 }
    ensures { result ≡ revmap_entry page.now entry }
{
    RowPtr::at(page.bytes(), PAGE_HEADER + POINTER * entry)
}

/// A regular page without tuples. An error means that no memory was left.
pub fn empty_page(alloc: Global) -> Result<PageBuf, AllocError>
    ensures { IfOk result (λ page. page ≡ regular_page []) }
{
    let mut page = PageBuf::new(alloc, SPECIAL_BYTES as u16)?;
    page.put_slice(SPECIAL_PLACE, &PageType::Regular.special_space());
    Ok(page)
}
