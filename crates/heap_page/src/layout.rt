ghost use Rattle.std.specs.Prelude.{◌≡◌, ◌+◌, ◌≤◌, ◌↔◌, length, IsTrue};
ghost use Rattle.heap_page.specs.Layout.{bitmap_place};
ghost use Rattle.heap_page.specs.Line.{IsNew, heap_line_count};
ghost use Rattle.heap_page.specs.Tuple.{header_at};
ghost use Rattle.pg_bytes.specs.Numbers.{number_at};
ghost use Rattle.pg_bytes.specs.PageLayout.{page_size};

use crate::header::Header;
use pg_bytes::{Page, RowPtr, u16_at, u32_at};

// Where the fields of a tuple's header stand (`HeapTupleHeaderData` of htup_details.h).
const T_XMIN: usize = 0;

const T_XMAX: usize = 4;

const T_CTID: usize = 12;

const T_INFOMASK2: usize = 18;

const T_INFOMASK: usize = 20;

const T_HOFF: usize = 22;

// The bytes of a tuple header without a null bitmap, aligned (`MAXALIGN(SizeofHeapTupleHeader)`).
pub(crate) const LEAST_HEADER: u8 = 24;

// Where a tuple's null bitmap begins (`SizeofHeapTupleHeader`).
pub(crate) const NULL_BITMAP: u16 = 23;

// The alignment of tuples and of their attributes (`MAXIMUM_ALIGNOF`).
pub(crate) const ALIGNMENT: u16 = 8;

// Whether nothing was put on the page yet.
pub(crate) fn is_new(page: &Page) -> bool
    ensures { IsTrue result ↔ IsNew page.now }
{
    page.upper() == 0
}

// How many line pointers a page has.
pub(crate) fn lines_of(page: &Page) -> u16
    ensures { result ≡ heap_line_count page.now }
{
    if is_new(page) { 0 } else { page.line_count() }
}

// The tuple header at a place.
pub(crate) fn header_at(page: &Page, place: usize) -> Header
    requires { place + bitmap_place ≤ page_size }
    ensures { result ≡ header_at page.now place }
{
    let bytes = page.bytes();
    Header {
        xmin: u32_at(bytes, place + T_XMIN),
        xmax: u32_at(bytes, place + T_XMAX),
        ctid: RowPtr::at(bytes, place + T_CTID),
        infomask2: u16_at(bytes, place + T_INFOMASK2),
        infomask: u16_at(bytes, place + T_INFOMASK),
        hoff: byte_at(bytes, place + T_HOFF),
    }
}

// The number of one byte at a place.
#[tactic(auto, unfolding(pg_bytes::specs::Numbers::number_at))]
fn byte_at(bytes: &[u8], place: usize) -> u8
    requires { place + 1 ≤ length bytes.now }
    ensures { result ≡ number_at 1 bytes.now place }
{
    bytes[place]
}
