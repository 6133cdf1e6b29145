ghost use Rattle.std.specs.Prelude.{◌≡◌, ◌≤◌, Some, None, MatchOption};
ghost use Rattle.pg_bytes.specs.Lines.{item_at, line_count};
ghost use Rattle.btree_page.specs.Node.{data_count, data_item, has_high_key, high_key, lines_before};

use crate::special::SpecialSpace;
use pg_bytes::Page;

/// Whether a page has a high key: it has a right neighbour, and a line pointer.
pub fn has_high_key(page: &Page) -> bool
    ensures { result ≡ has_high_key page.now }
{
    SpecialSpace::read(page).next != 0 && page.line_count() != 0
}

/// The high key's bytes, the item under the first line pointer (`P_HIKEY` of `nbtree.h`). None
/// comes exactly where the page has no high key, or that line pointer leads to no item.
pub fn high_key<'a>(page: &Page<'a>) -> Option<&'a [u8]>
    ensures { MatchOption result (high_key page.now ≡ None)
        (λ key. high_key page.now ≡ Some key.now) }
{
    if has_high_key(page) {
        item_under(page, 1)
    } else {
        None
    }
}

/// How many items a page has, its high key not counted.
pub fn data_count(page: &Page) -> u16
    ensures value { result ≡ data_count page.now }
    ensures most { result ≤ 16384 }
{
    let _lower = page.lower();
    page.line_count() - lines_before(page)
}

/// The bytes of an item of a page, counted from 0, the high key not counted. None comes exactly
/// where the page has no such item, or its line pointer leads to none.
pub fn data_item<'a>(page: &Page<'a>, number: u16) -> Option<&'a [u8]>
    ensures { MatchOption result (data_item page.now number ≡ None)
        (λ item. data_item page.now number ≡ Some item.now) }
{
    if number < data_count(page) {
        item_under(page, lines_before(page) + 1 + number)
    } else {
        None
    }
}

// How many line pointers stand before those of the items (`P_FIRSTDATAKEY`).
fn lines_before(page: &Page) -> u16
    ensures { result ≡ lines_before page.now }
{
    if has_high_key(page) { 1 } else { 0 }
}

// The item under a line pointer, if one is there.
fn item_under<'a>(page: &Page<'a>, line: u16) -> Option<&'a [u8]>
    ensures { MatchOption result (item_at page.now line ≡ None)
        (λ item. item_at page.now line ≡ Some item.now) }
{
    match page.item(line) {
        Some(item) => Some(item),
        None => None,
    }
}
