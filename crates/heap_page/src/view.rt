ghost use Rattle.std.specs.Prelude.{◌≡◌, ◌≤◌, ◌↔◌, length, IsTrue};
ghost use Rattle.pg_bytes.specs.Lines.{line_at};
ghost use Rattle.heap_page.specs.Fault.{IsSoundPage};
ghost use Rattle.heap_page.specs.Layout.{most_lines};
ghost use Rattle.heap_page.specs.Line.{IsLine, IsNormal, IsRedirect, heap_line_count};
ghost use Rattle.heap_page.specs.Settled.{AllSettled};
ghost use Rattle.heap_page.specs.Tuple.{header_of, item_of};

use crate::header::Header;
use crate::layout::{header_at, lines_of};
use pg_bytes::{LinePtr, LineState, Page};
use std::marker::Model;

/// A heap page without a fault, seen as its 8,192 bytes and the number of columns that it was
/// checked for. `check_page` makes it. Items are told by their line pointer's number, from 1.
#[derive(Debug, Drop)]
pub struct View<'a> {
    page: Page<'a>,
    columns: u16,
}

impl<'a> Model for View<'a> {
    ghost use Rattle.heap_page.specs.CheckedPage.{CheckedPage};
    ghost use Rattle.heap_page.specs.Fault.{IsSoundPage};

    ghost Value = { CheckedPage };

    ghost view = { λ view. record { bytes = view.page; columns = view.columns } };

    ghost invariant = { λ view. IsSoundPage view.page view.columns };
}

impl<'a> View<'a> {
    // The view of a page that was checked.
    pub(crate) fn of(page: &Page<'a>, columns: u16) -> View<'a>
        requires { IsSoundPage page.now columns }
        ensures view { result ≡ record { bytes = page.now; columns = columns } }
        ensures settled { AllSettled result.bytes }
    {
        View {
            page: same_page(page),
            columns,
        }
    }

    /// How many line pointers the page has, at most 2,042 (`PageGetMaxOffsetNumber` of
    /// `bufpage.h`).
    pub fn lines(&self) -> u16
        ensures count { result ≡ heap_line_count self.now.bytes }
        ensures most { result ≤ most_lines }
    {
        lines_of(&self.page)
    }

    /// The line pointer of an item.
    pub fn line(&self, item: u16) -> LinePtr
        requires { IsLine self.now.bytes item }
        ensures { result ≡ line_at self.now.bytes item }
    {
        self.page.line(item)
    }

    /// Whether the line pointer leads to a tuple of the page.
    pub fn is_normal(&self, item: u16) -> bool
        requires { IsLine self.now.bytes item }
        ensures { IsTrue result ↔ IsNormal self.now.bytes item }
    {
        self.line(item).state == LineState::Normal as u8
    }

    /// Whether the line pointer leads to another line pointer.
    pub fn is_redirect(&self, item: u16) -> bool
        requires { IsLine self.now.bytes item }
        ensures { IsTrue result ↔ IsRedirect self.now.bytes item }
    {
        self.line(item).state == LineState::Redirect as u8
    }

    /// The header of a normal item's tuple.
    pub fn header(&self, item: u16) -> Header
        requires { IsNormal self.now.bytes item }
        ensures { result ≡ header_of self.now.bytes item }
    {
        header_at(&self.page, usize::from(self.line(item).offset))
    }

    /// The bytes of a normal item's tuple, its header among them.
    pub fn item(&self, item: u16) -> &'a [u8]
        requires { IsNormal self.now.bytes item }
        ensures value { result.now ≡ item_of self.now.bytes item }
        ensures size { length result.now ≡ (line_at self.now.bytes item).length }
    {
        let line = self.line(item);
        self.page.bytes_of(&line)
    }
}

// The page once more: a `Page` doesn't hold its bytes, they are lent.
pub(crate) fn same_page<'a>(page: &Page<'a>) -> Page<'a>
    ensures { result ≡ page.now }
{
    match Page::of(page.bytes()) {
        Some(page) => page,
        None => unreachable!(),
    }
}
