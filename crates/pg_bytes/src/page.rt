ghost use Rattle.std.specs.Prelude.{◌≡◌, ◌≢◌, ◌↔◌, ◌+◌, ◌≤◌, length, Some, IsNone, IfSome};
ghost use Rattle.pg_bytes.specs.Lines.{EndsInside, HasItem, bytes_of, item_at, line_at, line_count};
ghost use Rattle.pg_bytes.specs.PageLayout.{header_flags_of, lower_of, special_of, special_space_of, upper_of};
ghost use Rattle.pg_bytes.specs.PageLayout.{line_place, line_pointer_size, page_size};

use crate::header::{PD_FLAGS, PD_LOWER, PD_SPECIAL, PD_UPPER};
use crate::line_ptr::{LinePtr, LineState};
use crate::numbers::{u16_at, u32_at};
use crate::{LINE_POINTER, PAGE, PAGE_HEADER};
use std::marker::Model;

/// A page that is read, seen as its 8,192 bytes.
#[derive(Debug, Drop)]
pub struct Page<'a> {
    bytes: &'a [u8],
}

impl<'a> Model for Page<'a> {
    ghost use Rattle.std.specs.Prelude.{List, ℕ, ◌≡◌, length};
    ghost use Rattle.pg_bytes.specs.PageLayout.{page_size};

    ghost Value = { List ℕ };

    ghost view = { λ page. page.bytes.now };

    ghost invariant = { λ page. length page.bytes.now ≡ page_size };
}

impl<'a> Page<'a> {
    /// The page of these bytes. None comes exactly where they aren't 8,192.
    pub fn of(bytes: &'a [u8]) -> Option<Page<'a>>
        ensures refused { IsNone result ↔ (length bytes.now ≢ page_size) }
        ensures page { IfSome result (λ page. page ≡ bytes.now) }
    {
        if bytes.len() == PAGE {
            Some(Page { bytes })
        } else {
            None
        }
    }

    // The page of a block.
    pub(crate) fn of_block(bytes: &'a [u8]) -> Page<'a>
        requires { length bytes.now ≡ page_size }
        ensures { result ≡ bytes.now }
    {
        Page { bytes }
    }

    /// The page's 8,192 bytes.
    pub fn bytes(&self) -> &'a [u8]
        ensures value { result.now ≡ self.now }
        ensures size { length result.now ≡ page_size }
    {
        self.bytes
    }

    /// The page's flags (`pd_flags`).
    pub fn flags(&self) -> u16
        ensures { result ≡ header_flags_of self.now }
    {
        u16_at(self.bytes, PD_FLAGS)
    }

    /// Where the line pointers end, in bytes from the page's start (`pd_lower`).
    pub fn lower(&self) -> u16
        ensures { result ≡ lower_of self.now }
    {
        u16_at(self.bytes, PD_LOWER)
    }

    /// Where the items begin, in bytes from the page's start (`pd_upper`).
    pub fn upper(&self) -> u16
        ensures { result ≡ upper_of self.now }
    {
        u16_at(self.bytes, PD_UPPER)
    }

    /// Where the special space begins, in bytes from the page's start (`pd_special`).
    pub fn special(&self) -> u16
        ensures { result ≡ special_of self.now }
    {
        u16_at(self.bytes, PD_SPECIAL)
    }

    /// The special space: the page's last bytes, none where `pd_special` is behind its end
    /// (`PageGetSpecialPointer`).
    pub fn special_space(&self) -> &'a [u8]
        ensures { result.now ≡ special_space_of self.now }
    {
        let start = usize::from(self.special()).min(PAGE);
        &self.bytes[start..]
    }

    /// How many line pointers the page has by `pd_lower`, which may be wrong: 0 where that is
    /// within the header (`PageGetMaxOffsetNumber`).
    pub fn line_count(&self) -> u16
        ensures { result ≡ line_count self.now }
    {
        self.lower().saturating_sub(PAGE_HEADER as u16) / LINE_POINTER as u16
    }

    /// The line pointer of this number, counted from 1, which is within the page (`PageGetItemId`).
    pub fn line(&self, number: u16) -> LinePtr
        requires counted { 1 ≤ number }
        requires inside { line_place number + line_pointer_size ≤ page_size }
        ensures { result ≡ line_at self.now number }
    {
        let place = PAGE_HEADER + LINE_POINTER * (usize::from(number) - 1);
        LinePtr::of_word(u32_at(self.bytes, place))
    }

    /// The bytes to which a line pointer leads (`PageGetItem`).
    pub fn bytes_of(&self, line: &LinePtr) -> &'a [u8]
        requires { EndsInside line.now }
        ensures value { result.now ≡ bytes_of self.now line.now }
        ensures size { length result.now ≡ line.now.length }
    {
        let start = usize::from(line.offset);
        &self.bytes[start..start + usize::from(line.length)]
    }

    /// The bytes of the item under a line pointer, counted from 1. None comes exactly where the
    /// page has no such line pointer, it isn't normal, or its bytes don't end on the page.
    pub fn item(&self, number: u16) -> Option<&'a [u8]>
        ensures refused { IsNone result ↔ (HasItem self.now number → ⊥) }
        ensures item { IfSome result (λ item. item_at self.now number ≡ Some item.now) }
    {
        match self.item_line(number) {
            Some(line) => Some(self.bytes_of(&line)),
            None => None,
        }
    }

    // The line pointer of this number, if an item stands under it.
    fn item_line(&self, number: u16) -> Option<LinePtr>
        ensures refused { IsNone result ↔ (HasItem self.now number → ⊥) }
        ensures line { IfSome result (λ line. HasItem self.now number
            × (line ≡ line_at self.now number)) }
    {
        let _page = self.bytes;
        if number == 0 || number > self.line_count() || number > MOST_LINES {
            return None;
        }
        let line = self.line(number);
        if line.state == LineState::Normal as u8 && line.ends_inside() {
            Some(line)
        } else {
            None
        }
    }
}

// The most line pointers that a page can have, were it full of them.
const MOST_LINES: u16 = ((PAGE - PAGE_HEADER) / LINE_POINTER) as u16;
