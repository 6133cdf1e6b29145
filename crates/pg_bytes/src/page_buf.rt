ghost use Rattle.std.specs.Prelude.{◌≡◌, ◌⊎◌, ◌+◌, ◌*◌, ◌<◌, ◌≤◌, length, IfOk};
ghost use Rattle.pg_bytes.specs.Numbers.{number_bytes, rounded_up};
ghost use Rattle.pg_bytes.specs.PageLayout.{aligned, empty_page, lower_with, page_size, upper_of, with_item};
ghost use Rattle.pg_bytes.specs.Places.{written, zeros};

use crate::header::{PAGE_VERSION, PD_LOWER, PD_PAGESIZE_VERSION, PD_SPECIAL, PD_UPPER};
use crate::line_ptr::{LinePtr, LineState};
use crate::numbers::{al8, u16_at, zero_bytes};
use crate::{LINE_POINTER, PAGE, PAGE_HEADER};
use byteorder::{ByteOrder, LittleEndian};
use std::alloc::{AllocError, Global};
use std::marker::Model;

/// A page that is written, seen as its 8,192 bytes.
#[derive(Debug, Drop)]
pub struct PageBuf {
    bytes: Vec<u8>,
}

impl Model for PageBuf {
    ghost use Rattle.std.specs.Prelude.{List, ℕ, ◌≡◌, length};
    ghost use Rattle.pg_bytes.specs.PageLayout.{page_size};

    ghost Value = { List ℕ };

    ghost view = { λ page. page.bytes.items };

    ghost invariant = { λ page. length page.bytes.items ≡ page_size };
}

impl PageBuf {
    /// A page without items, whose special space of so many bytes is zero, as all of it is but for
    /// the header's fields (`PageInit` of `bufpage.c`). An error means that no memory was left.
    pub fn new(alloc: Global, special: u16) -> Result<PageBuf, AllocError>
        requires { (special ≡ 8) ⊎ (special ≡ 16) }
        ensures { IfOk result (λ page. page ≡ empty_page special) }
    {
        let mut page = PageBuf {
            bytes: zero_bytes(alloc, PAGE)?,
        };
        let end = PAGE as u16 - special;
        page.put_u16(PD_LOWER, PAGE_HEADER as u16);
        page.put_u16(PD_UPPER, end);
        page.put_u16(PD_SPECIAL, end);
        page.put_u16(PD_PAGESIZE_VERSION, PAGE_VERSION);
        Ok(page)
    }

    /// The page's 8,192 bytes.
    pub fn bytes(&self) -> &[u8]
        ensures value { result.now ≡ self.now }
        ensures size { length result.now ≡ page_size }
    {
        &self.bytes
    }

    /// Writes a number of two bytes, the low one first, at a place in bytes from the page's start.
    #[tactic(auto, unfolding(crate::specs::Numbers::number_bytes))]
    pub fn put_u16(&mut self, at: usize, value: u16)
        requires { at + 2 ≤ page_size }
        ensures { self.new ≡ written (number_bytes 2 value) at self.old }
    {
        let mut field = [0u8; 2];
        LittleEndian::write_u16(&mut field, value);
        self.put_slice(at, &field);
    }

    /// Writes a number of four bytes, the low one first, at a place in bytes from the page's start.
    #[tactic(auto, unfolding(crate::specs::Numbers::number_bytes))]
    pub fn put_u32(&mut self, at: usize, value: u32)
        requires { at + 4 ≤ page_size }
        ensures { self.new ≡ written (number_bytes 4 value) at self.old }
    {
        let mut field = [0u8; 4];
        LittleEndian::write_u32(&mut field, value);
        self.put_slice(at, &field);
    }

    /// Writes these bytes at a place in bytes from the page's start.
    #[tactic(auto, unfolding(crate::specs::Places::written))]
    pub fn put_slice(&mut self, at: usize, bytes: &[u8])
        requires { at + length bytes.now ≤ page_size }
        ensures { self.new ≡ written bytes.now at self.old }
    {
        self.bytes[at..at + bytes.len()].copy_from_slice(bytes);
    }

    // Writes so many zeros at a place.
    #[tactic(auto, unfolding(crate::specs::Places::written, crate::specs::Places::zeros))]
    fn clear(&mut self, at: usize, count: usize)
        requires { at + count ≤ page_size }
        ensures { self.new ≡ written (zeros count) at self.old }
    {
        self.bytes[at..at + count].fill(0);
    }

    /// Adds an item under a line pointer, counted from 1: the item and zeros up to its alignment
    /// stand just below what was `pd_upper`, which falls to them, and `pd_lower` rises to the line
    /// pointer's end where it was lower (`PageAddItemExtended` of `bufpage.c`).
    #[tactic(auto, unfolding(crate::specs::PageLayout::with_item))]
    pub fn put_item(&mut self, line: u16, item: &[u8])
        requires line { 1 ≤ line }
        requires item { 0 < length item.now }
        requires upper { upper_of self.old ≤ page_size }
        requires room { lower_with line self.old + rounded_up 8 (length item.now)
            ≤ upper_of self.old }
        ensures { self.new ≡ with_item line item.now self.old }
    {
        let lower = u16_at(&self.bytes, PD_LOWER).max(
            PAGE_HEADER as u16 + LINE_POINTER as u16 * line,
        );
        let place = u16_at(&self.bytes, PD_UPPER) - al8(item.len() as u64) as u16;
        self.put_aligned(usize::from(place), item);
        self.put_u16(PD_UPPER, place);
        let pointer = LinePtr {
            offset: place,
            state: LineState::Normal as u8,
            length: item.len() as u16,
        };
        self.put_u32(
            LINE_POINTER * (usize::from(line) - 1) + PAGE_HEADER,
            pointer.word(),
        );
        self.put_u16(PD_LOWER, lower);
    }

    // Writes an item and the zeros up to its alignment at a place.
    #[tactic(auto, unfolding(crate::specs::PageLayout::aligned))]
    fn put_aligned(&mut self, place: usize, item: &[u8])
        requires { place + rounded_up 8 (length item.now) ≤ page_size }
        ensures { self.new ≡ written (aligned item.now) place self.old }
    {
        let _page = &self.bytes;
        let padding = al8(item.len() as u64) as usize - item.len();
        self.put_slice(place, item);
        self.clear(place + item.len(), padding);
    }
}
