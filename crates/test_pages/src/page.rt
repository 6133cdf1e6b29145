ghost use Rattle.std.specs.Prelude.{◌<◌};

use crate::bytes::put;

// The bytes of a page, of its header and of a line pointer.
pub const PAGE: u16 = 8192;

pub const PAGE_HEADER: u16 = 24;

pub const LINE_POINTER: u16 = 4;

// The page's size and layout version.
const PAGE_VERSION: u16 = 0x2004;

// Puts the page header's bounds and version.
pub fn put_header(page: &mut [u8], lower: u16, upper: u16, special: u16) {
    put(page, 12, &lower.to_le_bytes());
    put(page, 14, &upper.to_le_bytes());
    put(page, 16, &special.to_le_bytes());
    put(page, 18, &PAGE_VERSION.to_le_bytes());
}

// Puts a line pointer's word: 15 bits of offset, 2 of state, 15 of length.
pub fn put_line_pointer(page: &mut [u8], at: usize, offset: u16, state: u16, length: u16)
    requires { state < 4 }
{
    let word = u32::from(offset % (1 << 15))
        + u32::from(state) * (1 << 15)
        + u32::from(length % (1 << 15)) * (1 << 17);
    put(page, at, &word.to_le_bytes());
}
