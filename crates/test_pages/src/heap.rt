ghost use Rattle.std.specs.Prelude.{◌<◌};

use crate::bytes::put;
use crate::page::{LINE_POINTER, PAGE, PAGE_HEADER, put_header, put_line_pointer};
use crate::rows::INT4_ROW;
use std::alloc::{AllocError, Global};

/// A heap tuple: its header's fields, its null bitmap from byte 23 on, and its attributes from
/// `hoff` on.
#[derive(Clone, Copy)]
pub struct Tuple<'a> {
    pub xmin: u32,
    pub xmax: u32,
    pub block: u16,
    pub offset: u16,
    pub infomask2: u16,
    pub infomask: u16,
    pub hoff: u8,
    pub bitmap: &'a [u8],
    pub values: &'a [u8],
}

impl<'a> Tuple<'a> {
    /// A live row of one attribute that is no part of a chain.
    pub fn row(values: &'a [u8]) -> Tuple<'a> {
        Tuple { values, ..INT4_ROW }
    }

    // The tuple's length in bytes, without its alignment.
    fn length(&self) -> u16 {
        u16::from(self.hoff).saturating_add(self.values.len().min(usize::from(PAGE)) as u16)
    }
}

/// A line pointer: with its tuple where it is normal, and with the number of the line pointer that
/// it leads to where it is a redirect.
#[derive(Clone, Copy)]
pub enum Line<'a> {
    Unused,
    Normal(Tuple<'a>),
    Redirect(u16),
    Dead,
}

/// A heap page with these line pointers, their tuples one below the other.
pub fn heap_page(alloc: Global, lines: &[Line]) -> Result<Vec<u8>, AllocError> {
    let mut page = vec![in alloc; 0u8; usize::from(PAGE)]?;
    let mut lower = PAGE_HEADER;
    let mut upper = PAGE;
    for line in lines {
        upper = put_line(&mut page, usize::from(lower), upper, line);
        lower = lower.saturating_add(LINE_POINTER);
    }
    put_header(&mut page, lower, upper, PAGE);
    Ok(page)
}

/// A heap page of live rows of one int4 each, with these values.
pub fn int4_page(alloc: Global, values: &[i32]) -> Result<Vec<u8>, AllocError> {
    let mut bytes = Vec::new(alloc);
    for value in values {
        bytes.push(value.to_le_bytes())?;
    }
    let mut lines = Vec::new(alloc);
    for value in &bytes {
        lines.push(Line::Normal(Tuple::row(value)))?;
    }
    heap_page(alloc, &lines)
}

/// A heap file of these pages, and then so many zero bytes more.
pub fn heap_of(alloc: Global, pages: &[Vec<u8>], more: usize) -> Result<Vec<u8>, AllocError> {
    let mut heap = Vec::new(alloc);
    for page in pages {
        heap.extend_from_slice(page)?;
    }
    let length = heap.len().saturating_add(more);
    heap.resize(length, 0)?;
    Ok(heap)
}

// Puts a line pointer, and its tuple just below the others; hands out where the tuples begin.
fn put_line(page: &mut [u8], at: usize, upper: u16, line: &Line) -> u16 {
    match line {
        Line::Unused => upper,
        Line::Redirect(target) => {
            put_line_pointer(page, at, *target, 2, 0);
            upper
        }
        Line::Dead => {
            put_line_pointer(page, at, 0, 3, 0);
            upper
        }
        Line::Normal(tuple) => {
            let place = upper.saturating_sub(tuple.length().saturating_add(7) / 8 * 8);
            put_line_pointer(page, at, place, 1, tuple.length());
            put_tuple(page, usize::from(place), tuple);
            place
        }
    }
}

fn put_tuple(page: &mut [u8], at: usize, tuple: &Tuple)
    requires { at < 65536 }
{
    put(page, at, &tuple.xmin.to_le_bytes());
    put(page, at + 4, &tuple.xmax.to_le_bytes());
    put(page, at + 14, &tuple.block.to_le_bytes());
    put(page, at + 16, &tuple.offset.to_le_bytes());
    put(page, at + 18, &tuple.infomask2.to_le_bytes());
    put(page, at + 20, &tuple.infomask.to_le_bytes());
    put(page, at + 22, &[tuple.hoff]);
    put(page, at + 23, tuple.bitmap);
    put(page, at + usize::from(tuple.hoff), tuple.values);
}
