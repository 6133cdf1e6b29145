ghost use Rattle.std.specs.Prelude.{◌<◌};

use crate::bytes::put;
use crate::page::{LINE_POINTER, PAGE, PAGE_HEADER, put_header, put_line_pointer};
use std::alloc::{AllocError, Global};

// Where the special space of an index page begins, and in it the flags.
const SPECIAL: u16 = 8176;

const FLAGS: usize = 8188;

// The flags of a leaf that is the root, and of the meta page.
const LEAF_AND_ROOT: u8 = 3;

const META: u8 = 8;

// The bytes of an index tuple with an int4.
const TUPLE: u16 = 16;

/// A row as the index of an int4 has it: its key, and the block and the number of the line pointer
/// that it leads to.
#[derive(Clone, Copy)]
pub struct Entry {
    pub key: i32,
    pub block: u32,
    pub offset: u16,
}

/// The index file of entries that ascend by key and that one leaf holds: the meta page, and behind
/// it the leaf, which a file without entries hasn't.
pub fn leaf_file(alloc: Global, entries: &[Entry]) -> Result<Vec<u8>, AllocError> {
    if entries.is_empty() {
        return meta_page(alloc, 0);
    }
    let mut file = meta_page(alloc, 1)?;
    file.extend_from_slice(&leaf(alloc, entries)?)?;
    Ok(file)
}

// The meta page with this root, or with 0 for none.
fn meta_page(alloc: Global, root: u32) -> Result<Vec<u8>, AllocError> {
    let mut page = vec![in alloc; 0u8; usize::from(PAGE)]?;
    put_header(&mut page, 72, SPECIAL, SPECIAL);
    put(&mut page, 24, &0x0005_3162u32.to_le_bytes());
    put(&mut page, 28, &4u32.to_le_bytes());
    put(&mut page, 32, &root.to_le_bytes());
    put(&mut page, 40, &root.to_le_bytes());
    put(&mut page, 56, &[0, 0, 0, 0, 0, 0, 0xF0, 0xBF]);
    put(&mut page, 64, &[1]);
    put(&mut page, FLAGS, &[META]);
    Ok(page)
}

// The leaf with these entries, their tuples one below the other.
fn leaf(alloc: Global, entries: &[Entry]) -> Result<Vec<u8>, AllocError> {
    let mut page = vec![in alloc; 0u8; usize::from(PAGE)]?;
    let mut lower = PAGE_HEADER;
    let mut upper = SPECIAL;
    for entry in entries {
        upper = upper.saturating_sub(TUPLE);
        put_line_pointer(&mut page, usize::from(lower), upper, 1, TUPLE);
        put_entry(&mut page, usize::from(upper), entry);
        lower = lower.saturating_add(LINE_POINTER);
    }
    put_header(&mut page, lower, upper, SPECIAL);
    put(&mut page, FLAGS, &[LEAF_AND_ROOT]);
    Ok(page)
}

// Puts an entry's tuple. Of the block's number the high half comes first.
fn put_entry(page: &mut [u8], at: usize, entry: &Entry)
    requires { at < 65536 }
{
    let [low, second, third, high] = entry.block.to_le_bytes();
    put(page, at, &[third, high, low, second]);
    put(page, at + 4, &entry.offset.to_le_bytes());
    put(page, at + 6, &TUPLE.to_le_bytes());
    put(page, at + 8, &entry.key.to_le_bytes());
}
