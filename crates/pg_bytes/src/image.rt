ghost use Rattle.std.specs.Prelude.{◌≡◌, ◌⊎◌, ◌+◌, ◌*◌, ◌<◌, ◌≤◌, ◌^◌, [], ◌++◌, length, max, OnOk, OnErr};
ghost use Rattle.pg_bytes.specs.Image.{filled_up, placed};
ghost use Rattle.pg_bytes.specs.PageLayout.{page_size};
ghost use Rattle.pg_bytes.specs.Places.{written};

use crate::PAGE;
use crate::page_buf::PageBuf;
use std::alloc::{AllocError, Global};
use std::marker::Model;

/// The image of an index file, seen as its list of bytes, a multiple of 8,192.
#[derive(Debug, Drop)]
pub struct IndexImage {
    bytes: Vec<u8>,
}

impl Model for IndexImage {
    ghost use Rattle.std.specs.Prelude.{List, ℕ, ◌≡◌, ◌≤◌, ◌%◌, ◌^◌, length};
    ghost use Rattle.pg_bytes.specs.PageLayout.{page_size};

    ghost Value = { List ℕ };

    ghost view = { λ image. image.bytes.items };

    ghost invariant = { λ image.
        (length image.bytes.items % page_size ≡ 0) × (length image.bytes.items ≤ 2 ^ 44) };
}

impl IndexImage {
    /// The image without blocks, which takes no memory.
    pub fn new(alloc: Global) -> IndexImage
        ensures { result ≡ [] }
    {
        IndexImage {
            bytes: Vec::new(alloc),
        }
    }

    /// How many blocks of 8,192 bytes the image has.
    pub fn blocks(&self) -> u32
        ensures { result * page_size ≡ length self.now }
    {
        (self.bytes.len() / PAGE) as u32
    }

    /// The image's bytes, block after block.
    pub fn bytes(&self) -> &[u8]
        ensures { result.now ≡ self.now }
    {
        &self.bytes
    }

    /// Sets the block of this number, counted from 0, with zero blocks between where the image was
    /// shorter (`_bt_blwritepage` of `nbtsort.c`). An error means that no memory was left, and then
    /// the image is unchanged.
    #[tactic(auto, unfolding(crate::specs::Image::placed))]
    pub fn place(&mut self, number: u32, page: &PageBuf) -> Result<(), AllocError>
        requires { number < 2 ^ 31 }
        ensures ok { OnOk result (self.new ≡ placed number page.now self.old) }
        ensures err { OnErr result (self.new ≡ self.old) }
    {
        let at = number as usize * PAGE;
        set_block(&mut self.bytes, at, page.bytes())?;
        Ok(())
    }

    /// Adds a block behind the last one. An error means that no memory was left, and then the image
    /// is unchanged.
    pub fn append(&mut self, page: &PageBuf) -> Result<(), AllocError>
        requires { length self.old < 2 ^ 31 * page_size }
        ensures ok { OnOk result (self.new ≡ self.old ++ page.now) }
        ensures size { OnOk result (length self.new ≡ length self.old + page_size) }
        ensures err { OnErr result (self.new ≡ self.old) }
    {
        let number = self.blocks();
        let _bytes = page.bytes();
        self.place(number, page)
    }
}

// Writes a block at its place, with zeros up to it where the bytes end before.
#[tactic(auto, unfolding(crate::specs::Places::written, crate::specs::Places::zeros))]
fn set_block(bytes: &mut Vec<u8>, at: usize, block: &[u8]) -> Result<(), AllocError>
    requires room { at + length block.now < 2 ^ 63 }
    requires whole { (at + length block.now ≤ length bytes.old.items)
        ⊎ (length bytes.old.items ≤ at) }
    ensures ok { OnOk result
        (bytes.new.items ≡ written block.now at (filled_up at bytes.old.items)) }
    ensures size { OnOk result
        (length bytes.new.items ≡ max (length bytes.old.items) (at + length block.now)) }
    ensures err { OnErr result (bytes.new.items ≡ bytes.old.items) }
{
    let end = at + block.len();
    if end <= bytes.len() {
        bytes[at..end].copy_from_slice(block);
        return Ok(());
    }
    bytes.reserve(end - bytes.len())?;
    bytes.resize(at, 0)?;
    bytes.extend_from_slice(block)
}
