ghost use Rattle.std.specs.Prelude.{◌≡◌, Some, [], ◌∷◌, ◌++◌, ◌+◌, ◌*◌, ◌^◌, ◌<◌, ◌≤◌, length, IfOk, OnErr, OnOk};
ghost use Rattle.std.specs.List.{flat_map};
ghost use Rattle.pg_bytes.specs.PageLayout.{page_size};
ghost use Rattle.posting_tree.specs.Building.{IsPushed, LevelPut, links_from};
ghost use Rattle.posting_tree.specs.Levels.{greatest};
ghost use Rattle.posting_tree.specs.PostingTree.{Extends, inner_kind, posting_item};
ghost use Rattle.posting_tree.specs.Pass.{IsInFront};

use crate::data_page::{DataPage, INNER, NO_LINK};
use byteorder::{ByteOrder, LittleEndian};
use pg_bytes::{IndexImage, RowPtr};
use std::alloc::{AllocError, Global};

// How many items a page above the leaves holds.
const FAN_OUT: usize = 815;

// The bytes of an item (`sizeof(PostingItem)` of `ginblock.h`), and where its key stands.
const ITEM: usize = 10;

const KEY: usize = 4;

/// A level of a posting tree whose pages stand on consecutive blocks: the first one's, and the
/// greatest pointer of each page.
#[derive(Drop)]
pub(crate) struct Level {
    pub first: u32,
    pub keys: Vec<RowPtr>,
}

/// Puts the level above one of several pages behind the blocks of an image: full pages, and what is
/// left on the rightmost. An error means that no memory was left, and then the image has whole
/// pages more.
pub(crate) fn put_level(
    alloc: Global,
    image: &mut IndexImage,
    below: &Level,
) -> Result<Level, AllocError>
    requires several { 1 < length below.now.keys.items }
    requires size { length image.old
        ≡ (below.now.first + length below.now.keys.items) * page_size }
    requires few { below.now.first + 2 * length below.now.keys.items ≤ 2 ^ 31 }
    ensures level { IfOk result (λ level. LevelPut inner_kind image.old image.new level.first
        level.keys.items (links_from below.now.first below.now.keys.items)) }
    ensures first { IfOk result (λ level.
        level.first ≡ below.now.first + length below.now.keys.items) }
    ensures size { IfOk result (λ level. length image.new
        ≡ (level.first + length level.keys.items) * page_size) }
    ensures some { IfOk result (λ level. 0 < length level.keys.items) }
    ensures halved { IfOk result (λ level.
        2 * length level.keys.items ≤ length below.now.keys.items) }
    ensures extends { Extends image.old image.new }
{
    let mut level = Level {
        first: image.blocks(),
        keys: Vec::new(alloc),
    };
    let mut child = below.first;
    let mut left = below.keys.as_slice();
    while left.len() > FAN_OUT {
        let next = level.first + level.keys.len() as u32 + 1;
        let (full, behind) = left.split_at(FAN_OUT);
        level.put_page(alloc, image, child, full, next)?;
        child += FAN_OUT as u32;
        left = behind;
    }
    level.put_page(alloc, image, child, left, NO_LINK)?;
    Ok(level)
}

impl Level {
    // Puts a page that leads to consecutive blocks with these greatest pointers, and has this right
    // link.
    fn put_page(
        &mut self,
        alloc: Global,
        image: &mut IndexImage,
        child: u32,
        keys: &[RowPtr],
        right: u32,
    ) -> Result<(), AllocError>
        requires some { 0 < length keys.now }
        requires few { length keys.now ≤ 815 }
        requires children { child + length keys.now ≤ 2 ^ 32 }
        requires room { length image.old < 2 ^ 31 * page_size }
        ensures ok { OnOk result (image.new
            ≡ image.old ++ inner_kind.image right (links_from child keys.now)) }
        ensures first { self.new.first ≡ self.old.first }
        ensures keys { OnOk result (IsPushed self.old.keys.items self.new.keys.items
            (greatest inner_kind (links_from child keys.now))) }
        ensures size { OnOk result (length image.new ≡ length image.old + page_size) }
        ensures extends { Extends image.old image.new }
    {
        let last = keys[keys.len() - 1];
        let page = DataPage {
            flags: INNER,
            maxoff: keys.len() as u16,
            right,
            last,
        };
        let mut content = Vec::with_capacity(alloc, keys.len() * ITEM)?;
        put_items(&mut content, child, keys)?;
        page.put(alloc, image, &content)?;
        self.keys.push(last)?;
        Ok(())
    }
}

// Puts the items that lead to consecutive blocks with these greatest pointers.
fn put_items(out: &mut Vec<u8>, child: u32, keys: &[RowPtr]) -> Result<(), AllocError>
    requires { child + length keys.now ≤ 2 ^ 32 }
    ensures { OnOk result (out.new.items
        ≡ out.old.items ++ flat_map posting_item (links_from child keys.now)) }
{
    for (at, key) in keys.iter().enumerate() {
        out.extend_from_slice(&posting_item(child + at as u32, *key))?;
    }
    Ok(())
}

// The item that leads to a child whose greatest pointer is this (`PostingItemSetBlockNumber` of
// `ginblock.h`).
#[tactic(auto, unfolding(crate::specs::PostingTree::posting_item, pg_bytes::specs::Numbers::number_bytes, pg_bytes::specs::Places::written, pg_bytes::specs::Pointers::row_pointer_bytes))]
fn posting_item(child: u32, key: RowPtr) -> [u8; 10]
    ensures { result ≡ posting_item (record { child = child; key = key }) }
{
    let mut item = [0u8; ITEM];
    LittleEndian::write_u16(&mut item, (child >> 16) as u16);
    LittleEndian::write_u16(&mut item[2..], (child % (1 << 16)) as u16);
    key.put(&mut item, KEY);
    item
}
