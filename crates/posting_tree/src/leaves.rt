ghost use Rattle.std.specs.Prelude.{◌≡◌, [], Some, ◌++◌, ◌+◌, ◌*◌, ◌^◌, ◌<◌, ◌≤◌, List, ℕ, length, IfOk, OnOk};
ghost use Rattle.std.specs.List.{flat_map};
ghost use Rattle.pg_bytes.specs.PageLayout.{page_size};
ghost use Rattle.pg_bytes.specs.declared.row_ptr.RowPtr.{RowPtr};
ghost use Rattle.posting_tree.specs.Building.{LeafLevelPut, LeavesPut, LeavesTake};
ghost use Rattle.posting_tree.specs.Levels.{greatest};
ghost use Rattle.posting_tree.specs.PostingTree.{Extends, greatest_pointer, leaf_kind};
ghost use Rattle.posting_tree.specs.Segments.{AreAscending, HaveBlocks, IsPart, segment};

use crate::data_page::{CONTENT_ROOM, DataPage, LEAF, NO_LINK};
use crate::encoding::put_some;
use crate::level::Level;
use pg_bytes::{IndexImage, RowPtr};
use std::alloc::{AllocError, Global};

// The most bytes of a segment on a leaf (`GinPostingListSegmentMaxSize` of `gindatapage.c`).
const SEGMENT_ROOM: usize = 384;

// The leaves of a tree under way: those that are put, and the content of the next one with its
// greatest pointer.
#[derive(Drop)]
struct Leaves {
    level: Level,
    content: Vec<u8>,
    last: RowPtr,
}

/// Puts the leaves of the posting tree of these pointers behind the blocks of an image: segments of
/// at most 384 bytes, as many on a page as have room (`createPostingTree` of `gindatapage.c`). An
/// error means that no memory was left, and then the image has whole pages more.
pub(crate) fn put_leaves(
    alloc: Global,
    image: &mut IndexImage,
    ptrs: &[RowPtr],
) -> Result<Level, AllocError>
    requires some { 0 < length ptrs.now }
    requires few { length ptrs.now < 2 ^ 30 }
    requires ascending { AreAscending ptrs.now }
    requires room { length image.old ≤ 2 ^ 30 * page_size }
    ensures level { IfOk result (λ level.
        LeafLevelPut image.old image.new level.first level.keys.items ptrs.now) }
    ensures first { IfOk result (λ level. level.first * page_size ≡ length image.old) }
    ensures size { IfOk result (λ level. length image.new
        ≡ (level.first + length level.keys.items) * page_size) }
    ensures some { IfOk result (λ level. 0 < length level.keys.items) }
    ensures have_blocks { IfOk result (λ level. HaveBlocks ptrs.now) }
    ensures extends { Extends image.old image.new }
{
    let level = Level {
        first: image.blocks(),
        keys: Vec::new(alloc),
    };
    let mut leaves = Leaves {
        level,
        content: Vec::new(alloc),
        last: ptrs[0],
    };
    let mut segment = Vec::new(alloc);
    let mut left = ptrs;
    while !left.is_empty() {
        segment.clear();
        let count = put_some(&mut segment, left, SEGMENT_ROOM)?;
        leaves.take(alloc, image, &segment, left[count - 1])?;
        left = &left[count..];
    }
    leaves.close(alloc, image)
}

impl Leaves {
    // Takes a segment of pointers, of which this is the last.
    fn take(
        &mut self,
        alloc: Global,
        image: &mut IndexImage,
        bytes: &[u8],
        last: RowPtr,
    ) -> Result<(), AllocError>
        requires bytes { length bytes.now ≤ 384 }
        requires content { length self.old.content.items ≤ 8152 }
        requires size { length image.old
            ≡ (self.old.level.first + length self.old.level.keys.items) * page_size }
        requires few { self.old.level.first + length self.old.level.keys.items < 2 ^ 31 }
        ensures takes { OnOk result ((part : List RowPtr) → IsPart part
            → bytes.now ≡ segment part → last ≡ greatest_pointer part
            → LeavesTake image.old image.new self.old.level.first self.new.level.first
            self.old.level.keys.items self.new.level.keys.items self.old.content.items
            self.new.content.items self.old.last self.new.last part) }
        ensures size { OnOk result (length image.new
            ≡ (self.new.level.first + length self.new.level.keys.items) * page_size) }
        ensures content { OnOk result (length self.new.content.items ≤ 8152) }
        ensures some { OnOk result (length bytes.now ≤ length self.new.content.items) }
        ensures first { OnOk result (self.new.level.first ≡ self.old.level.first) }
        ensures extends { Extends image.old image.new }
    {
        self.make_room(alloc, image, bytes.len())?;
        self.content.extend_from_slice(bytes)?;
        self.last = last;
        Ok(())
    }

    // Makes room for so many bytes more on the page under way: where they don't fit, it is put, and
    // the next one begins.
    fn make_room(
        &mut self,
        alloc: Global,
        image: &mut IndexImage,
        bytes: usize,
    ) -> Result<(), AllocError>
        requires bytes { bytes ≤ 384 }
        requires content { length self.old.content.items ≤ 8152 }
        requires size { length image.old
            ≡ (self.old.level.first + length self.old.level.keys.items) * page_size }
        requires few { self.old.level.first + length self.old.level.keys.items < 2 ^ 31 }
        ensures takes { OnOk result (LeavesTake image.old image.new self.old.level.first
            self.new.level.first self.old.level.keys.items self.new.level.keys.items
            self.old.content.items self.new.content.items self.old.last self.new.last []) }
        ensures size { OnOk result (length image.new
            ≡ (self.new.level.first + length self.new.level.keys.items) * page_size) }
        ensures room { OnOk result (length self.new.content.items + bytes ≤ 8152) }
        ensures first { OnOk result (self.new.level.first ≡ self.old.level.first) }
        ensures extends { Extends image.old image.new }
    {
        if self.content.len() + bytes <= CONTENT_ROOM {
            return Ok(());
        }
        let next = self.level.first + self.level.keys.len() as u32 + 1;
        self.put(alloc, image, next)?;
        self.level.keys.push(self.last)?;
        self.content.clear();
        Ok(())
    }

    // Puts the page under way with this right link.
    fn put(&self, alloc: Global, image: &mut IndexImage, right: u32) -> Result<(), AllocError>
        requires content { length self.now.content.items ≤ 8152 }
        requires room { length image.old < 2 ^ 31 * page_size }
        ensures ok { OnOk result ((parts : List (List RowPtr)) → self.now.content.items
            ≡ flat_map segment parts → greatest leaf_kind parts ≡ Some self.now.last
            → image.new ≡ image.old ++ leaf_kind.image right parts) }
        ensures size { OnOk result (length image.new ≡ length image.old + page_size) }
        ensures extends { Extends image.old image.new }
    {
        let page = DataPage {
            flags: LEAF,
            maxoff: 0,
            right,
            last: self.last,
        };
        page.put(alloc, image, &self.content)
    }

    // Puts the page under way as the rightmost.
    fn close(self, alloc: Global, image: &mut IndexImage) -> Result<Level, AllocError>
        requires content { length self.content.items ≤ 8152 }
        requires size { length image.old
            ≡ (self.level.first + length self.level.keys.items) * page_size }
        requires few { self.level.first + length self.level.keys.items < 2 ^ 31 }
        ensures level { IfOk result (λ level. (old : List ℕ) (taken : List RowPtr)
            → LeavesPut old image.old self.level.first self.level.keys.items self.content.items
            self.last taken → 0 < length self.content.items
            → LeafLevelPut old image.new level.first level.keys.items taken) }
        ensures size { IfOk result (λ level. length image.new
            ≡ (level.first + length level.keys.items) * page_size) }
        ensures first { IfOk result (λ level. level.first ≡ self.level.first) }
        ensures keys { IfOk result (λ level.
            length level.keys.items ≡ length self.level.keys.items + 1) }
        ensures extends { Extends image.old image.new }
    {
        self.put(alloc, image, NO_LINK)?;
        let Leaves {
            mut level,
            last,
            ..
        } = self;
        level.keys.push(last)?;
        Ok(level)
    }
}
