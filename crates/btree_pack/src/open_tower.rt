ghost use Rattle.std.specs.Prelude.{◌≡◌, ◌+◌, ◌-◌, ◌<◌, ◌≤◌, ◌^◌, [], ◌∷◌, false, true, All, IfOk, IfSome, OnOk, drop, length, suc, take, slice_get, slice_set};
ghost use Rattle.pg_bytes.specs.Image.{placed};
ghost use Rattle.btree_pack.specs.Break.{page_room, spare};
ghost use Rattle.btree_pack.specs.Pass.Buffer.{IsPlaceIn, leaves_between, place_of};
ghost use Rattle.btree_pack.specs.Pass.Finish.{IsFileOfThePacked};
ghost use Rattle.btree_pack.specs.Pass.Joining.{AreJoining, HasRoomFor, all_added, with_leaves};
ghost use Rattle.btree_pack.specs.Pass.Packed.{packed, tuple_came};
ghost use Rattle.btree_pack.specs.Pass.Packing.{IsHighKey, IsTuple, added, breaks_leaf, carried, closed, finished_bytes, first_page, high_key_room, last_bytes, leaf_taken, next_page, pivot_of, turned, used, with_carried, with_tuple};
ghost use Rattle.btree_pack.specs.Pass.Run.{IsLeaf};
ghost use Rattle.btree_pack.specs.Pass.Sight.{Closes, IsFinished, KeepsAllButPages, fillfactor_of, packing_of};
ghost use Rattle.btree_item.specs.Pivot.{minus_infinity};

use crate::leaves::{LeafPlace, Leaves};
use crate::open_page::OpenPage;
use btree_page::MetaPage;
use pg_bytes::IndexImage;
use std::alloc::{AllocError, Global};

// An image has no place for more blocks, and no memory has room for so many levels: a page above
// the leaves that isn't the last of its level leads to two pages at least.
const MOST_BLOCKS: u32 = (1 << 31) - 1;

const MOST_LEVELS: usize = 64;

/// The pages that are open while a B-tree file is packed, one a level and the leaf first, and the
/// image of those that are finished (`BTWriteState` of `nbtsort.c`).
#[derive(Debug, Drop)]
pub struct OpenTower {
    alloc: Global,
    fillfactor: u8,
    pages: Vec<OpenPage>,
    // How many leaf tuples came.
    tuples: u64,
    blocks: u32,
    image: IndexImage,
}

impl OpenTower {
    /// No page and no block, which takes no memory.
    #[tactic(auto, unfolding(crate::specs::Pass::Packed::packed))]
    pub fn new(alloc: Global, fillfactor: u8) -> OpenTower
        ensures packing { packing_of result ≡ packed fillfactor [] }
        ensures fillfactor { fillfactor_of result ≡ fillfactor }
    {
        OpenTower {
            alloc,
            fillfactor,
            pages: Vec::new(alloc),
            tuples: 0,
            blocks: 0,
            image: IndexImage::new(alloc),
        }
    }

    /// Whether a leaf tuple of this size breaks the open leaf.
    pub fn is_full(&self, size: usize) -> bool
        requires { size ≤ 2704 }
        ensures full { result ≡ breaks_leaf (fillfactor_of self.now) (packing_of self.now) size }
        ensures room { result ≡ false → leaf_taken (packing_of self.now) + size ≤ page_room }
        ensures leaf { result ≡ true → 0 < length (packing_of self.now).pages }
    {
        if self.pages.is_empty() {
            return false;
        }
        self.pages[0].is_full(self.fillfactor, size)
    }

    /// How many bytes the high key may take that finishes the open leaf, 0 without a leaf.
    pub fn high_key_room(&self) -> usize
        ensures { result ≡ high_key_room (packing_of self.now) }
    {
        if self.pages.is_empty() {
            return 0;
        }
        self.pages[0].high_key_room()
    }

    /// Finishes the open leaf with a high key. Its last tuple goes over to the next leaf, to which
    /// this tuple is added. What the vector has then isn't said. An error means that no memory was
    /// left.
    #[cold]
    #[inline(never)]
    pub fn turn(
        &mut self,
        high_key: Vec<u8>,
        tuple: &mut Vec<u8>,
        extra: usize,
    ) -> Result<(), AllocError>
        requires leaf { 0 < length (packing_of self.old).pages }
        requires high_key { IsTuple high_key.items }
        requires room { length high_key.items ≤ high_key_room (packing_of self.old) }
        requires tuple { IsTuple tuple.old.items }
        requires extra { extra ≤ 8192 }
        ensures ok { OnOk result (packing_of self.new ≡ added tuple.old.items extra
            (turned (fillfactor_of self.old) high_key.items (packing_of self.old))) }
        ensures fillfactor { OnOk result (fillfactor_of self.new ≡ fillfactor_of self.old) }
    {
        let pivot = self.turn_page(0, high_key, tuple, extra)?;
        self.carry(1, pivot)?;
        self.count_tuple()?;
        Ok(())
    }

    /// Adds a tuple to the open leaf, or to the first one. What the vector has then isn't said. An
    /// error means that no memory was left.
    pub fn add(&mut self, tuple: &mut Vec<u8>, extra: usize) -> Result<(), AllocError>
        requires tuple { IsTuple tuple.old.items }
        requires room { leaf_taken (packing_of self.old) + length tuple.old.items ≤ page_room }
        requires extra { extra ≤ 8192 }
        ensures ok { OnOk result (packing_of self.new
            ≡ added tuple.old.items extra (packing_of self.old)) }
        ensures fillfactor { OnOk result (fillfactor_of self.new ≡ fillfactor_of self.old) }
    {
        if self.pages.is_empty() {
            self.begin_leaves(tuple, extra)?;
            self.count_tuple()?;
            return Ok(());
        }
        self.join(0, tuple, extra)?;
        self.count_tuple()?;
        Ok(())
    }

    /// Adds a tuple that is written elsewhere to the open leaf, or finishes that one before with
    /// this high key. The buffer is filled with the tuple, and what it has then isn't said. An
    /// error means that no memory was left.
    pub fn lay(
        &mut self,
        buffer: &mut Vec<u8>,
        tuple: &[u8],
        extra: usize,
        high_key: &[u8],
    ) -> Result<(), AllocError>
        requires tuple { IsTuple tuple.now }
        requires small { length tuple.now ≤ 2704 }
        requires extra { extra ≤ 8192 }
        requires high_key { 0 < length (packing_of self.old).pages
            → IsHighKey high_key.now (packing_of self.old) }
        ensures ok { OnOk result (packing_of self.new ≡ tuple_came (fillfactor_of self.old)
            high_key.now (packing_of self.old) tuple.now extra) }
        ensures fillfactor { OnOk result (fillfactor_of self.new ≡ fillfactor_of self.old) }
    {
        buffer.clear();
        buffer.extend_from_slice(tuple)?;
        if self.is_full(tuple.len()) {
            let high_key = Vec::from_slice(self.alloc, high_key)?;
            return self.turn(high_key, buffer, extra);
        }
        self.add(buffer, extra)
    }

    /// How many of the leaf tuples from this number on join the open leaf before one breaks it.
    pub fn joining(&self, leaves: &Leaves, from: usize) -> usize
        requires leaf { 0 < length (packing_of self.now).pages }
        requires leaves { All IsLeaf leaves.now }
        requires from { from ≤ length leaves.now }
        ensures { IfSome (slice_get (packing_of self.now).pages 0) (λ page.
            AreJoining (fillfactor_of self.now) page (drop from leaves.now) result) }
    {
        self.pages[0].joining(self.fillfactor, leaves, from)
    }

    /// Adds the leaf tuples from one up to another to the open leaf, which has room for them. The
    /// buffer is filled with the last one, and what it has then isn't said. An error means that no
    /// memory was left.
    pub fn lay_all(
        &mut self,
        buffer: &mut Vec<u8>,
        leaves: &Leaves,
        first: LeafPlace,
        last: LeafPlace,
    ) -> Result<(), AllocError>
        requires leaves { All IsLeaf leaves.now }
        requires first { first ≡ place_of first.number leaves.now }
        requires last { IsPlaceIn leaves.now last }
        requires order { first.number ≤ last.number }
        requires leaf { 0 < length (packing_of self.old).pages }
        requires room { IfSome (slice_get (packing_of self.old).pages 0)
            (HasRoomFor (leaves_between first.number last.number leaves.now)) }
        ensures ok { OnOk result (packing_of self.new ≡ all_added
            (leaves_between first.number last.number leaves.now) (packing_of self.old)) }
        ensures fillfactor { OnOk result (fillfactor_of self.new ≡ fillfactor_of self.old) }
    {
        buffer.clear();
        buffer.extend_from_slice(leaves.tuple(last))?;
        self.join_all(buffer, leaves, first, last)?;
        self.count_tuples(last.number - first.number)?;
        self.count_tuple()?;
        Ok(())
    }

    // The first leaf. Nothing is below its first key, which minus infinity stands for.
    #[cold]
    #[inline(never)]
    fn begin_leaves(&mut self, tuple: &[u8], extra: usize) -> Result<(), AllocError>
        requires none { self.old.pages.items ≡ [] }
        requires tuple { IsTuple tuple.now }
        requires extra { extra ≤ 8192 }
        ensures pages { OnOk result (self.new.pages.items
            ≡ first_page 0 (suc self.old.blocks) (minus_infinity 0) tuple.now extra ∷ []) }
        ensures blocks { OnOk result (self.new.blocks ≡ suc self.old.blocks) }
        ensures image { OnOk result (self.new.image ≡ self.old.image) }
        ensures tuples { OnOk result (self.new.tuples ≡ self.old.tuples) }
        ensures fillfactor { OnOk result (self.new.fillfactor ≡ self.old.fillfactor) }
    {
        let block = self.give_block()?;
        let low_key = least_key(self.alloc)?;
        let page = OpenPage::first(self.alloc, 0, block, low_key, tuple, extra)?;
        self.pages.push(page)?;
        Ok(())
    }

    // A tuple comes to a level above the leaves.
    fn carry(&mut self, level: usize, mut pivot: Vec<u8>) -> Result<(), AllocError>
        requires level { 1 ≤ level }
        requires within { level ≤ length self.old.pages.items }
        requires tuple { IsTuple pivot.items }
        ensures ok { OnOk result (packing_of self.new
            ≡ with_carried (take level self.old.pages.items)
            (carried self.old.fillfactor level (drop level self.old.pages.items) self.old.blocks
            self.old.image pivot.items) (packing_of self.old)) }
        ensures fillfactor { OnOk result (self.new.fillfactor ≡ self.old.fillfactor) }
    {
        if level == self.pages.len() {
            self.begin_level(level, &pivot)?;
            return Ok(());
        }
        let page = &self.pages[level];
        if !page.is_full(self.fillfactor, pivot.len()) {
            self.join(level, &mut pivot, 0)?;
            return Ok(());
        }
        let high_key = page.last_tuple(self.alloc)?;
        let above = self.turn_page(level, high_key, &mut pivot, 0)?;
        self.carry(level + 1, above)?;
        Ok(())
    }

    // A tuple joins the open page of a level.
    fn join(&mut self, level: usize, tuple: &mut Vec<u8>, extra: usize) -> Result<(), AllocError>
        requires level { level < length self.old.pages.items }
        requires tuple { IsTuple tuple.old.items }
        requires room { IfSome (slice_get self.old.pages.items level) (λ page.
            used page + (length tuple.old.items + spare page.level) ≤ page_room) }
        requires extra { extra ≤ 8192 }
        ensures page { OnOk result (IfSome (slice_get self.old.pages.items level) (λ page.
            self.new.pages.items ≡ slice_set self.old.pages.items level
            (with_tuple tuple.old.items extra page))) }
        ensures others { OnOk result (KeepsAllButPages self.old self.new) }
    {
        let page = &mut self.pages[level];
        page.add(tuple, extra)
    }

    // Leaf tuples from one up to another join the open leaf. The buffer has the last one.
    fn join_all(
        &mut self,
        buffer: &mut Vec<u8>,
        leaves: &Leaves,
        first: LeafPlace,
        last: LeafPlace,
    ) -> Result<(), AllocError>
        requires leaves { All IsLeaf leaves.now }
        requires first { first ≡ place_of first.number leaves.now }
        requires last { IsPlaceIn leaves.now last }
        requires order { first.number ≤ last.number }
        requires leaf { 0 < length self.old.pages.items }
        requires room { IfSome (slice_get self.old.pages.items 0)
            (HasRoomFor (leaves_between first.number last.number leaves.now)) }
        requires tuple { IfSome (slice_get leaves.now last.number) (λ leaf.
            buffer.old.items ≡ leaf.tuple) }
        ensures page { OnOk result (IfSome (slice_get self.old.pages.items 0) (λ page.
            self.new.pages.items ≡ slice_set self.old.pages.items 0
            (with_leaves (leaves_between first.number last.number leaves.now) page))) }
        ensures others { OnOk result (KeepsAllButPages self.old self.new) }
    {
        let count = last.number - first.number;
        let tuples = leaves.tuples(first, last);
        let sizes = leaves.sizes(first.number, count);
        let extra = leaves.extra(last.number);
        let page = &mut self.pages[0];
        page.add_all(tuples, sizes, buffer, extra)?;
        Ok(())
    }

    // The first page of a level above all others.
    fn begin_level(&mut self, level: usize, pivot: &[u8]) -> Result<(), AllocError>
        requires level { level ≡ length self.old.pages.items }
        requires tuple { IsTuple pivot.now }
        ensures ok { OnOk result (packing_of self.new ≡ with_carried self.old.pages.items
            (carried self.old.fillfactor level [] self.old.blocks self.old.image pivot.now)
            (packing_of self.old)) }
        ensures fillfactor { OnOk result (self.new.fillfactor ≡ self.old.fillfactor) }
    {
        if level >= MOST_LEVELS {
            return Err(AllocError);
        }
        let block = self.give_block()?;
        let low_key = Vec::from_slice(self.alloc, pivot)?;
        let page = OpenPage::first(self.alloc, level as u32, block, low_key, pivot, 0)?;
        self.pages.push(page)?;
        Ok(())
    }

    // Finishes the open page of a level with a high key and adds a tuple to the next one, and gives
    // the finished page's tuple for the level above.
    fn turn_page(
        &mut self,
        level: usize,
        high_key: Vec<u8>,
        tuple: &mut Vec<u8>,
        extra: usize,
    ) -> Result<Vec<u8>, AllocError>
        requires level { level < length self.old.pages.items }
        requires high_key { IsTuple high_key.items }
        requires room { IfSome (slice_get self.old.pages.items level) (λ page.
            length high_key.items ≤ length page.last + spare page.level) }
        requires tuple { IsTuple tuple.old.items }
        requires extra { extra ≤ 8192 }
        ensures page { OnOk result (IfSome (slice_get self.old.pages.items level) (λ page.
            self.new.pages.items ≡ slice_set self.old.pages.items level
            (with_tuple tuple.old.items extra
            (next_page (suc self.old.blocks) high_key.items page)))) }
        ensures image { OnOk result (IfSome (slice_get self.old.pages.items level) (λ page.
            self.new.image ≡ placed page.block
            (finished_bytes (suc self.old.blocks) high_key.items page) self.old.image)) }
        ensures blocks { OnOk result (self.new.blocks ≡ suc self.old.blocks) }
        ensures tuples { OnOk result (self.new.tuples ≡ self.old.tuples) }
        ensures fillfactor { OnOk result (self.new.fillfactor ≡ self.old.fillfactor) }
        ensures pivot { IfOk result (λ pivot. IfSome (slice_get self.old.pages.items level) (λ page.
            pivot.items ≡ pivot_of page)) }
        ensures tuple { IfOk result (λ pivot. IsTuple pivot.items) }
    {
        let next = self.give_block()?;
        let page = &mut self.pages[level];
        let finished = page.finished(self.alloc, next, &high_key)?;
        self.image.place(page.block(), &finished)?;
        let pivot = page.turn(next, high_key);
        page.add(tuple, extra)?;
        Ok(pivot)
    }

    // One leaf tuple more.
    fn count_tuple(&mut self) -> Result<(), AllocError>
        ensures { OnOk result (self.new ≡ record self.old { tuples = suc self.old.tuples }) }
    {
        self.count_tuples(1)?;
        Ok(())
    }

    // So many leaf tuples more.
    fn count_tuples(&mut self, count: usize) -> Result<(), AllocError>
        ensures { OnOk result (self.new ≡ record self.old { tuples = self.old.tuples + count }) }
    {
        let count = count as u64;
        if self.tuples > u64::MAX - count {
            return Err(AllocError);
        }
        self.tuples += count;
        Ok(())
    }

    // The next block's number.
    fn give_block(&mut self) -> Result<u32, AllocError>
        ensures number { IfOk result (λ block. block ≡ suc self.old.blocks) }
        ensures bound { IfOk result (λ block. block < 2 ^ 31) }
        ensures after { OnOk result (self.new ≡ record self.old { blocks = suc self.old.blocks }) }
    {
        if self.blocks >= MOST_BLOCKS {
            return Err(AllocError);
        }
        self.blocks += 1;
        Ok(self.blocks)
    }

    /// The file: the open pages are finished from below, and the meta page names the root
    /// (`_bt_uppershutdown` of `nbtsort.c`). An error means that no memory was left.
    pub fn finish(mut self, equal_images: bool) -> Result<IndexImage, AllocError>
        ensures finished { IfOk result (λ file.
            IsFinished (fillfactor_of self) equal_images (packing_of self) file) }
        ensures file { IfOk result (λ file.
            IsFileOfThePacked (fillfactor_of self) equal_images (packing_of self) file) }
    {
        let (root, level) = self.close_all()?;
        let page = MetaPage::built(root, level, equal_images).page(self.alloc)?;
        self.image.place(0, &page)?;
        let OpenTower { image, .. } = self;
        Ok(image)
    }

    // Finishes the open pages, and gives the root's block and its level, 0 without pages.
    fn close_all(&mut self) -> Result<(u32, u32), AllocError>
        ensures root { IfOk result (λ root. Closes self.old.fillfactor (packing_of self.old)
            (record { block = root.0; level = root.1 }) self.new.image) }
    {
        if self.pages.is_empty() {
            return Ok((0, 0));
        }
        let root = self.close(0, self.tuples)?;
        Ok(root)
    }

    // Finishes the open pages from a level up, of which there are at most so many, and gives the
    // root's block and its level.
    fn close(&mut self, level: usize, most: u64) -> Result<(u32, u32), AllocError>
        requires level { level < length self.old.pages.items }
        ensures root { IfOk result (λ root. closed most self.old.fillfactor level
            (drop level self.old.pages.items) self.old.blocks self.old.image
            ≡ Some (record {
              image = self.new.image;
              root = record { block = root.0; level = root.1 };
            })) }
    {
        if most == 0 {
            return Err(AllocError);
        }
        if level + 1 == self.pages.len() {
            let root = self.place_last(level, true)?;
            return Ok(root);
        }
        let pivot = self.pages[level].pivot(self.alloc)?;
        self.place_last(level, false)?;
        self.carry(level + 1, pivot)?;
        let root = self.close(level + 1, most - 1)?;
        Ok(root)
    }

    // Places the open page of a level as the last one there, and gives its block and its level.
    fn place_last(&mut self, level: usize, root: bool) -> Result<(u32, u32), AllocError>
        requires { level < length self.old.pages.items }
        ensures image { OnOk result (IfSome (slice_get self.old.pages.items level) (λ page.
            self.new.image ≡ placed page.block (last_bytes root page) self.old.image)) }
        ensures place { IfOk result (λ place. IfSome (slice_get self.old.pages.items level) (λ page.
            (place.0 ≡ page.block) × (place.1 ≡ page.level))) }
        ensures others { OnOk result (self.new ≡ record self.old { image = self.new.image }) }
    {
        let page = &self.pages[level];
        let place = (page.block(), page.level());
        let last = page.last(self.alloc, root)?;
        self.image.place(place.0, &last)?;
        Ok(place)
    }
}

// The key of a level's first page, below which nothing is: minus infinity, without a child.
const LEAST_KEY: [u8; 8] = [0, 0, 0, 0, 0, 0, 0x08, 0x20];

fn least_key(alloc: Global) -> Result<Vec<u8>, AllocError>
    ensures value { IfOk result (λ key. key.items ≡ minus_infinity 0) }
    ensures tuple { IfOk result (λ key. IsTuple key.items) }
{
    let key = Vec::from_slice(alloc, &LEAST_KEY)?;
    Ok(key)
}
