ghost use Rattle.std.specs.Prelude.{◌≡◌, ◌↔◌, ◌+◌, ◌*◌, ◌≤◌, ◌<◌, ◌^◌, List, [], IfOk, IsTrue, OnOk, length, map};
ghost use Rattle.opclass.specs.declared.types.ColType.{ColType};
ghost use Rattle.pg_bytes.specs.PageLayout.{page_size};
ghost use Rattle.gin_entry.specs.EntrySize.{entry_size};
ghost use Rattle.posting_tree.specs.PostingTree.{AddsTree};
ghost use Rattle.posting_tree.specs.Segments.{AreAscending, segment};
ghost use Rattle.gin_file.specs.EntryTuple.{list_size};
ghost use Rattle.gin_pack.specs.File.{HasPostings, Stored};
ghost use Rattle.gin_pack.specs.Pass.Filling.{NamesEntry};
ghost use Rattle.gin_pack.specs.Postings.{IsListed};
ghost use Rattle.gin_file.specs.Entry.{IsEntry};
ghost use Rattle.gin_pack.specs.Pass.Storing.{HasStored, IsStoring, PutsTuple, Stores};

use crate::level::Level;
use crate::levels::{MOST_BLOCKS, place_levels};
use gin_entry::Entry;
use gin_file::{
    Counts, LEAF, MOST_SIZE, SPECIAL_BYTES, list_place, put_leading_tuple, put_list_tuple,
};
use opclass::ColType;
use pg_bytes::{IndexImage, PageBuf, RowPtr};
use posting_tree::{build_tree, put_segment};
use std::alloc::{AllocError, Global};

// The mark of a tuple whose list stands in a posting tree, in the place of a count
// (`GIN_TREE_POSTING` of `ginblock.h`).
const TREE_MARK: u16 = 0xFFFF;

/// What entries have become that came in their order: tuples on the leaves of the entry tree, and
/// posting trees in the image, behind blocks for the meta page and the root.
#[derive(Debug, Drop)]
pub struct EntryStore {
    pub alloc: Global,
    pub kind: ColType,
    pub image: IndexImage,
    pub leaves: Level,
    pub entries: u64,
    // Buffers that are kept: a posting list, a leaf's tuple and the one above the leaves.
    pub list: Vec<u8>,
    pub tuple: Vec<u8>,
    pub key: Vec<u8>,
}

impl EntryStore {
    /// No entries of an index over arrays of this type. An error means that no memory was left.
    pub fn new(alloc: Global, kind: ColType) -> Result<EntryStore, AllocError>
        ensures { IfOk result (HasStored kind []) }
    {
        let mut image = IndexImage::new(alloc);
        let blank = PageBuf::new(alloc, SPECIAL_BYTES as u16)?;
        image.append(&blank)?;
        image.append(&blank)?;
        let leaves = Level::new(alloc, LEAF)?;
        Ok(EntryStore {
            alloc,
            kind,
            image,
            leaves,
            entries: 0,
            list: Vec::new(alloc),
            tuple: Vec::new(alloc),
            key: Vec::new(alloc),
        })
    }

    /// Stores an entry that is greater than those before, with its pointers (`ginEntryInsert` of
    /// `gininsert.c`). An error means that no memory was left.
    pub fn store(&mut self, entry: &Entry, ptrs: &[RowPtr]) -> Result<(), AllocError>
        requires storing { IsStoring self.old }
        requires listed { IsListed self.old.kind
            (record { entry = entry.now; pointers = ptrs.now }) }
        requires few { length ptrs.now < 2 ^ 30 }
        ensures { OnOk result (Stores self.old self.new
            (record { entry = entry.now; pointers = ptrs.now })) }
    {
        self.put_tuple(entry, ptrs)?;
        self.put_key(entry)?;
        self.leaves.put(&self.tuple, &self.key)?;
        if self.entries == u64::MAX {
            return Err(AllocError);
        }
        self.entries += 1;
        Ok(())
    }

    /// The file of the entries: the entry tree rises from its leaves, and the meta page tells what
    /// there is. An error means that no memory was left.
    pub fn finish(self) -> Result<IndexImage, AllocError>
        requires { IsStoring self }
        ensures { IfOk result (λ file. (kind : ColType) → (stored : List Stored)
            → HasStored kind stored self
            → HasPostings kind file (map (λ each. each.posting) stored)) }
    {
        let EntryStore {
            alloc,
            mut image,
            leaves,
            entries,
            ..
        } = self;
        let data_pages = image.blocks() - 2;
        let pages = leaves.finish()?;
        place_levels(alloc, &mut image, pages)?;
        let meta = counts_of(&image, data_pages, entries).meta_page(alloc)?;
        image.place(0, &meta)?;
        Ok(image)
    }

    // Puts the tuple of an entry into its buffer, and its list there too where it has room, else as
    // a posting tree into the image.
    fn put_tuple(&mut self, entry: &Entry, ptrs: &[RowPtr]) -> Result<(), AllocError>
        requires storing { IsStoring self.old }
        requires listed { IsListed self.old.kind
            (record { entry = entry.now; pointers = ptrs.now }) }
        requires few { length ptrs.now < 2 ^ 30 }
        ensures { OnOk result (PutsTuple self.old self.new
            (record { entry = entry.now; pointers = ptrs.now })) }
    {
        self.tuple.clear();
        if put_list(&mut self.list, self.kind, entry, ptrs)? {
            put_list_tuple(
                &mut self.tuple,
                self.kind,
                entry,
                &self.list,
                ptrs.len() as u16,
            )?;
            return Ok(());
        }
        let root = put_tree(self.alloc, &mut self.image, ptrs)?;
        let front = RowPtr {
            block: root,
            offset: TREE_MARK,
        };
        put_leading_tuple(&mut self.tuple, self.kind, entry, front)?;
        Ok(())
    }

    // Puts the tuple by which the level above the leaves names an entry into its buffer.
    fn put_key(&mut self, entry: &Entry) -> Result<(), AllocError>
        requires entry { IsEntry entry.now }
        requires small { entry_size self.old.kind entry.now ≤ 2712 }
        ensures names { OnOk result (NamesEntry self.old.kind entry.now self.new.key.items) }
        ensures others { OnOk result (self.new ≡ record self.old { key = self.new.key }) }
    {
        let front = RowPtr {
            block: 0,
            offset: 0,
        };
        self.key.clear();
        put_leading_tuple(&mut self.key, self.kind, entry, front)?;
        Ok(())
    }
}

// Puts the list of an entry as one segment into a buffer, and answers whether its tuple has room
// for it. Where it hasn't, what the buffer has is no list.
fn put_list(
    list: &mut Vec<u8>,
    kind: ColType,
    entry: &Entry,
    ptrs: &[RowPtr],
) -> Result<bool, AllocError>
    requires { IsListed kind (record { entry = entry.now; pointers = ptrs.now }) }
    ensures fits { IfOk result (λ fits. IsTrue fits ↔ (list_size kind entry.now ptrs.now ≤ 2712)) }
    ensures list { IfOk result (λ fits. IsTrue fits → list.new.items ≡ segment ptrs.now) }
{
    list.clear();
    if ptrs.len() > MOST_SIZE {
        return Ok(false);
    }
    put_segment(list, ptrs)?;
    Ok(list.len() <= MOST_SIZE - list_place(kind, entry))
}

// Puts the posting tree of these pointers behind the blocks of an image, and answers its root.
fn put_tree(alloc: Global, image: &mut IndexImage, ptrs: &[RowPtr]) -> Result<u32, AllocError>
    requires some { 0 < length ptrs.now }
    requires few { length ptrs.now < 2 ^ 30 }
    requires ascending { AreAscending ptrs.now }
    ensures { IfOk result (λ root. AddsTree image.old image.new root ptrs.now) }
{
    if image.blocks() > MOST_BLOCKS {
        return Err(AllocError);
    }
    let root = build_tree(alloc, image, ptrs)?;
    Ok(root)
}

// What there is in an image that has so many pages of posting trees: the others are the meta page
// and those of the entry tree.
fn counts_of(image: &IndexImage, data_pages: u32, entries: u64) -> Counts
    requires { (1 + data_pages) * page_size ≤ length image.now }
    ensures fits { result.blocks < 2 ^ 32 }
    ensures blocks { result.blocks * page_size ≡ length image.now }
    ensures entry_pages { result.entry_pages + (1 + data_pages) ≡ result.blocks }
    ensures data_pages { result.data_pages ≡ data_pages }
    ensures entries { result.entries ≡ entries }
{
    let blocks = image.blocks();
    Counts {
        blocks,
        entry_pages: blocks - 1 - data_pages,
        data_pages,
        entries,
    }
}
