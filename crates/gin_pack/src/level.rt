ghost use Rattle.std.specs.Prelude.{◌≡◌, ◌+◌, ◌≤◌, ℕ, List, [], IfOk, OnOk, length};
ghost use Rattle.opclass.specs.declared.types.ColType.{ColType};
ghost use Rattle.gin_file.specs.EntryTree.{Item, entry_page};
ghost use Rattle.gin_pack.specs.Pass.Filling.{HasPut, IsFilling, IsLevelOf, KeepsItems, PutsItem, Takes};
ghost use Rattle.gin_pack.specs.Pass.Placing.{ArePagesOf};

use gin_file::{SPECIAL_BYTES, SPECIAL_PLACE, special_space};
use pg_bytes::{LINE_POINTER, PAGE_HEADER, PageBuf};
use std::alloc::{AllocError, Global};
use std::mem;

// What a page has for tuples and their line pointers.
const PAGE_ROOM: usize = SPECIAL_PLACE - PAGE_HEADER;

/// A page of a level, and the tuple by which the level above names it: that of its greatest entry,
/// which leads to no page yet.
#[derive(Debug, Drop)]
pub struct FullPage {
    pub page: PageBuf,
    pub key: Vec<u8>,
}

/// The pages of a level of the entry tree, filled from left to right: those that are full, and one
/// that is open.
#[derive(Debug, Drop)]
pub struct Level {
    pub alloc: Global,
    pub flags: u16,
    pub full: Vec<FullPage>,
    pub open_page: FullPage,
    /// How many tuples the open page has, and how many bytes are free there.
    pub count: u16,
    pub free: usize,
}

impl Level {
    /// A level without tuples, whose pages have these flags. An error means that no memory was
    /// left.
    pub fn new(alloc: Global, flags: u16) -> Result<Level, AllocError>
        ensures { IfOk result (λ level. (kind : ColType) → IsLevelOf kind flags [] level) }
    {
        let page = empty_page(alloc, flags)?;
        Ok(Level {
            alloc,
            flags,
            full: Vec::new(alloc),
            open_page: FullPage {
                page,
                key: Vec::new(alloc),
            },
            count: 0,
            free: PAGE_ROOM,
        })
    }

    /// Puts a tuple behind the others, with the tuple by which the level above names its entry. An
    /// error means that no memory was left.
    pub fn put(&mut self, tuple: &[u8], key: &[u8]) -> Result<(), AllocError>
        requires { Takes self.old tuple.now key.now }
        ensures { OnOk result (PutsItem self.old self.new tuple.now key.now) }
    {
        self.make_room(tuple.len())?;
        self.add(tuple, key)?;
        Ok(())
    }

    /// The pages of the level, the last one as far as it is filled. An error means that no memory
    /// was left.
    pub fn finish(self) -> Result<Vec<FullPage>, AllocError>
        ensures { IfOk result (λ pages. (kind : ColType) → (flags : ℕ) → (items : List Item)
            → IsLevelOf kind flags items self → ArePagesOf kind flags items pages.items) }
    {
        let Level {
            mut full,
            open_page,
            ..
        } = self;
        full.push(open_page)?;
        Ok(full)
    }

    // Opens another page where a tuple of this size has no room on the open one.
    fn make_room(&mut self, size: usize) -> Result<(), AllocError>
        requires filling { IsFilling self.old }
        requires size { size ≤ 2712 }
        ensures room { OnOk result (size + 4 ≤ self.new.free) }
        ensures kept { OnOk result (KeepsItems self.old self.new) }
    {
        if size + LINE_POINTER <= self.free {
            return Ok(());
        }
        let next = FullPage {
            page: empty_page(self.alloc, self.flags)?,
            key: Vec::new(self.alloc),
        };
        let full = mem::replace(&mut self.open_page, next);
        self.full.push(full)?;
        self.count = 0;
        self.free = PAGE_ROOM;
        Ok(())
    }

    // Adds a tuple to the open page.
    fn add(&mut self, tuple: &[u8], key: &[u8]) -> Result<(), AllocError>
        requires takes { Takes self.old tuple.now key.now }
        requires room { length tuple.now + 4 ≤ self.old.free }
        ensures { OnOk result (PutsItem self.old self.new tuple.now key.now) }
    {
        self.open_page.key.clear();
        self.open_page.key.extend_from_slice(key)?;
        self.open_page.page.put_item(self.count + 1, tuple);
        self.count += 1;
        self.free -= tuple.len() + LINE_POINTER;
        Ok(())
    }
}

// A page without tuples and without a right link.
fn empty_page(alloc: Global, flags: u16) -> Result<PageBuf, AllocError>
    ensures { IfOk result (λ page. page ≡ entry_page flags 0xFFFFFFFF []) }
{
    let mut page = PageBuf::new(alloc, SPECIAL_BYTES as u16)?;
    page.put_slice(SPECIAL_PLACE, &special_space(flags));
    Ok(page)
}
