ghost use Rattle.std.specs.Prelude.{◌≡◌, ◌↔◌, ◌+◌, ◌≤◌, Some, IfOk, IsTrue, length};
ghost use Rattle.pg_bytes.specs.Numbers.{number_at};
ghost use Rattle.btree_page.specs.declared.meta.MetaPage.{MetaPage};
ghost use Rattle.btree_page.specs.Meta.{HasConstants, IsMetaKind, IsMetaOf, meta_fields, page_of_meta};

use crate::special::{PageFlag, SPECIAL_BYTES, SpecialSpace};
use byteorder::{ByteOrder, LittleEndian};
use pg_bytes::{PAGE_HEADER, PD_LOWER, Page, PageBuf, u16_at, u32_at};
use std::alloc::{AllocError, Global};

/// What block 0 says of its index (`BTMetaPageData` of `nbtree.h`). An index that was built has its
/// root as fast root too, and no deleted pages.
#[derive(Clone, Copy, Debug, PartialEq, Eq)]
pub struct MetaPage {
    /// The root's block, 0 where the index has no rows.
    pub root: u32,
    /// The root's level above the leaves.
    pub level: u32,
    /// The block where a search begins: the highest page above which each level has one page.
    pub fast_root: u32,
    /// That page's level.
    pub fast_level: u32,
    /// How many deleted pages the last cleanup left.
    pub deleted_pages: u32,
    /// Whether equal keys have equal bytes.
    pub equal_images: bool,
}

// `BTREE_MAGIC` and `BTREE_VERSION`.
const MAGIC: u32 = 0x053162;

const VERSION: u32 = 4;

// `btm_last_cleanup_num_heap_tuples`: -1.0, which says that no cleanup counted them.
const NEVER_COUNTED: u64 = 0xBFF0_0000_0000_0000;

// The bytes of the fields (`sizeof(BTMetaPageData)`), and where they end in the page.
const FIELDS: usize = 48;

const LOWER: u16 = PAGE_HEADER as u16 + FIELDS as u16;

impl MetaPage {
    /// What the meta page says of an index that was built with this root, on this level.
    pub fn built(root: u32, level: u32, equal_images: bool) -> MetaPage
        ensures { result ≡ record {
          root = root;
          level = level;
          fast_root = root;
          fast_level = level;
          deleted_pages = 0;
          equal_images = equal_images;
        } }
    {
        MetaPage {
            root,
            level,
            fast_root: root,
            fast_level: level,
            deleted_pages: 0,
            equal_images,
        }
    }

    /// What a page says where its fields are those of a meta page: the flags that tell kinds of
    /// pages, `pd_lower`, magic, version, the bytes between the numbers, and that no cleanup
    /// counted heap tuples. None comes exactly where they aren't.
    pub fn read(page: &Page) -> Option<MetaPage>
        ensures { (meta : MetaPage) → (result ≡ Some meta) ↔ IsMetaOf page.now meta }
    {
        if !has_constants(page) {
            return None;
        }
        let bytes = page.bytes();
        let meta = MetaPage {
            root: u32_at(bytes, PAGE_HEADER + 8),
            level: u32_at(bytes, PAGE_HEADER + 12),
            fast_root: u32_at(bytes, PAGE_HEADER + 16),
            fast_level: u32_at(bytes, PAGE_HEADER + 20),
            deleted_pages: u32_at(bytes, PAGE_HEADER + 24),
            equal_images: u8_at(bytes, PAGE_HEADER + 40) == 1,
        };
        if u8_at(bytes, PAGE_HEADER + 40) <= 1 {
            Some(meta)
        } else {
            None
        }
    }

    /// The page of block 0 (`_bt_initmetapage` of `nbtpage.c`). An error means that no memory was
    /// left.
    pub fn page(&self, alloc: Global) -> Result<PageBuf, AllocError>
        ensures { IfOk result (λ page. page ≡ page_of_meta self.now) }
    {
        let special = SpecialSpace {
            prev: 0,
            next: 0,
            level: 0,
            flags: PageFlag::Meta.bit(),
            cycle: 0,
        };
        let mut page = PageBuf::new(alloc, SPECIAL_BYTES as u16)?;
        page.put_u16(PD_LOWER, LOWER);
        page.put_slice(PAGE_HEADER, &self.fields());
        special.put(&mut page);
        Ok(page)
    }

    // The fields as they stand behind the page's header.
    #[tactic(auto, unfolding(crate::specs::Meta::meta_fields, pg_bytes::specs::Numbers::number_bytes, pg_bytes::specs::Places::zeros))]
    fn fields(&self) -> [u8; FIELDS]
        ensures { result ≡ meta_fields self.now }
    {
        let mut fields = [0u8; FIELDS];
        LittleEndian::write_u32(&mut fields, MAGIC);
        LittleEndian::write_u32(&mut fields[4..], VERSION);
        LittleEndian::write_u32(&mut fields[8..], self.root);
        LittleEndian::write_u32(&mut fields[12..], self.level);
        LittleEndian::write_u32(&mut fields[16..], self.fast_root);
        LittleEndian::write_u32(&mut fields[20..], self.fast_level);
        LittleEndian::write_u32(&mut fields[24..], self.deleted_pages);
        LittleEndian::write_u64(&mut fields[32..], NEVER_COUNTED);
        fields[40] = u8::from(self.equal_images);
        fields
    }
}

// Whether a page has what is the same on each meta page.
fn has_constants(page: &Page) -> bool
    ensures { IsTrue result ↔ HasConstants page.now }
{
    let bytes = page.bytes();
    is_meta(page)
        && u16_at(bytes, PD_LOWER) == LOWER
        && u32_at(bytes, PAGE_HEADER) == MAGIC
        && u32_at(bytes, PAGE_HEADER + 4) == VERSION
        && u32_at(bytes, PAGE_HEADER + 28) == 0
        && u64_at(bytes, PAGE_HEADER + 32) == NEVER_COUNTED
}

// Whether a page's flags are a meta page's, as far as they tell kinds of pages.
fn is_meta(page: &Page) -> bool
    ensures { IsTrue result ↔ IsMetaKind page.now }
{
    let space = SpecialSpace::read(page);
    space.has(PageFlag::Meta) && !space.has(PageFlag::Leaf) && !space.has(PageFlag::Root)
}

// The number of one byte at a place.
#[tactic(auto, unfolding(pg_bytes::specs::Numbers::number_at))]
fn u8_at(bytes: &[u8], at: usize) -> u8
    requires { at + 1 ≤ length bytes.now }
    ensures { result ≡ number_at 1 bytes.now at }
{
    bytes[at]
}

// The little-endian number of eight bytes at a place.
#[tactic(auto, unfolding(pg_bytes::specs::Numbers::number_at))]
fn u64_at(bytes: &[u8], at: usize) -> u64
    requires { at + 8 ≤ length bytes.now }
    ensures { result ≡ number_at 8 bytes.now at }
{
    LittleEndian::read_u64(&bytes[at..])
}
