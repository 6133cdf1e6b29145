ghost use Rattle.std.specs.Prelude.{◌≡◌, ◌↔◌, Some, IfOk};
ghost use Rattle.brin_summary.specs.Page.{IsMetaOf, meta_fields, meta_page};
ghost use Rattle.brin_summary.specs.declared.meta.Meta.{Meta};

use crate::special::{PageType, SPECIAL_BYTES, SPECIAL_FLAGS, SPECIAL_PLACE};
use byteorder::{ByteOrder, LittleEndian};
use pg_bytes::{PAGE_HEADER, PD_LOWER, Page, PageBuf, u16_at, u32_at};
use std::alloc::{AllocError, Global};

// `BRIN_META_MAGIC` and `BRIN_CURRENT_VERSION`.
const MAGIC: u32 = 0xA8109CFA;

const VERSION: u32 = 1;

// The bytes of the meta page's fields (`sizeof(BrinMetaPageData)`), and where they end.
const FIELDS: usize = 16;

const META_LOWER: u16 = PAGE_HEADER as u16 + FIELDS as u16;

/// What the meta page has of its index (`BrinMetaPageData` of `brin_page.h`).
#[derive(Clone, Copy, Debug, PartialEq, Eq)]
pub struct Meta {
    /// How many blocks of the heap a range has.
    pub pages_per_range: u32,
    /// The block of the revmap's last page.
    pub last_revmap: u32,
}

impl Meta {
    /// What a page has where its fields are those of a meta page: page type, flags, `pd_lower`,
    /// magic and version. None comes exactly where they aren't.
    pub fn read(page: &Page) -> Option<Meta>
        ensures { (meta : Meta) → (result ≡ Some meta) ↔ IsMetaOf page.now meta }
    {
        let bytes = page.bytes();
        if PageType::Meta.stands_on(page)
            && u16_at(bytes, SPECIAL_FLAGS) == 0
            && u16_at(bytes, PD_LOWER) == META_LOWER
            && u32_at(bytes, PAGE_HEADER) == MAGIC
            && u32_at(bytes, PAGE_HEADER + 4) == VERSION
        {
            Some(Meta {
                pages_per_range: u32_at(bytes, PAGE_HEADER + 8),
                last_revmap: u32_at(bytes, PAGE_HEADER + 12),
            })
        } else {
            None
        }
    }
}

/// Block 0 (`brin_metapage_init` of `brin_pageops.c`): how many blocks a range has, and which page
/// is the last of the revmap. An error means that no memory was left.
pub fn meta_page(
    alloc: Global,
    pages_per_range: u32,
    last_revmap: u32,
) -> Result<PageBuf, AllocError>
    ensures { IfOk result (λ page. page ≡ meta_page pages_per_range last_revmap) }
{
    let mut page = PageBuf::new(alloc, SPECIAL_BYTES as u16)?;
    page.put_u16(PD_LOWER, META_LOWER);
    page.put_slice(PAGE_HEADER, &meta_fields(pages_per_range, last_revmap));
    page.put_slice(SPECIAL_PLACE, &PageType::Meta.special_space());
    Ok(page)
}

// The meta page's fields as they stand behind its header.
#[tactic(auto, unfolding(crate::specs::Page::meta_fields, pg_bytes::specs::Numbers::number_bytes))]
fn meta_fields(pages_per_range: u32, last_revmap: u32) -> [u8; FIELDS]
    ensures { result ≡ meta_fields pages_per_range last_revmap }
{
    let mut fields = [0u8; FIELDS];
    LittleEndian::write_u32(&mut fields, MAGIC);
    LittleEndian::write_u32(&mut fields[4..], VERSION);
    LittleEndian::write_u32(&mut fields[8..], pages_per_range);
    LittleEndian::write_u32(&mut fields[12..], last_revmap);
    fields
}
