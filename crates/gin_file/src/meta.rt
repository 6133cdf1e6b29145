ghost use Rattle.std.specs.Prelude.{◌≡◌, IfOk};
ghost use Rattle.gin_file.specs.Meta.{meta_fields, meta_page};

use crate::special::{META, NO_LINK, SPECIAL_BYTES, SPECIAL_PLACE, special_space};
use byteorder::{ByteOrder, LittleEndian};
use pg_bytes::{PAGE_HEADER, PD_LOWER, PageBuf};
use std::alloc::{AllocError, Global};

/// What the meta page counts (`GinMetaPageData` of `ginblock.h`): the blocks of the file, the pages
/// of the entry tree, those of posting trees, and the entries.
#[derive(Clone, Copy, Debug, PartialEq, Eq)]
pub struct Counts {
    pub blocks: u32,
    pub entry_pages: u32,
    pub data_pages: u32,
    pub entries: u64,
}

// `GIN_CURRENT_VERSION`.
const VERSION: u32 = 2;

// The bytes of the fields (`sizeof(GinMetaPageData)`), and where they end in the page.
const FIELDS: usize = 56;

const LOWER: u16 = PAGE_HEADER as u16 + FIELDS as u16;

impl Counts {
    /// Block 0, whose list of pending entries is empty (`GinInitMetabuffer` and `ginUpdateStats` of
    /// `ginutil.c`). An error means that no memory was left.
    pub fn meta_page(&self, alloc: Global) -> Result<PageBuf, AllocError>
        ensures { IfOk result (λ page. page ≡ meta_page self.now) }
    {
        let mut page = PageBuf::new(alloc, SPECIAL_BYTES as u16)?;
        page.put_u16(PD_LOWER, LOWER);
        page.put_slice(PAGE_HEADER, &self.fields());
        page.put_slice(SPECIAL_PLACE, &special_space(META));
        Ok(page)
    }

    // The fields as they stand behind the page's header.
    #[tactic(auto, unfolding(crate::specs::Meta::meta_fields, pg_bytes::specs::Numbers::number_bytes, pg_bytes::specs::Places::zeros))]
    fn fields(&self) -> [u8; FIELDS]
        ensures { result ≡ meta_fields self.now }
    {
        let mut fields = [0u8; FIELDS];
        LittleEndian::write_u32(&mut fields, NO_LINK);
        LittleEndian::write_u32(&mut fields[4..], NO_LINK);
        LittleEndian::write_u32(&mut fields[24..], self.blocks);
        LittleEndian::write_u32(&mut fields[28..], self.entry_pages);
        LittleEndian::write_u32(&mut fields[32..], self.data_pages);
        LittleEndian::write_u64(&mut fields[40..], self.entries);
        LittleEndian::write_u32(&mut fields[48..], VERSION);
        fields
    }
}
