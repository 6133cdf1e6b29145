ghost use Rattle.std.specs.Prelude.{◌≡◌, ◌+◌, ◌*◌, ◌^◌, ◌<◌, ◌≤◌, ◌++◌, if◌then◌else◌, length, nat_eq, IfOk, OnErr, OnOk};
ghost use Rattle.pg_bytes.specs.PageLayout.{page_size};
ghost use Rattle.posting_tree.specs.Levels.{no_link};
ghost use Rattle.posting_tree.specs.PostingTree.{Extends, data_page, zero_pointer};
ghost use Rattle.posting_tree.specs.Special.{special_space};

use byteorder::{ByteOrder, LittleEndian};
use pg_bytes::{IndexImage, PAGE, PAGE_HEADER, PD_LOWER, PageBuf, RowPtr};
use std::alloc::{AllocError, Global};

/// The right link of the rightmost page of a level (`InvalidBlockNumber` of `block.h`).
pub(crate) const NO_LINK: u32 = u32::MAX;

/// The flags of a leaf (`GIN_DATA`, `GIN_LEAF` and `GIN_COMPRESSED` of `ginblock.h`).
pub(crate) const LEAF: u16 = 0x83;

/// The flags of a page above the leaves (`GIN_DATA`).
pub(crate) const INNER: u16 = 1;

/// The bytes that a page has for its content (`GinDataPageMaxDataSize`).
pub(crate) const CONTENT_ROOM: usize = SPECIAL_PLACE - CONTENT;

// Where the content begins, behind header and right bound.
const CONTENT: usize = 32;

// Where the special space begins, and its bytes (`GinPageOpaqueData`).
const SPECIAL_PLACE: usize = PAGE - SPECIAL;

const SPECIAL: usize = 8;

/// What a page of a posting tree says besides its content: its flags, how many items a page above
/// the leaves has, its right link, and its greatest pointer.
#[derive(Clone, Copy)]
pub(crate) struct DataPage {
    pub flags: u16,
    pub maxoff: u16,
    pub right: u32,
    pub last: RowPtr,
}

impl DataPage {
    // The page with this content (`GinDataLeafPageSetPostingListSize` and its kin of `ginblock.h`).
    // An error means that no memory was left.
    fn page(&self, alloc: Global, content: &[u8]) -> Result<PageBuf, AllocError>
        requires { length content.now ≤ 8152 }
        ensures { IfOk result (λ page. page ≡ data_page self.now.flags self.now.maxoff
            self.now.right (if nat_eq self.now.right no_link then zero_pointer else self.now.last)
            content.now) }
    {
        let mut page = PageBuf::new(alloc, SPECIAL as u16)?;
        page.put_u16(PD_LOWER, (CONTENT + content.len()) as u16);
        page.put_slice(PAGE_HEADER, &self.bound().bytes());
        page.put_slice(CONTENT, content);
        page.put_slice(SPECIAL_PLACE, &self.special());
        Ok(page)
    }

    // The right bound: the greatest pointer, and zeros on the rightmost page of a level.
    fn bound(&self) -> RowPtr
        ensures { result
            ≡ if nat_eq self.now.right no_link then zero_pointer else self.now.last }
    {
        if self.right == NO_LINK {
            RowPtr {
                block: 0,
                offset: 0,
            }
        } else {
            self.last
        }
    }

    // The special space.
    #[tactic(auto, unfolding(crate::specs::Special::special_space, pg_bytes::specs::Numbers::number_bytes))]
    fn special(&self) -> [u8; 8]
        ensures { result ≡ special_space self.now.right self.now.maxoff self.now.flags }
    {
        let mut bytes = [0u8; SPECIAL];
        LittleEndian::write_u32(&mut bytes, self.right);
        LittleEndian::write_u16(&mut bytes[4..], self.maxoff);
        LittleEndian::write_u16(&mut bytes[6..], self.flags);
        bytes
    }

    /// Puts the page with this content behind the blocks of an image. An error means that no
    /// memory was left, and then the image is as before.
    pub(crate) fn put(
        &self,
        alloc: Global,
        image: &mut IndexImage,
        content: &[u8],
    ) -> Result<(), AllocError>
        requires content { length content.now ≤ 8152 }
        requires room { length image.old < 2 ^ 31 * page_size }
        ensures ok { OnOk result (image.new ≡ image.old ++ data_page self.now.flags
            self.now.maxoff self.now.right
            (if nat_eq self.now.right no_link then zero_pointer else self.now.last) content.now) }
        ensures size { OnOk result (length image.new ≡ length image.old + page_size) }
        ensures err { OnErr result (image.new ≡ image.old) }
        ensures extends { Extends image.old image.new }
    {
        let page = self.page(alloc, content)?;
        let _bytes = page.bytes();
        image.append(&page)
    }
}
