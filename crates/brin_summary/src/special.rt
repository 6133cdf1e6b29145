ghost use Rattle.std.specs.Prelude.{◌≡◌, ◌↔◌, Some, IsTrue};
ghost use Rattle.brin_summary.specs.Page.{HasType, special_space, type_number};
ghost use Rattle.brin_summary.specs.declared.special.PageType.{PageType};

use byteorder::{ByteOrder, LittleEndian};
use pg_bytes::{Page, u16_at};

/// The bytes of the special space (`sizeof(BrinSpecialSpace)`), and where it begins.
pub const SPECIAL_BYTES: usize = 8;

pub const SPECIAL_PLACE: usize = 8184;

/// Where the special space's flags stand, two bytes, and behind them the page type.
pub const SPECIAL_FLAGS: usize = 8188;

const TYPE_PLACE: usize = 8190;

/// What a page of a BRIN file is for (`BRIN_PAGETYPE_META` and the others of `brin_page.h`).
#[derive(Clone, Copy, Debug, PartialEq, Eq)]
pub enum PageType {
    /// Block 0.
    Meta,
    /// Which tuple each range has.
    Revmap,
    /// Tuples.
    Regular,
}

impl PageType {
    /// The type's number in the special space.
    pub fn number(self) -> u16
        ensures { result ≡ type_number self }
    {
        match self {
            PageType::Meta => 0xF091,
            PageType::Revmap => 0xF092,
            PageType::Regular => 0xF093,
        }
    }

    /// The type of a page, by its special space (`BrinPageType`). None comes exactly where it has
    /// the number of no type.
    pub fn of(page: &Page) -> Option<PageType>
        ensures { (page_type : PageType) → (result ≡ Some page_type) ↔ HasType page_type page.now }
    {
        if PageType::Meta.stands_on(page) {
            Some(PageType::Meta)
        } else if PageType::Revmap.stands_on(page) {
            Some(PageType::Revmap)
        } else if PageType::Regular.stands_on(page) {
            Some(PageType::Regular)
        } else {
            None
        }
    }

    /// Whether a page has this type.
    pub fn stands_on(self, page: &Page) -> bool
        ensures { IsTrue result ↔ HasType self page.now }
    {
        u16_at(page.bytes(), TYPE_PLACE) == self.number()
    }

    // The special space of a page of this type.
    #[tactic(auto, unfolding(crate::specs::Page::special_space, pg_bytes::specs::Numbers::number_bytes, pg_bytes::specs::Places::zeros))]
    pub(crate) fn special_space(self) -> [u8; SPECIAL_BYTES]
        ensures { result ≡ special_space self }
    {
        let mut bytes = [0u8; SPECIAL_BYTES];
        LittleEndian::write_u16(&mut bytes[6..], self.number());
        bytes
    }
}
