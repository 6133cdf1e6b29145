ghost use Rattle.std.specs.Prelude.{◌≡◌, ◌↔◌, IsTrue};
ghost use Rattle.pg_bytes.specs.Places.{written};
ghost use Rattle.btree_page.specs.SpecialSpace.{HasFlag, flag_bit, space_of_page, special_bytes, special_start};

use byteorder::{ByteOrder, LittleEndian};
use pg_bytes::{PAGE, Page, PageBuf, u16_at, u32_at};

/// The bytes of a B-tree page's special space (`sizeof(BTPageOpaqueData)`).
pub const SPECIAL_BYTES: usize = 16;

// Where it begins.
const SPECIAL_PLACE: usize = PAGE - SPECIAL_BYTES;

/// A flag of a page (`BTP_LEAF` and the others of `nbtree.h`).
#[derive(Clone, Copy, Debug, PartialEq, Eq)]
pub enum PageFlag {
    /// Its items are of rows.
    Leaf,
    /// It has no page above it.
    Root,
    /// It was deleted, and is no part of the tree.
    Deleted,
    /// Block 0.
    Meta,
    /// It is empty, and its item above is gone.
    HalfDead,
    /// It is the rightmost page of a group that one split made while a vacuum ran.
    SplitEnd,
    /// It has items of dead rows.
    HasGarbage,
    /// The item above of its right neighbour is missing.
    IncompleteSplit,
    /// It was deleted, with a transaction id of eight bytes.
    HasFullXid,
}

impl PageFlag {
    /// The flag's bit.
    pub fn bit(self) -> u16
        ensures { result ≡ flag_bit self }
    {
        match self {
            PageFlag::Leaf => 1,
            PageFlag::Root => 2,
            PageFlag::Deleted => 4,
            PageFlag::Meta => 8,
            PageFlag::HalfDead => 16,
            PageFlag::SplitEnd => 32,
            PageFlag::HasGarbage => 64,
            PageFlag::IncompleteSplit => 128,
            PageFlag::HasFullXid => 256,
        }
    }
}

/// What a B-tree page's special space says (`BTPageOpaqueData` of `nbtree.h`).
#[derive(Clone, Copy, Debug, PartialEq, Eq)]
pub struct SpecialSpace {
    /// The block of the left neighbour on the page's level, 0 for none.
    pub prev: u32,
    /// The block of the right neighbour, 0 for none.
    pub next: u32,
    /// How many levels the page is above the leaves.
    pub level: u32,
    /// The bits of the page's flags.
    pub flags: u16,
    /// The cycle of the vacuum during which the page was last split, 0 for none.
    pub cycle: u16,
}

impl SpecialSpace {
    /// What the special space of a page says, which are its last 16 bytes, wherever `pd_special`
    /// is (`BTPageGetOpaque`).
    pub fn read(page: &Page) -> SpecialSpace
        ensures { result ≡ space_of_page page.now }
    {
        let bytes = page.bytes();
        SpecialSpace {
            prev: u32_at(bytes, SPECIAL_PLACE),
            next: u32_at(bytes, SPECIAL_PLACE + 4),
            level: u32_at(bytes, SPECIAL_PLACE + 8),
            flags: u16_at(bytes, SPECIAL_PLACE + 12),
            cycle: u16_at(bytes, SPECIAL_PLACE + 14),
        }
    }

    /// Writes this as the last 16 bytes of a page.
    pub fn put(&self, page: &mut PageBuf)
        ensures { page.new ≡ written (special_bytes self.now) special_start page.old }
    {
        page.put_slice(SPECIAL_PLACE, &self.bytes());
    }

    /// Whether the page has this flag.
    pub fn has(&self, flag: PageFlag) -> bool
        ensures { IsTrue result ↔ HasFlag flag self.now.flags }
    {
        self.flags / flag.bit() % 2 == 1
    }

    // The 16 bytes.
    #[tactic(auto, unfolding(crate::specs::SpecialSpace::special_bytes, pg_bytes::specs::Numbers::number_bytes))]
    fn bytes(&self) -> [u8; SPECIAL_BYTES]
        ensures { result ≡ special_bytes self.now }
    {
        let mut bytes = [0u8; SPECIAL_BYTES];
        LittleEndian::write_u32(&mut bytes, self.prev);
        LittleEndian::write_u32(&mut bytes[4..], self.next);
        LittleEndian::write_u32(&mut bytes[8..], self.level);
        LittleEndian::write_u16(&mut bytes[12..], self.flags);
        LittleEndian::write_u16(&mut bytes[14..], self.cycle);
        bytes
    }
}
