ghost use Rattle.std.specs.Prelude.{◌≡◌};
ghost use Rattle.posting_tree.specs.Special.{special_space};

use byteorder::{ByteOrder, LittleEndian};

/// The bytes of a GIN page's special space (`sizeof(GinPageOpaqueData)`).
pub const SPECIAL_BYTES: usize = 8;

/// Where a GIN page's special space begins, with the page's right link.
pub const SPECIAL_PLACE: usize = 8184;

/// The right link of the rightmost page of a level (`InvalidBlockNumber`).
pub const NO_LINK: u32 = 0xFFFF_FFFF;

/// The flags of a page of the entry tree that is no leaf.
pub const INNER: u16 = 0;

/// The flag of a leaf (`GIN_LEAF` of `ginblock.h`).
pub const LEAF: u16 = 2;

/// The flag of the meta page (`GIN_META`).
pub const META: u16 = 8;

/// The special space of a page that is no page of a posting tree, without a right link.
#[tactic(auto, unfolding(posting_tree::specs::Special::special_space, pg_bytes::specs::Numbers::number_bytes))]
pub fn special_space(flags: u16) -> [u8; SPECIAL_BYTES]
    ensures { result ≡ special_space 0xFFFFFFFF 0 flags }
{
    let mut bytes = [0u8; SPECIAL_BYTES];
    LittleEndian::write_u32(&mut bytes, NO_LINK);
    LittleEndian::write_u16(&mut bytes[6..], flags);
    bytes
}
