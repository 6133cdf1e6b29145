ghost use Rattle.std.specs.Prelude.{◌≡◌, ◌+◌, ◌<◌, ◌≤◌, ◌^◌, length, IfOk};
ghost use Rattle.pg_bytes.specs.Numbers.{number_at, number_bytes, rounded_up, signed_at};
ghost use Rattle.pg_bytes.specs.Places.{written, zeros};

use byteorder::{ByteOrder, LittleEndian};
use std::alloc::{AllocError, Global};

/// Rounds a size in bytes up to a multiple of 8 (`MAXALIGN`).
pub fn al8(x: u64) -> u64
    requires { x < 2 ^ 63 }
    ensures { result ≡ rounded_up 8 x }
{
    (x + 7) / 8 * 8
}

/// Rounds a size in bytes up to a multiple of 2 (`SHORTALIGN`).
pub fn al2(x: u64) -> u64
    requires { x < 2 ^ 63 }
    ensures { result ≡ rounded_up 2 x }
{
    (x + 1) / 2 * 2
}

/// The little-endian number of two bytes at a place, counted in bytes from 0.
#[tactic(auto, unfolding(crate::specs::Numbers::number_at))]
pub fn u16_at(bytes: &[u8], at: usize) -> u16
    requires { at + 2 ≤ length bytes.now }
    ensures { result ≡ number_at 2 bytes.now at }
{
    LittleEndian::read_u16(&bytes[at..])
}

/// The little-endian number of four bytes at a place, counted in bytes from 0.
#[tactic(auto, unfolding(crate::specs::Numbers::number_at))]
pub fn u32_at(bytes: &[u8], at: usize) -> u32
    requires { at + 4 ≤ length bytes.now }
    ensures { result ≡ number_at 4 bytes.now at }
{
    LittleEndian::read_u32(&bytes[at..])
}

/// The little-endian signed number of eight bytes at a place, counted in bytes from 0, in two's
/// complement.
pub fn i64_at(bytes: &[u8], at: usize) -> i64
    requires { at + 8 ≤ length bytes.now }
    ensures { result ≡ signed_at bytes.now at }
{
    u64_at(bytes, at).cast_signed()
}

#[tactic(auto, unfolding(crate::specs::Numbers::number_at))]
fn u64_at(bytes: &[u8], at: usize) -> u64
    requires { at + 8 ≤ length bytes.now }
    ensures { result ≡ number_at 8 bytes.now at }
{
    LittleEndian::read_u64(&bytes[at..])
}

/// So many zero bytes. An error means that no memory was left.
#[tactic(auto, unfolding(crate::specs::Places::zeros))]
pub fn zero_bytes(alloc: Global, count: usize) -> Result<Vec<u8>, AllocError>
    ensures value { IfOk result (λ bytes. bytes.items ≡ zeros count) }
    ensures size { IfOk result (λ bytes. length bytes.items ≡ count) }
{
    vec![in alloc; 0; count]
}

// Writes the two bytes of a number at a place.
#[tactic(auto, unfolding(crate::specs::Numbers::number_bytes, crate::specs::Places::written))]
pub(crate) fn put_u16_at(bytes: &mut [u8], at: usize, value: u16)
    requires { at + 2 ≤ length bytes.old }
    ensures { bytes.new ≡ written (number_bytes 2 value) at bytes.old }
{
    let mut field = [0u8; 2];
    LittleEndian::write_u16(&mut field, value);
    bytes[at..at + 2].copy_from_slice(&field);
}
