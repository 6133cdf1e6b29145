ghost use Rattle.std.specs.Prelude.{◌≡◌, ◌++◌, ◌-◌, ◌<◌, length, replicate};
ghost use Rattle.shared_tape.specs.Places.{head_of, place_cmp, place_in};

use crate::reader::counted_at;
use byteorder::{BigEndian, ByteOrder};
use std::cmp::Ordering;

/// Where a record starts in the bytes of a run that isn't sorted yet, with the head of its order
/// bytes: a sort looks at the bytes only where two heads are equal. The key of an int4, int8 or
/// date column is in the head whole, with its row pointer.
#[derive(Clone, Copy, Debug)]
pub(crate) struct Place {
    pub head: u128,
    pub start: usize,
}

impl Place {
    /// The place of the record that starts there.
    pub fn at(bytes: &[u8], start: usize) -> Place
        ensures { result ≡ place_in bytes.now start }
    {
        Place {
            head: head_of(counted_at(bytes, start)),
            start,
        }
    }
}

// How many bytes the head has, and the half that a register holds.
const HEAD: usize = 16;

const HALF: usize = 8;

/// The first bytes as one number, highest first, with zeros where there are fewer.
#[tactic(auto, unfolding(crate::specs::Places::head_of))]
pub(crate) fn head_of(bytes: &[u8]) -> u128
    ensures { result ≡ head_of bytes.now }
{
    if HEAD <= bytes.len() {
        BigEndian::read_u128(bytes)
    } else if HALF < bytes.len() {
        overlapped(bytes)
    } else {
        BigEndian::read_u128(&padded(bytes))
    }
}

// The head of more than eight bytes, from the first eight and the last eight, of which those that
// are among the first are shifted out: so it is made in registers.
#[tactic(auto, unfolding(crate::specs::Places::head_of))]
fn overlapped(bytes: &[u8]) -> u128
    requires more { 8 < length bytes.now }
    requires few { length bytes.now < 16 }
    ensures { result ≡ head_of bytes.now }
{
    let count = bytes.len();
    let first = BigEndian::read_u64(bytes);
    let last = BigEndian::read_u64(&bytes[count - HALF..]) << (8 * (HEAD - count));
    u128::from(first) * (1 << 64) + u128::from(last)
}

// The bytes with zeros behind them.
fn padded(bytes: &[u8]) -> [u8; HEAD]
    requires { length bytes.now < 16 }
    ensures { result ≡ bytes.now ++ replicate (16 - length bytes.now) 0 }
{
    let mut all = [0u8; HEAD];
    all[..bytes.len()].copy_from_slice(bytes);
    all
}

/// Compares two places of these bytes by what stands there.
pub(crate) fn cmp_places(bytes: &[u8], a: &Place, b: &Place) -> Ordering
    ensures { result ≡ place_cmp bytes.now a.now b.now }
{
    match a.head.cmp(&b.head) {
        Ordering::Equal => counted_at(bytes, a.start).cmp(counted_at(bytes, b.start)),
        decided => decided,
    }
}
