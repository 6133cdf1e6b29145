ghost use Rattle.std.specs.Prelude.{◌≡◌, ◌≢◌, ◌+◌, ◌-◌, ◌*◌, ◌%◌, ◌^◌, ◌<◌, ◌≤◌, List, ℕ, Some, ◌∷◌, ◌++◌, MatchOption, length};
ghost use Rattle.pg_bytes.specs.Places.{zeros};
ghost use Rattle.tuple_data.specs.Datum.{IsAlignment, long_header, padding, short_header, stored_at, variable_datum};

use crate::datum::{LONG_ALIGNMENT, LONG_HEADER, SHORT_MOST, aligned};
use pg_bytes::u32_at;

// What stands behind so many zeros. None comes exactly where they don't stand there.
#[tactic(auto, unfolding(pg_bytes::specs::Places::zeros))]
fn past_zeros(bytes: &[u8], count: usize) -> Option<&[u8]>
    ensures { MatchOption result
        ((rest : List ℕ) → bytes.now ≢ zeros count ++ rest)
        (λ rest. bytes.now ≡ zeros count ++ rest.now) }
{
    let mut rest = bytes;
    for _ in 0..count {
        let [byte, more @ ..] = rest else {
            return None;
        };
        if *byte != 0 {
            return None;
        }
        rest = more;
    }
    Some(rest)
}

// So many bytes and what stands behind them. None comes exactly where there are fewer.
fn split(bytes: &[u8], count: usize) -> Option<(&[u8], &[u8])>
    ensures { MatchOption result
        (length bytes.now < count)
        (λ parts. (length parts.0.now ≡ count) × (bytes.now ≡ parts.0.now ++ parts.1.now)) }
{
    if bytes.len() < count {
        None
    } else {
        Some(bytes.split_at(count))
    }
}

// The bytes of a value of a fixed width that stands at the next multiple, and what is behind it.
pub(crate) fn fixed_at(place: u64, alignment: u8, width: u8, bytes: &[u8]) -> Option<(&[u8], &[u8])>
    requires known { IsAlignment alignment }
    requires fits { place < 2 ^ 62 }
    ensures { MatchOption result
        ((own behind : List ℕ) → length own ≡ width
        → bytes.now ≢ (padding alignment place ++ own) ++ behind)
        (λ parts. (length parts.0.now ≡ width)
        × (bytes.now ≡ (padding alignment place ++ parts.0.now) ++ parts.1.now)) }
{
    let rest = past_zeros(bytes, (aligned(place, alignment) - place) as usize)?;
    split(rest, usize::from(width))
}

// The bytes of a value of a variable width under its header, and what is behind it. Of the two
// headers only the one is read that such bytes have.
pub(crate) fn variable_at(place: u64, bytes: &[u8]) -> Option<(&[u8], &[u8])>
    requires fits { place < 2 ^ 62 }
    requires size { length bytes.now < 2 ^ 30 }
    ensures { MatchOption result
        ((own behind : List ℕ) → bytes.now ≢ stored_at place (Some (variable_datum own)) ++ behind)
        (λ parts. bytes.now
        ≡ stored_at place (Some (variable_datum parts.0.now)) ++ parts.1.now) }
{
    let [first, rest @ ..] = bytes else {
        return None;
    };
    if *first % 2 == 1 {
        short_at(*first, rest)
    } else {
        long_at(place, bytes)
    }
}

// The same of bytes under a header of one byte, which counts itself.
fn short_at(header: u8, bytes: &[u8]) -> Option<(&[u8], &[u8])>
    requires { header % 2 ≡ 1 }
    ensures { MatchOption result
        ((own behind : List ℕ) → header ≡ short_header (length own) → bytes.now ≢ own ++ behind)
        (λ parts. (header ≡ short_header (length parts.0.now))
        × (bytes.now ≡ parts.0.now ++ parts.1.now)) }
{
    if header < 3 {
        None
    } else {
        split(bytes, usize::from(header / 2) - 1)
    }
}

// The same of bytes under a header of four bytes, which stand at the next multiple of 4.
fn long_at(place: u64, bytes: &[u8]) -> Option<(&[u8], &[u8])>
    requires { place < 2 ^ 62 }
    ensures { MatchOption result
        ((own behind : List ℕ) → 126 < length own → length own < 2 ^ 30 - 4
        → bytes.now ≢ (padding 4 place ++ (long_header (length own) ++ own)) ++ behind)
        (λ parts. (126 < length parts.0.now)
        × (bytes.now ≡ (padding 4 place
        ++ (long_header (length parts.0.now) ++ parts.0.now)) ++ parts.1.now)) }
{
    match fixed_at(place, LONG_ALIGNMENT, LONG_HEADER as u8, bytes) {
        None => None,
        Some((header, rest)) => under_header(header, rest),
    }
}

// The same behind the header.
fn under_header<'a>(header: &[u8], bytes: &'a [u8]) -> Option<(&'a [u8], &'a [u8])>
    requires { length header.now ≡ 4 }
    ensures { MatchOption result
        ((own behind : List ℕ) → 126 < length own → length own < 2 ^ 30 - 4
        → header.now ≡ long_header (length own) → bytes.now ≢ own ++ behind)
        (λ parts. (126 < length parts.0.now) × (header.now ≡ long_header (length parts.0.now))
        × (bytes.now ≡ parts.0.now ++ parts.1.now)) }
{
    let word = u32_at(header, 0);
    if word % 4 != 0 {
        return None;
    }
    if word / 4 <= LONG_HEADER as u32 + SHORT_MOST as u32 {
        return None;
    }
    split(bytes, (word / 4 - LONG_HEADER as u32) as usize)
}
