ghost use Rattle.std.specs.Prelude.{◌≡◌, ◌↔◌, ◌≤◌, ◌∷◌, IsTrue, IfOk, length};
ghost use Rattle.std.specs.Char.{is_ascii_digit};
ghost use Rattle.std.specs.List.{AllPass, list_all};
ghost use Rattle.std.specs.Str.Parse.{digits_value};
ghost use Rattle.stmt_token.specs.Bytes.{lowered, number_in};
ghost use Rattle.stmt_token.specs.Tokens.{undoubled};

use pg_bytes::{Bytes, Items};
use std::alloc::{AllocError, Global};

/// The most digits of a number.
pub const MOST_DIGITS: usize = 18;

/// The number that digits spell.
pub fn digits_value(digits: &[u8]) -> u64
    requires size { length digits.now ≤ 18 }
    requires digits { AllPass is_ascii_digit digits.now }
    ensures { result ≡ digits_value 10 digits.now }
{
    let mut number = 0;
    for digit in digits {
        number = number * 10 + u64::from(*digit - b'0');
    }
    number
}

/// Whether a word is this one when it is taken in lower case.
pub fn is_lowered(word: &[u8], wanted: &[u8]) -> bool
    ensures { IsTrue result ↔ (lowered word.now ≡ wanted.now) }
{
    // most words that are tried have another length
    if word.len() != wanted.len() {
        return false;
    }
    let mut word = word;
    let mut wanted = wanted;
    while let [byte, more @ ..] = word {
        let [wanted_byte, others @ ..] = wanted else {
            return false;
        };
        if byte.to_ascii_lowercase() != *wanted_byte {
            return false;
        }
        word = more;
        wanted = others;
    }
    wanted.is_empty()
}

/// A word in lower case.
pub fn lowered(alloc: Global, word: &[u8]) -> Result<Bytes, AllocError>
    ensures { IfOk result (λ bytes. bytes ≡ lowered word.now) }
{
    let bytes = word
        .iter()
        .map(|byte| byte.to_ascii_lowercase())
        .collect(alloc)?;
    Ok(Items::from_vec(bytes))
}

/// The same bytes.
pub fn copy(alloc: Global, bytes: &[u8]) -> Result<Bytes, AllocError>
    ensures { IfOk result (λ copy. copy ≡ bytes.now) }
{
    let copy = Vec::from_slice(alloc, bytes)?;
    Ok(Items::from_vec(copy))
}

/// The bytes of a string, one quote for two.
pub fn undoubled(alloc: Global, spelt: &[u8]) -> Result<Bytes, AllocError>
    ensures { IfOk result (λ bytes. bytes ≡ undoubled spelt.now) }
{
    let mut bytes = Vec::with_capacity(alloc, spelt.len())?;
    let mut left = spelt;
    while let [byte, more @ ..] = left {
        bytes.push(*byte)?;
        left = behind_byte(*byte, more);
    }
    Ok(Items::from_vec(bytes))
}

/// Whether a string is this word when it is taken in lower case, one quote for two.
pub fn is_lowered_text(spelt: &[u8], wanted: &[u8]) -> bool
    ensures { IsTrue result ↔ (lowered (undoubled spelt.now) ≡ wanted.now) }
{
    let mut spelt = spelt;
    let mut wanted = wanted;
    while let [byte, more @ ..] = spelt {
        let [wanted_byte, others @ ..] = wanted else {
            return false;
        };
        if byte.to_ascii_lowercase() != *wanted_byte {
            return false;
        }
        spelt = behind_byte(*byte, more);
        wanted = others;
    }
    wanted.is_empty()
}

// What stands behind a byte of a string, or behind two quotes.
fn behind_byte(byte: u8, more: &[u8]) -> &[u8]
    ensures rest { undoubled (byte ∷ more.now) ≡ byte ∷ undoubled result.now }
    ensures shorter { length result.now ≤ length more.now }
{
    match more {
        [_, behind @ ..] if byte == b'\'' => behind,
        _ => more,
    }
}

/// The number that 1 to 18 digits spell.
pub fn number_in(bytes: &[u8]) -> Option<u64>
    ensures { result ≡ number_in bytes.now }
{
    let len = bytes.len();
    if 0 < len && len <= MOST_DIGITS && are_digits(bytes) {
        Some(digits_value(bytes))
    } else {
        None
    }
}

fn are_digits(bytes: &[u8]) -> bool
    ensures { result ≡ list_all is_ascii_digit bytes.now }
{
    bytes.iter().all(|byte| byte.is_ascii_digit())
}
