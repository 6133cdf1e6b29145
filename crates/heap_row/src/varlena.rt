ghost use Rattle.std.specs.Prelude.{◌≡◌, ◌≤◌, IfOk, length};
ghost use Rattle.heap_row.specs.Varlena.{content_of, external_at, long_at, stored_at, varlena_at, within};

use crate::fault::RowCause;
use opclass::Width;
use pg_bytes::u32_at;

// The first byte of a pointer to a value that is stored elsewhere (`VARATT_IS_1B_E` of varatt.h).
const EXTERNAL_HEADER: u8 = 0x01;

// The second byte of a pointer into a TOAST table (`VARTAG_ONDISK`).
const ONDISK_TAG: u8 = 18;

// The bytes of such a pointer.
const ONDISK_SIZE: usize = 18;

// The bytes of a header that isn't short (`VARHDRSZ`).
pub(crate) const LONG_HEADER: usize = 4;

// How a value's bytes stand in a tuple (`varatt.h`).
#[derive(Clone, Copy, Debug, PartialEq, Eq)]
pub enum Storage {
    // As they are.
    Plain,
    // Compressed.
    Compressed,
    // In a TOAST table, to which a pointer leads.
    External,
}

// How a value is stored: the bytes of its header, of which a value of a fixed width has none, and
// all of its bytes.
#[derive(Clone, Copy, Debug, PartialEq, Eq)]
pub struct Stored {
    pub storage: Storage,
    pub header: usize,
    pub total: usize,
}

impl Stored {
    // The bytes behind the header of a value that begins where these bytes do.
    pub(crate) fn content<'a>(&self, bytes: &'a [u8]) -> &'a [u8]
        requires header { self.now.header ≤ self.now.total }
        requires inside { self.now.total ≤ length bytes.now }
        ensures { result.now ≡ content_of self.now bytes.now }
    {
        &bytes[self.header..self.total]
    }
}

// How the value of a type of this width is stored that begins where the bytes do.
pub(crate) fn stored_at(width: Width, bytes: &[u8]) -> Result<Stored, RowCause>
    ensures value { result ≡ stored_at width bytes.now }
    ensures header { IfOk result (λ stored. stored.header ≤ stored.total) }
    ensures inside { IfOk result (λ stored. stored.total ≤ length bytes.now) }
{
    match width {
        Width::Fixed(width) => within(
            bytes,
            Stored {
                storage: Storage::Plain,
                header: 0,
                total: usize::from(width),
            },
        ),
        Width::Variable => varlena_at(bytes),
    }
}

// The same of a type without a fixed width, by the value's header.
fn varlena_at(bytes: &[u8]) -> Result<Stored, RowCause>
    ensures value { result ≡ varlena_at bytes.now }
    ensures header { IfOk result (λ stored. stored.header ≤ stored.total) }
    ensures inside { IfOk result (λ stored. stored.total ≤ length bytes.now) }
{
    let [first, ..] = bytes else {
        return Err(RowCause::PastEnd);
    };
    if *first == EXTERNAL_HEADER {
        external_at(bytes)
    } else if *first % 2 == 1 {
        let stored = Stored {
            storage: Storage::Plain,
            header: 1,
            total: usize::from(*first / 2),
        };
        within(bytes, stored)
    } else {
        long_at(bytes)
    }
}

// A pointer to a value that is stored elsewhere.
fn external_at(bytes: &[u8]) -> Result<Stored, RowCause>
    ensures value { result ≡ external_at bytes.now }
    ensures header { IfOk result (λ stored. stored.header ≤ stored.total) }
    ensures inside { IfOk result (λ stored. stored.total ≤ length bytes.now) }
{
    let [_, tag, ..] = bytes else {
        return Err(RowCause::PastEnd);
    };
    if *tag != ONDISK_TAG {
        return Err(RowCause::External);
    }
    let stored = Stored {
        storage: Storage::External,
        header: 2,
        total: ONDISK_SIZE,
    };
    within(bytes, stored)
}

// A value with a header of four bytes.
fn long_at(bytes: &[u8]) -> Result<Stored, RowCause>
    ensures value { result ≡ long_at bytes.now }
    ensures header { IfOk result (λ stored. stored.header ≤ stored.total) }
    ensures inside { IfOk result (λ stored. stored.total ≤ length bytes.now) }
{
    if bytes.len() < LONG_HEADER {
        return Err(RowCause::PastEnd);
    }
    let word = u32_at(bytes, 0);
    let storage = if word % 4 == 0 {
        Storage::Plain
    } else {
        Storage::Compressed
    };
    let stored = Stored {
        storage,
        header: LONG_HEADER,
        total: (word / 4) as usize,
    };
    within(bytes, stored)
}

// A value has the bytes of its header, and ends where the bytes do or before.
fn within(bytes: &[u8], stored: Stored) -> Result<Stored, RowCause>
    ensures value { result ≡ within bytes.now stored }
    ensures header { IfOk result (λ stored. stored.header ≤ stored.total) }
    ensures inside { IfOk result (λ stored. stored.total ≤ length bytes.now) }
{
    if stored.total < stored.header || bytes.len() < stored.total {
        Err(RowCause::PastEnd)
    } else {
        Ok(stored)
    }
}
