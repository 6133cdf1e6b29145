ghost use Rattle.std.specs.Prelude.{◌≡◌, ◌^◌, ◌<◌, ◌↔◌, ◌∷◌, [], ℕ, List, IfOk, IsTrue, MatchOption, Some, length, slice_get};
ghost use Rattle.opclass.specs.Types.{facts_of};
ghost use Rattle.opclass.specs.declared.value.KeyVal.{KeyVal};
ghost use Rattle.tuple_data.specs.Reading.{AreStored, BeginsWithData, IsNext, IsStored, value_of};

use crate::attribute::Attribute;
use crate::piece::read_piece;
use opclass::{ColType, KeyList};
use std::alloc::{AllocError, Global};
use std::marker::Model;

/// The values of a tuple where they stand in its bytes, seen by contracts as the list of them. It
/// takes no memory. They are taken from the front, since where a value stands depends on those
/// before it.
#[derive(Drop)]
pub struct Values<'a> {
    // where the first of them may begin, in bytes from where the data begin
    place: u64,
    kinds: &'a [ColType],
    present: u64,
    rest: &'a [u8],
}

impl<'a> Model for Values<'a> {
    ghost use Rattle.std.specs.Prelude.{List};
    ghost use Rattle.opclass.specs.declared.value.KeyVal.{KeyVal};
    ghost use Rattle.tuple_data.specs.Fetch.{values_at};
    ghost use Rattle.tuple_data.specs.InPlace.{AreInPlace};

    ghost Value = { List KeyVal };

    ghost view = { λ values.
        values_at values.place values.kinds.now values.present values.rest.now };

    ghost invariant = { λ values.
        AreInPlace values.place values.kinds.now values.present values.rest.now };
}

impl<'a> Values<'a> {
    /// The values whose data the bytes begin with (`index_deform_tuple` of `indextuple.c`). The
    /// null bits say which of the columns have a value, the first column's lowest. None comes
    /// exactly where no values have this data and these bits: a byte between values that isn't
    /// zero, a header that isn't the one of its length, a truth value that is neither 0 nor 1,
    /// bytes that end before the values do, or a bit of a column that isn't there.
    pub fn of(kinds: &'a [ColType], present: u64, bytes: &'a [u8]) -> Option<Values<'a>>
        requires kinds { AreStored kinds.now }
        requires size { length bytes.now < 2 ^ 30 }
        ensures { MatchOption result
            ((values : List KeyVal) → BeginsWithData kinds.now present bytes.now values → ⊥)
            (λ values. BeginsWithData kinds.now present bytes.now values) }
    {
        let mut left = kinds;
        let mut bits = present;
        let mut rest = bytes;
        while let [kind, more @ ..] = left {
            let place = (bytes.len() - rest.len()) as u64;
            let Some((_, behind)) = next_value(place, *kind, bits % 2, rest) else {
                return None;
            };
            left = more;
            bits /= 2;
            rest = behind;
        }
        if bits != 0 {
            return None;
        }
        Some(Values {
            place: 0,
            kinds,
            present,
            rest: bytes,
        })
    }

    /// How many values there are.
    pub fn len(&self) -> usize
        ensures { result ≡ length self.now }
    {
        self.kinds.len()
    }

    /// Whether there is no value.
    pub fn is_empty(&self) -> bool
        ensures { IsTrue result ↔ (self.now ≡ []) }
    {
        self.kinds.is_empty()
    }

    /// The same values once more.
    pub fn again(&self) -> Values<'a>
        ensures { result ≡ self.now }
    {
        Values {
            place: self.place,
            kinds: self.kinds,
            present: self.present,
            rest: self.rest,
        }
    }

    /// Takes the first of the values. None comes exactly where there is none.
    pub fn take_first(&mut self) -> Option<Attribute<'a>>
        ensures { MatchOption result ((self.old ≡ []) × (self.new ≡ []))
            (λ first. self.old ≡ value_of first ∷ self.new) }
    {
        let [kind, more @ ..] = self.kinds else {
            return None;
        };
        let Some((first, behind)) = next_value(self.place, *kind, self.present % 2, self.rest)
        else {
            unreachable!()
        };
        self.place += (self.rest.len() - behind.len()) as u64;
        self.kinds = more;
        self.present /= 2;
        self.rest = behind;
        Some(first)
    }

    /// The value at a place, counted from 0 (`index_getattr` of `itup.h`).
    pub fn get(&self, at: usize) -> Attribute<'a>
        requires { at < length self.now }
        ensures { slice_get self.now at ≡ Some (value_of result) }
    {
        let mut left = self.again();
        for _ in 0..at {
            let _ = left.take_first();
        }
        match left.take_first() {
            None => unreachable!(),
            Some(value) => value,
        }
    }

    /// The same values in memory of their own.
    pub fn copy(&self, alloc: Global) -> Result<KeyList, AllocError>
        ensures { IfOk result (λ copy. copy ≡ self.now) }
    {
        let mut values = Vec::with_capacity(alloc, self.len())?;
        let mut left = self.again();
        while let Some(value) = left.take_first() {
            values.push(value.copy(alloc)?)?;
        }
        Ok(KeyList::from_vec(values))
    }
}

// The next column's value, by its null bit, and what stands behind it.
fn next_value(
    place: u64,
    kind: ColType,
    present: u64,
    bytes: &[u8],
) -> Option<(Attribute<'_>, &[u8])>
    requires kind { IsStored (facts_of kind).form }
    requires bit { present < 2 }
    requires fits { place < 2 ^ 62 }
    requires size { length bytes.now < 2 ^ 30 }
    ensures { MatchOption result
        ((value : KeyVal) (behind : List ℕ) → IsNext place kind present bytes.now value behind → ⊥)
        (λ read. IsNext place kind present bytes.now (value_of read.0) read.1.now) }
{
    if present == 0 {
        Some((Attribute::Null, bytes))
    } else {
        read_piece(place, kind, bytes)
    }
}
