ghost use Rattle.std.specs.Prelude.{◌≡◌, ◌≤◌, ◌<◌, ◌+◌, ◌^◌, IfOk, Some, length, option_map, slice_get};
ghost use Rattle.heap_row.specs.Attribute.{attribute_behind, end_behind, end_of, value_at, value_of};
ghost use Rattle.heap_row.specs.Pass.{Gives, IsStoredIn, IsWalked};

use crate::attribute::{Attribute, attribute_at};
use crate::bytes::from_place;
use crate::datum::datum_of;
use crate::fault::{ReadFault, RowCause};
use crate::tuple::HeapTuple;
use opclass::{Column, KeyVal};
use std::alloc::Global;

// How far the columns of a tuple were walked: how many of them, and where their data end.
#[derive(Clone, Copy, Debug, PartialEq, Eq)]
pub struct Walked {
    pub columns: usize,
    pub end: usize,
}

// Walks to the column behind so many others, and past it: its value, in the memory of one that is
// no longer needed, and how far that is.
pub(crate) fn next_value(
    alloc: Global,
    tuple: &HeapTuple,
    columns: &[Column],
    walked: Walked,
    before: usize,
    spare: Option<KeyVal>,
) -> Result<(KeyVal, Walked), ReadFault>
    requires walked { IsWalked tuple.now columns.now walked }
    requires behind { walked.columns ≤ before }
    requires inside { before < length columns.now }
    ensures value { Gives (λ read. read.0) result (value_of tuple.now columns.now before) }
    ensures walked { IfOk result (λ read. IsWalked tuple.now columns.now read.1) }
    ensures columns { IfOk result (λ read. read.1.columns ≡ before + 1) }
{
    let place = end_of(tuple, columns, walked, before)?;
    let column = &columns[before];
    let attribute = attribute_behind(tuple, column, before, place)?;
    let value = value_at(alloc, tuple, column, attribute, spare)?;
    let walked = Walked {
        columns: before + 1,
        end: end_behind(place, attribute),
    };
    Ok((value, walked))
}

// Where the data of the first so many columns end.
fn end_of(
    tuple: &HeapTuple,
    columns: &[Column],
    walked: Walked,
    target: usize,
) -> Result<usize, RowCause>
    requires walked { IsWalked tuple.now columns.now walked }
    requires behind { walked.columns ≤ target }
    requires inside { target ≤ length columns.now }
    ensures end { result ≡ end_of tuple.now columns.now target }
    ensures inside { IfOk result (λ end. end ≤ length tuple.now.body) }
{
    let mut place = walked.end;
    for before in walked.columns..target {
        let attribute = attribute_behind(tuple, &columns[before], before, place)?;
        place = end_behind(place, attribute);
    }
    Ok(place)
}

// The attribute of a column, behind the end of those before it: a null has none.
#[tactic(auto, unfolding(crate::specs::Attribute::attribute_behind, crate::specs::Attribute::end_behind))]
fn attribute_behind(
    tuple: &HeapTuple,
    column: &Column,
    before: usize,
    place: usize,
) -> Result<Option<Attribute>, RowCause>
    requires { place ≤ length tuple.now.body }
    ensures attribute { result ≡ attribute_behind tuple.now (Some column.now) before place }
    ensures stored { IfOk result (IsStoredIn tuple.now column.now) }
    ensures inside { IfOk result (λ attribute. end_behind place attribute ≤ length tuple.now.body) }
    ensures fits { IfOk result (λ attribute. end_behind place attribute < 2 ^ 64) }
{
    if tuple.is_null(before) {
        return Ok(None);
    }
    let attribute = attribute_at(column.kind, tuple.body(), place)?;
    Ok(Some(attribute))
}

// Where an attribute ends, and a null takes no bytes.
#[tactic(auto, unfolding(crate::specs::Attribute::end_behind))]
fn end_behind(place: usize, attribute: Option<Attribute>) -> usize
    requires { end_behind place attribute < 2 ^ 64 }
    ensures { result ≡ end_behind place attribute }
{
    match attribute {
        Some(attribute) => attribute.end(),
        None => place,
    }
}

// The value of an attribute, in the memory of one that is no longer needed.
#[tactic(auto, unfolding(crate::specs::Attribute::value_at))]
fn value_at(
    alloc: Global,
    tuple: &HeapTuple,
    column: &Column,
    attribute: Option<Attribute>,
    spare: Option<KeyVal>,
) -> Result<KeyVal, ReadFault>
    requires { IsStoredIn tuple.now column.now attribute }
    ensures { Gives (λ value. value) result (value_at tuple.now (Some column.now) attribute) }
{
    let Some(attribute) = attribute else {
        return Ok(KeyVal::Nil);
    };
    let bytes = from_place(tuple.body(), attribute.start);
    datum_of(alloc, column.kind, &attribute.stored, bytes, spare)
}
