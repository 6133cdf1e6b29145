ghost use Rattle.std.specs.Prelude.{◌≡◌, IfOk, unwrap_or};
ghost use Rattle.std.specs.Cmp.Lexicographic.{slice_cmp};
ghost use Rattle.opclass.specs.Order.{column_cmp, elem_cmp, kind_place};
ghost use Rattle.tuple_data.specs.Nulls.{is_null};
ghost use Rattle.brin_summary.specs.Summary.{ascending, greater, lesser};

use opclass::{Elem, ElemList, KeyVal, cmp_elem};
use pg_bytes::{Bytes, Items};
use std::alloc::{AllocError, Global};
use std::cmp::Ordering;
use std::mem;

// The value that replaces the least one of a column, if this one is below it.
#[tactic(auto, unfolding(crate::specs::Summary::lesser))]
pub(crate) fn new_low(
    alloc: Global,
    low: &KeyVal,
    value: &KeyVal,
) -> Result<Option<KeyVal>, AllocError>
    ensures { IfOk result (λ new. unwrap_or new low.now ≡ lesser low.now value.now) }
{
    if cmp_values(false, value, low).is_lt() {
        return Ok(Some(copy_of_value(alloc, value)?));
    }
    Ok(None)
}

// The value that replaces the greatest one of a column, if this one is above it.
#[tactic(auto, unfolding(crate::specs::Summary::greater))]
pub(crate) fn new_high(
    alloc: Global,
    high: &KeyVal,
    value: &KeyVal,
) -> Result<Option<KeyVal>, AllocError>
    ensures { IfOk result (λ new. unwrap_or new high.now ≡ greater high.now value.now) }
{
    if cmp_values(true, high, value).is_lt() {
        return Ok(Some(copy_of_value(alloc, value)?));
    }
    Ok(None)
}

// Takes the lesser of two values, and leaves the other one.
#[tactic(auto, unfolding(crate::specs::Summary::lesser))]
pub(crate) fn take_lesser(low: &mut KeyVal, other: &mut KeyVal)
    ensures { low.new ≡ lesser low.old other.old }
{
    if cmp_values(false, other, low).is_lt() {
        mem::swap(low, other);
    }
}

// Takes the greater of two values, and leaves the other one.
#[tactic(auto, unfolding(crate::specs::Summary::greater))]
pub(crate) fn take_greater(high: &mut KeyVal, other: &mut KeyVal)
    ensures { high.new ≡ greater high.old other.old }
{
    if cmp_values(true, high, other).is_lt() {
        mem::swap(high, other);
    }
}

// Compares two values of a column, where nulls stand before or behind all others.
pub(crate) fn cmp_values(nulls_first: bool, a: &KeyVal, b: &KeyVal) -> Ordering
    ensures { result ≡ column_cmp (ascending nulls_first) a.now b.now }
{
    match (a, b) {
        (KeyVal::Num(a), KeyVal::Num(b)) => a.cmp(b),
        (KeyVal::Raw(a), KeyVal::Raw(b)) => a.as_slice().cmp(b.as_slice()),
        (KeyVal::Items(a), KeyVal::Items(b)) => cmp_elements(a.as_slice(), b.as_slice()),
        _ => place_of_kind(nulls_first, a).cmp(&place_of_kind(nulls_first, b)),
    }
}

fn cmp_elements(mut a: &[Elem], mut b: &[Elem]) -> Ordering
    ensures { result ≡ slice_cmp elem_cmp a.entry.now b.entry.now }
{
    while let [first, more @ ..] = a {
        let [second, others @ ..] = b else {
            return Ordering::Greater;
        };
        match cmp_elem(first, second) {
            Ordering::Equal => {}
            decided => return decided,
        }
        a = more;
        b = others;
    }
    if b.is_empty() {
        Ordering::Equal
    } else {
        Ordering::Less
    }
}

fn place_of_kind(nulls_first: bool, value: &KeyVal) -> u8
    ensures { result ≡ kind_place (ascending nulls_first) value.now }
{
    match value {
        KeyVal::Nil if nulls_first => 0,
        KeyVal::Num(_) => 1,
        KeyVal::Raw(_) => 2,
        KeyVal::Items(_) => 3,
        KeyVal::Nil => 4,
    }
}

pub(crate) fn is_null(value: &KeyVal) -> bool
    ensures { result ≡ is_null value.now }
{
    matches!(value, KeyVal::Nil)
}

fn copy_of_value(alloc: Global, value: &KeyVal) -> Result<KeyVal, AllocError>
    ensures { IfOk result (λ copy. copy ≡ value.now) }
{
    match value {
        KeyVal::Nil => Ok(KeyVal::Nil),
        KeyVal::Num(number) => Ok(KeyVal::Num(*number)),
        KeyVal::Raw(bytes) => Ok(KeyVal::Raw(copy_of_bytes(alloc, bytes)?)),
        KeyVal::Items(elements) => Ok(KeyVal::Items(copy_of_elements(alloc, elements)?)),
    }
}

fn copy_of_elements(alloc: Global, elements: &ElemList) -> Result<ElemList, AllocError>
    ensures { IfOk result (λ copy. copy ≡ elements.now) }
{
    let mut copies = Vec::with_capacity(alloc, elements.len())?;
    for element in elements.as_slice() {
        copies.push(copy_of_element(alloc, element)?)?;
    }
    Ok(Items::from_vec(copies))
}

fn copy_of_element(alloc: Global, element: &Elem) -> Result<Elem, AllocError>
    ensures { IfOk result (λ copy. copy ≡ element.now) }
{
    match element {
        Elem::Null => Ok(Elem::Null),
        Elem::Num(number) => Ok(Elem::Num(*number)),
        Elem::Raw(bytes) => Ok(Elem::Raw(copy_of_bytes(alloc, bytes)?)),
    }
}

fn copy_of_bytes(alloc: Global, bytes: &Bytes) -> Result<Bytes, AllocError>
    ensures { IfOk result (λ copy. copy ≡ bytes.now) }
{
    let copy = Vec::from_slice(alloc, bytes.as_slice())?;
    Ok(Items::from_vec(copy))
}
