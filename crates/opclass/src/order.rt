ghost use Rattle.std.specs.Prelude.{◌≡◌, ◌↔◌, IsTrue, drop};
ghost use Rattle.std.specs.Cmp.Lexicographic.{slice_cmp};
ghost use Rattle.opclass.specs.Order.{Clashes, HasNoNull, column_cmp, elem_cmp, elem_place, key_cmp, kind_place, part_at, row_cmp, value_cmp};

use crate::key_list::KeyList;
use crate::spec::{SortPart, SortSpec};
use crate::value::{Elem, KeyVal};
use pg_bytes::RowPtr;
use std::cmp::Ordering;

// How a column is sorted that a list of values has and the sort order doesn't.
const UNSAID: SortPart = SortPart {
    descending: false,
    nulls_first: false,
};

/// Compares the values of several columns: the first column in which the two lists differ decides,
/// by its direction and place of nulls.
pub fn cmp_key(spec: &SortSpec, a: &KeyList, b: &KeyList) -> Ordering
    ensures { result ≡ key_cmp spec.now a.now b.now }
{
    cmp_values(spec.as_slice(), a.as_slice(), b.as_slice())
}

/// Compares two rows: by their keys, and where these are equal by their row pointers.
pub fn cmp_row(spec: &SortSpec, a: &KeyList, pa: RowPtr, b: &KeyList, pb: RowPtr) -> Ordering
    ensures { result ≡ row_cmp spec.now (a.now, pa) (b.now, pb) }
{
    cmp_key(spec, a, b).then(pa.cmp(&pb))
}

/// Whether two rows with these keys break the unique rule: the keys are equal and, if nulls are
/// distinct, none of them is null.
pub fn clash(distinct: bool, a: &KeyList, b: &KeyList) -> bool
    ensures { IsTrue result ↔ Clashes distinct a.now b.now }
{
    are_equal(a, b) && (!distinct || none_is_null(a.as_slice()))
}

/// Compares two elements of an array.
pub fn cmp_elem(a: &Elem, b: &Elem) -> Ordering
    ensures { result ≡ elem_cmp a.now b.now }
{
    match (a, b) {
        (Elem::Num(a), Elem::Num(b)) => a.cmp(b),
        (Elem::Raw(a), Elem::Raw(b)) => a.as_slice().cmp(b.as_slice()),
        _ => place_of_elem(a).cmp(&place_of_elem(b)),
    }
}

fn cmp_values(mut parts: &[SortPart], mut a: &[KeyVal], mut b: &[KeyVal]) -> Ordering
    ensures { result ≡ key_cmp parts.entry.now a.entry.now b.entry.now }
{
    while let [first, more @ ..] = a {
        let [second, others @ ..] = b else {
            return Ordering::Greater;
        };
        let (part, left) = first_part(parts);
        match cmp_column(part, first, second) {
            Ordering::Equal => {}
            decided => return decided,
        }
        parts = left;
        a = more;
        b = others;
    }
    if b.is_empty() {
        Ordering::Equal
    } else {
        Ordering::Less
    }
}

// How the next column is sorted, and the parts of the order behind it.
fn first_part(parts: &[SortPart]) -> (SortPart, &[SortPart])
    ensures part { result.0 ≡ part_at parts.now 0 }
    ensures left { result.1.now ≡ drop 1 parts.now }
{
    match parts {
        [part, left @ ..] => (*part, left),
        [] => (UNSAID, parts),
    }
}

fn cmp_column(part: SortPart, a: &KeyVal, b: &KeyVal) -> Ordering
    ensures { result ≡ column_cmp part a.now b.now }
{
    let values = cmp_value(a, b);
    let directed = if part.descending {
        values.reverse()
    } else {
        values
    };
    place_of_kind(part, a)
        .cmp(&place_of_kind(part, b))
        .then(directed)
}

// Compares two values of one kind.
fn cmp_value(a: &KeyVal, b: &KeyVal) -> Ordering
    ensures { result ≡ value_cmp a.now b.now }
{
    match (a, b) {
        (KeyVal::Num(a), KeyVal::Num(b)) => a.cmp(b),
        (KeyVal::Raw(a), KeyVal::Raw(b)) => a.as_slice().cmp(b.as_slice()),
        (KeyVal::Items(a), KeyVal::Items(b)) => cmp_elements(a.as_slice(), b.as_slice()),
        _ => Ordering::Equal,
    }
}

fn cmp_elements(mut a: &[Elem], mut b: &[Elem]) -> Ordering
    ensures { result ≡ slice_cmp elem_cmp a.entry.now b.entry.now }
{
    while let [first, more @ ..] = a {
        let [second, others @ ..] = b else {
            return Ordering::Greater;
        };
        match cmp_elem(first, second) {
            Ordering::Equal => {}
            decided => return decided,
        }
        a = more;
        b = others;
    }
    if b.is_empty() {
        Ordering::Equal
    } else {
        Ordering::Less
    }
}

fn place_of_kind(part: SortPart, value: &KeyVal) -> u8
    ensures { result ≡ kind_place part value.now }
{
    match value {
        KeyVal::Nil if part.nulls_first => 0,
        KeyVal::Num(_) => 1,
        KeyVal::Raw(_) => 2,
        KeyVal::Items(_) => 3,
        KeyVal::Nil => 4,
    }
}

fn place_of_elem(element: &Elem) -> u8
    ensures { result ≡ elem_place element.now }
{
    match element {
        Elem::Num(_) => 1,
        Elem::Raw(_) => 2,
        Elem::Null => 3,
    }
}

fn are_equal(a: &KeyList, b: &KeyList) -> bool
    ensures { IsTrue result ↔ (a.now ≡ b.now) }
{
    cmp_values(&[], a.as_slice(), b.as_slice()).is_eq()
}

fn none_is_null(values: &[KeyVal]) -> bool
    ensures { IsTrue result ↔ HasNoNull values.now }
{
    values.iter().all(|value| !matches!(value, KeyVal::Nil))
}
