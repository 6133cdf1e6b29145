ghost use Rattle.std.specs.Prelude.{◌≡◌, drop};
ghost use Rattle.opclass.specs.Order.{column_cmp, key_cmp, kind_place, part_at, value_cmp};
ghost use Rattle.tuple_data.specs.Reading.{value_of};

use crate::attribute::Attribute;
use crate::values::Values;
use opclass::SortPart;
use std::cmp::Ordering;

// How a column is sorted that the values have and the sort order doesn't.
const UNSAID: SortPart = SortPart {
    descending: false,
    nulls_first: false,
};

/// Compares the values of two tuples in the order of `cmp_key`: the first column in which they
/// differ decides (`_bt_compare` of `nbtsearch.c`). It takes no memory.
pub fn cmp_values(parts: &[SortPart], a: &Values, b: &Values) -> Ordering
    ensures { result ≡ key_cmp parts.now a.now b.now }
{
    let mut left = parts;
    let mut firsts = a.again();
    let mut seconds = b.again();
    while let Some(first) = firsts.take_first() {
        let Some(second) = seconds.take_first() else {
            return Ordering::Greater;
        };
        let (part, more) = first_part(left);
        match cmp_attribute(part, first, second) {
            Ordering::Equal => {}
            decided => return decided,
        }
        left = more;
    }
    if seconds.is_empty() {
        Ordering::Equal
    } else {
        Ordering::Less
    }
}

// How the next column is sorted, and the parts of the order behind it.
fn first_part(parts: &[SortPart]) -> (SortPart, &[SortPart])
    ensures part { result.0 ≡ part_at parts.now 0 }
    ensures left { result.1.now ≡ drop 1 parts.now }
{
    match parts {
        [part, left @ ..] => (*part, left),
        [] => (UNSAID, parts),
    }
}

/// Compares two values of a column as it is sorted (`ApplySortComparator` of `sortsupport.h`).
pub fn cmp_attribute(part: SortPart, a: Attribute, b: Attribute) -> Ordering
    ensures { result ≡ column_cmp part (value_of a.entry) (value_of b.entry) }
{
    let values = cmp_ascending(a, b);
    let directed = if part.descending {
        values.reverse()
    } else {
        values
    };
    place_of_kind(part, a)
        .cmp(&place_of_kind(part, b))
        .then(directed)
}

// Compares two values of one kind.
fn cmp_ascending(a: Attribute, b: Attribute) -> Ordering
    ensures { result ≡ value_cmp (value_of a.entry) (value_of b.entry) }
{
    match (a, b) {
        (Attribute::Number(a), Attribute::Number(b)) => a.cmp(&b),
        (Attribute::Bytes(a), Attribute::Bytes(b)) => a.cmp(b),
        _ => Ordering::Equal,
    }
}

fn place_of_kind(part: SortPart, value: Attribute) -> u8
    ensures { result ≡ kind_place part (value_of value.entry) }
{
    match value {
        Attribute::Null if part.nulls_first => 0,
        Attribute::Number(_) => 1,
        Attribute::Bytes(_) => 2,
        Attribute::Null => 4,
    }
}
