ghost use Rattle.std.specs.Prelude.{◌≡◌, [], ◌∷◌, IfOk, map};
ghost use Rattle.std.specs.List.{dedup};
ghost use Rattle.std.specs.List.Sorted.{IsPermutation, IsSorted};
ghost use Rattle.std.specs.Ordering.{eq_by_cmp};
ghost use Rattle.opclass.specs.Order.{elem_cmp};
ghost use Rattle.gin_entry.specs.Entries.{IsArrayOrNull, distinct, elements_of, entries, entry_of, placeholder};

use crate::entry::{Category, Entry, EntryList};
use opclass::{Elem, KeyVal, cmp_elem};
use pg_bytes::Items;
use std::alloc::{AllocError, Global};

/// The entries of an array or a null, ascending and each once (`ginExtractEntries` of `ginutil.c`).
/// An error means that no memory was left.
pub fn entries_of(alloc: Global, value: &KeyVal) -> Result<EntryList, AllocError>
    requires { IsArrayOrNull value.now }
    ensures { IfOk result (λ list. list ≡ entries value.now) }
{
    match value {
        KeyVal::Items(elements) if elements.len() == 0 => one(alloc, Category::EmptyItem),
        KeyVal::Items(elements) => of_elements(alloc, elements.as_slice()),
        _ => one(alloc, Category::NullItem),
    }
}

// The one entry of a value that has no elements.
fn one(alloc: Global, category: Category) -> Result<EntryList, AllocError>
    ensures { IfOk result (λ list. list ≡ placeholder category ∷ []) }
{
    Ok(Items::from_vec(vec![in alloc; Entry::placeholder(category)]?))
}

// The entries of elements.
fn of_elements(alloc: Global, elements: &[Elem]) -> Result<EntryList, AllocError>
    ensures { IfOk result (λ list. list ≡ map entry_of (distinct elements.now)) }
{
    let distinct = distinct_elements(alloc, elements)?;
    let mut entries = Vec::with_capacity(alloc, distinct.len())?;
    for element in &distinct {
        entries.push(Entry::of(alloc, element)?)?;
    }
    Ok(Items::from_vec(entries))
}

/// The elements of an array, ascending and each once, not copied. An error means that no memory was
/// left.
pub fn distinct_elements<'a>(
    alloc: Global,
    elements: &'a [Elem],
) -> Result<Vec<&'a Elem>, AllocError>
    ensures { IfOk result (λ list. elements_of list.items ≡ distinct elements.now) }
{
    let mut list = borrowed(alloc, elements)?;
    sort_elements(&mut list);
    drop_repeats(&mut list);
    Ok(list)
}

// The elements as they stand.
fn borrowed<'a>(alloc: Global, elements: &'a [Elem]) -> Result<Vec<&'a Elem>, AllocError>
    ensures { IfOk result (λ list. elements_of list.items ≡ elements.now) }
{
    elements.iter().collect(alloc)
}

fn sort_elements(list: &mut Vec<&Elem>)
    ensures moved { IsPermutation (elements_of list.old.items) (elements_of list.new.items) }
    ensures ascending { IsSorted elem_cmp (elements_of list.new.items) }
{
    list.sort_unstable_by(|a, b| cmp_elem(a, b));
}

// Keeps the first of neighbours that are equal.
fn drop_repeats(list: &mut Vec<&Elem>)
    ensures { elements_of list.new.items ≡ dedup (eq_by_cmp elem_cmp) (elements_of list.old.items) }
{
    list.dedup_by(|a, b| cmp_elem(a, b).is_eq());
}
