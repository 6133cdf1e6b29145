//! Which rows of an array have an entry that is too large (`GinFormTuple` of `ginentrypage.c`).

ghost use Rattle.std.specs.Prelude.{◌≡◌, ◌↔◌, ◌<◌, [], ◌∷◌, All, Any, IfErr, IfOk, IsTrue, OnOk};
ghost use Rattle.std.specs.List.{AllZip};
ghost use Rattle.pg_bytes.specs.PageLayout.{page_size};
ghost use Rattle.opclass.specs.Values.{IsValueOf};
ghost use Rattle.heap_row.specs.Typed.{ElementHasAtMost, HasAtMost};
ghost use Rattle.gin_entry.specs.Entries.{entry_of};
ghost use Rattle.gin_entry.specs.EntrySize.{entry_size};
ghost use Rattle.gin_file.specs.EntryTuple.{most_size};
ghost use Rattle.build_leader.specs.Entries.{HasWideEntry};
ghost use Rattle.build_leader.specs.Reader.{IsEntryFault};
ghost use Rattle.build_leader.specs.WideEntry.{HasTexts};

use crate::scan::{WidthCause, refusal};
use gin_entry::{Entry, entry_size};
use heap_row::RowFault;
use opclass::{ColType, Elem, Form, KeyList, KeyVal, Kinds, Width};
use std::alloc::{AllocError, Global};

/// The most bytes of an entry's tuple, of which three have room on a page (`GinMaxItemSize` of
/// `ginblock.h`).
const MOST_SIZE: u64 = 2712;

/// A text of at most so many bytes never makes an entry too large: its header, the tuple's and the
/// zeros between take 36 bytes at most.
const SHORT_TEXT: usize = 2676;

/// Refuses the value of a row that has an entry that is too large.
pub(crate) fn check_entries(alloc: Global, kinds: &Kinds, values: &KeyList) -> Result<(), RowFault>
    requires typed { AllZip IsValueOf kinds.now values.now }
    requires short { All (HasAtMost page_size) values.now }
    ensures refused { IfErr result (IsEntryFault kinds.now values.now) }
    ensures narrow { OnOk result (HasWideEntry kinds.now values.now → ⊥) }
{
    match has_wide_entry(alloc, kinds, values) {
        Ok(false) => Ok(()),
        Ok(true) => Err(refusal(WidthCause::Entry)),
        Err(_) => Err(RowFault::Memory),
    }
}

// Whether an entry of the one value of a row is too large. Only a long text can make it so, and no
// other element is copied. An error means that no memory was left.
fn has_wide_entry(alloc: Global, kinds: &Kinds, values: &KeyList) -> Result<bool, AllocError>
    requires typed { AllZip IsValueOf kinds.now values.now }
    requires short { All (HasAtMost page_size) values.now }
    ensures { IfOk result (λ wide. IsTrue wide ↔ HasWideEntry kinds.now values.now) }
{
    if kinds.len() != 1 || values.len() != 1 {
        return Ok(false);
    }
    is_wide_value(alloc, *kinds.get(0), values.get(0))
}

// Whether an entry of a column's value is too large.
fn is_wide_value(alloc: Global, kind: ColType, value: &KeyVal) -> Result<bool, AllocError>
    requires typed { IsValueOf kind value.now }
    requires short { HasAtMost page_size value.now }
    ensures { IfOk result (λ wide. IsTrue wide ↔ HasWideEntry (kind ∷ []) (value.now ∷ [])) }
{
    match value {
        KeyVal::Items(elements) if has_texts(kind) => has_wide(alloc, kind, elements.as_slice()),
        _ => Ok(false),
    }
}

// Whether this is a type of arrays whose elements have no fixed width, as texts have none.
fn has_texts(kind: ColType) -> bool
    ensures { IsTrue result ↔ HasTexts kind }
{
    match kind.facts().form {
        Form::Array(element) => element.facts().width == Width::Variable,
        _ => false,
    }
}

// Whether the entry of one of these elements is too large.
fn has_wide(alloc: Global, kind: ColType, elements: &[Elem]) -> Result<bool, AllocError>
    requires { All (ElementHasAtMost page_size) elements.now }
    ensures { IfOk result (λ wide. IsTrue wide
        ↔ Any (λ element. most_size < entry_size kind (entry_of element)) elements.now) }
{
    for element in elements {
        if is_wide(alloc, kind, element)? {
            return Ok(true);
        }
    }
    Ok(false)
}

// Whether the entry of an element is too large.
fn is_wide(alloc: Global, kind: ColType, element: &Elem) -> Result<bool, AllocError>
    requires { ElementHasAtMost page_size element.now }
    ensures { IfOk result (λ wide. IsTrue wide
        ↔ (most_size < entry_size kind (entry_of element.now))) }
{
    match element {
        Elem::Null | Elem::Num(_) => Ok(false),
        Elem::Raw(bytes) if bytes.len() <= SHORT_TEXT => Ok(false),
        Elem::Raw(_) => {
            let entry = Entry::of(alloc, element)?;
            Ok(entry_size(kind, &entry) > MOST_SIZE)
        }
    }
}
