//! Values that go from one list into another one, which is kept for one row after the other.

ghost use Rattle.std.specs.Prelude.{◌≡◌, ◌+◌, ◌-◌, ◌<◌, ◌≤◌, [], ◌∷◌, ◌++◌, All, IfOk, IfSome, OnOk, drop, length, slice_get, take};
ghost use Rattle.opclass.specs.Norm.{IsKeyValue};
ghost use Rattle.build_leader.specs.Reader.{AreAt};

use opclass::{KeyList, KeyVal};
use pg_bytes::Items;
use std::alloc::{AllocError, Global};

/// Fills a list anew with copies of the values at these places, none of which is an array, each in
/// the memory of the one at its place.
pub(crate) fn copy_values(
    alloc: Global,
    values: &KeyList,
    places: &[usize],
    picked: &mut KeyList,
) -> Result<(), AllocError>
    requires inside { All (λ place. place < length values.now) places.now }
    requires keys { All (λ place. IfSome (slice_get values.now place) IsKeyValue) places.now }
    ensures { OnOk result (AreAt values.now places.now picked.new) }
{
    let [earlier @ .., place] = places else {
        clear(picked);
        return Ok(());
    };
    let spare = picked.pop();
    copy_values(alloc, values, earlier, picked)?;
    push(picked, copy_of(alloc, values.get(*place), spare)?)
}

/// Fills a list anew with the value at a place, which leaves its own list with those before it.
pub(crate) fn move_value(
    values: &mut KeyList,
    place: usize,
    picked: &mut KeyList,
) -> Result<(), AllocError>
    requires { place < length values.old }
    ensures { OnOk result (AreAt values.old (place ∷ []) picked.new) }
{
    cut_behind(values, place);
    let Some(value) = values.pop() else {
        unreachable!()
    };
    clear(picked);
    push(picked, value)
}

/// Moves so many values from the end of a list to that of another one, in their order.
pub(crate) fn move_last(
    from: &mut KeyList,
    count: usize,
    to: &mut KeyList,
) -> Result<(), AllocError>
    requires { count ≤ length from.old }
    ensures left { OnOk result (from.new ≡ take (length from.old - count) from.old) }
    ensures moved { OnOk result
        (to.new ≡ to.old ++ drop (length from.old - count) from.old) }
{
    if count == 0 {
        return Ok(());
    }
    let Some(value) = from.pop() else {
        unreachable!()
    };
    move_last(from, count - 1, to)?;
    push(to, value)
}

// Leaves the values up to the one at a place.
fn cut_behind(values: &mut KeyList, place: usize)
    requires { place < length values.old }
    ensures { values.new ≡ take (place + 1) values.old }
{
    'behind: while values.len() - 1 > place {
        values.pop();
    }
}

// Leaves no values, and the memory of the list.
fn clear(values: &mut KeyList)
    ensures { values.new ≡ [] }
{
    'values: while values.pop().is_some() {}
}

fn push(values: &mut KeyList, value: KeyVal) -> Result<(), AllocError>
    ensures { OnOk result (values.new ≡ values.old ++ value ∷ []) }
{
    match values.push(value) {
        Ok(()) => Ok(()),
        Err(_) => Err(AllocError),
    }
}

// The same value, which is no array, in the memory of one that is no longer needed.
fn copy_of(alloc: Global, value: &KeyVal, spare: Option<KeyVal>) -> Result<KeyVal, AllocError>
    requires { IsKeyValue value.now }
    ensures { IfOk result (λ copy. copy ≡ value.now) }
{
    match value {
        KeyVal::Nil => Ok(KeyVal::Nil),
        KeyVal::Num(number) => Ok(KeyVal::Num(*number)),
        KeyVal::Raw(bytes) => {
            let mut copy = memory_of(alloc, spare);
            copy.clear();
            copy.extend_from_slice(bytes.as_slice())?;
            Ok(KeyVal::Raw(Items::from_vec(copy)))
        }
        KeyVal::Items(_) => unreachable!(),
    }
}

// The memory of a text, or none.
fn memory_of(alloc: Global, value: Option<KeyVal>) -> Vec<u8> {
    match value {
        Some(KeyVal::Raw(bytes)) => bytes.into_vec(),
        _ => Vec::new(alloc),
    }
}
