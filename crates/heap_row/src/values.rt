ghost use Rattle.std.specs.Prelude.{◌≡◌, [], ◌∷◌, ◌++◌, IfErr, IfOk, Ok, OnOk, length};
ghost use Rattle.heap_page.specs.Line.{IsNormal};
ghost use Rattle.heap_row.specs.Attribute.{AreColumnsOf, values_of};
ghost use Rattle.heap_row.specs.Fault.{IsFaultOf};
ghost use Rattle.heap_row.specs.Pass.{AreAhead, Fills, IsWalked, last_of};
ghost use Rattle.heap_row.specs.Tuple.{tuple_of};
ghost use Rattle.heap_row.specs.Typed.{AreReadOf};

use crate::fault::{ReadFault, RowFault};
use crate::tuple::HeapTuple;
use crate::walk::{Walked, next_value};
use heap_page::View;
use opclass::{Column, Columns, KeyList, KeyVal, Table};
use std::alloc::{AllocError, Global};

/// Gives the values of the needed columns of an item's tuple, in the order of the columns, in a new
/// list. It refuses what `read_values_into` refuses, for the same cause.
pub fn read_values(
    alloc: Global,
    view: &View,
    item: u16,
    table: &Table,
    needed: &Columns,
) -> Result<KeyList, RowFault>
    requires normal { IsNormal view.now.bytes item }
    requires table { view.now.columns ≡ length table.now.columns }
    requires needed { AreColumnsOf table.now.columns needed.now }
    ensures values { IfOk result (λ values.
        values_of (tuple_of view.now.bytes item) table.now.columns needed.now ≡ Ok values) }
    ensures fault { IfErr result (IsFaultOf
        (values_of (tuple_of view.now.bytes item) table.now.columns needed.now)) }
    ensures typed { IfOk result
        (AreReadOf table.now.columns (length view.now.bytes) needed.now) }
{
    let mut values = KeyList::new(alloc);
    read_values_into(alloc, view, item, table, needed, &mut values)?;
    Ok(values)
}

/// Fills a list anew with the values of the needed columns of an item's tuple, in the order of the
/// columns (`heap_deform_tuple` of `heaptuple.c`). Columns are numbered from 1. Each value goes into
/// the memory of the one at its place, so that a list which is kept for one row after the other
/// takes little. After an error it may have any values.
///
/// The columns up to the last needed one are walked. The first of them that is faulty refuses the
/// tuple, with its least cause: bytes past the tuple's end, also of a column that isn't needed; and
/// of a needed column a value that is compressed or stored elsewhere, a truth value that is neither
/// 0 nor 1, and an array that isn't one of its type.
///
/// Each value is one that its column's type has, and no longer than the page.
pub fn read_values_into(
    alloc: Global,
    view: &View,
    item: u16,
    table: &Table,
    needed: &Columns,
    values: &mut KeyList,
) -> Result<(), RowFault>
    requires normal { IsNormal view.now.bytes item }
    requires table { view.now.columns ≡ length table.now.columns }
    requires needed { AreColumnsOf table.now.columns needed.now }
    ensures values { OnOk result
        (values_of (tuple_of view.now.bytes item) table.now.columns needed.now ≡ Ok values.new) }
    ensures fault { IfErr result (IsFaultOf
        (values_of (tuple_of view.now.bytes item) table.now.columns needed.now)) }
    ensures typed { OnOk result
        (AreReadOf table.now.columns (length view.now.bytes) needed.now values.new) }
{
    let tuple = HeapTuple::of(view, item);
    read_columns(
        alloc,
        &tuple,
        table.columns.as_slice(),
        needed.as_slice(),
        values,
    )?;
    Ok(())
}

// Fills a list anew with the values of the needed columns, in one walk, and tells how far it went.
fn read_columns(
    alloc: Global,
    tuple: &HeapTuple,
    columns: &[Column],
    needed: &[u16],
    values: &mut KeyList,
) -> Result<Walked, ReadFault>
    requires { AreAhead columns.now 0 needed.now }
    ensures values { Fills values.new result (values_of tuple.now columns.now needed.now) }
    ensures walked { IfOk result (IsWalked tuple.now columns.now) }
    ensures columns { IfOk result (λ walked. walked.columns ≡ last_of 0 needed.now) }
{
    let [earlier @ .., number] = needed else {
        clear(alloc, values);
        return Ok(Walked { columns: 0, end: 0 });
    };
    let spare = values.pop();
    let walked = read_columns(alloc, tuple, columns, earlier, values)?;
    let before = usize::from(*number) - 1;
    let (value, past) = next_value(alloc, tuple, columns, walked, before, spare)?;
    push(values, value)?;
    Ok(past)
}

fn clear(alloc: Global, values: &mut KeyList)
    ensures { values.new ≡ [] }
{
    if values.len() != 0 {
        *values = KeyList::new(alloc);
    }
}

fn push(values: &mut KeyList, value: KeyVal) -> Result<(), AllocError>
    ensures { OnOk result (values.new ≡ values.old ++ value ∷ []) }
{
    match values.push(value) {
        Ok(()) => Ok(()),
        Err(_) => Err(AllocError),
    }
}
