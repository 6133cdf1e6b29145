ghost use Rattle.std.specs.Prelude.{◌≤◌, ◌↔◌, All, IfOk, IsTrue};
ghost use Rattle.std.specs.List.Sorted.{IsStrictlyIncreasing};
ghost use Rattle.heap_row.specs.Attribute.{AreColumnsOf};

mod arrays;
mod columns;
mod values;

use heap_page::check_page;
use heap_row::{RowFault, read_values, read_values_into};
use opclass::{ColType, Column, Columns, Elem, KeyList, KeyVal, Table};
use pg_bytes::{Items, Page};
use std::alloc::{AllocError, Global};
use std::test::Fail;
use test_pages::{Line, Tuple, heap_page};

// A value that is wanted of a column or an element.
#[derive(Clone, Copy)]
enum Want {
    Null,
    Num(i64),
    Raw(&'static [u8]),
    Items(&'static [Want]),
}

// Reads the needed columns of a tuple of a table with columns of these types into a list, whatever
// it has, and into a new one.
fn read(
    alloc: Global,
    kinds: &[ColType],
    tuple: Tuple,
    needed: &[u16],
    values: &mut KeyList,
) -> Result<Result<(), RowFault>, Fail> {
    let page = heap_page(alloc, &[Line::Normal(tuple)])?;
    let page = Page::of(&page).ok_or("the page is cut")?;
    let table = table_of(alloc, kinds)?;
    let needed = columns_of(alloc, &table, needed)?;
    let count = table.columns.len().min(1600) as u16;
    let view = check_page(&page, count)?;
    if usize::from(count) != table.columns.len() || view.lines() == 0 || !view.is_normal(1) {
        return Err("the page has no tuple of the table").map_err(Fail::from);
    }
    let fresh = read_values(alloc, &view, 1, &table, &needed);
    let answer = read_values_into(alloc, &view, 1, &table, &needed, values);
    if fresh.map(|list| list.len()) != answer.map(|()| values.len()) {
        return Err("a new list has other values").map_err(Fail::from);
    }
    Ok(answer)
}

fn table_of(alloc: Global, kinds: &[ColType]) -> Result<Table, AllocError> {
    let mut columns = Vec::new(alloc);
    for kind in kinds {
        let name = Items::new(alloc);
        columns.push(Column { name, kind: *kind })?;
    }
    Ok(Table {
        name: Items::new(alloc),
        columns: Items::from_vec(columns),
    })
}

// The columns of a table with these numbers.
fn columns_of(alloc: Global, table: &Table, numbers: &[u16]) -> Result<Columns, Fail>
    ensures { IfOk result (AreColumnsOf table.now.columns) }
{
    let columns = Items::from_vec(ascending(alloc, numbers)?);
    if !begin_at_one(columns.as_slice()) || !end_at(columns.as_slice(), table.columns.len()) {
        return Err("not columns of the table").map_err(Fail::from);
    }
    Ok(columns)
}

fn ascending(alloc: Global, numbers: &[u16]) -> Result<Vec<u16>, AllocError>
    ensures { IfOk result (λ columns. IsStrictlyIncreasing columns.items) }
{
    let mut columns = numbers.to_vec(alloc)?;
    columns.sort_unstable();
    columns.dedup();
    Ok(columns)
}

fn begin_at_one(numbers: &[u16]) -> bool
    ensures { IsTrue result ↔ All (λ number. 1 ≤ number) numbers.now }
{
    numbers.iter().all(|number| 1 <= *number)
}

fn end_at(numbers: &[u16], last: usize) -> bool
    ensures { IsTrue result ↔ All (λ number. number ≤ last) numbers.now }
{
    numbers.iter().all(|number| usize::from(*number) <= last)
}

// Whether a value is the one that is wanted.
fn is_value(value: &KeyVal, want: &Want) -> bool {
    match (value, want) {
        (KeyVal::Nil, Want::Null) => true,
        (KeyVal::Num(number), Want::Num(wanted)) => number == wanted,
        (KeyVal::Raw(bytes), Want::Raw(wanted)) => bytes.as_slice() == *wanted,
        (KeyVal::Items(elements), Want::Items(wanted)) => {
            elements.len() == wanted.len()
                && elements
                    .as_slice()
                    .iter()
                    .zip(wanted.iter())
                    .all(|(element, want)| is_element(element, want))
        }
        _ => false,
    }
}

fn is_element(element: &Elem, want: &Want) -> bool {
    match (element, want) {
        (Elem::Null, Want::Null) => true,
        (Elem::Num(number), Want::Num(wanted)) => number == wanted,
        (Elem::Raw(bytes), Want::Raw(wanted)) => bytes.as_slice() == *wanted,
        _ => false,
    }
}

// Whether an answer, with the values that were left, is the one that is wanted.
fn is_answer(got: &Result<(), RowFault>, values: &KeyList, wanted: Result<&[Want], u8>) -> bool {
    match (got, wanted) {
        (Ok(()), Ok(wanted)) => {
            values.len() == wanted.len()
                && values
                    .as_slice()
                    .iter()
                    .zip(wanted.iter())
                    .all(|(value, want)| is_value(value, want))
        }
        (Err(RowFault::Value { cause }), Err(wanted)) => *cause == wanted,
        _ => false,
    }
}
