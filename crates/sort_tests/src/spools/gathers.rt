ghost use Rattle.std.specs.Prelude.{◌≡◌, ◌≤◌, IfOk};
ghost use Rattle.opclass.specs.Values.{IsElementOf, IsValueOf};
ghost use Rattle.opclass.specs.declared.types.ColType.TheVariants.{Int8, Int8Array, Text, TextArray};
ghost use Rattle.spool.specs.Laws.{HasShortElements, IsShort};

use opclass::{Elem, KeyVal};
use pg_bytes::{Items, RowPtr};
use shared_tape::{Record, Run};
use spool::Gather;
use std::alloc::{AllocError, Global};
use std::process::Abort;
use std::test::Fail;

// A row: its offset, and its array, or None for a null. Elements are numbers, or None for a null.
type Row = (u16, Option<&'static [Option<i64>]>);

// A record: its category and its key, None for a null, and its offset.
type Wanted = (Option<i64>, Option<i64>, u16);

fn number(given: Option<i64>) -> Elem
    ensures typed { IsElementOf Int8 result }
    ensures short { IsShort result }
{
    match given {
        None => Elem::Null,
        Some(number) => Elem::Num(number),
    }
}

fn numbers(alloc: Global, given: &[Option<i64>]) -> Result<KeyVal, AllocError>
    ensures typed { IfOk result (IsValueOf Int8Array) }
    ensures short { IfOk result HasShortElements }
{
    let mut elements = Vec::new(alloc);
    for each in given {
        elements.push(number(*each))?;
    }
    Ok(KeyVal::Items(Items::from_vec(elements)))
}

fn value(alloc: Global, given: Option<&[Option<i64>]>) -> Result<KeyVal, AllocError>
    ensures typed { IfOk result (IsValueOf Int8Array) }
    ensures short { IfOk result HasShortElements }
{
    match given {
        None => Ok(KeyVal::Nil),
        Some(given) => numbers(alloc, given),
    }
}

fn put(gather: &mut Gather, value: &KeyVal, offset: u16) -> Result<(), AllocError>
    requires typed { IsValueOf Int8Array value.now }
    requires short { HasShortElements value.now }
{
    gather.put(value, RowPtr { block: 0, offset })
}

fn is_value(value: &KeyVal, wanted: Option<i64>) -> bool {
    match (value, wanted) {
        (KeyVal::Nil, None) => true,
        (KeyVal::Num(number), Some(wanted)) => *number == wanted,
        _ => false,
    }
}

fn is_wanted(row: &Record, wanted: Wanted) -> bool {
    let (category, key, offset) = wanted;
    let [first, second] = row.keys.as_slice() else {
        return false;
    };
    is_value(first, category)
        && is_value(second, key)
        && row.extra.len() == 0
        && row.ptr.offset == offset
}

fn assert_run(rt: &impl Abort, run: &mut Run, wanted: &[Wanted]) -> Result<(), Fail> {
    for each in wanted {
        let row = run.next()?.ok_or("too few records")?;
        assert!(rt; is_wanted(&row, *each));
    }
    assert!(rt; run.next()?.is_none());
    Ok(())
}

// That the rows come in these runs, where a run has at most so many records.
fn assert_gathered(
    rt: &impl Abort,
    alloc: Global,
    run_rows: u32,
    rows: &[Row],
    wanted: &[&[Wanted]],
) -> Result<(), Fail>
    requires { 1 ≤ run_rows }
{
    let mut gather = Gather::new(alloc, run_rows);
    for (offset, given) in rows {
        put(&mut gather, &value(alloc, *given)?, *offset)?;
    }
    let mut tape = gather.finish()?;
    for records in wanted {
        let mut run = tape.take_run().ok_or("too few runs")?;
        assert_run(rt, &mut run, records)?;
    }
    assert!(rt; tape.take_run().is_none());
    Ok(())
}

// A repeated element, an array without elements, a null, and an array with a null.
static ROWS: [Row; 4] = [
    (1, Some(&[Some(5), Some(5), Some(1)])),
    (2, Some(&[])),
    (3, None),
    (4, Some(&[None, Some(1)])),
];

static IN_ONE_RUN: [&[Wanted]; 1] = [&[
    (None, Some(1), 1),
    (None, Some(1), 4),
    (None, Some(5), 1),
    (Some(1), None, 4),
    (Some(2), None, 2),
    (Some(3), None, 3),
]];

static IN_RUNS_OF_TWO: [&[Wanted]; 3] = [
    &[(None, Some(1), 1), (None, Some(5), 1)],
    &[(Some(2), None, 2), (Some(3), None, 3)],
    &[(None, Some(1), 4), (Some(1), None, 4)],
];

static IN_RUNS_OF_ONE: [&[Wanted]; 6] = [
    &[(None, Some(1), 1)],
    &[(None, Some(5), 1)],
    &[(Some(2), None, 2)],
    &[(Some(3), None, 3)],
    &[(None, Some(1), 4)],
    &[(Some(1), None, 4)],
];

#[test]
fn rows_are_put_once_for_each_entry(rt: HostRuntime) -> Result<(), Fail> {
    let alloc = rt.alloc();
    assert_gathered(&rt, alloc, 6, &ROWS, &IN_ONE_RUN)?;
    assert_gathered(&rt, alloc, 2, &ROWS, &IN_RUNS_OF_TWO)?;
    assert_gathered(&rt, alloc, 1, &ROWS, &IN_RUNS_OF_ONE)?;
    assert_gathered(&rt, alloc, 1, &[], &[])
}
